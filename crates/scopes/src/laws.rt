//! What the rule of windows promises.
ghost use Rattle.scopes.specs.Laws.{NotingAgainChangesNothing, NotingKeepsTheNewest, WindowsStayWindows};

/// A number that is noted is held then, and noting it again changes nothing and pushes nothing out.
pub fn noting_again_changes_nothing()
    ensures { NotingAgainChangesNothing }
{}

/// A number that is pushed out was held, is held no more, and every other stays.
pub fn noting_keeps_the_newest()
    ensures { NotingKeepsTheNewest }
{}

/// At most four distinct numbers, after noting too.
pub fn windows_stay_windows()
    ensures { WindowsStayWindows }
{}
