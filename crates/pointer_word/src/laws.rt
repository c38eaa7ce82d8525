//! What follows of the definitions of words, apart from any call.
ghost use Rattle.pointer_word.specs.Laws.{OneNumber, ScopesKeepObjectsHere};

/// Two words of one number are equal.
pub fn one_number()
    ensures { OneNumber }
{}

/// An object on which a scope is open, or whose turn is taken, doesn't leave.
pub fn scopes_keep_objects_here()
    ensures { ScopesKeepObjectsHere }
{}
