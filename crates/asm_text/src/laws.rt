//! What of a line makes no difference to its tokens.
ghost use Rattle.asm_text.specs.Laws.{TokensPart, MarksPart, BlanksDontMatter, CommentsDontMatter, HexCaseDoesntMatter};

/// A word ends where a byte stands that can't be in it.
pub fn tokens_part()
    ensures { TokensPart }
{}

/// A mark is a token by itself, whatever stands on its sides, with blanks or without.
pub fn marks_part()
    ensures { MarksPart }
{}

/// Where one blank stands, more of them make no difference; nor do those at a line's ends.
pub fn blanks_dont_matter()
    ensures { BlanksDontMatter }
{}

/// A comment makes no difference, unless it isn't ASCII.
pub fn comments_dont_matter()
    ensures { CommentsDontMatter }
{}

/// Hex digits of the same values are the same number, whatever their letter case.
pub fn hex_case_doesnt_matter()
    ensures { HexCaseDoesntMatter }
{}
