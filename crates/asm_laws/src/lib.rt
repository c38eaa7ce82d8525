//! Assembler and disassembler are each other's inverse on valid code, and so are the subcommands.
#![tactic(auto)]

ghost use Rattle.asm_laws.specs.Inverse.{TextMeansCode, TextFits, SpelledIsShown};
ghost use Rattle.asm_laws.specs.Subcommands.{TextIsAssembled, AssembledIsShown};

/// The text of a program assembles to its code; since a text has one meaning, to no other.
pub fn program_text_means_its_code()
    ensures { TextMeansCode }
{}

/// The text of a program is as short as an assembler's input may be, and is ASCII, so that it is the same as UTF-8.
pub fn program_text_fits()
    ensures { TextFits }
{}

/// Of the code that a text assembles to, what is shown is the canonical spelling of what the text spells.
pub fn spelled_code_is_shown()
    ensures { SpelledIsShown }
{}

/// `asm` makes of the text of a program its bytes, and finds nothing wrong with it.
pub fn program_text_is_assembled()
    ensures { TextIsAssembled }
{}

/// `dis` makes of what `asm` gives the canonical spelling of what was assembled.
pub fn assembled_code_is_shown()
    ensures { AssembledIsShown }
{}
