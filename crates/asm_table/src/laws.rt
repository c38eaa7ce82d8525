//! Laws of the table.
ghost use Rattle.asm_table.specs.Laws.{PartsAreExact, NamesAreExact, RegistersAreExact};

/// An instruction is built from its own parts, and what is built of parts has them.
pub fn parts_are_exact()
    ensures { PartsAreExact }
{}

/// A mnemonic of one word is found by its own name alone.
pub fn names_are_exact()
    ensures { NamesAreExact }
{}

/// A register is found by its own name alone.
pub fn registers_are_exact()
    ensures { RegistersAreExact }
{}
