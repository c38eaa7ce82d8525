//! Which table it is.
use std::marker::Brand;

/// A name for one table, as a type: what carries it is of that table. A call picks it, once.
pub trait TableName {
    ghost use Rattle.std.specs.Prelude.{Bool, List, ℕ};
    ghost use Rattle.atomic_table.specs.Seated.{TableId};
    ghost use Rattle.machine.specs.MachineState.{MachineState};
    ghost use Rattle.workers.specs.TableNames.{Passage};

    ghost table: { TableId };

    /// The bytes of each object when the table was opened.
    ghost opening: { List (List ℕ) };

    /// The machines that were there when it was opened, in order, from number 1 on.
    ghost starts: { List MachineState };

    /// How many actors' seats were made.
    ghost seats: { ℕ };

    /// Which passages came to pass: which cells were lent with a machine in them, what each lock lent, with what it was left, what the
    /// mover's loop made of its mover, and what each conversation made of its seat. Whoever serves learns it of a cell only by
    /// `Occupied::fact`, of a lock only by taking it and by giving it back, of the loop only by calling `mover`, and of a conversation
    /// only by having it.
    ghost passed: { Passage → Bool };
}

impl TableName for Brand {
    ghost use Rattle.std.specs.Prelude.{[]};
    ghost use Rattle.workers.specs.TableNames.{no_table, each_passed};

    ghost table = { no_table };

    ghost opening = { [] };

    ghost starts = { [] };

    ghost seats = { 0 };

    ghost passed = { each_passed };
}
