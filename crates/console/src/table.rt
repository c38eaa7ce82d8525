//! The table of commands as a text, for who writes a client.
ghost use Rattle.std.specs.Prelude.{◌≡◌, ◌≤◌, ◌+◌, ◌*◌, ◌++◌, length, flat_map};
ghost use Rattle.arrayvec.specs.ArrayVec.{array_vec_len};
ghost use Rattle.console.specs.Commands.{bytes_text, command_line, command_lines, grants_text, limits_text};

use crate::kind::{KINDS, Kind, Limits};
use streams::Line;

/// The most bytes of the line of a command: a name, six numbers with their limits, bytes, grants and the line end.
const ROW_LIMIT: usize = 300;

/// Room for the lines of 27 commands.
pub const TABLE_LIMIT: usize = 8_100;

/// The lines of the table.
pub type CommandTable = Line<TABLE_LIMIT>;

/// Adds what a number may be.
fn put_limits(table: &mut CommandTable, limits: Limits)
    requires { array_vec_len table.old + 42 ≤ TABLE_LIMIT }
    ensures text { table.new.items ≡ table.old.items ++ limits_text limits }
    ensures short { array_vec_len table.new ≤ array_vec_len table.old + 42 }
{
    table.put(b" ");
    table.put_decimal(limits.least);
    table.put(b"-");
    table.put_decimal(limits.most);
}

/// Adds what each of the numbers may be.
fn put_numbers(table: &mut CommandTable, numbers: &[Limits])
    requires { array_vec_len table.old + 42 * length numbers.now ≤ TABLE_LIMIT }
    ensures text { table.new.items ≡ table.old.items ++ flat_map limits_text numbers.now }
    ensures short { array_vec_len table.new ≤ array_vec_len table.old + 42 * length numbers.now }
{
    for limits in numbers {
        put_limits(table, *limits);
    }
}

/// Adds how many bytes may come, where some have to.
fn put_bytes(table: &mut CommandTable, bytes: Option<usize>)
    requires { array_vec_len table.old + 27 ≤ TABLE_LIMIT }
    ensures text { table.new.items ≡ table.old.items ++ bytes_text bytes }
    ensures short { array_vec_len table.new ≤ array_vec_len table.old + 27 }
{
    if let Some(most) = bytes {
        table.put(b" bytes-");
        table.put_decimal(most);
    }
}

/// Adds that words that grant objects may come last, where they may.
fn put_grants(table: &mut CommandTable, takes_grants: bool)
    requires { array_vec_len table.old + 7 ≤ TABLE_LIMIT }
    ensures text { table.new.items ≡ table.old.items ++ grants_text takes_grants }
    ensures short { array_vec_len table.new ≤ array_vec_len table.old + 7 }
{
    if takes_grants {
        table.put(b" grants");
    }
}

/// Adds the line of a kind of command.
fn put_kind(table: &mut CommandTable, kind: Kind)
    requires { array_vec_len table.old + ROW_LIMIT ≤ TABLE_LIMIT }
    ensures text { table.new.items ≡ table.old.items ++ command_line kind }
    ensures short { array_vec_len table.new ≤ array_vec_len table.old + ROW_LIMIT }
{
    table.put(kind.name());
    put_numbers(table, kind.numbers());
    put_bytes(table, kind.bytes());
    put_grants(table, kind.takes_grants());
    table.end();
}

/// Adds the lines of these kinds.
fn put_kinds(table: &mut CommandTable, kinds: &[Kind])
    requires { array_vec_len table.old + ROW_LIMIT * length kinds.now ≤ TABLE_LIMIT }
    ensures { table.new.items ≡ table.old.items ++ flat_map command_line kinds.now }
{
    for kind in kinds {
        put_kind(table, *kind);
    }
}

/// A line for each command.
pub fn command_table() -> CommandTable
    ensures { result.items ≡ command_lines }
{
    let mut table = CommandTable::new();
    put_kinds(&mut table, KINDS);
    table
}
