//! `commands`: the table of commands out.
ghost use Rattle.agent.specs.CommandsLeaves.{CommandsLeaves};

use crate::failure::Failure;
use console::command_table;
use std::io::Write;
use streams::put_all;

/// Writes a line for each command of `run`.
pub(crate) fn commands<W: Write>(writer: &mut W) -> Result<(), Failure>
    ensures { CommandsLeaves (W.contents writer.old) (W.contents writer.new) result }
{
    put_all(writer, &command_table())?;
    Ok(())
}
