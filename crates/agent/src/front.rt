//! The whole program over its arguments and streams.
ghost use Rattle.std.specs.Prelude.{◌≡◌, ◌≢◌, [], map, Some};
ghost use Rattle.clap.specs.Words.{kind_of};
ghost use Rattle.agent.specs.CommandLine.{faults_of, task_of};
ghost use Rattle.agent.specs.ErrorShown.{Shows, ShowsError, ShowsHelp, ShowsVersion, version_line};
ghost use Rattle.agent.specs.Failures.{status_number};
ghost use Rattle.agent.specs.TaskLeaves.{TaskLeaves, WrongLeaves};

use crate::arguments::{Task, VERSION, read_arguments};
use crate::assembly::{asm, check, dis};
use crate::commands::commands;
use crate::failure::{ExitStatus, Failure};
use crate::reporting::{report, say};
use crate::running::run;
use clap::Error;
use clap::error::ErrorKind;
use std::alloc::Global;
use std::convert::AsStr;
use std::io::{Read, Write};
use streams::{Line, put_all};

/// This text, or another where it is empty: `clap`'s contracts leave the texts of its errors open.
fn some_text(text: &str) -> &[u8]
    ensures some { result.now ≢ [] }
    ensures own { text.now ≢ [] → result.now ≡ text.now }
{
    if text.is_empty() {
        return b"error: invalid arguments\n";
    }
    text.as_bytes()
}

/// Shows help.
fn show_help<W: Write, E: Write>(text: &str, writer: &mut W, errors: &mut E) -> ExitStatus
    ensures { ShowsHelp (W.contents writer.old) (W.contents writer.new) (E.contents errors.old) (E.contents errors.new) result }
{
    match put_all(writer, some_text(text)) {
        Ok(()) => ExitStatus::Done,
        Err(_) => report(Err(Failure::Write), errors),
    }
}

/// The line with the name of the program and its version.
fn version_line() -> Line<32>
    ensures { result.items ≡ version_line }
{
    let mut line = Line::new();
    line.put(b"bpfagent ");
    line.put(VERSION.as_bytes());
    line.end();
    line
}

/// Shows the version.
fn show_version<W: Write, E: Write>(writer: &mut W, errors: &mut E) -> ExitStatus
    ensures { ShowsVersion (W.contents writer.old) (W.contents writer.new) (E.contents errors.old) (E.contents errors.new) result }
{
    match put_all(writer, &version_line()) {
        Ok(()) => ExitStatus::Done,
        Err(_) => report(Err(Failure::Write), errors),
    }
}

/// Says what is wrong with the arguments. What the stream doesn't take of it is lost.
fn show_error<E: Write>(text: &str, errors: &mut E) -> ExitStatus
    ensures { ShowsError (E.contents errors.old) (E.contents errors.new) result }
{
    let _told = say(some_text(text), errors);
    ExitStatus::InvalidArguments
}

/// Answers arguments that ask for no task, and gives the exit status.
///
/// Help and the version go to `writer`. What is wrong with the arguments goes to `errors`, and so do out of memory and a failure of
/// `writer`; what that stream doesn't take is lost.
pub fn show_answer<W: Write, E: Write>(
    alloc: Global,
    error: Error,
    writer: &mut W,
    errors: &mut E,
) -> ExitStatus
    ensures { Shows (kind_of error) (W.contents writer.old) (W.contents writer.new) (E.contents errors.old) (E.contents errors.new) result }
{
    match error.kind() {
        ErrorKind::OutOfMemory => report(Err(Failure::NoMemory), errors),
        ErrorKind::DisplayVersion => show_version(writer, errors),
        ErrorKind::DisplayHelp => match error.to_string(alloc) {
            Ok(text) => show_help(text.as_str(), writer, errors),
            Err(_) => report(Err(Failure::NoMemory), errors),
        },
        _ => match error.to_string(alloc) {
            Ok(text) => show_error(text.as_str(), errors),
            Err(_) => report(Err(Failure::NoMemory), errors),
        },
    }
}

/// Does a task, and gives the exit status.
///
/// The status tells how the task ended, and `errors` why it gave up. For `store` and `serve` it does nothing: who has the network
/// calls [`run_store`](crate::run_store) and [`run_service`](crate::run_service).
pub fn do_task<R: Read, W: Write, E: Write>(
    alloc: Global,
    task: Task,
    reader: &mut R,
    writer: &mut W,
    errors: &mut E,
) -> ExitStatus
    ensures { TaskLeaves task (record {
      input = R.remaining reader.old;
      unread = R.remaining reader.new;
      out_before = W.contents writer.old;
      out_after = W.contents writer.new;
      errors_before = E.contents errors.old;
      errors_after = E.contents errors.new;
    }) (status_number result) }
{
    match task {
        Task::Run { budget } => report(run(alloc, budget, reader, writer), errors),
        Task::Check { explains } => check(alloc, explains, reader, writer, errors),
        Task::Assemble { explains } => asm(alloc, explains, reader, writer, errors),
        Task::Disassemble(showing) => report(dis(alloc, showing, reader, writer), errors),
        Task::Store(_) | Task::Serve(_) => report(Ok(()), errors),
        Task::Commands => report(commands(writer), errors),
    }
}

/// Does what the arguments ask for, which are the program's without its own name, and gives the
/// exit status.
///
/// Each subcommand tells in the status how it ended, and on `errors` why it gave up. Invalid
/// arguments, and those that ask for help, read no input. For `store` and `serve` it does nothing: who
/// has the network calls [`run_store`](crate::run_store) and [`run_service`](crate::run_service).
pub fn tool<'a, S: AsStr, R: Read, W: Write, E: Write>(
    alloc: Global,
    arguments: &'a [S],
    reader: &mut R,
    writer: &mut W,
    errors: &mut E,
) -> u8
    ensures right { (task : Task) → faults_of (map S.text arguments.entry.now) ≡ [] → task_of (map S.text arguments.entry.now) ≡ Some task
        → TaskLeaves task (record {
          input = R.remaining reader.old;
          unread = R.remaining reader.new;
          out_before = W.contents writer.old;
          out_after = W.contents writer.new;
          errors_before = E.contents errors.old;
          errors_after = E.contents errors.new;
        }) result }
    ensures wrong { faults_of (map S.text arguments.entry.now) ≢ []
        → WrongLeaves (faults_of (map S.text arguments.entry.now)) (record {
          input = R.remaining reader.old;
          unread = R.remaining reader.new;
          out_before = W.contents writer.old;
          out_after = W.contents writer.new;
          errors_before = E.contents errors.old;
          errors_after = E.contents errors.new;
        }) result }
{
    match read_arguments(alloc, arguments) {
        Ok(asked) => do_task(alloc, asked.task(), reader, writer, errors).number(),
        Err(error) => show_answer(alloc, error, writer, errors).number(),
    }
}
