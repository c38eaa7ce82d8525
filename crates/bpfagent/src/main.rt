//! The program. All that it does is in the crate `agent`.
#![tactic(auto)]

use agent::{
    Asked, Server, do_task, read_arguments, refuse_arguments, run_service, run_store, show_answer,
};
use std::io::{self, Read, Write};
use std::process::ExitCode;
use std::rt::{Env, Files};
use std::{env, fs};

/// The program's arguments, without its own name.
fn arguments<R: Env + AllocGlobal>(rt: &R) -> io::Result<Vec<String>> {
    Ok(env::args(rt)?.skip(1).collect(rt.alloc())?)
}

const NULL_DEVICE: &str = "/dev/null";

/// Files at the numbers of those standard streams that are closed.
#[derive(Drop)]
struct Held<F> {
    input: Option<F>,
    output: Option<F>,
    errors: Option<F>,
}

/// Opens a file for each standard stream that is closed, which the system gives that stream's number. Otherwise a server's socket
/// would get it, and whoever is at its other end would be read as input, or be sent output. Nothing can be read from the one in
/// the place of the input, and nothing written to the others, so all else is as with a closed stream.
fn hold_closed<R: Files>(
    rt: &R,
    input: &mut impl Read,
    output: &mut impl Write,
    errors: &mut impl Write,
) -> Held<R::File> {
    let input = input.read(&mut []).err();
    let input = input.and_then(|_| fs::create(rt, NULL_DEVICE).ok());
    let output = output.write(&[]).err();
    let output = output.and_then(|_| fs::open(rt, NULL_DEVICE).ok());
    let errors = errors.write(&[]).err();
    let errors = errors.and_then(|_| fs::open(rt, NULL_DEVICE).ok());
    Held {
        input,
        output,
        errors,
    }
}

fn main(rt: HostRuntime) -> ExitCode {
    let mut errors = rt.stderr();
    let arguments = match arguments(&rt) {
        Ok(arguments) => arguments,
        Err(error) => return ExitCode::from(refuse_arguments(&error, &mut errors)),
    };
    let status = match read_arguments(rt.alloc(), arguments.as_slice()) {
        Ok(Asked::Server(server)) => {
            let _held = hold_closed(&rt, &mut rt.stdin(), &mut rt.stdout(), &mut errors);
            match server {
                Server::Store(storing) => run_store(
                    &rt,
                    rt.alloc(),
                    storing,
                    rt.stdin(),
                    &mut rt.stdout(),
                    &mut errors,
                ),
                Server::Serve { serving, far, unix } => run_service(
                    &rt,
                    rt.alloc(),
                    serving,
                    far,
                    unix,
                    &mut rt.stdin(),
                    &mut rt.stdout(),
                    &mut errors,
                ),
            }
        }
        Ok(Asked::Task(task)) => do_task(
            rt.alloc(),
            task,
            &mut rt.stdin(),
            &mut rt.stdout(),
            &mut errors,
        )
        .number(),
        Err(error) => show_answer(rt.alloc(), error, &mut rt.stdout(), &mut errors).number(),
    };
    ExitCode::from(status)
}
