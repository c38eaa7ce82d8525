//! One conversation, and what is left of it when a device fails.

use console::{Console, DriveFault, drive};
use far_store::{FarStore, OwnStore};
use std::alloc::{AllocError, Global};
use std::io::{Read, Write};
use std::test::Fail;
use test_devices::Pieces;
use world::{Event, MachineCommand, ObjectCommand, Reply, ShowCommand, ShowReply, World};

/// An object, and a machine that puts 7 into R0 and ends, in seven commands.
pub const INPUT: &[u8] =
    b"make 8\nput 1 2 0Aff\nget 1 1 4\nship 10 0 0 0 0 0 b7000000070000009500000000000000\nstep 1\nstep 1\nout 1\n";

/// What they are answered.
pub const OUTPUT: &[u8] =
    b"made 1\nok\nbytes 000aff00\nshipped 1\nran 1 1\nstopped 1 exit 0000000000000007\nout 1\n";

/// An agent and its console.
#[derive(Drop)]
pub struct Agent<F: FarStore> {
    pub world: World<F>,
    pub console: Console,
}

impl<F: FarStore> Agent<F> {
    /// Answers a conversation, and says how it ends.
    pub fn hear<R: Read, W: Write>(
        &mut self,
        reader: &mut R,
        writer: &mut W,
    ) -> Result<(), DriveFault> {
        drive(reader, writer, &mut self.console, &mut self.world)
    }

    /// Whether the console holds the beginning of a line, and whether a whole one waits.
    pub fn holds(&mut self) -> [bool; 2] {
        let rest = self.console.rest();
        [rest, self.console.next_command().is_some()]
    }
}

/// An agent without machines and objects, which keeps those that leave by itself.
pub fn new_agent(alloc: Global) -> Result<Agent<OwnStore>, AllocError> {
    Ok(Agent {
        world: World::new(alloc, 67_108_864, OwnStore::new(alloc))?,
        console: Console::new(alloc)?,
    })
}

/// How many bytes were told, if they are the first of this text.
pub fn told_of(told: &[u8], text: &[u8]) -> Option<usize> {
    text.starts_with(told).then_some(told.len())
}

/// The first lines of a text.
pub fn first_lines(text: &[u8], lines: usize) -> &[u8] {
    let mut seen = 0usize;
    for i in 0..text.len() {
        if seen == lines {
            return &text[..i];
        }
        if text[i] == b'\n' {
            seen = seen.saturating_add(1);
        }
    }
    text
}

/// How many lines of a text are ended.
pub fn count_lines(text: &[u8]) -> usize {
    text.iter().filter(|b| **b == b'\n').count()
}

/// How many of the first two commands are done, by two bytes of the object.
fn count_first_done(reply: &Reply) -> usize {
    match reply {
        Reply::Bytes(bytes) => if bytes.as_slice() == [10, 255].as_slice() {
            2
        } else {
            1
        },
        _ => 0,
    }
}

/// Shows the machine.
fn regs() -> Event {
    Event::Machine {
        machine: 1,
        command: MachineCommand::Show(ShowCommand::Regs),
    }
}

/// Shows two bytes of the object.
fn get() -> Event {
    let command = ObjectCommand::Get {
        offset: 2,
        length: 2,
    };
    Event::Object { object: 1, command }
}

/// How many of the seven commands are done.
pub fn count_done(world: &mut World<OwnStore>) -> usize {
    let fuel = match world.apply(regs()) {
        Reply::Shown {
            reply: ShowReply::Registers(shown),
            ..
        } => shown.fuel,
        _ => 11,
    };
    match fuel {
        8 => 6,
        9 => 5,
        10 => 4,
        _ => count_first_done(&world.apply(get())),
    }
}

/// How many commands change the world up to and with that many of the seven: `get` and `out` change nothing.
pub fn seen_done(commands: usize) -> usize {
    match commands {
        3 => 2,
        7 => 6,
        n => n,
    }
}

/// What a fresh agent answers to this input, so many bytes at a time.
pub fn answers(alloc: Global, input: &[u8], size: usize) -> Result<Vec<u8>, Fail> {
    let mut agent = new_agent(alloc)?;
    let mut out = Vec::new(alloc);
    agent.hear(&mut Pieces::new(input, size), &mut out)?;
    Ok(out)
}
