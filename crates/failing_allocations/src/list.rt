//! A list of commands in one call, and what the world is afterwards.

use crate::first_world::{make, with_machine};
use std::alloc::{AllocError, Global};
use std::io;
use world::{Bytes, Event, MachineCommand, ObjectCommand, Reply, ShowCommand, ShowReply, Way};

/// A command on the object.
fn on_object(command: ObjectCommand) -> Event {
    Event::Object { object: 1, command }
}

/// A command on the machine.
fn on_machine(command: MachineCommand) -> Event {
    Event::Machine {
        machine: 1,
        command,
    }
}

/// Shows the machine's registers.
fn regs() -> Event {
    on_machine(MachineCommand::Show(ShowCommand::Regs))
}

/// Seven commands on that object and that machine.
fn commands(alloc: Global) -> Result<Vec<Event>, AllocError> {
    let bytes = Bytes::new(vec![in alloc; 1u8, 2]?);
    let range = ShowCommand::Stack {
        offset: 0,
        length: 8,
    };
    Ok(vec![in alloc;
        make()?,
        on_object(ObjectCommand::Put { offset: 0, bytes }),
        on_object(ObjectCommand::Get {
            offset: 0,
            length: 8
        }),
        on_machine(MachineCommand::Show(range)),
        on_machine(MachineCommand::Step(Way::Step)),
        on_machine(MachineCommand::Step(Way::Step)),
        regs(),
    ]?)
}

/// Says how the run ended, and shows the machine.
fn show(
    rt: &impl Print,
    ended: Result<(), AllocError>,
    replies: &[Reply],
    machine: Reply,
) -> io::Result<()> {
    let ended = if ended.is_ok() { "done" } else { "refused" };
    let count = replies.len();
    match machine {
        Reply::Shown {
            reply: ShowReply::Registers(shown),
            ..
        } => {
            let slot = shown.slot;
            let fuel = shown.fuel;
            println!(rt; "{ended}, {count} replies, slot {slot}, fuel {fuel}")
        }
        _ => println!(rt; "{ended}, {count} replies, no machine"),
    }
}

/// Says how the list went, or what there wasn't.
pub fn run(rt: &impl Print, alloc: Global) -> io::Result<()> {
    let Ok(mut world) = with_machine(alloc) else {
        return println!(rt; "no world");
    };
    let Ok(events) = commands(alloc) else {
        return println!(rt; "no commands");
    };
    let mut replies = Vec::new(alloc);
    let ended = world.run(events, &mut replies);
    let machine = world.apply(regs());
    show(rt, ended, &replies, machine)
}
