//! Machines are shipped, stepped and run.
ghost use Rattle.std.specs.Prelude.{◌≡◌, ◌∷◌, [], true, false, Option};
ghost use Rattle.machine.specs.Grants.{all_granted};
ghost use Rattle.debugger.specs.declared.commands.Way.{Way};
ghost use Rattle.world.specs.declared.events.Event.{Event};
ghost use Rattle.world.specs.declared.replies.Reply.{Reply};
ghost use Rattle.bpfagent_c.specs.Codes.{code_of};
ghost use Rattle.bpfagent_c.specs.Commanded.{Commanded};
ghost use Rattle.bpfagent_c.specs.Shown.{shipped_of, refusal_of, grants_of, AreGrants, Steps, Runs, IsWithout};

use crate::codes::{code_of, code_of_end, code_of_step};
use crate::handle::{Agent, give, take};
use crate::numbers::{BAD, NOAGENT, NONE};
use crate::shown::{End, Granted, Refusal, grants_of};
use std::alloc::Global;
use world::{Reply, Start, Way};

/// Makes a machine of code.
fn ship(agent: &mut Agent, alloc: Global, start: Start, code: &[u8]) -> Option<Reply>
    ensures { Commanded agent.old (Event.Ship start code.now) result agent.new }
{
    let mut world = take(agent, alloc)?;
    let reply = world.ship(start, code);
    give(agent, alloc, world);
    Some(reply)
}

/// Writes what a reply says of a machine that was shipped or of code that was refused, and tells its number.
fn tell_shipped(given: &Option<Reply>, machine: &mut usize, refusal: &mut Refusal) -> u32
    ensures number { result ≡ code_of given.now }
    ensures machine { machine.new ≡ shipped_of given.now machine.old }
    ensures refusal { refusal.new ≡ refusal_of given.now refusal.old }
{
    match given {
        Some(Reply::Shipped { machine: number }) => *machine = *number,
        Some(Reply::Refused(error)) => *refusal = Refusal::of(error),
        _ => {}
    }
    code_of(given)
}

/// Makes a machine of code, with R1 to R5 and with fuel. It may reach every object.
#[unsafe(no_mangle)]
pub extern "C" fn bpfagent_ship(
    alloc: Global,
    agent: &mut Agent,
    code: &[u8],
    fuel: u64,
    r1: u64,
    r2: u64,
    r3: u64,
    r4: u64,
    r5: u64,
    machine: &mut usize,
    refusal: &mut Refusal,
) -> u32
    ensures { (given : Option Reply) × Commanded agent.old
        (Event.Ship (record { fuel = fuel; arguments = r1 ∷ r2 ∷ r3 ∷ r4 ∷ r5 ∷ []; grants = all_granted }) code.now) given agent.new
        × (result ≡ code_of given) × (machine.new ≡ shipped_of given machine.old) × (refusal.new ≡ refusal_of given refusal.old) }
{
    let start = Start::new(fuel, [r1, r2, r3, r4, r5]);
    let given = ship(agent, alloc, start, code);
    tell_shipped(&given, machine, refusal)
}

/// The same, of a machine that may reach these objects alone.
#[unsafe(no_mangle)]
pub extern "C" fn bpfagent_ship_granted(
    alloc: Global,
    agent: &mut Agent,
    code: &[u8],
    fuel: u64,
    r1: u64,
    r2: u64,
    r3: u64,
    r4: u64,
    r5: u64,
    granted: &[Granted],
    machine: &mut usize,
    refusal: &mut Refusal,
) -> u32
    ensures replied { AreGrants granted.now → (given : Option Reply)
        × Commanded agent.old (Event.Ship (record { fuel = fuel; arguments = r1 ∷ r2 ∷ r3 ∷ r4 ∷ r5 ∷ []; grants = grants_of granted.now }) code.now) given
        agent.new × (result ≡ code_of given) × (machine.new ≡ shipped_of given machine.old) × (refusal.new ≡ refusal_of given refusal.old) }
    ensures bad { (AreGrants granted.now → ⊥) → (result ≡ BAD) × (agent.new ≡ agent.old) × (machine.new ≡ machine.old) × (refusal.new ≡ refusal.old) }
{
    let Some(grants) = grants_of(granted) else {
        return BAD;
    };
    let start = Start {
        fuel,
        arguments: [r1, r2, r3, r4, r5],
        grants,
    };
    let given = ship(agent, alloc, start, code);
    tell_shipped(&given, machine, refusal)
}

/// Makes one step of a machine.
fn make_step(agent: &mut Agent, alloc: Global, machine: usize, way: Way, end: &mut End) -> u32
    ensures steps { agent.old.live ≡ true → Steps way machine agent.old end.old result agent.new end.new }
    ensures none { agent.old.live ≡ false → IsWithout agent.old end.old result agent.new end.new }
{
    let Some(mut world) = take(agent, alloc) else {
        return NOAGENT;
    };
    let reply = world.step(machine, way);
    give(agent, alloc, world);
    let Some(reply) = reply else {
        return NONE;
    };
    *end = End::of_step(reply);
    code_of_step(reply)
}

/// Makes a step of a machine, or it pauses in its place.
#[unsafe(no_mangle)]
pub extern "C" fn bpfagent_step(
    alloc: Global,
    agent: &mut Agent,
    machine: usize,
    end: &mut End,
) -> u32
    ensures steps { agent.old.live ≡ true → Steps Way.Step machine agent.old end.old result agent.new end.new }
    ensures none { agent.old.live ≡ false → IsWithout agent.old end.old result agent.new end.new }
{
    make_step(agent, alloc, machine, Way::Step, end)
}

/// Makes a step of a machine, paused or not. It is paused after it.
#[unsafe(no_mangle)]
pub extern "C" fn bpfagent_one(
    alloc: Global,
    agent: &mut Agent,
    machine: usize,
    end: &mut End,
) -> u32
    ensures steps { agent.old.live ≡ true → Steps Way.One machine agent.old end.old result agent.new end.new }
    ensures none { agent.old.live ≡ false → IsWithout agent.old end.old result agent.new end.new }
{
    make_step(agent, alloc, machine, Way::One, end)
}

/// Steps a machine until so many instructions ran, or a step is answered otherwise.
#[unsafe(no_mangle)]
pub extern "C" fn bpfagent_run(
    alloc: Global,
    agent: &mut Agent,
    machine: usize,
    n: u64,
    end: &mut End,
) -> u32
    ensures runs { agent.old.live ≡ true → Runs machine n agent.old end.old result agent.new end.new }
    ensures none { agent.old.live ≡ false → IsWithout agent.old end.old result agent.new end.new }
{
    let Some(mut world) = take(agent, alloc) else {
        return NOAGENT;
    };
    let run = world.run_machine(machine, n);
    give(agent, alloc, world);
    let Some(run) = run else {
        return NONE;
    };
    *end = End::of_run(run.ran, run.end);
    code_of_end(run.end)
}
