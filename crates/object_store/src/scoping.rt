//! Which objects the windows hold.
ghost use Rattle.std.specs.Prelude.{◌≡◌, ◌<◌, ◌≤◌, [], false, length, map, set, get_or, Some, IfSome};
ghost use Rattle.scopes.specs.Windows.{holds, noted, pushed_out, window_count};
ghost use Rattle.object_store.specs.Stores.{window_of};
ghost use Rattle.object_store.specs.Bodies.{CountsHold, IsCounted, grown, lessened, bytes_in, place_in, scopes_in, sent_in};

use crate::bodies::ObjectBody;
use far_store::FarStore;
use scopes::Window;

#[inline(always)]
fn open_scope<F: FarStore>(bodies: &mut [ObjectBody<F>], number: usize)
    requires object { number < length bodies.old }
    requires fits { get_or (map scopes_in bodies.old) number 0 < 255 }
    ensures { IsCounted bodies.old (grown number (map scopes_in bodies.old)) bodies.new }
{
    bodies[number].open_scope();
}

#[inline(always)]
fn end_scope<F: FarStore>(bodies: &mut [ObjectBody<F>], number: usize)
    requires object { number < length bodies.old }
    requires held { 0 < get_or (map scopes_in bodies.old) number 0 }
    ensures { IsCounted bodies.old (lessened (Some number) (map scopes_in bodies.old)) bodies.new }
{
    bodies[number].close_scope();
}

#[tactic(auto, using(crate::proofs::Counting::below_counts))]
#[inline(always)]
fn end_pushed<F: FarStore>(bodies: &mut [ObjectBody<F>], out: Option<u32>)
    requires held { IfSome out (λ n. 0 < get_or (map scopes_in bodies.old) n 0) }
    ensures { IsCounted bodies.old (lessened out (map scopes_in bodies.old)) bodies.new }
{
    if let Some(number) = out {
        end_scope(bodies, number as usize);
    }
}

/// Notes a number in the window of a machine. Mostly it is held already, and then there is no call.
#[inline(always)]
pub fn note<F: FarStore>(
    bodies: &mut [ObjectBody<F>],
    windows: &mut [Window],
    who: usize,
    number: u32,
)
    requires machine { (who < length windows.old) × (length windows.old ≤ window_count) }
    requires object { number < length bodies.old }
    requires counts { CountsHold (map scopes_in bodies.old) windows.old }
    ensures counts { CountsHold (map scopes_in bodies.new) windows.new }
    ensures windows { windows.new ≡ set windows.old who (noted number (window_of windows.old who)) }
    ensures bytes { map bytes_in bodies.new ≡ map bytes_in bodies.old }
    ensures places { map place_in bodies.new ≡ map place_in bodies.old }
    ensures sent { map sent_in bodies.new ≡ map sent_in bodies.old }
{
    let window = &mut windows[who];
    if window.holds(number) {
        return;
    }
    note_new(bodies, window, number);
}

/// Notes a number that a window doesn't hold, and counts it in place of the one that it pushes out.
#[cold]
#[inline(never)]
fn note_new<F: FarStore>(bodies: &mut [ObjectBody<F>], window: &mut Window, number: u32)
    requires object { number < length bodies.old }
    requires new { holds number window.old ≡ false }
    requires held { IfSome (pushed_out number window.old) (λ n. 0 < get_or (map scopes_in bodies.old) n 0) }
    requires fits { get_or (lessened (pushed_out number window.old) (map scopes_in bodies.old)) number 0 < 255 }
    ensures window { window.new ≡ noted number window.old }
    ensures counted { IsCounted bodies.old (grown number (lessened (pushed_out number window.old) (map scopes_in bodies.old))) bodies.new }
{
    let out = window.note_new(number);
    end_pushed(bodies, out);
    open_scope(bodies, number as usize);
}

/// Closes all scopes of a machine.
pub fn close<F: FarStore>(bodies: &mut [ObjectBody<F>], windows: &mut [Window], who: usize)
    requires machine { who < length windows.old }
    requires counts { CountsHold (map scopes_in bodies.old) windows.old }
    ensures counts { CountsHold (map scopes_in bodies.new) windows.new }
    ensures windows { windows.new ≡ set windows.old who [] }
    ensures bytes { map bytes_in bodies.new ≡ map bytes_in bodies.old }
    ensures places { map place_in bodies.new ≡ map place_in bodies.old }
    ensures sent { map sent_in bodies.new ≡ map sent_in bodies.old }
{
    while let Some(number) = windows[who].pop() {
        end_scope(bodies, number as usize);
    }
}
