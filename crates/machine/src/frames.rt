//! The calls that are open.
ghost use Rattle.std.specs.Prelude.{◌≡◌, ◌<◌, ◌≤◌, ◌++◌, ◌∷◌, [], length, IsSome, ◌↔◌};
ghost use Rattle.std.specs.Option.{option_to_list};
ghost use Rattle.machine.specs.MachineState.{depth_limit};

use crate::state::{DEPTH_LIMIT, Frame};
use std::marker::Model;

/// What the open calls keep, the oldest first. That of a call which has ended stays in its cell until another call takes it: to
/// clear it would take as long as half a return.
#[derive(Drop)]
pub(crate) struct Frames {
    cells: [Frame; DEPTH_LIMIT],
    depth: usize,
}

impl Model for Frames {
    ghost use Rattle.std.specs.Prelude.{List, length, take, ◌≡◌, ◌≤◌};
    ghost use Rattle.machine.specs.declared.state.Frame.{Frame};
    ghost use Rattle.machine.specs.MachineState.{depth_limit};

    ghost Value = { List Frame };

    ghost view = { λ f. take f.depth f.cells };

    ghost invariant = { λ f. (f.depth ≤ depth_limit) × (length f.cells ≡ depth_limit) };
}

impl Frames {
    /// No call is open.
    pub(crate) fn new() -> Self
        ensures { result ≡ [] }
    {
        Frames {
            cells: [Frame::default(); DEPTH_LIMIT],
            depth: 0,
        }
    }

    /// How many calls are open.
    #[inline(always)]
    pub(crate) fn len(&self) -> usize
        ensures value { result ≡ length self.now }
        ensures limit { result ≤ depth_limit }
    {
        self.depth
    }

    /// What the open calls keep.
    pub(crate) fn as_slice(&self) -> &[Frame]
        ensures { result.now ≡ self.now }
    {
        &self.cells[..self.depth]
    }

    /// Opens a call.
    #[inline(always)]
    pub(crate) fn push(&mut self, frame: Frame)
        requires { length self.old < depth_limit }
        ensures { self.new ≡ self.old ++ frame ∷ [] }
    {
        self.cells[self.depth] = frame;
        self.depth += 1;
    }

    /// Ends the newest call, if one is open.
    #[inline(always)]
    pub(crate) fn pop(&mut self) -> Option<Frame>
        ensures items { self.old ≡ self.new ++ option_to_list result }
        ensures some { IsSome result ↔ (0 < length self.old) }
    {
        if self.depth == 0 {
            return None;
        }
        let last = self.depth - 1;
        self.depth = last;
        Some(self.cells[last])
    }
}
