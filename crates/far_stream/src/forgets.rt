//! Forgets that are kept back, to be sent ahead of a request.
ghost use Rattle.std.specs.Prelude.{◌≡◌, ◌≤◌, ◌<◌, ◌+◌, ◌*◌, ◌++◌, ◌∷◌, [], true, false, length, Result};
ghost use Rattle.arrayvec.specs.ArrayVec.{array_vec_len};
ghost use Rattle.far_stream.specs.Deferring.{ForgetsHear, deferred_limit, forget_frames};

use crate::answers::read_forgotten;
use crate::frame::{FrameKind, HEAD_LENGTH};
use arrayvec::ArrayVec;
use far_store::StoreFault;
use std::io::Read;
use std::marker::Model;
use streams::Line;

/// How many forgets are kept back at most.
pub(crate) const DEFERRED_LIMIT: usize = 64;

/// What those forgets and one more request without bytes take.
pub(crate) const AHEAD_LIMIT: usize = (DEFERRED_LIMIT + 1) * HEAD_LENGTH;

/// The ids of forgets that are kept back, oldest first.
#[derive(Drop)]
pub(crate) struct Forgets {
    ids: ArrayVec<u64, DEFERRED_LIMIT>,
}

impl Model for Forgets {
    ghost use Rattle.std.specs.Prelude.{ℕ, List};

    ghost Value = { List ℕ };

    ghost view = { λ f. f.ids.items };
}

impl Forgets {
    /// None.
    pub fn new() -> Self
        ensures { result ≡ [] }
    {
        Forgets {
            ids: ArrayVec::new(),
        }
    }

    /// Whether there is no room for one more.
    pub fn is_full(&self) -> bool
        ensures yes { result ≡ true → deferred_limit ≤ length self.now }
        ensures no { result ≡ false → length self.now < deferred_limit }
    {
        self.ids.len() >= DEFERRED_LIMIT
    }

    /// Keeps one more back.
    pub fn keep(&mut self, id: u64)
        requires { length self.old < deferred_limit }
        ensures { self.new ≡ self.old ++ id ∷ [] }
    {
        self.ids.push(id);
    }

    /// None any more.
    pub fn clear(&mut self)
        ensures { self.new ≡ [] }
    {
        self.ids.clear();
    }

    /// As they are sent.
    pub fn frames(&self) -> Line<AHEAD_LIMIT>
        ensures items { result.items ≡ forget_frames self.now }
        ensures len { array_vec_len result ≤ 832 }
    {
        let mut frames = Line::new();
        for id in self.ids.as_slice() {
            frames.put(&FrameKind::Forget.head(*id, 0).bytes());
        }
        frames
    }

    /// Reads their answers, up to the first that is a fault. None is kept back any more.
    pub fn hear<R: Read>(&mut self, reader: &mut R) -> Result<(), StoreFault>
        ensures heard { ForgetsHear self.old (R.remaining reader.old) (R.remaining reader.new) result }
        ensures none { self.new ≡ [] }
    {
        let outcome = hear_all(reader, self.ids.as_slice());
        self.ids.clear();
        outcome
    }
}

/// Reads the answers to forgets of these ids, up to the first that is a fault.
fn hear_all<R: Read>(reader: &mut R, ids: &[u64]) -> Result<(), StoreFault>
    ensures { ForgetsHear ids.now (R.remaining reader.old) (R.remaining reader.new) result }
{
    for id in ids {
        read_forgotten(reader, *id)?;
    }
    Ok(())
}
