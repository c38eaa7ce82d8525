//! Asking for memory. This module alone can say that it is refused.
ghost use Rattle.std.specs.Prelude.{◌≡◌, ◌≤◌, ◌+◌, ◌-◌, ◌++◌, false, [], length, take, replicate, is_ok, if◌then◌else◌, vec_len, vec_capacity, IfOk, OnOk, OnErr};
ghost use Rattle.far_stream.specs.Refusals.{MemoryIsRefused};

use std::alloc::{AllocError, Global};
use std::sync::atomic::{AtomicU64, Ordering};

/// An empty vector with room for so many items.
#[tactic(auto, unfolding(crate::specs::Refusals::MemoryIsRefused))]
pub(crate) fn with_room<T>(alloc: Global, count: usize) -> Result<Vec<T>, AllocError>
    ensures items { IfOk result (λ v. v.items ≡ []) }
    ensures len { IfOk result (λ v. vec_len v ≡ 0) }
    ensures capacity { IfOk result (λ v. count ≤ vec_capacity v) }
    ensures refused { OnErr result MemoryIsRefused }
{
    Vec::with_capacity(alloc, count)
}

/// Makes room for one more item.
#[tactic(auto, unfolding(crate::specs::Refusals::MemoryIsRefused))]
pub(crate) fn make_room<T>(items: &mut Vec<T>) -> Result<(), AllocError>
    ensures items { items.new.items ≡ items.old.items }
    ensures len { vec_len items.new ≡ vec_len items.old }
    ensures ok { OnOk result (vec_len items.new + 1 ≤ vec_capacity items.new) }
    ensures refused { OnErr result MemoryIsRefused }
{
    items.reserve(1)
}

/// Adds these bytes.
#[tactic(auto, unfolding(crate::specs::Refusals::MemoryIsRefused))]
pub(crate) fn append(bytes: &mut Vec<u8>, more: &[u8]) -> Result<(), AllocError>
    ensures items { OnOk result (bytes.new.items ≡ bytes.old.items ++ more.now) }
    ensures len { OnOk result (vec_len bytes.new ≡ vec_len bytes.old + length more.now) }
    ensures refused { OnErr result MemoryIsRefused }
{
    bytes.extend_from_slice(more)
}

/// Makes it so long, by zeros.
#[tactic(auto, unfolding(crate::specs::Refusals::MemoryIsRefused))]
pub(crate) fn lengthen(bytes: &mut Vec<u8>, count: usize) -> Result<(), AllocError>
    ensures items { bytes.new.items ≡ (if is_ok result then take count bytes.old.items ++ replicate (count - vec_len bytes.old) 0 else bytes.old.items) }
    ensures len { vec_len bytes.new ≡ (if is_ok result then count else vec_len bytes.old) }
    ensures refused { OnErr result MemoryIsRefused }
{
    bytes.resize(count, 0)
}

/// A bound on how many bytes are kept, over all servers that share it.
#[derive(Drop)]
pub struct Budget {
    limit: u64,
    used: AtomicU64,
}

impl Budget {
    /// So many bytes.
    pub fn new(limit: u64) -> Budget {
        Budget {
            limit,
            used: AtomicU64::new(0),
        }
    }

    /// As many as there is memory for.
    pub fn unlimited() -> Budget {
        Budget::new(u64::MAX)
    }

    /// Takes so many bytes of it, if there are as many left.
    #[tactic(auto, unfolding(crate::specs::Refusals::MemoryIsRefused))]
    pub(crate) fn take(&self, count: u64) -> bool
        ensures { result ≡ false → MemoryIsRefused }
    {
        let used = self.used.fetch_add(count, Ordering::SeqCst);
        if used.saturating_add(count) <= self.limit {
            return true;
        }
        self.give_back(count);
        false
    }

    /// Gives so many bytes back that were taken.
    pub(crate) fn give_back(&self, count: u64) {
        self.used.fetch_sub(count, Ordering::SeqCst);
    }
}
