//! What all connections share.
ghost use Rattle.std.specs.Prelude.{◌≡◌, length};
ghost use Rattle.scopes.specs.Windows.{machine_limit};

use crate::serving::Conversations;
use far_store::FarStore;
use workers::{Pool, TableName};

/// The agent that connections share: a pool with a cell for each machine that there may be.
#[derive(Drop)]
pub struct Agent<F: FarStore, K: TableName> {
    pool: Pool<F, K>,
    conversations: Conversations<K>,
    pub ghost whole: { length pool.cells.items ≡ machine_limit },
}

impl<F: FarStore, K: TableName> Agent<F, K> {
    /// One over this pool.
    pub fn new(pool: Pool<F, K>) -> Self
        requires { length pool.cells.items ≡ machine_limit }
        ensures { result.pool ≡ pool }
    {
        Agent {
            pool,
            conversations: Conversations::new(),
        }
    }

    /// The pool.
    pub fn pool(&self) -> &Pool<F, K>
        ensures { result.now ≡ self.now.pool }
    {
        &self.pool
    }

    /// What says that conversations were held.
    pub(crate) fn conversations(&self) -> &Conversations<K> {
        &self.conversations
    }

    /// Gives the pool back.
    pub fn into_pool(self) -> Pool<F, K>
        ensures { result ≡ self.pool }
    {
        let Agent {
            pool,
            conversations: _,
        } = self;
        pool
    }
}
