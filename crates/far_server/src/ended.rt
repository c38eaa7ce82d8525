//! How a client's conversation ended. This module alone can say so.
ghost use Rattle.std.specs.Prelude.{◌≡◌};
ghost use Rattle.far_stream.specs.Conversations.{Converses};
ghost use Rattle.far_server.specs.Told.{TellsEnd};

use crate::texts::tell;
use far_stream::{Budget, StreamFault, serve_store_within};
use std::alloc::Global;
use std::io::{Read, Write};

/// How the conversation of the client of a number ended. It can be told once.
#[derive(Drop, Debug, PartialEq, Eq)]
pub(crate) struct ClientEnd {
    client: u64,
    outcome: Result<(), StreamFault>,
}

impl ClientEnd {
    /// Serves the client of this number to its end, from a store that is empty at first, within this budget.
    pub fn of_client<S: Read + Write>(
        alloc: Global,
        client: u64,
        stream: &mut S,
        budget: &Budget,
    ) -> ClientEnd
        ensures client { result.client ≡ client }
        ensures served { Converses S.remaining S.contents stream.old result.outcome stream.new }
    {
        let outcome = serve_store_within(alloc, stream, budget);
        ClientEnd { client, outcome }
    }

    /// How it ended.
    pub fn outcome(&self) -> Result<(), StreamFault>
        ensures { result ≡ self.now.outcome }
    {
        self.outcome
    }

    /// Says why the client was given up, if it was. What the stream doesn't take of the line is lost.
    pub fn tell<E: Write>(self, errors: &mut E)
        ensures { TellsEnd self.client self.outcome (E.contents errors.old) (E.contents errors.new) }
    {
        if let Err(fault) = self.outcome {
            tell(self.client, fault, errors);
        }
    }
}
