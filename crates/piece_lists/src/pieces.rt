ghost use Rattle.std.specs.Prelude.{◌≡◌, IfOk};
ghost use Rattle.piece_lists.specs.Lists.{pieces_in};

use crate::part::Part;
use lr_base::NoMemory;
use node_store::Store;
use piece_blocks::Block;
use std::alloc::Global;
use std::marker::Model;

/// A list of pieces, and the store that has their nodes. Contracts see the pieces without the maps of their entries, and the
/// chunks of the store. The pieces stand in parts, so that lists are joined without a look at what isn't at the seam.
#[derive(Debug, Drop)]
pub struct Pieces {
    parts: Vec<Part>,
    store: Store,
}

impl Model for Pieces {
    ghost use Rattle.piece_lists.specs.Lists.{Stored, pieces_in};

    ghost Value = { Stored };

    ghost view = { λ s. record { closed = pieces_in s.parts.items; store = s.store } };
}

impl Pieces {
    /// The closed pieces of a block, whose nodes stand in a store.
    pub fn new(alloc: Global, block: Block, store: Store) -> Result<Pieces, NoMemory>
        ensures { IfOk result (λ pieces. pieces ≡ record { closed = block.closed; store = store }) }
    {
        let mut parts = Vec::new(alloc);
        parts.push(Part { block, skipped: 0 })?;
        Ok(Pieces { parts, store })
    }

    /// The pieces of parts, whose nodes stand in a store.
    pub fn of_parts(parts: Vec<Part>, store: Store) -> Pieces
        ensures { result ≡ record { closed = pieces_in parts.items; store = store } }
    {
        Pieces { parts, store }
    }

    /// The parts and the store.
    pub fn into_parts(self) -> (Vec<Part>, Store)
        ensures { self ≡ record { closed = pieces_in result.0.items; store = result.1 } }
    {
        (self.parts, self.store)
    }
}
