ghost use Rattle.std.specs.Prelude.{◌≡◌, IfOk};
ghost use Rattle.context_laws.specs.Contexts.{LeadFromStates};
ghost use Rattle.node_store.specs.Chunks.{store_of};
ghost use Rattle.arrow_table.specs.Looks.{Grows};
ghost use Rattle.segment_parser.specs.Standing.{HasMaps, piece_in};
ghost use Rattle.stack_join.specs.Putting.{HasLast};
ghost use Rattle.segment_parser.specs.Numbers.{AllStand};

use arrow_table::Arrows;
use lr_base::NoMemory;
use node_store::Store;
use piece_blocks::Block;
use segment_parser::{Leaf, enter};
use std::alloc::Global;

/// The last closed piece of a block, opened again: the maps over its entries are walked anew. Its last floor is the open one's.
pub fn reopen(
    alloc: Global,
    arrows: &mut Arrows<'_>,
    store: &Store,
    mut block: Block,
) -> Result<Leaf, NoMemory>
    requires lead { LeadFromStates arrows.old.0 }
    requires last { HasLast arrows.old.0 (store_of store.now) block.closed }
    ensures tables { arrows.new.0 ≡ arrows.old.0 }
    ensures base { arrows.new.2 ≡ arrows.old.2 }
    ensures grows { Grows arrows.old.1 arrows.new.1 }
    ensures stand { IfOk result (AllStand arrows.new.2) }
    ensures stale { IfOk result (λ leaf. leaf.stale ≡ 0) }
    ensures has { IfOk result (HasMaps arrows.new.1) }
    ensures opened { IfOk result (λ leaf. (last : HasLast arrows.old.0 (store_of store.now) block.closed)
        → (leaf.block.closed ≡ last.others) × (piece_in arrows.new.1 leaf ≡ last.last)) }
{
    let extent = block.reopen();
    let floor = block.pop_floor();
    let (opened, starts, faults) = floor.into_parts();
    let starts = arrows.add(starts)?;
    let own = arrows.identity(alloc, starts)?;
    let ids = enter(alloc, arrows, store, own, block.open_list())?;
    Ok(Leaf {
        block,
        ids,
        faults,
        opened,
        starts,
        own,
        stale: 0,
        first: extent.first,
        count: extent.count,
    })
}
