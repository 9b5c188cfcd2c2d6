ghost use Rattle.std.specs.Prelude.{◌≡◌, ℕ, ◌+◌, ◌++◌, ◌^◌, ◌<◌, [], OnOk};
ghost use Rattle.lawful_theory.specs.Lawful.{IsLawful};
ghost use Rattle.context_laws.specs.Contexts.{LeadFromStates};
ghost use Rattle.piece_theory.specs.Pieces.{kids_of};
ghost use Rattle.node_store.specs.Chunks.{store_of};
ghost use Rattle.arrow_table.specs.Looks.{Grows};
ghost use Rattle.stack_join.specs.Joining.{IsLanding, IsPiled, Met};
ghost use Rattle.segment_parser.specs.Numbers.{AllStand};

use crate::carrying::over;
use arrow_table::Arrows;
use lr_base::NoMemory;
use node_store::{PackedKid, Store};
use piece_blocks::Block;
use segment_parser::{Leaf, enter};
use std::alloc::Global;

/// The open piece of a block gets these kids behind its own.
fn push_all(block: &mut Block, kids: &[PackedKid]) -> Result<(), NoMemory>
    ensures kids { OnOk result (block.new.kids ≡ block.old.kids ++ kids.now) }
    ensures floors { OnOk result (block.new.floors ≡ block.old.floors) }
    ensures closed { OnOk result (block.new.closed ≡ block.old.closed) }
{
    for kid in kids {
        block.push_kid(*kid)?;
    }
    Ok(())
}

/// The entries of the next piece, which has so many tokens, are put on the open piece, with the maps to which the tables lead
/// along their symbols.
pub fn push_kids(
    leaf: &mut Leaf,
    alloc: Global,
    arrows: &mut Arrows<'_>,
    store: &Store,
    tokens: u32,
    kids: &[PackedKid],
) -> Result<(), NoMemory>
    requires lawful { IsLawful arrows.old.0 }
    requires lead { LeadFromStates arrows.old.0 }
    requires few { leaf.old.count + tokens < 2 ^ 32 }
    requires at { (met : Met) × IsLanding arrows.old.0 met (store_of store.now) arrows.old.1 leaf.old []
        × (kids.now ≡ kids_of met.right.stack) × (tokens ≡ met.right.count) }
    requires stand { AllStand arrows.old.2 leaf.old }
    ensures tables { arrows.new.0 ≡ arrows.old.0 }
    ensures base { arrows.new.2 ≡ arrows.old.2 }
    ensures grows { Grows arrows.old.1 arrows.new.1 }
    ensures stand { OnOk result (AllStand arrows.new.2 leaf.new) }
    ensures closed { OnOk result (leaf.new.block.closed ≡ leaf.old.block.closed) }
    ensures at { OnOk result ((met : Met) → IsLanding arrows.old.0 met (store_of store.now) arrows.old.1 leaf.old []
        → kids.now ≡ kids_of met.right.stack → tokens ≡ met.right.count
        → IsPiled arrows.old.0 met (store_of store.now) arrows.new.1 leaf.new) }
{
    let mut ids = enter(alloc, arrows, store, over(leaf), kids)?;
    push_all(&mut leaf.block, kids)?;
    leaf.ids.append(&mut ids)?;
    leaf.count += tokens;
    Ok(())
}
