ghost use Rattle.std.specs.Prelude.{◌≡◌, ◌≤◌, ◌++◌, ◌∷◌, [], List, IfOk, OnOk, length};
ghost use Rattle.lr_base.specs.declared.limits.TheConstants.{TEXT_BYTES};
ghost use Rattle.grammar_data.specs.declared.token.Token.{Token as TextToken};
ghost use Rattle.lawful_theory.specs.Lawful.{IsLawful};
ghost use Rattle.context_laws.specs.Contexts.{LeadFromStates};
ghost use Rattle.use_theory.specs.Kept.{IsKept};
ghost use Rattle.piece_theory.specs.Pieces.{Piece};
ghost use Rattle.bare_theory.specs.Bare.{Bare, bare, bares};
ghost use Rattle.node_store.specs.Chunks.{HasChunk, numbers_in, store_of};
ghost use Rattle.arrow_table.specs.Looks.{Grows};
ghost use Rattle.piece_lists.specs.Lists.{pieces_in, pieces_of};
ghost use Rattle.seam_theory.specs.Seams.{IsSeam};
ghost use Rattle.stack_join.specs.Joining.{IsAtSeam};
ghost use Rattle.stack_join.specs.Putting.{AreAbsorbed, AreAllPut, IsPartPut};
ghost use Rattle.segment_parser.specs.Numbers.{AllStand};

use crate::entering::reopen;
use crate::putting::put;
use arrow_table::Arrows;
use lr_base::NoMemory;
use node_store::Store;
use piece_blocks::Block;
use piece_lists::Part;
use segment_parser::Leaf;
use std::alloc::Global;

/// Puts pieces of a part on the open piece, as long as its states agree on their first tokens: whether all are put on.
pub fn absorb_part(
    leaf: &mut Leaf,
    alloc: Global,
    arrows: &mut Arrows<'_>,
    store: &mut Store,
    chunk: u32,
    part: &mut Part,
) -> Result<bool, NoMemory>
    requires lawful { IsLawful arrows.old.0 }
    requires lead { LeadFromStates arrows.old.0 }
    requires chunk { HasChunk store.old chunk }
    requires at { (front : List Piece) × (pieces : List Piece) × (rest : List Piece) × (w : List TextToken)
        × (length w ≤ TEXT_BYTES) × (bares pieces ≡ pieces_of part.old)
        × IsAtSeam arrows.old.0 (store_of store.old) arrows.old.1 leaf.old front (pieces ++ rest) w }
    requires stand { AllStand arrows.old.2 leaf.old }
    ensures tables { arrows.new.0 ≡ arrows.old.0 }
    ensures base { arrows.new.2 ≡ arrows.old.2 }
    ensures grows { Grows arrows.old.1 arrows.new.1 }
    ensures stand { OnOk result (AllStand arrows.new.2 leaf.new) }
    ensures chunks { OnOk result (numbers_in store.new ≡ numbers_in store.old) }
    ensures closed { OnOk result (leaf.new.block.closed ≡ leaf.old.block.closed) }
    ensures kept { OnOk result (IsKept (store_of store.old) (store_of store.new)) }
    ensures at { IfOk result (λ whole. (front pieces rest : List Piece) (w : List TextToken)
        → bares pieces ≡ pieces_of part.old
        → IsAtSeam arrows.old.0 (store_of store.old) arrows.old.1 leaf.old front (pieces ++ rest) w
        → IsPartPut arrows.old.0 (store_of store.new) arrows.new.1 leaf.new front rest w part.new whole) }
{
    for index in part.skipped..part.block.count() {
        let block = &part.block;
        let is_put = put(
            leaf,
            alloc,
            arrows,
            store,
            chunk,
            &block.first(index),
            block.tokens(index),
            block.floors(index),
            block.kids(index),
        )?;
        if !is_put {
            return Ok(false);
        }
        part.skipped = index + 1;
    }
    Ok(true)
}

/// Puts pieces of parts on the open piece, as long as its states agree on their first tokens. The parts keep those that are left.
fn absorb_all(
    leaf: &mut Leaf,
    alloc: Global,
    arrows: &mut Arrows<'_>,
    store: &mut Store,
    chunk: u32,
    parts: &mut [Part],
) -> Result<(), NoMemory>
    requires lawful { IsLawful arrows.old.0 }
    requires lead { LeadFromStates arrows.old.0 }
    requires chunk { HasChunk store.old chunk }
    requires at { (front : List Piece) × (rest : List Piece) × (w : List TextToken)
        × (length w ≤ TEXT_BYTES) × (bares rest ≡ pieces_in parts.old)
        × IsAtSeam arrows.old.0 (store_of store.old) arrows.old.1 leaf.old front rest w }
    requires stand { AllStand arrows.old.2 leaf.old }
    ensures tables { arrows.new.0 ≡ arrows.old.0 }
    ensures base { arrows.new.2 ≡ arrows.old.2 }
    ensures grows { Grows arrows.old.1 arrows.new.1 }
    ensures stand { OnOk result (AllStand arrows.new.2 leaf.new) }
    ensures chunks { OnOk result (numbers_in store.new ≡ numbers_in store.old) }
    ensures closed { OnOk result (leaf.new.block.closed ≡ leaf.old.block.closed) }
    ensures kept { OnOk result (IsKept (store_of store.old) (store_of store.new)) }
    ensures at { OnOk result ((front rest : List Piece) (w : List TextToken) → bares rest ≡ pieces_in parts.old
        → IsAtSeam arrows.old.0 (store_of store.old) arrows.old.1 leaf.old front rest w
        → AreAllPut arrows.old.0 (store_of store.new) arrows.new.1 leaf.new front parts.new w) }
{
    for part in parts.iter_mut() {
        if !absorb_part(leaf, alloc, arrows, store, chunk, part)? {
            return Ok(());
        }
    }
    Ok(())
}

/// Puts pieces of parts on the last piece of a block, as long as its states agree on their first tokens. The parts keep those that
/// are left.
pub fn absorb(
    alloc: Global,
    arrows: &mut Arrows<'_>,
    store: &mut Store,
    chunk: u32,
    block: Block,
    parts: &mut [Part],
) -> Result<Block, NoMemory>
    requires lawful { IsLawful arrows.old.0 }
    requires lead { LeadFromStates arrows.old.0 }
    requires chunk { HasChunk store.old chunk }
    requires at { (front : List Piece) × (last : Piece) × (rest : List Piece) × (others : List Bare) × (w : List TextToken)
        × (length w ≤ TEXT_BYTES) × (block.closed ≡ others ++ bare last ∷ []) × (bares rest ≡ pieces_in parts.old)
        × IsSeam arrows.old.0 (store_of store.old) front last rest w }
    ensures tables { arrows.new.0 ≡ arrows.old.0 }
    ensures base { arrows.new.2 ≡ arrows.old.2 }
    ensures grows { Grows arrows.old.1 arrows.new.1 }
    ensures chunks { OnOk result (numbers_in store.new ≡ numbers_in store.old) }
    ensures kept { OnOk result (IsKept (store_of store.old) (store_of store.new)) }
    ensures pieces { IfOk result (λ after. (front : List Piece) (last : Piece) (rest : List Piece) (others : List Bare)
        (w : List TextToken)
        → block.closed ≡ others ++ bare last ∷ [] → bares rest ≡ pieces_in parts.old
        → IsSeam arrows.old.0 (store_of store.old) front last rest w
        → AreAbsorbed arrows.old.0 (store_of store.new) front others after.closed parts.new w) }
{
    let mut leaf = reopen(alloc, arrows, store, block)?;
    absorb_all(&mut leaf, alloc, arrows, store, chunk, parts)?;
    leaf.close(alloc, arrows)?;
    Ok(leaf.block)
}
