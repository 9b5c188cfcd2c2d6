ghost use Rattle.std.specs.Prelude.{◌≡◌, ◌≤◌, ◌^◌, ◌-◌, ◌<◌, ℕ, List, [], ◌∷◌, IfOk, OnOk, length};
ghost use Rattle.lr_base.specs.declared.limits.TheConstants.{TEXT_BYTES};
ghost use Rattle.grammar_data.specs.declared.token.Token.{Token as TextToken};
ghost use Rattle.lawful_theory.specs.Lawful.{IsLawful};
ghost use Rattle.context_laws.specs.Contexts.{LeadFromStates};
ghost use Rattle.lr_machine.specs.IsTables.{IsTables};
ghost use Rattle.use_theory.specs.Kept.{IsKept};
ghost use Rattle.piece_theory.specs.Pieces.{Piece};
ghost use Rattle.bare_theory.specs.Bare.{bare};
ghost use Rattle.node_store.specs.Chunks.{HasChunk, numbers_in, store_of};
ghost use Rattle.arrow_table.specs.Looks.{Grows};
ghost use Rattle.stack_join.specs.Joining.{IsAtSeam, IsLanding, Met};
ghost use Rattle.stack_join.specs.Putting.{IsPut};
ghost use Rattle.segment_parser.specs.Numbers.{AllStand};

use crate::landing::land;
use crate::looking::settle;
use crate::pushing::push_kids;
use arrow_table::Arrows;
use lr_base::{NoMemory, Token};
use node_store::{PackedKid, Store};
use piece_blocks::Floor;
use segment_parser::Leaf;
use std::alloc::Global;

/// All floors of the next piece land on the open piece.
fn land_all(
    leaf: &mut Leaf,
    alloc: Global,
    arrows: &mut Arrows<'_>,
    store: &mut Store,
    floors: &[Floor],
) -> Result<(), NoMemory>
    requires lawful { IsLawful arrows.old.0 }
    requires lead { LeadFromStates arrows.old.0 }
    requires at { (met : Met) × IsLanding arrows.old.0 met (store_of store.old) arrows.old.1 leaf.old floors.now }
    requires stand { AllStand arrows.old.2 leaf.old }
    ensures tables { arrows.new.0 ≡ arrows.old.0 }
    ensures base { arrows.new.2 ≡ arrows.old.2 }
    ensures grows { Grows arrows.old.1 arrows.new.1 }
    ensures stand { OnOk result (AllStand arrows.new.2 leaf.new) }
    ensures chunks { OnOk result (numbers_in store.new ≡ numbers_in store.old) }
    ensures closed { OnOk result (leaf.new.block.closed ≡ leaf.old.block.closed) }
    ensures at { OnOk result ((met : Met) → IsLanding arrows.old.0 met (store_of store.old) arrows.old.1 leaf.old floors.now
        → IsLanding arrows.old.0 met (store_of store.new) arrows.new.1 leaf.new []) }
{
    for floor in floors {
        land(leaf, alloc, arrows, store, floor)?;
    }
    Ok(())
}

/// Puts the next piece on the open piece, if its states agree on the first token: whether it is put on.
pub fn put(
    leaf: &mut Leaf,
    alloc: Global,
    arrows: &mut Arrows<'_>,
    store: &mut Store,
    chunk: u32,
    first: &Token,
    tokens: u32,
    floors: &[Floor],
    kids: &[PackedKid],
) -> Result<bool, NoMemory>
    requires lawful { IsLawful arrows.old.0 }
    requires lead { LeadFromStates arrows.old.0 }
    requires chunk { HasChunk store.old chunk }
    requires at { (front : List Piece) × (right : Piece) × (rest : List Piece) × (w : List TextToken)
        × (length w ≤ TEXT_BYTES)
        × (bare right ≡ record { first = first.now; count = tokens; floors = floors.now; kids = kids.now })
        × IsAtSeam arrows.old.0 (store_of store.old) arrows.old.1 leaf.old front (right ∷ rest) w }
    requires stand { AllStand arrows.old.2 leaf.old }
    ensures tables { arrows.new.0 ≡ arrows.old.0 }
    ensures base { arrows.new.2 ≡ arrows.old.2 }
    ensures grows { Grows arrows.old.1 arrows.new.1 }
    ensures stand { OnOk result (AllStand arrows.new.2 leaf.new) }
    ensures chunks { OnOk result (numbers_in store.new ≡ numbers_in store.old) }
    ensures closed { OnOk result (leaf.new.block.closed ≡ leaf.old.block.closed) }
    ensures kept { OnOk result (IsKept (store_of store.old) (store_of store.new)) }
    ensures at { IfOk result (λ is_put. (front : List Piece) (right : Piece) (rest : List Piece) (w : List TextToken)
        → bare right ≡ record { first = first.now; count = tokens; floors = floors.now; kids = kids.now }
        → IsAtSeam arrows.old.0 (store_of store.old) arrows.old.1 leaf.old front (right ∷ rest) w
        → IsPut arrows.old.0 (store_of store.new) arrows.new.1 leaf.new front right rest w is_put) }
{
    if !settle(leaf, alloc, arrows, store, chunk, first)? {
        return Ok(false);
    }
    land_all(leaf, alloc, arrows, store, floors)?;
    push_kids(leaf, alloc, arrows, store, tokens, kids)?;
    Ok(true)
}
