ghost use Rattle.std.specs.Prelude.{◌≡◌, List, ◌∷◌, IfOk, OnOk};
ghost use Rattle.grammar_data.specs.declared.token.Token.{Token as TextToken};
ghost use Rattle.lawful_theory.specs.Lawful.{IsLawful};
ghost use Rattle.context_laws.specs.Contexts.{LeadFromStates};
ghost use Rattle.piece_theory.specs.Pieces.{Piece};
ghost use Rattle.piece_theory.specs.Laws.{HasMore};
ghost use Rattle.node_store.specs.Chunks.{HasChunk, numbers_in, store_of};
ghost use Rattle.arrow_table.specs.Looks.{Grows};
ghost use Rattle.stack_join.specs.Joining.{IsAtSeam, IsDecided};
ghost use Rattle.stack_join.specs.Putting.{IsSettling};
ghost use Rattle.segment_parser.specs.Numbers.{AllStand};

use arrow_table::{Arrows, Look};
use lr_base::{NoMemory, Token};
use node_store::Store;
use segment_parser::Leaf;
use std::alloc::Global;

/// One look at the next piece's first token: starts that err get their faults, or the piece is reduced, and the token is still to
/// be looked at (`None`); or all states over the open piece shift it (`true`), or they agree on nothing (`false`).
fn look(
    leaf: &mut Leaf,
    alloc: Global,
    arrows: &mut Arrows<'_>,
    store: &mut Store,
    chunk: u32,
    token: &Token,
) -> Result<Option<bool>, NoMemory>
    requires lawful { IsLawful arrows.old.0 }
    requires lead { LeadFromStates arrows.old.0 }
    requires chunk { HasChunk store.old chunk }
    requires at { (front : List Piece) × (right : Piece) × (rest : List Piece) × (w : List TextToken)
        × (right.first ≡ token.now)
        × IsAtSeam arrows.old.0 (store_of store.old) arrows.old.1 leaf.old front (right ∷ rest) w }
    requires stand { AllStand arrows.old.2 leaf.old }
    ensures tables { arrows.new.0 ≡ arrows.old.0 }
    ensures base { arrows.new.2 ≡ arrows.old.2 }
    ensures grows { Grows arrows.old.1 arrows.new.1 }
    ensures stand { OnOk result (AllStand arrows.new.2 leaf.new) }
    ensures chunks { OnOk result (numbers_in store.new ≡ numbers_in store.old) }
    ensures closed { OnOk result (leaf.new.block.closed ≡ leaf.old.block.closed) }
    ensures more { OnOk result (HasMore (store_of store.old) (store_of store.new)) }
    ensures at { OnOk result ((front : List Piece) (right : Piece) (rest : List Piece) (w : List TextToken)
        → right.first ≡ token.now
        → IsAtSeam arrows.old.0 (store_of store.old) arrows.old.1 leaf.old front (right ∷ rest) w
        → IsAtSeam arrows.old.0 (store_of store.new) arrows.new.1 leaf.new front (right ∷ rest) w) }
    ensures decided { IfOk result (λ done. IsSettling arrows.old.0 arrows.new.1 leaf.new token.now done) }
{
    arrows.tables().holds();
    match arrows.look(alloc, leaf.top(), token.id)? {
        Look::Died(alive) => {
            leaf.die(alloc, arrows, token, alive)?;
            Ok(None)
        }
        Look::Reduce(rule) => {
            leaf.reduce(alloc, arrows, store, chunk, rule)?;
            Ok(None)
        }
        Look::Shift(_) => Ok(Some(true)),
        Look::Stuck => Ok(Some(false)),
    }
}

/// Looks at the next piece's first token until all states over the open piece shift it (`true`), or they agree on nothing
/// (`false`): starts that err get their faults, and the piece is reduced. The loop counts to the greatest number of 64 bits, and
/// answers want of memory beyond it.
pub fn settle(
    leaf: &mut Leaf,
    alloc: Global,
    arrows: &mut Arrows<'_>,
    store: &mut Store,
    chunk: u32,
    token: &Token,
) -> Result<bool, NoMemory>
    requires lawful { IsLawful arrows.old.0 }
    requires lead { LeadFromStates arrows.old.0 }
    requires chunk { HasChunk store.old chunk }
    requires at { (front : List Piece) × (right : Piece) × (rest : List Piece) × (w : List TextToken)
        × (right.first ≡ token.now)
        × IsAtSeam arrows.old.0 (store_of store.old) arrows.old.1 leaf.old front (right ∷ rest) w }
    requires stand { AllStand arrows.old.2 leaf.old }
    ensures tables { arrows.new.0 ≡ arrows.old.0 }
    ensures base { arrows.new.2 ≡ arrows.old.2 }
    ensures grows { Grows arrows.old.1 arrows.new.1 }
    ensures stand { OnOk result (AllStand arrows.new.2 leaf.new) }
    ensures chunks { OnOk result (numbers_in store.new ≡ numbers_in store.old) }
    ensures closed { OnOk result (leaf.new.block.closed ≡ leaf.old.block.closed) }
    ensures more { OnOk result (HasMore (store_of store.old) (store_of store.new)) }
    ensures at { OnOk result ((front : List Piece) (right : Piece) (rest : List Piece) (w : List TextToken)
        → right.first ≡ token.now
        → IsAtSeam arrows.old.0 (store_of store.old) arrows.old.1 leaf.old front (right ∷ rest) w
        → IsAtSeam arrows.old.0 (store_of store.new) arrows.new.1 leaf.new front (right ∷ rest) w) }
    ensures decided { IfOk result (λ shifts. IsDecided arrows.old.0 arrows.new.1 leaf.new token.now shifts) }
{
    for _ in 0..u64::MAX {
        match look(leaf, alloc, arrows, store, chunk, token)? {
            Some(shifts) => return Ok(shifts),
            None => {}
        }
    }
    Err(NoMemory)
}
