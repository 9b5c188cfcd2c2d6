ghost use Rattle.std.specs.Prelude.{◌≡◌, ◌+◌, ◌<◌, ◌≤◌, ◌∷◌, ◌++◌, [], List, length, IfOk, OnOk, IfSome, IfNone};
ghost use Rattle.lr_base.specs.declared.limits.TheConstants.{TEXT_BYTES};
ghost use Rattle.grammar_data.specs.declared.token.Token.{Token as TextToken};
ghost use Rattle.lawful_theory.specs.Lawful.{IsLawful};
ghost use Rattle.tree_theory.specs.Stores.{Store as NodeTable};
ghost use Rattle.use_theory.specs.Distinct.{Unites};
ghost use Rattle.use_theory.specs.Kept.{IsKept};
ghost use Rattle.context_laws.specs.Contexts.{LeadFromStates};
ghost use Rattle.bare_theory.specs.Bare.{AreBarePiecesOf};
ghost use Rattle.piece_lists.specs.Lists.{pieces_in};
ghost use Rattle.node_store.specs.Chunks.{AreApart, HasChunk, numbers_in, store_of};
ghost use Rattle.arrow_table.specs.Looks.{Grows};

use crate::absorbing::absorb;
use crate::parts::{append, has_piece, last_part};
use arrow_table::Arrows;
use lr_base::NoMemory;
use node_store::Store;
use piece_lists::{Part, Pieces};
use std::alloc::Global;

/// Joins the pieces of two token lists that stand one after the other, by a table of maps, which keeps what it comes to. No chunk
/// is in both, and none has the number that is given for the new nodes. Together there are at most as many tokens as a text
/// may have bytes.
///
/// The value is pieces of the joined tokens. Where a piece of the right list meets entries that supply hidden symbols, they are
/// filled; where only some are there, a floor stays with the rest; its errors are carried back to the starts of the left list
/// that lead to them. Each node of both is kept under its reference, and new ones stand in the chunk of that number. Pieces that
/// aren't at the seam are not looked at.
pub fn join(
    alloc: Global,
    arrows: &mut Arrows<'_>,
    left: Pieces,
    right: Pieces,
    chunk: u32,
) -> Result<Pieces, NoMemory>
    requires lawful { IsLawful arrows.old.0 }
    requires apart { AreApart left.store right.store }
    requires chunk { (¬ (HasChunk left.store chunk)) × (¬ (HasChunk right.store chunk)) }
    requires pieces { (tokens : List TextToken) × (more : List TextToken) × (length tokens + length more ≤ TEXT_BYTES)
        × AreBarePiecesOf arrows.old.0 (store_of left.store) left.closed tokens
        × AreBarePiecesOf arrows.old.0 (store_of right.store) right.closed more }
    ensures tables { arrows.new.0 ≡ arrows.old.0 }
    ensures base { arrows.new.2 ≡ arrows.old.2 }
    ensures grows { Grows arrows.old.1 arrows.new.1 }
    ensures pieces { IfOk result (λ joined. (tokens more : List TextToken)
        → AreBarePiecesOf arrows.old.0 (store_of left.store) left.closed tokens
        → AreBarePiecesOf arrows.old.0 (store_of right.store) right.closed more
        → AreBarePiecesOf arrows.old.0 (store_of joined.store) joined.closed (tokens ++ more)) }
    ensures kept { IfOk result (λ joined. IsKept (store_of left.store) (store_of joined.store)
        × IsKept (store_of right.store) (store_of joined.store)) }
    ensures chunks { IfOk result (λ joined. numbers_in joined.store
        ≡ numbers_in left.store ++ (numbers_in right.store ++ chunk ∷ [])) }
    ensures empty { IfOk result (λ joined. (left.closed ≡ [] → joined.closed ≡ right.closed)
        × (right.closed ≡ [] → joined.closed ≡ left.closed)) }
{
    arrows.tables().holds();
    let (mut parts, mut joined) = left.into_parts();
    let (mut others, store) = right.into_parts();
    if joined.append(store).is_err() {
        return Err(NoMemory);
    }
    joined.add_chunk(alloc, chunk)?;
    put_together(alloc, arrows, &mut joined, chunk, &mut parts, &mut others)?;
    append(&mut parts, others)?;
    Ok(Pieces::of_parts(parts, joined))
}

/// Puts pieces of the right list on the left list's last piece, where both have a piece. The store has the nodes of both lists.
fn put_together(
    alloc: Global,
    arrows: &mut Arrows<'_>,
    store: &mut Store,
    chunk: u32,
    parts: &mut Vec<Part>,
    others: &mut [Part],
) -> Result<(), NoMemory>
    requires lawful { IsLawful arrows.old.0 }
    requires lead { LeadFromStates arrows.old.0 }
    requires chunk { HasChunk store.old chunk }
    requires pieces { (first : NodeTable) × (second : NodeTable) × (tokens : List TextToken) × (more : List TextToken)
        × (length tokens + length more ≤ TEXT_BYTES) × Unites first second (store_of store.old)
        × AreBarePiecesOf arrows.old.0 first (pieces_in parts.old.items) tokens
        × AreBarePiecesOf arrows.old.0 second (pieces_in others.old) more }
    ensures tables { arrows.new.0 ≡ arrows.old.0 }
    ensures base { arrows.new.2 ≡ arrows.old.2 }
    ensures grows { Grows arrows.old.1 arrows.new.1 }
    ensures chunks { OnOk result (numbers_in store.new ≡ numbers_in store.old) }
    ensures kept { OnOk result (IsKept (store_of store.old) (store_of store.new)) }
    ensures pieces { OnOk result ((first second : NodeTable) (tokens more : List TextToken)
        → Unites first second (store_of store.old)
        → AreBarePiecesOf arrows.old.0 first (pieces_in parts.old.items) tokens
        → AreBarePiecesOf arrows.old.0 second (pieces_in others.old) more
        → AreBarePiecesOf arrows.old.0 (store_of store.new) (pieces_in parts.new.items ++ pieces_in others.new) (tokens ++ more)) }
    ensures empty { OnOk result ((pieces_in parts.old.items ≡ []
        → pieces_in parts.new.items ++ pieces_in others.new ≡ pieces_in others.old)
        × (pieces_in others.old ≡ []
        → pieces_in parts.new.items ++ pieces_in others.new ≡ pieces_in parts.old.items)) }
{
    if !has_piece(others) {
        return Ok(());
    }
    let Some(part) = last_part(parts) else {
        return Ok(());
    };
    let Part { block, skipped } = part;
    let block = absorb(alloc, arrows, store, chunk, block, others)?;
    parts.push(Part { block, skipped })?;
    Ok(())
}
