ghost use Rattle.std.specs.Prelude.{◌≡◌, ◌↔◌, ℕ, ◌≤◌, List, length, IfOk};
ghost use Rattle.lr_base.specs.declared.limits.TheConstants.{TEXT_BYTES};
ghost use Rattle.grammar_data.specs.declared.token.Token.{Token as TextToken};
ghost use Rattle.grammar_data.specs.Grammar.{Grammar};
ghost use Rattle.grammar_theory.specs.Derivations.{IsSentence};
ghost use Rattle.grammar_theory.specs.Trees.{ids_of};
ghost use Rattle.lawful_theory.specs.Lawful.{IsLawful, IsLawfulFor};
ghost use Rattle.bare_theory.specs.Bare.{AreBarePiecesOf};
ghost use Rattle.node_store.specs.Chunks.{HasChunk, store_of};
ghost use Rattle.plain_parse.specs.Parses.{AreTextTokens, HasTree};
ghost use Rattle.stack_finish.specs.Finished.{IsFinished};

use crate::gathered::Gathered;
use lr_base::NoMemory;
use lr_machine::Tables;
use piece_lists::Pieces;
use plain_parse::Parsed;
use std::alloc::Global;

/// Ends the parse of a text whose pieces are given, from the known start and through the end mark, by lawful tables. The tokens
/// of the text are at most as many as a text may have bytes, each is one of the tables' or the bad byte, and none is the end
/// mark. No chunk of the pieces has the number that is given for the new nodes.
///
/// The answer is that of one parse of the text from left to right, but for the references of the nodes: `Tree` comes exactly
/// where the tokens are a sentence, with their only tree, and `Wrong` exactly where they aren't, with the first wrong place, the
/// token there, `None` exactly where it is the end, and a state that expects exactly the tokens that could stand there. Each
/// node of the pieces is kept under its reference, with its hidden kids filled, and each node of the store stands once in the
/// tree. The time grows with the entries and floors of the pieces, and not with their tokens and nodes.
pub fn finish(
    alloc: Global,
    tables: &Tables,
    pieces: Pieces,
    chunk: u32,
) -> Result<Parsed, NoMemory>
    requires lawful { IsLawful tables.now }
    requires chunk { ¬ (HasChunk pieces.store chunk) }
    requires pieces { (tokens : List TextToken) × (length tokens ≤ TEXT_BYTES) × AreTextTokens tables.now tokens
        × AreBarePiecesOf tables.now (store_of pieces.store) pieces.closed tokens }
    ensures finished { IfOk result (λ parsed. (g : Grammar) (tokens : List TextToken) → IsLawfulFor g tables.now
        → AreBarePiecesOf tables.now (store_of pieces.store) pieces.closed tokens
        → IsFinished g tables.now tokens pieces.store chunk parsed) }
    ensures tree { IfOk result (λ parsed. (g : Grammar) (tokens : List TextToken) → IsLawfulFor g tables.now
        → AreBarePiecesOf tables.now (store_of pieces.store) pieces.closed tokens
        → HasTree parsed ↔ IsSentence g (ids_of tokens)) }
    ensures wrong { IfOk result (λ parsed. (g : Grammar) (tokens : List TextToken) → IsLawfulFor g tables.now
        → AreBarePiecesOf tables.now (store_of pieces.store) pieces.closed tokens
        → (¬ (HasTree parsed)) ↔ (¬ (IsSentence g (ids_of tokens)))) }
{
    let (parts, store) = pieces.into_parts();
    let mut gathered = Gathered::new(alloc, store, chunk)?;
    for part in &parts {
        match gathered.put_part(tables, part)? {
            Some(error) => {
                return Ok(Parsed::Wrong {
                    index: error.index,
                    token: Some(error.token),
                    state: error.state,
                });
            }
            None => {}
        }
    }
    let parsed = gathered.close(tables)?;
    Ok(parsed)
}
