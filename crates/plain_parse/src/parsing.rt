ghost use Rattle.std.specs.Prelude.{◌≡◌, ◌≢◌, ◌↔◌, ℕ, ◌+◌, ◌<◌, ◌≤◌, length, IfOk};
ghost use Rattle.lr_base.specs.declared.limits.TheConstants.{TEXT_BYTES};
ghost use Rattle.grammar_data.specs.Grammar.{Grammar};
ghost use Rattle.grammar_theory.specs.Derivations.{IsSentence};
ghost use Rattle.grammar_theory.specs.Trees.{ids_of};
ghost use Rattle.lawful_theory.specs.Lawful.{IsLawful, IsLawfulFor};
ghost use Rattle.plain_parse.specs.Parses.{AreTextTokens, HasTree, IsParsed};

use crate::parsed::Parsed;
use crate::run::Run;
use lr_base::{NoMemory, Token};
use lr_machine::{Act, Tables};
use std::alloc::Global;

/// Parses the tokens of a text, which are at most as many as a text may have bytes, from left to right by lawful tables. A token
/// is one of the tables' or the bad byte, and none is the end mark.
///
/// `Tree` comes exactly where the tokens are a sentence, and `Wrong` exactly where they aren't. The nodes of the tree stand in
/// chunk 0, and the store has no other. The time grows with the number of tokens and nodes; an entry of the stack takes 20 bytes,
/// a node 16 and a kid 16, beside the lists' spare room. Nothing is allocated a token or a node but by the lists that grow.
pub fn parse_one(alloc: Global, tables: &Tables, tokens: &[Token]) -> Result<Parsed, NoMemory>
    requires lawful { IsLawful tables.now }
    requires few { length tokens.now ≤ TEXT_BYTES }
    requires tokens { AreTextTokens tables.now tokens.now }
    ensures parsed { IfOk result (λ parsed. (g : Grammar) → IsLawfulFor g tables.now
        → IsParsed g tables.now tokens.now parsed) }
    ensures tree { IfOk result (λ parsed. (g : Grammar) → IsLawfulFor g tables.now
        → HasTree parsed ↔ IsSentence g (ids_of tokens.now)) }
    ensures wrong { IfOk result (λ parsed. (g : Grammar) → IsLawfulFor g tables.now
        → (¬ (HasTree parsed)) ↔ (¬ (IsSentence g (ids_of tokens.now)))) }
{
    tables.holds();
    let mut run = Run::new(alloc)?;
    let mut index = 0;
    loop {
        match run.settle(tables, tokens, index)? {
            Act::Shift(state) => {
                run.shift(tokens[index], state)?;
                index += 1;
            }
            Act::Accept => return Ok(run.finish()),
            Act::Error => return Ok(run.wrong(tokens, index)),
            Act::Reduce(_) => unreachable!(),
        }
    }
}
