ghost use Rattle.std.specs.Prelude.{◌≡◌, ℕ, ◌≤◌, [], List, IfOk, OnOk, length};
ghost use Rattle.lr_base.specs.declared.limits.TheConstants.{TEXT_BYTES};
ghost use Rattle.grammar_data.specs.declared.token.Token.{Token as TextToken};
ghost use Rattle.grammar_data.specs.Grammar.{Grammar};
ghost use Rattle.tree_theory.specs.Stores.{Store as NodeTable};
ghost use Rattle.lawful_theory.specs.Lawful.{IsLawful, IsLawfulFor};
ghost use Rattle.piece_theory.specs.Pieces.{Piece};
ghost use Rattle.bare_theory.specs.Bare.{bares};
ghost use Rattle.plain_parse.specs.Parses.{AreTextTokens};
ghost use Rattle.node_store.specs.Chunks.{HasChunk, numbers_in};
ghost use Rattle.piece_lists.specs.Lists.{pieces_of};
ghost use Rattle.stack_finish.specs.Gathering.{IsGathered};
ghost use Rattle.stack_finish.specs.Finished.{HasRoot, IsAnswer, IsRoot};

use crate::gathered::Gathered;
use lr_base::NoMemory;
use lr_machine::{Act, Tables};
use node_store::Kid;
use plain_parse::Parsed;

impl Gathered {
    /// The answer where the text is accepted: the kid that is left is the root.
    fn into_tree(self) -> Parsed
        requires { HasRoot self }
        ensures { IsRoot self result }
    {
        let Gathered {
            kids,
            states: _,
            store,
            chunk: _,
            count: _,
        } = self;
        match kids[0].kid() {
            Kid::Node(root) => Parsed::Tree { root, store },
            Kid::Token(_) | Kid::Hidden => unreachable!(),
        }
    }

    /// The answer where no piece is to come.
    pub fn close(mut self, tables: &Tables) -> Result<Parsed, NoMemory>
        requires lawful { IsLawful tables.now }
        requires chunk { HasChunk self.store self.chunk }
        requires at { (base : NodeTable) × (w : List TextToken) × IsGathered tables.now base self [] w }
        ensures { IfOk result (λ parsed. (g : Grammar) (base : NodeTable) (w : List TextToken) → IsLawfulFor g tables.now
            → IsGathered tables.now base self [] w → IsAnswer g tables.now w base (numbers_in self.store) parsed) }
    {
        match self.settle(tables, tables.end())? {
            Act::Accept => Ok(self.into_tree()),
            Act::Error => Ok(Parsed::Wrong {
                index: self.count,
                token: None,
                state: self.top(),
            }),
            Act::Shift(_) | Act::Reduce(_) => unreachable!(),
        }
    }
}
