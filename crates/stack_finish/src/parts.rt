ghost use Rattle.std.specs.Prelude.{◌≡◌, ◌≤◌, ◌++◌, List, IfOk, OnOk, length};
ghost use Rattle.lr_base.specs.declared.limits.TheConstants.{TEXT_BYTES};
ghost use Rattle.grammar_data.specs.declared.token.Token.{Token as TextToken};
ghost use Rattle.tree_theory.specs.Stores.{Store as NodeTable};
ghost use Rattle.lawful_theory.specs.Lawful.{IsLawful};
ghost use Rattle.piece_theory.specs.Pieces.{Piece};
ghost use Rattle.bare_theory.specs.Bare.{bares};
ghost use Rattle.plain_parse.specs.Parses.{AreTextTokens};
ghost use Rattle.node_store.specs.Chunks.{HasChunk, numbers_in};
ghost use Rattle.piece_lists.specs.Lists.{pieces_of};
ghost use Rattle.stack_finish.specs.Gathering.{IsGathered};
ghost use Rattle.stack_finish.specs.Putting.{IsAfter};

use crate::gathered::Gathered;
use lr_base::NoMemory;
use lr_machine::Tables;
use piece_blocks::StartFault;
use piece_lists::Part;

impl Gathered {
    /// Puts the pieces of a part on, one after the other, or gives the error of the whole text, which comes up to one or in it.
    pub fn put_part(&mut self, tables: &Tables, part: &Part) -> Result<Option<StartFault>, NoMemory>
        requires lawful { IsLawful tables.now }
        requires chunk { HasChunk self.old.store self.old.chunk }
        requires at { (base : NodeTable) × (pieces : List Piece) × (rest : List Piece) × (w : List TextToken)
            × (length w ≤ TEXT_BYTES) × AreTextTokens tables.now w × (bares pieces ≡ pieces_of part.now)
            × IsGathered tables.now base self.old (pieces ++ rest) w }
        ensures at { IfOk result (λ error. (base : NodeTable) (pieces rest : List Piece) (w : List TextToken)
            → bares pieces ≡ pieces_of part.now → IsGathered tables.now base self.old (pieces ++ rest) w
            → IsAfter tables.now base self.new rest w error) }
        ensures same { OnOk result ((numbers_in self.new.store ≡ numbers_in self.old.store)
            × (self.new.chunk ≡ self.old.chunk)) }
    {
        let block = &part.block;
        for index in part.skipped..block.count() {
            match self.put(
                tables,
                block.first(index),
                block.tokens(index),
                block.floors(index),
                block.kids(index),
            )? {
                Some(error) => return Ok(Some(error)),
                None => {}
            }
        }
        Ok(None)
    }
}
