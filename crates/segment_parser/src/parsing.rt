ghost use Rattle.std.specs.Prelude.{◌≡◌, ◌-◌, ◌<◌, ◌≤◌, ◌^◌, ◌∷◌, [], length, All, IfOk, OnOk};
ghost use Rattle.lawful_theory.specs.Lawful.{IsLawful};
ghost use Rattle.lr_machine.specs.IsTables.{IsTables};
ghost use Rattle.lr_base.specs.declared.limits.TheConstants.{TEXT_BYTES};
ghost use Rattle.context_laws.specs.Contexts.{LeadFromStates};
ghost use Rattle.grammar_data.specs.declared.token.Token.{Token as TextToken};
ghost use Rattle.node_data.specs.declared.kid.Kid.TheVariants.{Token as TokenKid};
ghost use Rattle.node_store.specs.Chunks.{HasChunk, numbers_in, store_of};
ghost use Rattle.part_theory.specs.Parts.{HasParts};
ghost use Rattle.bare_theory.specs.Bare.{AreBarePiecesOf};
ghost use Rattle.arrow_table.specs.Looks.{Grows};
ghost use Rattle.segment_parser.specs.Settling.{IsBetween};
ghost use Rattle.segment_parser.specs.Numbers.{Stands};

use crate::leaf::Leaf;
use crate::segment::Segment;
use arrow_table::Arrows;
use lr_base::{NoMemory, Token};
use lr_machine::Tables;
use node_store::Store;
use piece_blocks::Block;
use std::alloc::Global;

impl Leaf {
    /// Reads the tokens from the second on. After each of them the table may forget maps.
    fn read_all(
        &mut self,
        alloc: Global,
        arrows: &mut Arrows<'_>,
        store: &mut Store,
        chunk: u32,
        tokens: &[Token],
    ) -> Result<(), NoMemory>
        requires lawful { IsLawful arrows.old.0 }
        requires lead { LeadFromStates arrows.old.0 }
        requires tables { IsTables arrows.old.0 }
        requires chunk { HasChunk store.old chunk }
        requires few { length tokens.now ≤ TEXT_BYTES }
        requires tokens { All (λ (token : TextToken). token.id < 2 ^ 32 - 2) tokens.now }
        requires some { 0 < length tokens.now }
        requires stand { Stands arrows.old.2 self.old }
        requires at { IsBetween arrows.old.0 (store_of store.old) arrows.old.1 self.old tokens.now 1 }
        ensures tables { arrows.new.0 ≡ arrows.old.0 }
        ensures grows { Grows arrows.old.1 arrows.new.1 }
        ensures chunks { OnOk result (numbers_in store.new ≡ numbers_in store.old) }
        ensures stand { OnOk result (Stands arrows.new.2 self.new) }
        ensures at { OnOk result (IsBetween arrows.old.0 (store_of store.new) arrows.new.1 self.new tokens.now (length tokens.now)) }
    {
        for index in 1..tokens.len() {
            self.read(alloc, arrows, store, chunk, &tokens[index])?;
            self.flush(alloc, arrows)?;
        }
        Ok(())
    }
}

/// Parses a segment of a text from left to right for all left contexts at once, by a table of maps, which keeps what it comes
/// to. The tokens of a text have numbers below 2^32 - 2, and are at most as many as a text may have bytes.
///
/// The value is the pieces of the tokens, as many as the tokens have parts: no token gives no piece. The store has their nodes,
/// each used by one piece, all in the chunk of that number.
pub fn parse_segment_by(
    alloc: Global,
    arrows: &mut Arrows<'_>,
    chunk: u32,
    tokens: &[Token],
) -> Result<Segment, NoMemory>
    requires lawful { IsLawful arrows.old.0 }
    requires few { length tokens.now ≤ TEXT_BYTES }
    requires tokens { All (λ (token : TextToken). token.id < 2 ^ 32 - 2) tokens.now }
    ensures tables { arrows.new.0 ≡ arrows.old.0 }
    ensures grows { Grows arrows.old.1 arrows.new.1 }
    ensures pieces { IfOk result (λ segment.
        AreBarePiecesOf arrows.old.0 (store_of segment.store) segment.block.closed tokens.now) }
    ensures parts { IfOk result (λ segment. HasParts arrows.old.0 tokens.now (length segment.block.closed)) }
    ensures chunk { IfOk result (λ segment. numbers_in segment.store ≡ chunk ∷ []) }
{
    arrows.tables().holds();
    let mut store = Store::new(alloc);
    store.add_chunk(alloc, chunk)?;
    if tokens.is_empty() {
        let block = Block::new(alloc);
        return Ok(Segment { block, store });
    }
    let mut leaf = Leaf::begin(alloc, arrows, &tokens[0])?;
    leaf.read_all(alloc, arrows, &mut store, chunk, tokens)?;
    leaf.close(alloc, arrows)?;
    Ok(Segment {
        block: leaf.block,
        store,
    })
}

/// Parses a segment of a text from left to right for all left contexts at once, as `parse_segment_by` with a table of maps of
/// its own.
pub fn parse_segment(
    alloc: Global,
    tables: &Tables,
    chunk: u32,
    tokens: &[Token],
) -> Result<Segment, NoMemory>
    requires lawful { IsLawful tables.now }
    requires few { length tokens.now ≤ TEXT_BYTES }
    requires tokens { All (λ (token : TextToken). token.id < 2 ^ 32 - 2) tokens.now }
    ensures pieces { IfOk result (λ segment.
        AreBarePiecesOf tables.now (store_of segment.store) segment.block.closed tokens.now) }
    ensures parts { IfOk result (λ segment. HasParts tables.now tokens.now (length segment.block.closed)) }
    ensures chunk { IfOk result (λ segment. numbers_in segment.store ≡ chunk ∷ []) }
{
    let mut arrows = Arrows::new(alloc, tables);
    parse_segment_by(alloc, &mut arrows, chunk, tokens)
}
