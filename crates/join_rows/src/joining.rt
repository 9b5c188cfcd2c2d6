//! Tokens are parsed in segments, whose pieces are joined under a bracketing.

ghost use Rattle.std.specs.Prelude.{◌≡◌, ◌+◌, ◌<◌, ◌≤◌, ◌++◌, ℕ, List, IfOk, length};
ghost use Rattle.grammar_data.specs.declared.token.Token.{Token as TextToken};
ghost use Rattle.lawful_theory.specs.Lawful.{IsLawful};
ghost use Rattle.lr_base.specs.declared.limits.TheConstants.{TEXT_BYTES};
ghost use Rattle.node_store.specs.Chunks.{AreApart};
ghost use Rattle.join_rows.specs.Rows.{AreNumbered, HasPieces};

use arrow_table::Arrows;
use lr_base::{NoMemory, Token};
use piece_lists::Pieces;
use segment_parser::parse_segment_by;
use stack_join::join;
use std::alloc::Global;

/// More chunks than any row has.
const CHUNKS: u32 = 1_000;

/// How the pieces of segments are bracketed.
#[derive(Clone, Copy, Debug, PartialEq, Eq)]
pub enum Bracketing {
    FromLeft,
    FromRight,
    Halves,
    /// Halves, where each segment stands between two of no token.
    BetweenNone,
}

/// How tokens are cut and joined: segments of at most so many tokens, and how they are bracketed.
#[derive(Clone, Copy)]
pub struct Plan {
    pub long: usize,
    pub bracketing: Bracketing,
}

/// The next number of a chunk; more than there may be are want of memory.
fn next_number(number: u32) -> Result<u32, NoMemory>
    ensures next { IfOk result (λ next. next ≡ number + 1) }
    ensures few { IfOk result (λ next. next ≤ CHUNKS) }
{
    if number >= CHUNKS {
        return Err(NoMemory);
    }
    Ok(number + 1)
}

/// The pieces of a segment, in the chunk of that number.
pub fn pieces_of(
    alloc: Global,
    arrows: &mut Arrows<'_>,
    tokens: &[Token],
    chunk: u32,
) -> Result<Pieces, NoMemory>
    requires lawful { IsLawful arrows.old.0 }
    requires few { length tokens.now ≤ TEXT_BYTES }
    requires numbered { AreNumbered tokens.now }
    ensures tables { arrows.new.0 ≡ arrows.old.0 }
    ensures pieces { IfOk result (λ pieces. HasPieces arrows.old.0 pieces tokens.now chunk (chunk + 1)) }
{
    let segment = parse_segment_by(alloc, arrows, chunk, tokens)?;
    let pieces = Pieces::new(alloc, segment.block, segment.store)?;
    Ok(pieces)
}

/// Two lists of pieces, joined with a chunk of that number.
pub fn join_two(
    alloc: Global,
    arrows: &mut Arrows<'_>,
    left: Pieces,
    right: Pieces,
    chunk: u32,
) -> Result<Pieces, NoMemory>
    requires lawful { IsLawful arrows.old.0 }
    requires apart { AreApart left.store right.store }
    requires pieces { (tokens : List TextToken) × (more : List TextToken) × (from : ℕ)
        × (length tokens + length more ≤ TEXT_BYTES) × HasPieces arrows.old.0 left tokens from chunk
        × HasPieces arrows.old.0 right more from chunk }
    ensures tables { arrows.new.0 ≡ arrows.old.0 }
    ensures pieces { IfOk result (λ joined. (tokens more : List TextToken) (from : ℕ)
        → HasPieces arrows.old.0 left tokens from chunk → HasPieces arrows.old.0 right more from chunk → from ≤ chunk
        → HasPieces arrows.old.0 joined (tokens ++ more) from (chunk + 1)) }
{
    let joined = join(alloc, arrows, left, right, chunk)?;
    Ok(joined)
}

/// The pieces of the first tokens, so many, joined with those of the others: with the number of the next chunk.
pub fn pieces_of_two(
    alloc: Global,
    arrows: &mut Arrows<'_>,
    tokens: &[Token],
    place: usize,
    number: u32,
) -> Result<(Pieces, u32), NoMemory>
    requires lawful { IsLawful arrows.old.0 }
    requires few { length tokens.now ≤ TEXT_BYTES }
    requires numbered { AreNumbered tokens.now }
    requires inside { place ≤ length tokens.now }
    ensures tables { arrows.new.0 ≡ arrows.old.0 }
    ensures next { IfOk result (λ it. (number ≤ it.1) × (it.1 ≤ CHUNKS)) }
    ensures pieces { IfOk result (λ it. HasPieces arrows.old.0 it.0 tokens.now number it.1) }
{
    let middle = next_number(number)?;
    let last = next_number(middle)?;
    let left = pieces_of(alloc, arrows, &tokens[..place], number)?;
    let right = pieces_of(alloc, arrows, &tokens[place..], middle)?;
    let joined = join_two(alloc, arrows, left, right, last)?;
    let next = next_number(last)?;
    Ok((joined, next))
}

/// The pieces of a segment that stands between two of no token: with the number of the next chunk.
fn between_none(
    alloc: Global,
    arrows: &mut Arrows<'_>,
    tokens: &[Token],
    number: u32,
) -> Result<(Pieces, u32), NoMemory>
    requires lawful { IsLawful arrows.old.0 }
    requires few { length tokens.now ≤ TEXT_BYTES }
    requires numbered { AreNumbered tokens.now }
    ensures tables { arrows.new.0 ≡ arrows.old.0 }
    ensures next { IfOk result (λ it. (number ≤ it.1) × (it.1 ≤ CHUNKS)) }
    ensures pieces { IfOk result (λ it. HasPieces arrows.old.0 it.0 tokens.now number it.1) }
{
    let middle = next_number(number)?;
    let left = pieces_of(alloc, arrows, &tokens[..0], number)?;
    let (right, last) = pieces_of_two(alloc, arrows, tokens, tokens.len(), middle)?;
    let joined = join_two(alloc, arrows, left, right, last)?;
    let next = next_number(last)?;
    Ok((joined, next))
}

/// The pieces of a segment, which may stand between two of no token: with the number of the next chunk.
fn leaf_pieces(
    alloc: Global,
    arrows: &mut Arrows<'_>,
    tokens: &[Token],
    bracketing: Bracketing,
    number: u32,
) -> Result<(Pieces, u32), NoMemory>
    requires lawful { IsLawful arrows.old.0 }
    requires few { length tokens.now ≤ TEXT_BYTES }
    requires numbered { AreNumbered tokens.now }
    ensures tables { arrows.new.0 ≡ arrows.old.0 }
    ensures next { IfOk result (λ it. (number ≤ it.1) × (it.1 ≤ CHUNKS)) }
    ensures pieces { IfOk result (λ it. HasPieces arrows.old.0 it.0 tokens.now number it.1) }
{
    if bracketing == Bracketing::BetweenNone {
        return between_none(alloc, arrows, tokens, number);
    }
    let next = next_number(number)?;
    let pieces = pieces_of(alloc, arrows, tokens, number)?;
    Ok((pieces, next))
}

/// Where so many tokens are parted: what stands before the place, and what stands behind it, are joined last.
fn parting(count: usize, plan: Plan) -> usize
    requires some { 0 < plan.long }
    requires more { plan.long < count }
    ensures above { 0 < result }
    ensures below { result < count }
{
    match plan.bracketing {
        Bracketing::FromLeft => count - plan.long,
        Bracketing::FromRight => plan.long,
        Bracketing::Halves | Bracketing::BetweenNone => count / 2,
    }
}

/// The pieces of tokens that are cut and joined as planned: with the number of the next chunk.
pub fn joined_pieces(
    alloc: Global,
    arrows: &mut Arrows<'_>,
    tokens: &[Token],
    plan: Plan,
    number: u32,
) -> Result<(Pieces, u32), NoMemory>
    requires lawful { IsLawful arrows.old.0 }
    requires few { length tokens.now ≤ TEXT_BYTES }
    requires numbered { AreNumbered tokens.now }
    requires long { 0 < plan.long }
    ensures tables { arrows.new.0 ≡ arrows.old.0 }
    ensures next { IfOk result (λ it. (number ≤ it.1) × (it.1 ≤ CHUNKS)) }
    ensures pieces { IfOk result (λ it. HasPieces arrows.old.0 it.0 tokens.now number it.1) }
{
    if tokens.len() <= plan.long {
        return leaf_pieces(alloc, arrows, tokens, plan.bracketing, number);
    }
    let place = parting(tokens.len(), plan);
    let (left, middle) = joined_pieces(alloc, arrows, &tokens[..place], plan, number)?;
    let (right, last) = joined_pieces(alloc, arrows, &tokens[place..], plan, middle)?;
    let joined = join_two(alloc, arrows, left, right, last)?;
    let next = next_number(last)?;
    Ok((joined, next))
}
