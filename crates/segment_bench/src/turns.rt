ghost use Rattle.std.specs.Prelude.{◌≡◌, ◌-◌, ◌^◌, ◌<◌, ◌≤◌, All, length};
ghost use Rattle.lawful_theory.specs.Lawful.{IsLawful};
ghost use Rattle.lr_base.specs.declared.limits.TheConstants.{TEXT_BYTES};
ghost use Rattle.grammar_data.specs.declared.token.Token.{Token as TextToken};
ghost use Rattle.plain_parse.specs.Parses.{AreTextTokens};
ghost use Rattle.segment_bench.specs.Inputs.{IsInput};

use crate::counts::Counts;
use crate::fault::Fault;
use crate::input::Input;
use crate::resident::resident_pages;
use arrow_table::Arrows;
use lr_base::{NoMemory, Token};
use lr_machine::Tables;
use plain_parse::{Parsed, parse_one};
use segment_parser::{Segment, parse_segment_by};
use std::alloc::Global;
use std::io;
use std::rt::Files;
use std::time::{CpuClock, Duration};

/// The microseconds of the processor since then.
fn spent_since<R: CpuClock>(rt: &R, begun: Duration) -> io::Result<u64> {
    let spent = rt.thread_cpu_time()?.saturating_sub(begun);
    let micros = u64::from(spent.subsec_micros());
    Ok(
        spent
            .as_secs()
            .saturating_mul(1_000_000)
            .saturating_add(micros),
    )
}

/// The time of a parse from left to right, of a sentence.
fn time_plain<R: CpuClock>(
    rt: &R,
    alloc: Global,
    tables: &Tables,
    tokens: &[Token],
) -> Result<u64, Fault>
    requires lawful { IsLawful tables.now }
    requires few { length tokens.now ≤ TEXT_BYTES }
    requires tokens { AreTextTokens tables.now tokens.now }
{
    let begun = rt.thread_cpu_time()?;
    let parsed = parse_one(alloc, tables, tokens)?;
    let spent = spent_since(rt, begun)?;
    match parsed {
        Parsed::Tree { .. } => Ok(spent),
        Parsed::Wrong { .. } => Err(Fault::Text),
    }
}

/// Parses the tokens in so many segments that are as even as can be, by a table of maps.
fn parse_segments(
    alloc: Global,
    arrows: &mut Arrows<'_>,
    tokens: &[Token],
    count: u32,
) -> Result<Vec<Segment>, NoMemory>
    requires lawful { IsLawful arrows.old.0 }
    requires few { length tokens.now ≤ TEXT_BYTES }
    requires tokens { All (λ (token : TextToken). token.id < 2 ^ 32 - 2) tokens.now }
    ensures tables { arrows.new.0 ≡ arrows.old.0 }
{
    let mut segments = Vec::new(alloc);
    let mut rest = tokens;
    for place in 0..count {
        let (segment, behind) = rest.split_at(rest.len() / (count - place) as usize);
        segments.push(parse_segment_by(alloc, arrows, place, segment)?)?;
        rest = behind;
    }
    Ok(segments)
}

/// The time of a parse in segments.
fn time_segments<R: CpuClock>(
    rt: &R,
    alloc: Global,
    tables: &Tables,
    tokens: &[Token],
    count: u32,
) -> Result<u64, Fault>
    requires lawful { IsLawful tables.now }
    requires few { length tokens.now ≤ TEXT_BYTES }
    requires tokens { All (λ (token : TextToken). token.id < 2 ^ 32 - 2) tokens.now }
{
    let begun = rt.thread_cpu_time()?;
    let mut arrows = Arrows::new(alloc, tables);
    let _segments = parse_segments(alloc, &mut arrows, tokens, count)?;
    Ok(spent_since(rt, begun)?)
}

/// What segments are.
fn count_all(alloc: Global, segments: &[Segment]) -> Result<Counts, NoMemory> {
    let mut counts = Counts::none();
    for segment in segments {
        counts.count_segment(alloc, segment)?;
    }
    Ok(counts)
}

/// What the tokens are parsed into, in so many segments. They are parsed twice by one table of maps, so that the second parse
/// takes memory for its segments alone. How much the process takes before, between and behind is written, where the system
/// says it.
fn weigh_segments<R: Files + Eprint + AllocGlobal>(
    rt: &R,
    alloc: Global,
    tables: &Tables,
    tokens: &[Token],
    count: u32,
) -> Result<Counts, Fault>
    requires lawful { IsLawful tables.now }
    requires few { length tokens.now ≤ TEXT_BYTES }
    requires tokens { All (λ (token : TextToken). token.id < 2 ^ 32 - 2) tokens.now }
{
    let before = resident_pages(rt);
    let mut arrows = Arrows::new(alloc, tables);
    let segments = parse_segments(alloc, &mut arrows, tokens, count)?;
    let between = resident_pages(rt);
    let _again = parse_segments(alloc, &mut arrows, tokens, count)?;
    let behind = resident_pages(rt);
    if let (Some(before), Some(between), Some(behind)) = (before, between, behind) {
        eprintln!(rt; "pages {before} then {between} then {behind}")?;
    }
    Ok(count_all(alloc, &segments)?)
}

/// Parses in segments, to weigh and count what comes of it, and then in both ways by turns, of which it writes the times.
#[tactic(auto, using(lawful_theory::proofs::CanonicalLemmas::lawful_law))]
pub fn take_turns<R: Files + CpuClock + Eprint + AllocGlobal>(
    rt: &R,
    alloc: Global,
    input: &Input,
    segments: u32,
    turns: u32,
) -> Result<Counts, Fault>
    requires { IsInput input.now }
{
    let tables = &input.built.tables;
    let tokens = &input.tokens;
    let counts = weigh_segments(rt, alloc, tables, tokens, segments)?;
    for _ in 0..turns {
        let plain = time_plain(rt, alloc, tables, tokens)?;
        let spent = time_segments(rt, alloc, tables, tokens, segments)?;
        eprintln!(rt; "plain {plain} segments {spent}")?;
    }
    Ok(counts)
}
