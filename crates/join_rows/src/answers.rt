//! Rows of texts: however their tokens are cut and joined, they come to what one parse comes to.

ghost use Rattle.std.specs.Prelude.{◌<◌, ◌≤◌, IfOk, length};
ghost use Rattle.grammar_checks.specs.Building.{IsBuilt};
ghost use Rattle.join_rows.specs.Rows.{IsWalkable};
ghost use Rattle.lr_base.specs.declared.limits.TheConstants.{TEXT_BYTES};
ghost use Rattle.node_store.specs.Walking.{IsFinished};
ghost use Rattle.plain_parse.specs.Parses.{AreTextTokens};

use crate::joining::{Bracketing, Plan, joined_pieces};
use crate::texts::{LISTS, LetterSheet, PARTS, SUMS, tokens_of};
use arrow_table::Arrows;
use grammar_checks::{Built, build_grammar};
use lr_base::{NoMemory, TEXT_BYTES, Token};
use node_store::{NodeRef, Step, Store};
use plain_parse::{Parsed, parse_one};
use sheet_reader::{Sheet, read_sheet};
use stack_finish::finish;
use std::alloc::Global;
use std::test::Fail;

/// More steps than a walk over any row's tree has.
const STEPS: u32 = 1_000;

/// Texts of parts: sentences, and texts with a mistake at each of several places.
const PART_TEXTS: [&[u8]; 12] = [
    b"dcd", b"ccdcccd", b"dd", b"", b"ccdccc", b"ccdcdd", b"ddc", b"ddd", b"cddd", b"d?", b"?ddd",
    b"c?dcd",
];

/// Texts of sums.
const SUM_TEXTS: [&[u8]; 9] = [
    b"1;",
    b"(1);",
    b"1+((1+1)+1);1;(1+1);1+1+1+(1);",
    b"((((1))));((1)+1);",
    b"1+(1+1;1;",
    b"1+1);1;",
    b"1;1+;1;",
    b"1;(1+1)+1",
    b"1;1)(;+",
];

/// Texts of lists that nest.
const LIST_TEXTS: [&[u8]; 4] = [
    b"[!x,x[x,x,x[][!]]x]",
    b"[[[[x]]]x,x]",
    b"[x,x!]",
    b"[x,,x]",
];

/// A step of a walk as a number: a node that is entered, one that is left, or a token at its place.
fn step_number(step: Step) -> u64 {
    match step {
        Step::Enter(_) => 1,
        Step::Leave(_) => 2,
        Step::Token(token) => u64::from(token.id.0).wrapping_add(3)
            | (u64::from(token.place.start) << 40),
    }
}

/// The steps of a walk over a tree, as numbers.
fn steps_of(alloc: Global, store: &Store, root: NodeRef) -> Result<Vec<u64>, NoMemory>
    requires { IsFinished store.now root }
{
    let mut walk = store.walk(alloc, root)?;
    let mut steps = Vec::new(alloc);
    for _ in 0..STEPS {
        match walk.next_step()? {
            Some(step) => steps.push(step_number(step))?,
            None => break,
        }
    }
    Ok(steps)
}

/// Whether two trees have the same steps, and their stores as many nodes.
fn are_same_trees(
    alloc: Global,
    root: NodeRef,
    store: &Store,
    other_root: NodeRef,
    other: &Store,
) -> Result<bool, NoMemory>
    requires one { IsFinished store.now root }
    requires other { IsFinished other.now other_root }
{
    let steps = steps_of(alloc, store, root)?;
    let others = steps_of(alloc, other, other_root)?;
    Ok(steps == others && store.node_count() == other.node_count())
}

/// Whether two parses came to the same.
fn are_same(alloc: Global, one: &Parsed, other: &Parsed) -> Result<bool, NoMemory>
    requires one { IsWalkable one.now }
    requires other { IsWalkable other.now }
{
    match (one, other) {
        (
            Parsed::Tree { root, store },
            Parsed::Tree {
                root: other_root,
                store: other_store,
            },
        ) => are_same_trees(alloc, *root, store, *other_root, other_store),
        (
            Parsed::Wrong {
                index,
                token,
                state,
            },
            Parsed::Wrong {
                index: other_index,
                token: other_token,
                state: other_state,
            },
        ) => Ok(*index == *other_index && *token == *other_token && state.0 == other_state.0),
        _ => Ok(false),
    }
}

/// What the joined segments of a text come to.
fn parse_joined(
    alloc: Global,
    sheet: &Sheet,
    built: &Built,
    tokens: &[Token],
    plan: Plan,
) -> Result<Parsed, NoMemory>
    requires built { IsBuilt sheet.now.grammar built.now }
    requires few { length tokens.now ≤ TEXT_BYTES }
    requires tokens { AreTextTokens built.now.tables tokens.now }
    requires long { 0 < plan.long }
    ensures { IfOk result (λ parsed. IsWalkable parsed) }
{
    built.tables.holds();
    let mut arrows = Arrows::new(alloc, &built.tables);
    let (pieces, number) = joined_pieces(alloc, &mut arrows, tokens, plan, 0)?;
    let parsed = finish(alloc, &built.tables, pieces, number)?;
    Ok(parsed)
}

/// What one parse of a text comes to.
fn parse_whole(
    alloc: Global,
    sheet: &Sheet,
    built: &Built,
    tokens: &[Token],
) -> Result<Parsed, NoMemory>
    requires built { IsBuilt sheet.now.grammar built.now }
    requires few { length tokens.now ≤ TEXT_BYTES }
    requires tokens { AreTextTokens built.now.tables tokens.now }
    ensures { IfOk result (λ parsed. IsWalkable parsed) }
{
    let parsed = parse_one(alloc, &built.tables, tokens)?;
    Ok(parsed)
}

/// Whether the joined segments of a text come to what one parse of it comes to, which is given.
fn is_joined_as_one(
    alloc: Global,
    sheet: &Sheet,
    built: &Built,
    tokens: &[Token],
    plan: Plan,
    whole: &Parsed,
) -> Result<bool, NoMemory>
    requires built { IsBuilt sheet.now.grammar built.now }
    requires few { length tokens.now ≤ TEXT_BYTES }
    requires tokens { AreTextTokens built.now.tables tokens.now }
    requires long { 0 < plan.long }
    requires whole { IsWalkable whole.now }
{
    let joined = parse_joined(alloc, sheet, built, tokens, plan)?;
    are_same(alloc, whole, &joined)
}

/// Whether a text comes to what one parse of it comes to, under each bracketing of segments of so many tokens.
fn are_bracketed_as_one(
    alloc: Global,
    sheet: &Sheet,
    built: &Built,
    tokens: &[Token],
    long: usize,
    whole: &Parsed,
) -> Result<bool, NoMemory>
    requires built { IsBuilt sheet.now.grammar built.now }
    requires few { length tokens.now ≤ TEXT_BYTES }
    requires tokens { AreTextTokens built.now.tables tokens.now }
    requires long { 0 < long }
    requires whole { IsWalkable whole.now }
{
    for bracketing in [
        Bracketing::FromLeft,
        Bracketing::FromRight,
        Bracketing::Halves,
        Bracketing::BetweenNone,
    ] {
        let plan = Plan { long, bracketing };
        if !is_joined_as_one(alloc, sheet, built, tokens, plan, whole)? {
            return Ok(false);
        }
    }
    Ok(true)
}

/// Whether a text comes to what one parse of it comes to, under each bracketing of segments of several lengths.
fn are_cut_as_one(
    alloc: Global,
    sheet: &Sheet,
    built: &Built,
    tokens: &[Token],
    whole: &Parsed,
) -> Result<bool, NoMemory>
    requires built { IsBuilt sheet.now.grammar built.now }
    requires few { length tokens.now ≤ TEXT_BYTES }
    requires tokens { AreTextTokens built.now.tables tokens.now }
    requires whole { IsWalkable whole.now }
{
    for long in 1usize..6 {
        if !are_bracketed_as_one(alloc, sheet, built, tokens, long, whole)? {
            return Ok(false);
        }
    }
    Ok(true)
}

/// Whether a text of letters comes to what one parse of it comes to, however its tokens are cut and joined.
fn are_joined_as_one(
    alloc: Global,
    sheet: &Sheet,
    built: &Built,
    letters: &[u8],
    text: &[u8],
) -> Result<bool, Fail>
    requires built { IsBuilt sheet.now.grammar built.now }
{
    let tokens = tokens_of(alloc, &built.tables, letters, text)?;
    if tokens.len() > TEXT_BYTES {
        return Err(Fail::from("too many tokens"));
    }
    let whole = parse_whole(alloc, sheet, built, &tokens)?;
    Ok(are_cut_as_one(alloc, sheet, built, &tokens, &whole)?)
}

/// Whether texts of a sheet come to what one parse comes to, however they are cut and joined; `Some` with the place of the first
/// that doesn't.
fn first_other(alloc: Global, sheet: &LetterSheet, texts: &[&[u8]]) -> Result<Option<usize>, Fail> {
    let read = read_sheet(alloc, sheet.sheet)?;
    let built = build_grammar(alloc, read.grammar())?;
    for i in 0..texts.len() {
        if !are_joined_as_one(alloc, &read, &built, sheet.letters, texts[i])? {
            return Ok(Some(i));
        }
    }
    Ok(None)
}

#[test]
fn parts_come_to_what_one_parse_comes_to(rt: HostRuntime) -> Result<(), Fail> {
    let other = first_other(rt.alloc(), &PARTS, &PART_TEXTS)?;
    assert!(rt; other.is_none(), "{:?}", other);
    Ok(())
}

#[test]
fn sums_come_to_what_one_parse_comes_to(rt: HostRuntime) -> Result<(), Fail> {
    let other = first_other(rt.alloc(), &SUMS, &SUM_TEXTS)?;
    assert!(rt; other.is_none(), "{:?}", other);
    Ok(())
}

#[test]
fn lists_come_to_what_one_parse_comes_to(rt: HostRuntime) -> Result<(), Fail> {
    let other = first_other(rt.alloc(), &LISTS, &LIST_TEXTS)?;
    assert!(rt; other.is_none(), "{:?}", other);
    Ok(())
}
