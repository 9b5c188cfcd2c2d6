//! Rows of canonical collections: how many states there are, where their steps lead, and what is too large.

ghost use Rattle.std.specs.Prelude.{◌≡◌, ◌<◌};
ghost use Rattle.collection_data.specs.Collection.{state_count};

use crate::names::{grammar_of, symbol_of};
use first_sets::analyse;
use item_sets::{CollectFault, Collection, collect};
use lr_base::{Grammar, StateId};
use std::alloc::Global;
use std::test::Fail;

/// What may be found of a grammar.
#[derive(Debug, Drop)]
pub enum Collected {
    States(Collection),
    TooManyStates,
    /// There is no collection for want of memory, or since a name is useless.
    Nothing,
}

/// What is found of a grammar.
pub fn try_collect(alloc: Global, grammar: &Grammar) -> Collected {
    match analyse(alloc, grammar) {
        Ok(firsts) => match collect(alloc, grammar, &firsts) {
            Ok(collection) => Collected::States(collection),
            Err(CollectFault::TooManyStates) => Collected::TooManyStates,
            Err(CollectFault::NoMemory) => Collected::Nothing,
        },
        Err(_) => Collected::Nothing,
    }
}

/// The state that a list of symbols leads to from another.
fn walk(collection: &Collection, from: u32, letters: &[u8]) -> Option<u32> {
    let mut state = from;
    for letter in letters {
        if state >= collection.states() {
            return None;
        }
        state = collection.step(StateId(state), symbol_of(*letter))?.0;
    }
    Some(state)
}

/// How many entries a state has.
fn entries(collection: &Collection, state: u32) -> usize {
    if state < collection.states() {
        collection.items(StateId(state)).len()
    } else {
        0
    }
}

static TWO_LISTS: [&[u8]; 3] = [b"ABB", b"BaB", b"Bb"];

/// The steps of the two lists: from a state, along a symbol, to a state.
static STEPS: [(u32, u8, u32); 13] = [
    (0, b'a', 1),
    (0, b'b', 2),
    (0, b'A', 3),
    (0, b'B', 4),
    (1, b'a', 1),
    (1, b'b', 2),
    (1, b'B', 5),
    (4, b'a', 6),
    (4, b'b', 7),
    (4, b'B', 8),
    (6, b'a', 6),
    (6, b'b', 7),
    (6, b'B', 9),
];

/// Where the step from a state along a symbol leads, as stated.
fn stated_step(from: u32, letter: u8) -> Option<u32> {
    STEPS
        .iter()
        .find(|step| step.0 == from && step.1 == letter)
        .map(|step| step.2)
}

/// Whether each step from a state is as stated.
fn are_stated_steps(collection: &Collection, from: u32) -> bool {
    b"abcdeAB".iter().all(|letter| walk(collection, from, &[*letter]) == stated_step(from, *letter))
}

#[test]
fn two_lists_have_ten_states(rt: HostRuntime) -> Result<(), Fail> {
    let grammar = grammar_of(rt.alloc(), 2, &TWO_LISTS)?.ok_or("no grammar")?;
    match try_collect(rt.alloc(), &grammar) {
        Collected::States(collection) => {
            assert_eq!(rt; collection.states(), 10);
            for state in 0..10 {
                assert!(rt; are_stated_steps(&collection, state), "state {state}");
            }
        }
        _ => assert!(rt; false, "no collection"),
    }
    Ok(())
}

/// Two rules over `e`, told from each other by what stands before and behind it.
static OUTER_PAIRS: [&[u8]; 6] = [b"AaBc", b"AaCd", b"AbCc", b"AbBd", b"Be", b"Ce"];

#[test]
fn states_of_one_core_stay_apart(rt: HostRuntime) -> Result<(), Fail> {
    let grammar = grammar_of(rt.alloc(), 3, &OUTER_PAIRS)?.ok_or("no grammar")?;
    match try_collect(rt.alloc(), &grammar) {
        Collected::States(collection) => {
            let first = walk(&collection, 0, b"ae").ok_or("no state behind a")?;
            let second = walk(&collection, 0, b"be").ok_or("no state behind b")?;
            assert!(rt; first != second);
            assert_eq!(rt; entries(&collection, first), 2);
            assert_eq!(rt; entries(&collection, second), 2);
        }
        _ => assert!(rt; false, "no collection"),
    }
    Ok(())
}

/// Which of the last fourteen tokens were `a` has to be known.
static FOURTEEN_BACK: [&[u8]; 31] = [
    b"AaA", b"AbA", b"AaB", b"BaC", b"BbC", b"CaD", b"CbD", b"DaE", b"DbE", b"EaF", b"EbF", b"FaG",
    b"FbG", b"GaH", b"GbH", b"HaI", b"HbI", b"IaJ", b"IbJ", b"JaK", b"JbK", b"KaL", b"KbL", b"LaM",
    b"LbM", b"MaN", b"MbN", b"NaO", b"NbO", b"Oa", b"Ob",
];

#[test]
fn more_states_than_the_limit(rt: HostRuntime) -> Result<(), Fail> {
    let grammar = grammar_of(rt.alloc(), 15, &FOURTEEN_BACK)?.ok_or("no grammar")?;
    assert!(rt; matches!(try_collect(rt.alloc(), &grammar), Collected::TooManyStates));
    Ok(())
}
