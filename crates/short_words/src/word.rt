//! The first state at which a pattern ends, and the word that leads to it.
ghost use Rattle.std.specs.Prelude.{◌≡◌, ◌≢◌, ℕ, ◌+◌, ◌<◌, List, length, slice_get, slice_index, Some, IfOk, IsTrue, ◌↔◌, MatchOption};
ghost use Rattle.pattern_data.specs.declared.pattern.Pattern.{Pattern};
ghost use Rattle.sample_theory.specs.ShortestWords.{HasNoWord, IsShortestWord};
ghost use Rattle.token_patterns.specs.Ahead.{no_rank};
ghost use Rattle.token_patterns.specs.Scanner.{IsScannerOf, Table};
ghost use Rattle.short_words.specs.Searching.{AreLinked, AreWordsOf};

use crate::search::{Found, expand, first_search};
use lr_base::NoMemory;
use std::alloc::Global;
use token_patterns::Scanner;

/// The shortest, and of equally short ones the bytewise least, word that is a whole match of this rank; none exactly where
/// there is no word.
///
/// It looks at each state once, by each byte, and takes 16 bytes a state.
pub fn shortest_word(
    alloc: Global,
    scanner: &Scanner,
    rank: u32,
) -> Result<Option<Vec<u8>>, NoMemory>
    ensures { IfOk result (λ found. (patterns : List Pattern) → IsScannerOf scanner.now patterns → MatchOption found (HasNoWord patterns rank) (λ word. IsShortestWord patterns rank word.items)) }
{
    let mut search = first_search(alloc, scanner.state_count())?;
    let mut at = 0;
    while at < search.found.len() {
        if ends(scanner, search.found[at].state, rank) {
            return Ok(Some(word_at(alloc, &search.found, at)?));
        }
        expand(scanner, &mut search, at)?;
        at += 1;
    }
    Ok(None)
}

/// Whether a pattern of this rank, and none of a lesser one, ends at a state.
fn ends(scanner: &Scanner, state: u16, rank: u32) -> bool
    requires { state < length scanner.now.ends }
    ensures { IsTrue result ↔ ((slice_index scanner.now.ends state ≡ rank) × (rank ≢ no_rank)) }
{
    scanner.end(state) == Some(rank)
}

/// The word of the state that was found at a place: the bytes that led to it from the start.
fn word_at(alloc: Global, found: &[Found], place: usize) -> Result<Vec<u8>, NoMemory>
    requires linked { AreLinked found.now }
    requires place { place < length found.now }
    ensures { IfOk result (λ word. (words : List (List ℕ)) → AreWordsOf found.now words → slice_get words place ≡ Some word.items) }
{
    let mut bytes = Vec::new(alloc);
    let mut at = place;
    while at > 0 {
        let step = &found[at];
        bytes.push(step.byte)?;
        at = step.from;
    }
    bytes.reverse();
    Ok(bytes)
}
