//! A search breadth first over a scanner's states, bytes in rising order.
ghost use Rattle.std.specs.Prelude.{◌≡◌, ℕ, ◌+◌, ◌*◌, ◌<◌, length, slice_get, Some, All, IfOk};
ghost use Rattle.token_patterns.specs.Scanner.{Table};
ghost use Rattle.short_words.specs.Searching.{IsNoted, IsSearchTo, unseen_in};

use std::alloc::{AllocError, Global};
use token_patterns::Scanner;

/// How many bytes there are.
const BYTES: usize = 256;

/// A state that was found: by this byte, from the state that was found at this place. The start has neither.
#[derive(Clone, Copy, Debug)]
pub struct Found {
    pub from: usize,
    pub state: u16,
    pub byte: u8,
}

/// The states that were found, in the order of their words, and for each state whether it was.
#[derive(Debug, Drop)]
pub struct Search {
    pub found: Vec<Found>,
    pub seen: Vec<bool>,
}

/// The start alone, of so many states.
pub fn first_search(alloc: Global, states: usize) -> Result<Search, AllocError>
    requires { 0 < states }
    ensures search { IfOk result (λ search. (table : Table) → IsSearchTo table search.found.items search.seen.items 0) }
    ensures size { IfOk result (λ search. length search.seen.items ≡ states) }
    ensures some { IfOk result (λ search. length search.found.items ≡ 1) }
{
    let mut seen = vec![in alloc; false; states]?;
    seen[0] = true;
    let start = Found {
        from: 0,
        state: 0,
        byte: 0,
    };
    let mut found = Vec::new(alloc);
    found.push(start)?;
    Ok(Search { found, seen })
}

/// Puts a state last, unless it was found before.
fn note(search: &mut Search, entry: Found) -> Result<(), AllocError>
    requires { entry.state < length search.old.seen.items }
    ensures { IfOk result (λ _. IsNoted entry search.old.found.items search.old.seen.items search.new.found.items search.new.seen.items) }
{
    let state = usize::from(entry.state);
    if search.seen[state] {
        return Ok(());
    }
    search.found.push(entry)?;
    search.seen[state] = true;
    Ok(())
}

/// Goes on from the state that was found at a place, by each byte.
pub fn expand(scanner: &Scanner, search: &mut Search, at: usize) -> Result<(), AllocError>
    requires at { at < length search.old.found.items }
    requires size { length search.old.seen.items ≡ length scanner.now.ends }
    requires search { IsSearchTo scanner.now search.old.found.items search.old.seen.items (256 * at) }
    ensures search { IfOk result (λ _. IsSearchTo scanner.now search.new.found.items search.new.seen.items (256 * (at + 1))) }
    ensures size { IfOk result (λ _. length search.new.seen.items ≡ length search.old.seen.items) }
    ensures unseen { IfOk result (λ _. unseen_in search.new.seen.items + length search.new.found.items ≡ unseen_in search.old.seen.items + length search.old.found.items) }
    ensures kept { IfOk result (λ _. (k : ℕ) (f : Found) → slice_get search.old.found.items k ≡ Some f → slice_get search.new.found.items k ≡ Some f) }
{
    let state = search.found[at].state;
    for byte in 0..BYTES {
        let byte = byte as u8;
        let next = scanner.next(state, byte);
        let entry = Found {
            from: at,
            state: next,
            byte,
        };
        note(search, entry)?;
    }
    Ok(())
}
