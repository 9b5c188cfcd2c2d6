ghost use Rattle.std.specs.Prelude.{◌≡◌, ◌≢◌, ℕ, ◌+◌, ◌-◌, ◌*◌, ◌^◌, ◌<◌, ◌≤◌, true, false, List, length, slice_index, MatchOption, IfOk, IfErr, IfSome};
ghost use Rattle.pattern_data.specs.declared.pattern.Pattern.{Pattern};
ghost use Rattle.position_theory.specs.States.{HasMoreStates};
ghost use Rattle.scanning_theory.specs.Scan.{HasNoMatch, IsLongest};
ghost use Rattle.scanning_theory.specs.declared.limits.TheConstants.{STATES};
ghost use Rattle.scanning_theory.specs.Scannable.{IsScannable};
ghost use Rattle.lr_base.specs.declared.limits.TheConstants.{TEXT_BYTES};
ghost use Rattle.token_patterns.specs.Ahead.{no_rank};
ghost use Rattle.token_patterns.specs.Scanner.{EndsHere, EndsMatch, IsScannerOf, IsTable, ranks_of};

use crate::ahead::NO_RANK;
use crate::building::{Search, search_states};
use crate::fault::ScannerFault;
use crate::walk::{Found, Walk};
use dead_ends::DeadEnds;
use pattern_data::Pattern;
use std::alloc::Global;
use std::marker::Model;

/// How many bytes there are, which is how many cells a state has.
const BYTES: usize = 256;

/// How many bytes beyond its match a walk goes before it keeps dead ends.
const FAR: usize = 64;

/// What finds the longest match of some patterns: a table of states by bytes. The rank of a pattern is its place in
/// their list.
///
/// `IsScannerOf` says of which patterns a scanner is, and `ranks_of` how many they are. A cell holds the state to which
/// a byte leads, or 0 where no string goes on so; state 0 is the start, to which no byte leads.
#[derive(Debug, Drop)]
pub struct Scanner {
    cells: Vec<u16>,
    ends: Vec<u16>,
    ranks: usize,
}

impl Model for Scanner {
    ghost use Rattle.token_patterns.specs.Scanner.{IsTable, Table};

    ghost Value = { Table };

    ghost view = { λ s. record { cells = s.cells.items; ends = s.ends.items; ranks = s.ranks } };

    ghost invariant = { λ s. IsTable (record { cells = s.cells.items; ends = s.ends.items; ranks = s.ranks }) };
}

impl Scanner {
    ghost use Rattle.dead_ends.specs.Pairs.{AreOfOneLine, Keeps};
    ghost use Rattle.token_patterns.specs.Walking.{AreDeadEnds, IsWalk};

    /// The scanner of these patterns; `TooManyStates` exactly where they have more than 20,000 scanner states.
    pub fn build(alloc: Global, patterns: &[Pattern]) -> Result<Scanner, ScannerFault>
        requires { IsScannable patterns.now }
        ensures scanner { IfOk result (λ scanner. IsScannerOf scanner patterns.now) }
        ensures ranks { IfOk result (λ scanner. ranks_of scanner ≡ length patterns.now) }
        ensures few { IfOk result (λ _. ¬ (HasMoreStates patterns.now STATES)) }
        ensures many { IfErr result (λ fault. fault ≡ ScannerFault.TooManyStates → HasMoreStates patterns.now STATES) }
    {
        let search = search_states(alloc, patterns)?;
        let Search {
            sets: _,
            cells,
            ends,
        } = search;
        Ok(Scanner {
            cells,
            ends,
            ranks: patterns.len(),
        })
    }

    /// How many states there are; they are numbered from 0, which is the start.
    pub fn state_count(&self) -> usize
        ensures count { result ≡ length self.now.ends }
        ensures table { IsTable self.now }
    {
        self.ends.len()
    }

    /// The state to which a byte leads from a state; 0 where no string goes on so.
    pub fn next(&self, state: u16, byte: u8) -> u16
        requires { state < length self.now.ends }
        ensures cell { result ≡ slice_index self.now.cells (256 * state + byte) }
        ensures inside { result < length self.now.ends }
    {
        step(&self.cells, usize::from(state), byte) as u16
    }

    /// The least rank whose pattern ends at a state; none where no pattern does.
    pub fn end(&self, state: u16) -> Option<u32>
        requires { state < length self.now.ends }
        ensures { MatchOption result (slice_index self.now.ends state ≡ no_rank) (λ rank. (slice_index self.now.ends state ≡ rank) × (rank ≢ no_rank)) }
    {
        let end = self.ends[usize::from(state)];
        if end == NO_RANK {
            None
        } else {
            Some(u32::from(end))
        }
    }

    /// The longest match at a place of the text: its length, and the least rank that has it. It takes no memory, and
    /// looks once at each byte up to the place where no string goes on.
    pub fn longest(&self, text: &[u8], from: usize) -> Option<(usize, u32)>
        requires { from ≤ length text.now }
        ensures longest { (patterns : List Pattern) → IsScannerOf self.now patterns → MatchOption result (HasNoMatch patterns text.now from) (λ found. IsLongest patterns text.now from found.0 found.1) }
        ensures some { IfSome result (λ found. 0 < found.0) }
        ensures inside { IfSome result (λ found. from + found.0 ≤ length text.now) }
        ensures ranked { IfSome result (λ found. found.1 < ranks_of self.now) }
    {
        self.walk(text, from, self.start(from), text.len()).best
    }

    /// The longest match at a place of a line, as `longest` has it, by what is known of the line and with what comes to
    /// be known: a walk that comes to a dead end stops there, and one that goes far beyond its match keeps its own.
    /// Where there is no memory for these, nothing else changes.
    pub fn longest_with(
        &self,
        text: &[u8],
        from: usize,
        dead_ends: &mut DeadEnds,
    ) -> Option<(usize, u32)>
        requires from { from ≤ length text.now }
        requires small { length text.now ≤ TEXT_BYTES }
        requires begun { dead_ends.old.begin ≤ from }
        requires dead { AreDeadEnds self.now text.now dead_ends.old }
        ensures longest { (patterns : List Pattern) → IsScannerOf self.now patterns → MatchOption result (HasNoMatch patterns text.now from) (λ found. IsLongest patterns text.now from found.0 found.1) }
        ensures some { IfSome result (λ found. 0 < found.0) }
        ensures inside { IfSome result (λ found. from + found.0 ≤ length text.now) }
        ensures ranked { IfSome result (λ found. found.1 < ranks_of self.now) }
        ensures dead { AreDeadEnds self.now text.now dead_ends.new }
        ensures line { AreOfOneLine dead_ends.old dead_ends.new }
        ensures kept { (place state : ℕ) → Keeps dead_ends.old place state → Keeps dead_ends.new place state }
    {
        let near = near_end(text, from, dead_ends);
        let walk = self.walk(text, from, self.start(from), near);
        if walk.ended {
            return walk.best;
        }
        self.longest_far(text, from, walk, dead_ends)
    }

    /// A walk that has read nothing, at the start state.
    fn start(&self, from: usize) -> Walk
        ensures walk { (text : List ℕ) → from ≤ length text → IsWalk self.now text from result }
        ensures at { result.at ≡ from }
        ensures goes_on { result.ended ≡ false }
    {
        // The table has a state at least.
        let _ = &self.ends;
        Walk {
            at: from,
            state: 0,
            best: None,
            ended: false,
        }
    }

    /// Goes on with a walk up to a place, or to where no string goes on.
    #[inline(always)]
    fn walk(&self, text: &[u8], from: usize, walk: Walk, to: usize) -> Walk
        requires order { walk.at ≤ to }
        requires inside { to ≤ length text.now }
        requires walk { IsWalk self.now text.now from walk }
        requires goes_on { walk.ended ≡ false }
        ensures walk { IsWalk self.now text.now from result }
        ensures further { walk.at ≤ result.at }
        ensures to { result.ended ≡ false → result.at ≡ to }
    {
        let cells = self.cells.as_slice();
        let ends = self.ends.as_slice();
        let mut state = usize::from(walk.state);
        let mut found = found_of(from, walk.best);
        for at in walk.at..to {
            state = step(cells, state, text[at]);
            if state == 0 {
                return Walk {
                    at,
                    state: 0,
                    best: best_of(from, found),
                    ended: true,
                };
            }
            found = ended(ends, state, at + 1, found);
        }
        Walk {
            at: to,
            state: state as u16,
            best: best_of(from, found),
            ended: false,
        }
    }

    /// The longest match at the place from which a walk comes that may have a longer one.
    #[inline(never)]
    fn longest_far(
        &self,
        text: &[u8],
        from: usize,
        walk: Walk,
        dead_ends: &mut DeadEnds,
    ) -> Option<(usize, u32)>
        requires small { length text.now ≤ TEXT_BYTES }
        requires begun { dead_ends.old.begin ≤ from }
        requires dead { AreDeadEnds self.now text.now dead_ends.old }
        requires walk { IsWalk self.now text.now from walk }
        requires goes_on { walk.ended ≡ false }
        ensures longest { (patterns : List Pattern) → IsScannerOf self.now patterns → MatchOption result (HasNoMatch patterns text.now from) (λ found. IsLongest patterns text.now from found.0 found.1) }
        ensures some { IfSome result (λ found. 0 < found.0) }
        ensures inside { IfSome result (λ found. from + found.0 ≤ length text.now) }
        ensures ranked { IfSome result (λ found. found.1 < ranks_of self.now) }
        ensures dead { AreDeadEnds self.now text.now dead_ends.new }
        ensures line { AreOfOneLine dead_ends.old dead_ends.new }
        ensures kept { (place state : ℕ) → Keeps dead_ends.old place state → Keeps dead_ends.new place state }
    {
        let far = self.walk_far(text, from, walk, dead_ends);
        self.keep_passed(text, from, far, dead_ends);
        far.best
    }

    /// Goes on with a walk until no longer match comes.
    fn walk_far(&self, text: &[u8], from: usize, walk: Walk, dead_ends: &DeadEnds) -> Walk
        requires small { length text.now ≤ TEXT_BYTES }
        requires begun { dead_ends.now.begin ≤ from }
        requires dead { AreDeadEnds self.now text.now dead_ends.now }
        requires walk { IsWalk self.now text.now from walk }
        requires goes_on { walk.ended ≡ false }
        ensures walk { IsWalk self.now text.now from result }
        ensures ended { result.ended ≡ true }
    {
        let mut walk = walk;
        loop {
            let next = self.walk_to_mark(text, from, walk, dead_ends);
            if next.ended {
                return next;
            }
            walk = next;
        }
    }

    /// Goes on with a walk up to the next mark. It has ended there where the text ends, or the mark is a dead end.
    fn walk_to_mark(&self, text: &[u8], from: usize, walk: Walk, dead_ends: &DeadEnds) -> Walk
        requires small { length text.now ≤ TEXT_BYTES }
        requires begun { dead_ends.now.begin ≤ from }
        requires dead { AreDeadEnds self.now text.now dead_ends.now }
        requires walk { IsWalk self.now text.now from walk }
        requires goes_on { walk.ended ≡ false }
        ensures walk { IsWalk self.now text.now from result }
        ensures further { result.ended ≡ false → walk.at < result.at }
    {
        let mark = dead_ends.next_mark(walk.at).min(text.len());
        let next = self.walk(text, from, walk, mark);
        if next.ended || next.at < text.len() && !dead_ends.keeps(next.at, next.state) {
            return next;
        }
        Walk {
            ended: true,
            ..next
        }
    }

    /// Keeps the pairs at marks that a walk passed far beyond its match, and from which no match came.
    fn keep_passed(&self, text: &[u8], from: usize, far: Walk, dead_ends: &mut DeadEnds)
        requires small { length text.now ≤ TEXT_BYTES }
        requires begun { dead_ends.old.begin ≤ from }
        requires dead { AreDeadEnds self.now text.now dead_ends.old }
        requires far { IsWalk self.now text.now from far }
        requires ended { far.ended ≡ true }
        ensures dead { AreDeadEnds self.now text.now dead_ends.new }
        ensures line { AreOfOneLine dead_ends.old dead_ends.new }
        ensures kept { (place state : ℕ) → Keeps dead_ends.old place state → Keeps dead_ends.new place state }
    {
        let beyond = from + matched(far.best) + FAR;
        if far.at <= beyond {
            return;
        }
        let mut walk = self.walk(text, from, self.start(from), beyond);
        while let Some(next) = self.keep_next(text, from, far, walk, dead_ends) {
            walk = next;
        }
    }

    /// Goes on with a walk to the next mark that another one from the same place passed, and keeps its pair. `None` where
    /// there is no such mark, or no memory.
    fn keep_next(
        &self,
        text: &[u8],
        from: usize,
        far: Walk,
        walk: Walk,
        dead_ends: &mut DeadEnds,
    ) -> Option<Walk>
        requires small { length text.now ≤ TEXT_BYTES }
        requires begun { dead_ends.old.begin ≤ from }
        requires dead { AreDeadEnds self.now text.now dead_ends.old }
        requires far { IsWalk self.now text.now from far }
        requires ended { far.ended ≡ true }
        requires walk { IsWalk self.now text.now from walk }
        requires beyond { walk.ended ≡ false → IfSome far.best (λ found. from + found.0 ≤ walk.at) }
        ensures walk { IfSome result (λ next. IsWalk self.now text.now from next) }
        ensures further { IfSome result (λ next. walk.at < next.at) }
        ensures beyond { IfSome result (λ next. IfSome far.best (λ found. from + found.0 ≤ next.at)) }
        ensures dead { AreDeadEnds self.now text.now dead_ends.new }
        ensures line { AreOfOneLine dead_ends.old dead_ends.new }
        ensures kept { (place state : ℕ) → Keeps dead_ends.old place state → Keeps dead_ends.new place state }
    {
        let mark = dead_ends.next_mark(walk.at);
        if walk.ended || mark > far.at {
            return None;
        }
        let next = self.walk(text, from, walk, mark);
        if next.ended {
            return None;
        }
        match dead_ends.keep(next.at, next.state) {
            Ok(()) => Some(next),
            Err(_) => None,
        }
    }
}

/// Up to where a walk goes before it asks for dead ends: at once where there are some, else after a token of usual length.
fn near_end(text: &[u8], from: usize, dead_ends: &DeadEnds) -> usize
    requires from { from ≤ length text.now }
    requires small { length text.now ≤ TEXT_BYTES }
    ensures from { from ≤ result }
    ensures inside { result ≤ length text.now }
{
    if dead_ends.is_empty() {
        text.len().min(from + FAR)
    } else {
        from
    }
}

/// The length of a match, 0 where there is none.
fn matched(best: Option<(usize, u32)>) -> usize
    ensures { MatchOption best (result ≡ 0) (λ found. result ≡ found.0) }
{
    match best {
        Some((len, _)) => len,
        None => 0,
    }
}

/// A match from a place on, as the loop of a walk keeps it.
fn found_of(from: usize, best: Option<(usize, u32)>) -> Found
    requires inside { IfSome best (λ found. from + found.0 ≤ usize.MAX) }
    requires ranked { IfSome best (λ found. found.1 < no_rank) }
    ensures found { EndsMatch result.end (result.behind - from) None best }
    ensures behind { from ≤ result.behind }
{
    match best {
        Some((len, rank)) => Found {
            behind: from + len,
            end: rank as u16,
        },
        None => Found {
            behind: from,
            end: NO_RANK,
        },
    }
}

/// The match from a place on that the loop of a walk has kept: its length, and the least rank that has it.
fn best_of(from: usize, found: Found) -> Option<(usize, u32)>
    requires { from ≤ found.behind }
    ensures { EndsMatch found.end (found.behind - from) None result }
{
    if found.end == NO_RANK {
        None
    } else {
        Some((found.behind - from, u32::from(found.end)))
    }
}

/// The state to which the byte leads.
fn step(cells: &[u16], state: usize, byte: u8) -> usize
    requires { 256 * state + byte < length cells.now }
    ensures cell { result ≡ slice_index cells.now (256 * state + byte) }
    ensures small { result < 2 ^ 16 }
{
    usize::from(cells[state * BYTES + usize::from(byte)])
}

/// The match up to this place, where a pattern ends at the state, or else the one before.
fn ended(ends: &[u16], state: usize, behind: usize, before: Found) -> Found
    requires { state < length ends.now }
    ensures { EndsHere (slice_index ends.now state) behind before result }
{
    let end = ends[state];
    if end == NO_RANK {
        before
    } else {
        Found { behind, end }
    }
}
