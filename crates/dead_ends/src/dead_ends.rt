ghost use Rattle.std.specs.Prelude.{◌≡◌, ℕ, ◌+◌, ◌^◌, ◌*◌, ◌/◌, ◌<◌, ◌≤◌, ◌↔◌, ◌⊎◌, [], min, max, false, length, IsTrue, OnOk, OnErr, MatchOption};
ghost use Rattle.lr_base.specs.declared.limits.TheConstants.{TEXT_BYTES};
ghost use Rattle.position_sets.specs.Sets.{IsSetOfWords, has_place};

use lr_base::NoMemory;
use position_sets::{has, insert};
use std::alloc::Global;
use std::marker::Model;

/// How many numbers a state can have.
pub const STATE_NUMBERS: usize = 65_536;

/// How many bytes two marks are apart at the least.
const CLOSEST: usize = 16;

/// How many bits there are for a byte of the line at the most.
const BITS_A_BYTE: usize = 64;

/// How many bits a word has.
const WORD_BITS: usize = 64;

/// Dead ends of a line: pairs of a place and a state of a scanner. What is known of them is up to the caller.
///
/// Pairs are kept at marks alone: where the line begins, and from there on at every so many bytes, at least 16. A mark
/// has a bit for each state, so that a pair is found by its place and its state in constant time. The more states, the
/// further apart the marks are: the bits of a line take at most 8 bytes a byte of it, and 16 while their list grows.
#[derive(Debug, Drop)]
pub struct DeadEnds {
    begin: usize,
    states: usize,
    step: usize,
    words: Vec<u64>,
}

impl Model for DeadEnds {
    ghost use Rattle.dead_ends.specs.Pairs.{ArePairs, Pairs};

    ghost Value = { Pairs };

    ghost view = { λ d. record { begin = d.begin; states = d.states; step = d.step; words = d.words.items } };

    ghost invariant = { λ d. ArePairs (record { begin = d.begin; states = d.states; step = d.step; words = d.words.items }) };
}

impl DeadEnds {
    ghost use Rattle.dead_ends.specs.Pairs.{AreOfOneLine, CanKeep, IsIndex, IsMark, Keeps, KeepSame, words_up_to};

    /// No pairs, of the line that begins at the first byte, for a scanner of so many states. It takes no memory.
    pub fn new(alloc: Global, states: usize) -> DeadEnds
        ensures none { (place state : ℕ) → ¬ (Keeps result place state) }
        ensures empty { result.words ≡ [] }
        ensures begin { result.begin ≡ 0 }
        ensures states { result.states ≡ min states STATE_NUMBERS }
        ensures step { result.step ≡ max CLOSEST (result.states / BITS_A_BYTE + 1) }
    {
        let states = states.min(STATE_NUMBERS);
        DeadEnds {
            begin: 0,
            states,
            step: (states / BITS_A_BYTE + 1).max(CLOSEST),
            words: Vec::new(alloc),
        }
    }

    /// Goes on to the line that begins at this place, of which no pair is kept.
    pub fn start_line(&mut self, begin: usize)
        ensures none { (place state : ℕ) → ¬ (Keeps self.new place state) }
        ensures empty { self.new.words ≡ [] }
        ensures begin { self.new.begin ≡ begin }
        ensures states { self.new.states ≡ self.old.states }
        ensures step { self.new.step ≡ self.old.step }
    {
        self.begin = begin;
        self.words.clear();
    }

    /// Whether there are no bits, so that no pair is kept.
    pub fn is_empty(&self) -> bool
        ensures empty { IsTrue result ↔ (self.now.words ≡ []) }
        ensures none { IsTrue result → (place state : ℕ) → ¬ (Keeps self.now place state) }
    {
        self.words.is_empty()
    }

    /// The first mark behind a place of the line.
    pub fn next_mark(&self, place: usize) -> usize
        requires begun { self.now.begin ≤ place }
        requires inside { place ≤ TEXT_BYTES }
        ensures mark { IsMark self.now result }
        ensures behind { place < result }
        ensures first { result ≤ place + self.now.step }
    {
        place + (self.step - (place - self.begin) % self.step)
    }

    /// Whether the pair is kept.
    pub fn keeps(&self, place: usize, state: u16) -> bool
        requires { place ≤ TEXT_BYTES }
        ensures { IsTrue result ↔ Keeps self.now place state }
    {
        match self.index_of(place, state) {
            Some(index) => has(&self.words, index),
            None => false,
        }
    }

    /// Keeps a pair, where its place is a mark and its state has a bit; else nothing changes, nor where there is no
    /// memory for its bit.
    pub fn keep(&mut self, place: usize, state: u16) -> Result<(), NoMemory>
        requires { place ≤ TEXT_BYTES }
        ensures ok { OnOk result ((p s : ℕ) → Keeps self.new p s ↔ (Keeps self.old p s ⊎ ((p ≡ place) × (s ≡ state) × CanKeep self.old place state))) }
        ensures err { OnErr result (KeepSame self.old self.new) }
        ensures line { AreOfOneLine self.old self.new }
        ensures small { length self.new.words ≤ max (length self.old.words) (words_up_to self.old place) }
    {
        if let Some(index) = self.index_of(place, state) {
            grow(&mut self.words, index)?;
            insert(&mut self.words, index);
        }
        Ok(())
    }

    /// The bit that stands for the pair.
    fn index_of(&self, place: usize, state: u16) -> Option<usize>
        requires { place ≤ TEXT_BYTES }
        ensures { MatchOption result (¬ (CanKeep self.now place state)) (IsIndex self.now place state) }
    {
        let number = usize::from(state);
        if place < self.begin || number >= self.states {
            return None;
        }
        let past = place - self.begin;
        if past % self.step != 0 {
            return None;
        }
        Some(past / self.step * self.states + number)
    }
}

/// Puts words with no bit last, until there is one for this bit.
fn grow(words: &mut Vec<u64>, index: usize) -> Result<(), NoMemory>
    requires { index < 2 ^ 48 }
    ensures same { (other : ℕ) → has_place words.new.items other ≡ has_place words.old.items other }
    ensures inside { OnOk result (index < 64 * length words.new.items) }
    ensures err { OnErr result (words.new.items ≡ words.old.items) }
    ensures fit { OnOk result (IsSetOfWords (length words.new.items) words.new.items) }
    ensures size { length words.new.items ≤ max (length words.old.items) (index / 64 + 1) }
{
    let size = index / WORD_BITS + 1;
    if words.len() < size {
        words.resize(size, 0)?;
    }
    Ok(())
}
