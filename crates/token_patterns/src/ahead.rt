//! What comes behind a set of positions.
ghost use Rattle.std.specs.Prelude.{◌≡◌, ℕ, ◌+◌, ◌*◌, ◌<◌, ◌≤◌, ◌↔◌, ◌⊎◌, false, length, slice_get, Some, IfOk};
ghost use Rattle.position_sets.specs.declared.following.Position.{Position as Row};
ghost use Rattle.position_sets.specs.Sets.{Has, IsSetOfWords, has_place};
ghost use Rattle.scanning_theory.specs.declared.limits.TheConstants.{PATTERNS, POSITIONS};
ghost use Rattle.token_patterns.specs.Ahead.{IsBehindOne, IsBehindOneBelow, IsFirstRank};

use position_sets::{Position, has, no_places, union};
use std::alloc::{AllocError, Global};

/// The number that says that no pattern ends.
pub const NO_RANK: u16 = u16::MAX;

/// How many places a word of a set has.
const WORD_PLACES: usize = 64;

/// The places that come behind a position of the set. Words of the set without a place are passed over, so that this
/// costs by the set's places.
pub fn ahead_of(
    alloc: Global,
    positions: &[Position],
    set: &[u64],
    size: usize,
) -> Result<Vec<u64>, AllocError>
    requires { (q : ℕ) (row : Row) → slice_get positions.now q ≡ Some row → IsSetOfWords size row.next.items }
    ensures places { IfOk result (λ ahead. (place : ℕ) → Has ahead.items place ↔ IsBehindOne positions.now set.now place) }
    ensures set { IfOk result (λ ahead. IsSetOfWords size ahead.items) }
{
    let mut ahead = no_places(alloc, size)?;
    for index in 0..positions.len() / WORD_PLACES + 1 {
        add_behind_word(&mut ahead, positions, set, index, size);
    }
    Ok(ahead)
}

/// Whether a word of the set has a place.
fn has_some(set: &[u64], index: usize) -> bool
    ensures { result ≡ false → (place : ℕ) → 64 * index ≤ place → place < 64 * (index + 1) → has_place set.now place ≡ false }
{
    match set.get(index) {
        Some(word) => *word != 0,
        None => false,
    }
}

/// Adds what comes behind those positions whose places are in one word of the set.
fn add_behind_word(
    ahead: &mut Vec<u64>,
    positions: &[Position],
    set: &[u64],
    index: usize,
    size: usize,
)
    requires rows { (q : ℕ) (row : Row) → slice_get positions.now q ≡ Some row → IsSetOfWords size row.next.items }
    requires set { IsSetOfWords size ahead.old.items }
    requires begins { 64 * index ≤ length positions.now }
    requires before { (q : ℕ) → Has ahead.old.items q ↔ IsBehindOneBelow positions.now set.now (64 * index) q }
    ensures places { (q : ℕ) → Has ahead.new.items q ↔ IsBehindOneBelow positions.now set.now (64 * (index + 1)) q }
    ensures set { IsSetOfWords size ahead.new.items }
{
    if !has_some(set, index) {
        return;
    }
    let from = WORD_PLACES * index;
    let to = positions.len().min(from + WORD_PLACES);
    for place in from..to {
        add_behind(ahead, set, place, &positions[place]);
    }
}

/// Adds what comes behind a position, where its place is in the set.
fn add_behind(ahead: &mut Vec<u64>, set: &[u64], place: usize, position: &Position)
    requires { length ahead.old.items ≡ length position.now.next.items }
    ensures places { (q : ℕ) → Has ahead.new.items q ↔ (Has ahead.old.items q ⊎ (Has set.now place × Has position.now.next.items q)) }
    ensures set { (size : ℕ) → IsSetOfWords size ahead.old.items → IsSetOfWords size position.now.next.items → IsSetOfWords size ahead.new.items }
{
    if has(set, place) {
        union(ahead, &position.next);
    }
}

/// The least rank whose place is in the set; that of rank k is place `ends + k`.
pub fn first_rank(set: &[u64], ends: usize, ranks: usize) -> u16
    requires few { ranks ≤ PATTERNS }
    requires small { ends ≤ POSITIONS }
    ensures { IsFirstRank set.now ends ranks result }
{
    for rank in 0..ranks {
        if has(set, ends + rank) {
            return rank as u16;
        }
    }
    NO_RANK
}
