//! Sets of places, as words of 64 bits.
ghost use Rattle.std.specs.Prelude.{◌≡◌, ◌↔◌, ℕ, ◌*◌, ◌<◌, ◌==◌, ◌||◌, ◌&&◌, false, true, length, slice_index, bit_or, bit_and, IfOk, MatchBool};
ghost use Rattle.position_sets.specs.Sets.{EqualByPlacesLaw, IsSetOfWords, has_place};

use std::alloc::{AllocError, Global};

/// How many places a word has.
const BITS: usize = 64;

/// A set with no place, of this many words.
pub fn no_places(alloc: Global, size: usize) -> Result<Vec<u64>, AllocError>
    ensures none { IfOk result (λ set. (place : ℕ) → has_place set.items place ≡ false) }
    ensures set { IfOk result (λ set. IsSetOfWords size set.items) }
{
    vec![in alloc; 0; size]
}

/// Whether the place is in the set.
pub fn has(set: &[u64], place: usize) -> bool
    ensures { result ≡ has_place set.now place }
{
    match set.get(place / BITS) {
        Some(word) => (*word >> (place % BITS)) & 1 == 1,
        None => false,
    }
}

/// Adds the place.
pub fn insert(set: &mut Vec<u64>, place: usize)
    requires { place < 64 * length set.old.items }
    ensures places { (other : ℕ) → has_place set.new.items other ≡ ((other == place) || has_place set.old.items other) }
    ensures set { (size : ℕ) → IsSetOfWords size set.old.items → IsSetOfWords size set.new.items }
{
    set[place / BITS] |= 1 << (place % BITS);
}

/// Adds the places of another set.
pub fn union(set: &mut Vec<u64>, other: &[u64])
    requires { length set.old.items ≡ length other.now }
    ensures places { (place : ℕ) → has_place set.new.items place ≡ (has_place set.old.items place || has_place other.now place) }
    ensures set { (size : ℕ) → IsSetOfWords size set.old.items → IsSetOfWords size other.now → IsSetOfWords size set.new.items }
{
    for index in 0..other.len() {
        set[index] |= other[index];
    }
}

/// Whether some place is in both sets.
pub fn meet(set: &[u64], other: &[u64]) -> bool
    requires { length set.now ≡ length other.now }
    ensures { MatchBool result
        ((place : ℕ) × (has_place set.now place ≡ true) × (has_place other.now place ≡ true))
        ((place : ℕ) → (has_place set.now place && has_place other.now place) ≡ false) }
{
    for index in 0..set.len() {
        if set[index] & other[index] != 0 {
            return true;
        }
    }
    false
}

/// The places that are in both sets.
pub fn common(alloc: Global, set: &[u64], other: &[u64]) -> Result<Vec<u64>, AllocError>
    requires { length set.now ≡ length other.now }
    ensures places { IfOk result (λ both. (place : ℕ) → has_place both.items place ≡ (has_place set.now place && has_place other.now place)) }
    ensures set { IfOk result (λ both. (size : ℕ) → IsSetOfWords size set.now → IsSetOfWords size other.now → IsSetOfWords size both.items) }
{
    let mut both = Vec::with_capacity(alloc, set.len())?;
    for index in 0..set.len() {
        both.push(set[index] & other[index])?;
    }
    Ok(both)
}

/// Sets of as many words with the same places are equal.
pub fn equal_by_places()
    ensures { EqualByPlacesLaw }
{}
