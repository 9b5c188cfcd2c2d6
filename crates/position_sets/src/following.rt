//! The positions of a pattern, with what follows each.
ghost use Rattle.std.specs.Prelude.{◌≡◌, ℕ, ◌+◌, ◌*◌, ◌^◌, ◌<◌, ◌≤◌, ◌↔◌, ◌⊎◌, length, IfOk};
ghost use Rattle.pattern_data.specs.Language.{positions_of};
ghost use Rattle.position_theory.specs.Positions.{IsFirst, count_all};
ghost use Rattle.position_sets.specs.Follows.{AddsPositions, AddsInOrder, AddsOfOne, IsSetAdded};
ghost use Rattle.position_sets.specs.Begins.{IsPlaceOf};
ghost use Rattle.position_sets.specs.Sets.{Has, IsSetOfWords};

use crate::begin::begin_of;
use crate::places::{insert, no_places, union};
use pattern_data::{ByteSet, Pattern};
use std::alloc::{AllocError, Global};

/// A position: the bytes that it reads, and the places that may come behind it.
#[derive(Debug, Drop)]
pub struct Position {
    pub bytes: ByteSet,
    pub next: Vec<u64>,
}

/// Puts the positions of a pattern last, the later ones of the pattern first, and answers the places at which its strings
/// and then what is ahead begin. Each position is at the place of its number in the list.
#[cycle(followers)]
pub fn follow(
    alloc: Global,
    pattern: &Pattern,
    size: usize,
    ahead: &[u64],
    positions: &mut Vec<Position>,
) -> Result<Vec<u64>, AllocError>
    requires room { length positions.old.items + positions_of pattern.now ≤ 64 * size }
    requires small { size < 2 ^ 32 }
    requires set { IsSetOfWords size ahead.now }
    ensures { IfOk result (λ front. AddsPositions pattern.now size ahead.now positions.old.items positions.new.items front.items) }
{
    match pattern {
        Pattern::Set(bytes) => follow_set(alloc, *bytes, size, ahead, positions),
        Pattern::Seq(members) => follow_in_order(alloc, members.as_slice(), size, ahead, positions),
        Pattern::Alt(members) => follow_one(alloc, members.as_slice(), size, ahead, positions),
        Pattern::Star(inner) => {
            let again = ahead_again(alloc, inner.get(), size, ahead, positions.len())?;
            follow(alloc, inner.get(), size, &again, positions)?;
            Ok(again)
        }
        Pattern::Plus(inner) => {
            let again = ahead_again(alloc, inner.get(), size, ahead, positions.len())?;
            follow(alloc, inner.get(), size, &again, positions)
        }
        Pattern::Opt(inner) => {
            let mut front = follow(alloc, inner.get(), size, ahead, positions)?;
            union(&mut front, ahead);
            Ok(front)
        }
    }
}

/// The position of a set.
fn follow_set(
    alloc: Global,
    bytes: ByteSet,
    size: usize,
    ahead: &[u64],
    positions: &mut Vec<Position>,
) -> Result<Vec<u64>, AllocError>
    requires room { length positions.old.items < 64 * size }
    requires set { IsSetOfWords size ahead.now }
    ensures ok { IfOk result (λ front. IsSetAdded bytes size ahead.now positions.old.items positions.new.items front.items) }
{
    let place = positions.len();
    let next = Vec::from_slice(alloc, ahead)?;
    let mut front = no_places(alloc, size)?;
    insert(&mut front, place);
    positions.push(Position { bytes, next })?;
    Ok(front)
}

/// What is ahead within a loop: what is ahead behind it, and where its inner pattern begins again.
fn ahead_again(
    alloc: Global,
    inner: &Pattern,
    size: usize,
    ahead: &[u64],
    base: usize,
) -> Result<Vec<u64>, AllocError>
    requires room { base + positions_of inner.now ≤ 64 * size }
    requires small { size < 2 ^ 32 }
    requires set { IsSetOfWords size ahead.now }
    ensures places { IfOk result (λ again. (place : ℕ) → Has again.items place ↔ (IsPlaceOf (IsFirst inner.now) base place ⊎ Has ahead.now place)) }
    ensures set { IfOk result (λ again. IsSetOfWords size again.items) }
{
    let begin = begin_of(alloc, inner, base, size)?;
    let mut again = begin.first;
    union(&mut again, ahead);
    Ok(again)
}

/// Puts the positions of patterns one after another last.
#[cycle(followers)]
fn follow_in_order(
    alloc: Global,
    members: &[Pattern],
    size: usize,
    ahead: &[u64],
    positions: &mut Vec<Position>,
) -> Result<Vec<u64>, AllocError>
    requires room { length positions.old.items + count_all members.now ≤ 64 * size }
    requires small { size < 2 ^ 32 }
    requires set { IsSetOfWords size ahead.now }
    ensures { IfOk result (λ front. AddsInOrder members.now size ahead.now positions.old.items positions.new.items front.items) }
{
    let mut front = Vec::from_slice(alloc, ahead)?;
    let mut at = members.len();
    while at > 0 {
        at -= 1;
        front = follow(alloc, &members[at], size, &front, positions)?;
    }
    Ok(front)
}

/// Puts the positions of patterns of which one is read last.
#[cycle(followers)]
fn follow_one(
    alloc: Global,
    members: &[Pattern],
    size: usize,
    ahead: &[u64],
    positions: &mut Vec<Position>,
) -> Result<Vec<u64>, AllocError>
    requires room { length positions.old.items + count_all members.now ≤ 64 * size }
    requires small { size < 2 ^ 32 }
    requires set { IsSetOfWords size ahead.now }
    ensures { IfOk result (λ front. AddsOfOne members.now size ahead.now positions.old.items positions.new.items front.items) }
{
    let mut front = no_places(alloc, size)?;
    let mut at = members.len();
    while at > 0 {
        at -= 1;
        let begins = follow(alloc, &members[at], size, ahead, positions)?;
        union(&mut front, &begins);
    }
    Ok(front)
}
