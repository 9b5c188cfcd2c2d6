//! Where the strings of a pattern begin.
ghost use Rattle.std.specs.Prelude.{◌≡◌, true, ℕ, ◌+◌, ◌*◌, ◌^◌, ◌<◌, ◌≤◌, ◌||◌, ◌&&◌, length, IfOk};
ghost use Rattle.pattern_data.specs.Language.{positions_of};
ghost use Rattle.position_theory.specs.Positions.{count_all};
ghost use Rattle.position_sets.specs.Begins.{IsBegin, IsBeginInOrder, IsBeginOfOne};
ghost use Rattle.position_sets.specs.Sets.{IsSetOfWords, has_place};

use crate::places::{insert, no_places, union};
use pattern_data::Pattern;
use std::alloc::{AllocError, Global};

/// Where strings begin: the places of the first positions, whether the empty string is one of them, and the place behind
/// the last position.
#[derive(Debug, Drop)]
pub struct Begin {
    pub first: Vec<u64>,
    pub empty: bool,
    pub end: usize,
}

/// Where the strings of a pattern begin whose positions are at the places from `base` on; the set has `size` words.
#[cycle(beginnings)]
pub fn begin_of(
    alloc: Global,
    pattern: &Pattern,
    base: usize,
    size: usize,
) -> Result<Begin, AllocError>
    requires room { base + positions_of pattern.now ≤ 64 * size }
    requires small { size < 2 ^ 32 }
    ensures { IfOk result (λ begin. IsBegin pattern.now base size begin) }
{
    match pattern {
        Pattern::Set(_) => {
            let mut first = no_places(alloc, size)?;
            insert(&mut first, base);
            Ok(Begin {
                first,
                empty: false,
                end: base + 1,
            })
        }
        Pattern::Seq(members) => begin_in_order(alloc, members.as_slice(), base, size),
        Pattern::Alt(members) => begin_of_one(alloc, members.as_slice(), base, size),
        Pattern::Star(inner) => Ok(with_empty(begin_of(alloc, inner.get(), base, size)?)),
        Pattern::Plus(inner) => begin_of(alloc, inner.get(), base, size),
        Pattern::Opt(inner) => Ok(with_empty(begin_of(alloc, inner.get(), base, size)?)),
    }
}

/// The same, and the empty string.
fn with_empty(begin: Begin) -> Begin
    ensures first { result.first ≡ begin.first }
    ensures empty { result.empty ≡ true }
    ensures end_is { result.end ≡ begin.end }
{
    Begin {
        first: begin.first,
        empty: true,
        end: begin.end,
    }
}

/// Where the strings of patterns one after another begin.
#[cycle(beginnings)]
fn begin_in_order(
    alloc: Global,
    members: &[Pattern],
    base: usize,
    size: usize,
) -> Result<Begin, AllocError>
    requires room { base + count_all members.now ≤ 64 * size }
    requires small { size < 2 ^ 32 }
    ensures { IfOk result (λ begin. IsBeginInOrder members.now base size begin) }
{
    let mut begin = Begin {
        first: no_places(alloc, size)?,
        empty: true,
        end: base,
    };
    let mut at = members.len();
    while at > 0 {
        at -= 1;
        let member = begin_of(alloc, &members[at], begin.end, size)?;
        begin = before(member, begin);
    }
    Ok(begin)
}

/// Where a string of the member and then one of the rest begin.
fn before(member: Begin, rest: Begin) -> Begin
    requires { length member.first.items ≡ length rest.first.items }
    ensures places { (place : ℕ) → has_place result.first.items place ≡ (has_place member.first.items place || (member.empty && has_place rest.first.items place)) }
    ensures set { (size : ℕ) → IsSetOfWords size member.first.items → IsSetOfWords size rest.first.items → IsSetOfWords size result.first.items }
    ensures empty { result.empty ≡ (member.empty && rest.empty) }
    ensures end_is { result.end ≡ member.end }
{
    let mut first = member.first;
    if member.empty {
        union(&mut first, &rest.first);
    }
    Begin {
        first,
        empty: member.empty && rest.empty,
        end: member.end,
    }
}

/// Where the strings of one of some patterns begin.
#[cycle(beginnings)]
fn begin_of_one(
    alloc: Global,
    members: &[Pattern],
    base: usize,
    size: usize,
) -> Result<Begin, AllocError>
    requires room { base + count_all members.now ≤ 64 * size }
    requires small { size < 2 ^ 32 }
    ensures { IfOk result (λ begin. IsBeginOfOne members.now base size begin) }
{
    let mut begin = Begin {
        first: no_places(alloc, size)?,
        empty: false,
        end: base,
    };
    let mut at = members.len();
    while at > 0 {
        at -= 1;
        let member = begin_of(alloc, &members[at], begin.end, size)?;
        begin = either(member, begin);
    }
    Ok(begin)
}

/// Where a string of the member or one of the rest begins.
fn either(member: Begin, rest: Begin) -> Begin
    requires { length member.first.items ≡ length rest.first.items }
    ensures places { (place : ℕ) → has_place result.first.items place ≡ (has_place member.first.items place || has_place rest.first.items place) }
    ensures set { (size : ℕ) → IsSetOfWords size member.first.items → IsSetOfWords size rest.first.items → IsSetOfWords size result.first.items }
    ensures empty { result.empty ≡ (member.empty || rest.empty) }
    ensures end_is { result.end ≡ member.end }
{
    let mut first = member.first;
    union(&mut first, &rest.first);
    Begin {
        first,
        empty: member.empty || rest.empty,
        end: member.end,
    }
}
