//! The positions of some patterns together.
ghost use Rattle.std.specs.Prelude.{◌≡◌, ◌↔◌, ℕ, ◌+◌, ◌*◌, ◌^◌, ◌<◌, ◌≤◌, [], length, All, IfOk};
ghost use Rattle.pattern_data.specs.declared.pattern.Pattern.{Pattern};
ghost use Rattle.pattern_data.specs.Language.{Matches};
ghost use Rattle.position_theory.specs.Positions.{count_all};
ghost use Rattle.position_sets.specs.Joints.{AreJoint};
ghost use Rattle.position_sets.specs.Sets.{Has, IsSetOfWords};

use crate::following::{Position, follow};
use crate::places::{insert, no_places, union};
use pattern_data::Pattern;
use std::alloc::{AllocError, Global};

/// The positions of patterns of which any one is read, and the set of the first positions.
#[derive(Debug, Drop)]
pub struct Joint {
    pub positions: Vec<Position>,
    pub front: Vec<u64>,
}

/// The positions of some patterns together, of which none has the empty string. That the pattern of rank k ends at a
/// position is place `ends + k` behind it; the sets have `size` words.
pub fn join_patterns(
    alloc: Global,
    patterns: &[Pattern],
    ends: usize,
    size: usize,
) -> Result<Joint, AllocError>
    requires none_empty { All (λ pattern. ¬ (Matches pattern [])) patterns.now }
    requires behind { count_all patterns.now ≤ ends }
    requires room { ends + length patterns.now ≤ 64 * size }
    requires small { size < 2 ^ 32 }
    ensures { IfOk result (λ joint. AreJoint patterns.now ends size joint.positions.items joint.front.items) }
{
    let mut positions = Vec::new(alloc);
    let mut front = no_places(alloc, size)?;
    let mut at = patterns.len();
    while at > 0 {
        at -= 1;
        let end = one_place(alloc, ends + at, size)?;
        let begins = follow(alloc, &patterns[at], size, &end, &mut positions)?;
        union(&mut front, &begins);
    }
    Ok(Joint { positions, front })
}

/// The set of one place.
fn one_place(alloc: Global, place: usize, size: usize) -> Result<Vec<u64>, AllocError>
    requires { place < 64 * size }
    ensures has { IfOk result (λ set. (other : ℕ) → Has set.items other ↔ (other ≡ place)) }
    ensures set { IfOk result (λ set. IsSetOfWords size set.items) }
{
    let mut set = no_places(alloc, size)?;
    insert(&mut set, place);
    Ok(set)
}
