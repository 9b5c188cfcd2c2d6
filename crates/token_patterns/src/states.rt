//! The states of a scanner that were found, each as a set of positions.
ghost use Rattle.std.specs.Prelude.{◌≡◌, ℕ, ◌<◌, ◌≤◌, ◌↔◌, length, IfOk, IfErr};
ghost use Rattle.position_sets.specs.Sets.{IsSetOfWords};
ghost use Rattle.scanning_theory.specs.declared.limits.TheConstants.{STATES};
ghost use Rattle.token_patterns.specs.Searching.{IsCell, IsOneTooMany, words_of};

use crate::fault::ScannerFault;
use indexmap::IndexSet;
use position_sets::{common, meet};
use scanning_theory::STATES;
use std::alloc::Global;

/// The state of the set of places that are in both sets: it was found before, or is new; 0 where there are none.
pub fn step(
    alloc: Global,
    sets: &mut IndexSet<Vec<u64>>,
    ahead: &[u64],
    mask: &[u64],
) -> Result<u16, ScannerFault>
    requires ahead { IsSetOfWords (length ahead.now) ahead.now }
    requires mask { IsSetOfWords (length ahead.now) mask.now }
    requires few { length sets.old.keys ≤ STATES }
    ensures cell { IfOk result (λ cell. IsCell (length ahead.now) ahead.now mask.now (words_of sets.old.keys) (words_of sets.new.keys) cell) }
    ensures few { IfOk result (λ _. length sets.new.keys ≤ STATES) }
    ensures many { IfErr result (λ fault. fault ≡ ScannerFault.TooManyStates → IsOneTooMany (length ahead.now) STATES ahead.now mask.now (words_of sets.old.keys)) }
{
    if !meet(ahead, mask) {
        return Ok(0);
    }
    let set = common(alloc, ahead, mask)?;
    let (state, _) = sets.insert_full(set)?;
    if state >= STATES {
        return Err(ScannerFault::TooManyStates);
    }
    Ok(state as u16)
}
