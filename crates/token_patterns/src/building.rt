//! The search of a scanner's states, from the start.
ghost use Rattle.std.specs.Prelude.{◌≡◌, ℕ, ◌+◌, ◌<◌, ◌≤◌, ◌↔◌, [], List, length, slice_get, Some, IfOk, IfErr};
ghost use Rattle.pattern_data.specs.declared.pattern.Pattern.{Pattern};
ghost use Rattle.position_theory.specs.States.{HasMoreStates};
ghost use Rattle.position_sets.specs.declared.following.Position.{Position as Row};
ghost use Rattle.position_sets.specs.Sets.{Has, IsSetOfWords};
ghost use Rattle.token_patterns.specs.Ahead.{IsBehindOne};
ghost use Rattle.scanning_theory.specs.declared.limits.TheConstants.{STATES};
ghost use Rattle.scanning_theory.specs.Scannable.{IsScannable};
ghost use Rattle.token_patterns.specs.Searching.{IsSearchBefore, IsSetting, words_of};

use crate::ahead::{ahead_of, first_rank};
use crate::fault::ScannerFault;
use crate::masking::masks;
use crate::states::step;
use indexmap::IndexSet;
use pattern_data::Pattern;
use position_sets::{Joint, count_together, join_patterns, no_places};
use std::alloc::{AllocError, Global};

/// The states found so far, each as its set of positions, and the cells and ends of those that were looked at.
#[derive(Drop)]
pub struct Search {
    pub sets: IndexSet<Vec<u64>>,
    pub cells: Vec<u16>,
    pub ends: Vec<u16>,
}

/// The start alone, at which no position is reached.
fn first_search(alloc: Global, size: usize) -> Result<Search, AllocError>
    ensures search { IfOk result (λ search. (patterns : List Pattern) → IsSearchBefore patterns size search.sets.keys search.cells.items search.ends.items 0) }
    ensures some { IfOk result (λ search. length search.sets.keys ≡ 1) }
{
    let start = no_places(alloc, size)?;
    let mut sets = IndexSet::new(alloc);
    sets.insert_full(start)?;
    Ok(Search {
        sets,
        cells: Vec::new(alloc),
        ends: Vec::new(alloc),
    })
}

/// What is ahead at a state: at the start the first positions, or else what comes behind its positions.
fn ahead_at(
    alloc: Global,
    joint: &Joint,
    sets: &IndexSet<Vec<u64>>,
    state: usize,
    size: usize,
) -> Result<Vec<u64>, AllocError>
    requires rows { (q : ℕ) (row : Row) → slice_get joint.now.positions.items q ≡ Some row → IsSetOfWords size row.next.items }
    requires front { IsSetOfWords size joint.now.front.items }
    requires state { state < length sets.now.keys }
    ensures start { IfOk result (λ ahead. state ≡ 0 → ahead.items ≡ joint.now.front.items) }
    ensures others { IfOk result (λ ahead. 0 < state → (set : List ℕ) → slice_get (words_of sets.now.keys) state ≡ Some set → (place : ℕ) → Has ahead.items place ↔ IsBehindOne joint.now.positions.items set place) }
    ensures set { IfOk result (λ ahead. IsSetOfWords size ahead.items) }
{
    if state == 0 {
        return Vec::from_slice(alloc, &joint.front);
    }
    match sets.get_index(state) {
        Some(set) => ahead_of(alloc, &joint.positions, set, size),
        None => unreachable!(),
    }
}

/// Looks at a state: finds which pattern ends at it, and where each byte leads from it, and puts new states last.
fn expand(
    alloc: Global,
    patterns: &[Pattern],
    joint: &Joint,
    masks: &[Vec<u64>],
    size: usize,
    search: &mut Search,
    state: usize,
) -> Result<(), ScannerFault>
    requires setting { IsSetting patterns.now size joint.now.positions.items joint.now.front.items masks.now }
    requires state { state < length search.old.sets.keys }
    requires search { IsSearchBefore patterns.now size search.old.sets.keys search.old.cells.items search.old.ends.items state }
    ensures search { IfOk result (λ _. IsSearchBefore patterns.now size search.new.sets.keys search.new.cells.items search.new.ends.items (state + 1)) }
    ensures inside { IfOk result (λ _. state < length search.new.sets.keys) }
    ensures many { IfErr result (λ fault. fault ≡ ScannerFault.TooManyStates → HasMoreStates patterns.now STATES) }
{
    let ahead = ahead_at(alloc, joint, &search.sets, state, size)?;
    let end = first_rank(&ahead, joint.positions.len(), patterns.len());
    search.ends.push(end)?;
    for mask in masks {
        let cell = step(alloc, &mut search.sets, &ahead, mask)?;
        search.cells.push(cell)?;
    }
    Ok(())
}

/// All states of the patterns, with their cells and ends.
pub fn search_states(alloc: Global, patterns: &[Pattern]) -> Result<Search, ScannerFault>
    requires { IsScannable patterns.now }
    ensures search { IfOk result (λ search. (size : ℕ) × IsSearchBefore patterns.now size search.sets.keys search.cells.items search.ends.items (length search.sets.keys)) }
    ensures many { IfErr result (λ fault. fault ≡ ScannerFault.TooManyStates → HasMoreStates patterns.now STATES) }
{
    let count = count_together(patterns);
    let size = (count + patterns.len()) / 64 + 1;
    let joint = join_patterns(alloc, patterns, count, size)?;
    let masks = masks(alloc, &joint.positions, size)?;
    let mut search = first_search(alloc, size)?;
    let mut state = 0;
    while state < search.sets.len() {
        expand(alloc, patterns, &joint, &masks, size, &mut search, state)?;
        state += 1;
    }
    Ok(search)
}
