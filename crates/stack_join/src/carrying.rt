ghost use Rattle.std.specs.Prelude.{◌≡◌, ℕ, ◌-◌, ◌<◌, ◌≤◌, ◌++◌, IfOk, OnOk, IsSome, IsTrue, false, Option, All, length, map, slice_set};
ghost use Rattle.map_theory.specs.Relations.{IsIdentityOf, IsRestricted};
ghost use Rattle.state_sets.specs.Classes.{targets_of};
ghost use Rattle.arrow_table.specs.Looks.{Grows, HasMap, map_at};
ghost use Rattle.join_theory.specs.Faults.{carried_to};
ghost use Rattle.landing_laws.specs.Carrying.{carried_faults, clear_on};
ghost use Rattle.segment_parser.specs.Standing.{HasMaps};
ghost use Rattle.stack_join.specs.Joining.{over_id};
ghost use Rattle.stack_join.specs.Landing.{IsCarriedBack};
ghost use Rattle.segment_parser.specs.Numbers.{AllStand, AreFrom};

use arrow_table::{ArrowId, Arrows};
use lr_base::{NoMemory, StateId};
use piece_blocks::{Faults, Floor, StartFault};
use segment_parser::Leaf;
use state_sets::{Arrow, class_laws};
use std::alloc::Global;

/// The number of the map over the last entry, or where there is none, of the one that leads each start to itself.
pub fn over(leaf: &Leaf) -> ArrowId
    ensures { result ≡ over_id leaf.now }
{
    if leaf.ids.is_empty() {
        return leaf.own;
    }
    leaf.top()
}

/// The fault as one of another start, so many tokens later. Where the sum isn't below 2^32 it answers want of memory.
fn later(fault: StartFault, start: StateId, tokens: u32) -> Result<StartFault, NoMemory>
    ensures { IfOk result (λ it. it ≡ carried_to tokens start fault) }
{
    match tokens.checked_add(fault.index) {
        Some(index) => Ok(StartFault {
            token: fault.token,
            start,
            index,
            state: fault.state,
        }),
        None => Err(NoMemory),
    }
}

/// Puts behind faults those of a floor, as faults of the starts over whose states they come, so many tokens later.
fn carry_faults(
    faults: &mut Faults,
    floor: &Floor,
    map: &Arrow,
    tokens: u32,
) -> Result<(), NoMemory>
    ensures { OnOk result (faults.new ≡ faults.old ++ carried_faults tokens floor.now map.now) }
{
    for i in 0..map.len() {
        let (start, state) = map.pair(i);
        match floor.fault(state) {
            Some(fault) => faults.push(later(fault, start, tokens)?)?,
            None => {}
        }
    }
    Ok(())
}

/// The state, where the floor has no fault for it.
fn clear_state(floor: &Floor, state: StateId) -> Option<StateId>
    ensures { result ≡ clear_on floor.now state }
{
    match floor.fault(state) {
        Some(_) => None,
        None => Some(state),
    }
}

/// The target of each class, where the floor has no fault for it.
fn clear_states(
    alloc: Global,
    floor: &Floor,
    arrow: &Arrow,
) -> Result<Vec<Option<StateId>>, NoMemory>
    ensures { IfOk result (λ images. images.items ≡ map (clear_on floor.now) (targets_of arrow.now)) }
{
    let mut images = Vec::new(alloc);
    for class in 0..arrow.class_count() {
        images.push(clear_state(floor, arrow.class_target(class)))?;
    }
    Ok(images)
}

/// Whether none is missing.
fn all_stay(images: &[Option<StateId>]) -> bool
    ensures all { IsTrue result → All {X = Option ℕ} (λ image. IsSome image) images.now }
    ensures some { result ≡ false → ¬ (All {X = Option ℕ} (λ image. IsSome image) images.now) }
{
    for image in images {
        if image.is_none() {
            return false;
        }
    }
    true
}

/// The last of these, if there is one, becomes another.
fn set_last(ids: &mut Vec<ArrowId>, id: ArrowId)
    ensures { ids.new.items ≡ slice_set ids.old.items (length ids.old.items - 1) id }
{
    let held = ids.len();
    if held > 0 {
        ids[held - 1] = id;
    }
}

/// The open piece loses the starts that have no target in a map, which stands over its last entry from then on.
fn lose(
    leaf: &mut Leaf,
    alloc: Global,
    arrows: &mut Arrows<'_>,
    left: ArrowId,
) -> Result<(), NoMemory>
    requires starts { leaf.old.starts < length arrows.old.1 }
    requires starts_stand { arrows.old.2 ≤ leaf.old.starts }
    requires left { left < length arrows.old.1 }
    requires left_stands { arrows.old.2 ≤ left }
    ensures tables { arrows.new.0 ≡ arrows.old.0 }
    ensures base { arrows.new.2 ≡ arrows.old.2 }
    ensures grows { Grows arrows.old.1 arrows.new.1 }
    ensures starts { OnOk result (HasMap arrows.new.1 leaf.new.starts
        (IsRestricted (map_at arrows.old.1 leaf.old.starts) (map_at arrows.old.1 left))) }
    ensures own { OnOk result (HasMap arrows.new.1 leaf.new.own (IsIdentityOf (map_at arrows.new.1 leaf.new.starts))) }
    ensures stand { OnOk result (AreFrom arrows.old.2 leaf.old.ids.items → AllStand arrows.new.2 leaf.new) }
    ensures ids { OnOk result (leaf.new.ids.items ≡ slice_set leaf.old.ids.items (length leaf.old.ids.items - 1) left) }
    ensures stale { OnOk result (leaf.new.stale ≡ length leaf.old.ids.items - 1) }
    ensures same { OnOk result ((leaf.new.block ≡ leaf.old.block) × (leaf.new.faults ≡ leaf.old.faults)
        × (leaf.new.opened ≡ leaf.old.opened) × (leaf.new.first ≡ leaf.old.first)
        × (leaf.new.count ≡ leaf.old.count)) }
{
    let starts = arrows.restrict(alloc, leaf.starts, left)?;
    let own = arrows.identity(alloc, starts)?;
    leaf.starts = starts;
    leaf.own = own;
    leaf.stale = leaf.ids.len().saturating_sub(1);
    set_last(&mut leaf.ids, left);
    Ok(())
}

/// Starts of the last floor over whose states a floor errs get its faults, and are alive no more.
pub fn carry(
    leaf: &mut Leaf,
    alloc: Global,
    arrows: &mut Arrows<'_>,
    floor: &Floor,
) -> Result<(), NoMemory>
    requires has { HasMaps arrows.old.1 leaf.old }
    requires stand { AllStand arrows.old.2 leaf.old }
    ensures tables { arrows.new.0 ≡ arrows.old.0 }
    ensures base { arrows.new.2 ≡ arrows.old.2 }
    ensures grows { Grows arrows.old.1 arrows.new.1 }
    ensures stand { OnOk result (AllStand arrows.new.2 leaf.new) }
    ensures carried { OnOk result (IsCarriedBack floor.now arrows.old.1 arrows.new.1 leaf.old leaf.new) }
{
    class_laws();
    let top = over(leaf);
    let images = clear_states(alloc, floor, arrows.map(top))?;
    if all_stay(&images) {
        return Ok(());
    }
    carry_faults(&mut leaf.faults, floor, arrows.map(top), leaf.count)?;
    let left = arrows.map(top).along(alloc, &images)?;
    let left = arrows.add(left)?;
    lose(leaf, alloc, arrows, left)?;
    Ok(())
}
