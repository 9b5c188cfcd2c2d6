ghost use Rattle.std.specs.Prelude.{◌≡◌, ◌≤◌, IfOk, filter, is_some, length, map};
ghost use Rattle.table_data.specs.declared.limits.TheConstants.{MOST_STATES};
ghost use Rattle.map_theory.specs.Maps.{target};
ghost use Rattle.state_sets.specs.Parts.{AreClassed, pairs_of};

use crate::arrow::Arrow;
use crate::building::Building;
use lr_base::NoMemory;
use std::alloc::Global;

/// Each start of a map, to itself.
pub fn to_themselves(alloc: Global, arrow: &Arrow) -> Result<Building, NoMemory>
    ensures classed { IfOk result (λ b. AreClassed b.starts.items b.classes.items b.targets.keys) }
    ensures pairs { IfOk result (λ b. pairs_of b.starts.items b.classes.items b.targets.keys
        ≡ map (λ pair. (pair.0, pair.0)) arrow.now) }
    ensures few { IfOk result (λ b. length b.starts.items ≤ MOST_STATES) }
{
    arrow.holds();
    let mut building = Building::with_room(alloc, arrow.len() as usize)?;
    for i in 0..arrow.len() {
        let (start, _) = arrow.pair(i);
        building.put(start, start, None)?;
    }
    Ok(building)
}

/// The pairs of a map whose starts are starts of another.
pub fn kept(alloc: Global, arrow: &Arrow, keep: &Arrow) -> Result<Building, NoMemory>
    ensures classed { IfOk result (λ b. AreClassed b.starts.items b.classes.items b.targets.keys) }
    ensures pairs { IfOk result (λ b. pairs_of b.starts.items b.classes.items b.targets.keys
        ≡ filter (λ pair. is_some (target keep.now pair.0)) arrow.now) }
    ensures few { IfOk result (λ b. length b.starts.items ≤ MOST_STATES) }
{
    arrow.holds();
    let mut building = Building::with_room(alloc, arrow.len() as usize)?;
    for i in 0..arrow.len() {
        let (start, target) = arrow.pair(i);
        if keep.target(start).is_none() {
            continue;
        }
        building.put(start, target, None)?;
    }
    Ok(building)
}
