ghost use Rattle.std.specs.Prelude.{◌≡◌, ◌<◌, ◌≤◌, None, IfOk, length, All};
ghost use Rattle.table_data.specs.declared.limits.TheConstants.{MOST_STATES};
ghost use Rattle.state_sets.specs.Parts.{AreClassed, pairs_of};
ghost use Rattle.state_sets.specs.Spreads.{spread_pairs};

use crate::building::Building;
use lr_base::{NoMemory, StateId};
use std::alloc::Global;

/// So many numbers, none of them known.
fn unknown(alloc: Global, count: usize) -> Result<Vec<Option<u32>>, NoMemory>
    ensures length { IfOk result (λ v. length v.items ≡ count) }
    ensures none { IfOk result (λ v. All (λ number. number ≡ None) v.items) }
{
    let mut numbers = Vec::with_capacity(alloc, count)?;
    for _ in 0..count {
        numbers.push(None)?;
    }
    Ok(numbers)
}

/// The starts whose classes have an image, each with that image. A new class is looked up once for each old one.
pub fn spread(
    alloc: Global,
    starts: &[StateId],
    classes: &[u32],
    images: &[Option<StateId>],
) -> Result<Building, NoMemory>
    requires lengths { length classes.now ≡ length starts.now }
    requires numbers { All (λ k. k < length images.now) classes.now }
    requires few { length starts.now ≤ MOST_STATES }
    ensures classed { IfOk result (λ b. AreClassed b.starts.items b.classes.items b.targets.keys) }
    ensures pairs { IfOk result (λ b. pairs_of b.starts.items b.classes.items b.targets.keys
        ≡ spread_pairs starts.now classes.now images.now) }
    ensures few { IfOk result (λ b. length b.starts.items ≤ length starts.now) }
{
    let mut building = Building::with_room(alloc, starts.len())?;
    let mut known = unknown(alloc, images.len())?;
    for i in 0..starts.len() {
        let class = classes[i] as usize;
        let Some(target) = images[class] else {
            continue;
        };
        let new = building.put(starts[i], target, known[class])?;
        known[class] = Some(new);
    }
    Ok(building)
}
