ghost use Rattle.std.specs.Prelude.{◌≡◌, ◌+◌, ◌<◌, ◌≤◌, ◌^◌, [], ◌∷◌, ◌++◌, Some, IfOk, OnOk, length, slice_get};
ghost use Rattle.std.specs.Option.{ForSome};
ghost use Rattle.table_data.specs.declared.limits.TheConstants.{MOST_STATES};
ghost use Rattle.state_sets.specs.Classes.{put_once};
ghost use Rattle.state_sets.specs.Parts.{AreClassed, pairs_of};

use indexmap::IndexSet;
use lr_base::{NoMemory, StateId};
use std::alloc::Global;

/// A map that is made pair by pair.
#[derive(Drop)]
pub struct Building {
    pub starts: Vec<StateId>,
    pub classes: Vec<u32>,
    pub targets: IndexSet<u32>,
}

/// The class of a target, which is put last where it is new; `known` is the class where it is known.
fn class_of(
    targets: &mut IndexSet<u32>,
    target: StateId,
    known: Option<u32>,
) -> Result<u32, NoMemory>
    requires few { length targets.old.keys < MOST_STATES }
    requires known { ForSome known (λ k. slice_get targets.old.keys k ≡ Some target) }
    ensures keys { OnOk result (targets.new.keys ≡ put_once targets.old.keys target) }
    ensures class { IfOk result (λ k. slice_get targets.new.keys k ≡ Some target) }
{
    match known {
        Some(class) => Ok(class),
        None => {
            let (class, _) = targets.insert_full(target.0)?;
            Ok(class as u32)
        }
    }
}

impl Building {
    /// No pair yet.
    pub fn new(alloc: Global) -> Building
        ensures classed { AreClassed result.starts.items result.classes.items result.targets.keys }
        ensures empty { pairs_of result.starts.items result.classes.items result.targets.keys ≡ [] }
        ensures starts { result.starts.items ≡ [] }
    {
        Building {
            starts: Vec::new(alloc),
            classes: Vec::new(alloc),
            targets: IndexSet::new(alloc),
        }
    }

    /// No pair yet, with room for so many.
    pub fn with_room(alloc: Global, count: usize) -> Result<Building, NoMemory>
        ensures classed { IfOk result (λ b. AreClassed b.starts.items b.classes.items b.targets.keys) }
        ensures empty { IfOk result (λ b. pairs_of b.starts.items b.classes.items b.targets.keys ≡ []) }
        ensures starts { IfOk result (λ b. b.starts.items ≡ []) }
    {
        Ok(Building {
            starts: Vec::with_capacity(alloc, count)?,
            classes: Vec::with_capacity(alloc, count)?,
            targets: IndexSet::new(alloc),
        })
    }

    /// Puts a pair last, and gives the class of its target; `known` is that class where it is known.
    pub fn put(
        &mut self,
        start: StateId,
        target: StateId,
        known: Option<u32>,
    ) -> Result<u32, NoMemory>
        requires classed { AreClassed self.old.starts.items self.old.classes.items self.old.targets.keys }
        requires few { length self.old.starts.items < MOST_STATES }
        requires known { ForSome known (λ k. slice_get self.old.targets.keys k ≡ Some target) }
        ensures classed { OnOk result (AreClassed self.new.starts.items self.new.classes.items self.new.targets.keys) }
        ensures pair { OnOk result (pairs_of self.new.starts.items self.new.classes.items self.new.targets.keys
            ≡ pairs_of self.old.starts.items self.old.classes.items self.old.targets.keys ++ (start, target) ∷ []) }
        ensures targets { OnOk result (self.new.targets.keys ≡ put_once self.old.targets.keys target) }
        ensures class { IfOk result (λ k. slice_get self.new.targets.keys k ≡ Some target) }
        ensures starts { OnOk result (self.new.starts.items ≡ self.old.starts.items ++ start ∷ []) }
    {
        let class = class_of(&mut self.targets, target, known)?;
        self.starts.push(start)?;
        self.classes.push(class)?;
        Ok(class)
    }
}
