//! Sets of places.
ghost use Rattle.std.specs.Prelude.{◌≡◌, ℕ, List, [], ◌∷◌, ◌++◌, IfOk, OnOk};
ghost use Rattle.outline_checks.specs.PlaceSets.{has_place, IsSetOf};

use lr_base::NoMemory;
use std::alloc::Global;
use std::collections::HashSet;

/// A set of places.
#[derive(Drop)]
pub struct PlaceSet {
    pub places: HashSet<u32>,
}

impl PlaceSet {
    /// No place is in it; this takes no memory.
    pub fn new(alloc: Global) -> PlaceSet
        ensures { IsSetOf result [] }
    {
        PlaceSet {
            places: HashSet::new(alloc),
        }
    }

    /// Puts the place in, and says whether it was there before.
    pub fn add(&mut self, place: u32) -> Result<bool, NoMemory>
        ensures was { IfOk result (λ was_there. was_there ≡ has_place self.old place) }
        ensures more { OnOk result ((places : List ℕ) → IsSetOf self.old places → IsSetOf self.new (places ++ place ∷ [])) }
    {
        let is_new = self.places.insert(place)?;
        Ok(!is_new)
    }
}
