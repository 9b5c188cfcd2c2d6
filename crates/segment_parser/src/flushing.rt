ghost use Rattle.std.specs.Prelude.{◌≡◌, ℕ, ◌+◌, ◌<◌, ◌≤◌, List, All, IfOk, OnOk, length};
ghost use Rattle.grammar_data.specs.declared.token.Token.{Token as TextToken};
ghost use Rattle.tree_theory.specs.Stores.{Store as NodeTable};
ghost use Rattle.arrow_table.specs.Looks.{Grows};
ghost use Rattle.segment_parser.specs.Numbers.{AreKeptPlaces, ArePut, IsKeepList, IsRenumbered, Stands};
ghost use Rattle.segment_parser.specs.Settling.{IsBetween};
ghost use Rattle.segment_parser.specs.Standing.{HasMaps};

use crate::leaf::Leaf;
use arrow_table::{ArrowId, Arrows};
use lr_base::NoMemory;
use std::alloc::Global;

/// The maps over each so manieth entry are kept where the table forgets maps: a map that is found again is at most as many
/// steps away from one of them.
const SPACING: usize = 1024;

/// Puts numbers in some places.
fn put_numbers(ids: &mut [ArrowId], places: &[usize], numbers: &[ArrowId])
    requires places { All {X = ℕ} (λ place. place < length ids.old) places.now }
    requires numbers { length places.now ≤ length numbers.now }
    ensures { ArePut ids.old places.now numbers.now ids.new }
{
    for index in 0..places.len() {
        ids[places[index]] = numbers[index];
    }
}

impl Leaf {
    /// The places of the entries, each 1,024th one, whose maps stand.
    fn kept_places(&self, alloc: Global, arrows: &Arrows<'_>) -> Result<Vec<usize>, NoMemory>
        ensures { IfOk result (λ places. AreKeptPlaces arrows.now.2 self.now.ids.items places.items) }
    {
        let mut places = Vec::new(alloc);
        for place in (0..self.ids.len()).step_by(SPACING) {
            if arrows.stands(self.ids[place]) {
                places.push(place)?;
            }
        }
        Ok(places)
    }

    /// The numbers of the maps over the entries in these places, then those of the last floor's starts, of the starts each to
    /// itself, and of the map over the last entry.
    fn keep_list(&self, alloc: Global, places: &[usize]) -> Result<Vec<ArrowId>, NoMemory>
        requires some { 0 < length self.now.ids.items }
        requires places { All {X = ℕ} (λ place. place < length self.now.ids.items) places.now }
        ensures { IfOk result (λ keep. IsKeepList self.now places.now keep.items) }
    {
        let mut keep = Vec::with_capacity(alloc, places.len())?;
        for place in places {
            keep.push(self.ids[*place])?;
        }
        keep.push(self.starts)?;
        keep.push(self.own)?;
        keep.push(self.top())?;
        Ok(keep)
    }

    /// The maps have other numbers, in the order of the list of those that were kept.
    fn renumber(&mut self, places: &[usize], numbers: &[ArrowId])
        requires some { 0 < length self.old.ids.items }
        requires places { All {X = ℕ} (λ place. place < length self.old.ids.items) places.now }
        requires numbers { length numbers.now ≡ length places.now + 3 }
        ensures { IsRenumbered self.old self.new places.now numbers.now }
    {
        put_numbers(&mut self.ids, places, numbers);
        let count = places.len();
        self.starts = numbers[count];
        self.own = numbers[count + 1];
        let last = self.ids.len() - 1;
        self.ids[last] = numbers[count + 2];
    }

    /// The table forgets all maps but those of the last floor's starts, the one over the last entry, and those over each 1,024th
    /// entry.
    fn forget_others(&mut self, alloc: Global, arrows: &mut Arrows<'_>) -> Result<(), NoMemory>
        requires some { 0 < length self.old.ids.items }
        requires maps { HasMaps arrows.old.1 self.old }
        requires stand { Stands arrows.old.2 self.old }
        ensures tables { arrows.new.0 ≡ arrows.old.0 }
        ensures grows { Grows arrows.old.1 arrows.new.1 }
        ensures gone { OnOk result (arrows.new.2 ≡ length arrows.old.1) }
        ensures stand { OnOk result (Stands arrows.new.2 self.new) }
        ensures between { OnOk result ((store : NodeTable) (tokens : List TextToken) (index : ℕ)
            → IsBetween arrows.old.0 store arrows.old.1 self.old tokens index
            → IsBetween arrows.old.0 store arrows.new.1 self.new tokens index) }
    {
        let places = self.kept_places(alloc, arrows)?;
        let mut keep = self.keep_list(alloc, &places)?;
        arrows.forget(alloc, &mut keep)?;
        self.renumber(&places, &keep);
        Ok(())
    }

    /// Where the table is full, it forgets all maps but some of the leaf's. Those over other entries are found again when they are
    /// wanted.
    pub fn flush(&mut self, alloc: Global, arrows: &mut Arrows<'_>) -> Result<(), NoMemory>
        requires some { 0 < length self.old.ids.items }
        requires maps { HasMaps arrows.old.1 self.old }
        requires stand { Stands arrows.old.2 self.old }
        ensures tables { arrows.new.0 ≡ arrows.old.0 }
        ensures grows { Grows arrows.old.1 arrows.new.1 }
        ensures stand { OnOk result (Stands arrows.new.2 self.new) }
        ensures between { OnOk result ((store : NodeTable) (tokens : List TextToken) (index : ℕ)
            → IsBetween arrows.old.0 store arrows.old.1 self.old tokens index
            → IsBetween arrows.old.0 store arrows.new.1 self.new tokens index) }
    {
        if !arrows.is_full() {
            return Ok(());
        }
        self.forget_others(alloc, arrows)?;
        Ok(())
    }
}
