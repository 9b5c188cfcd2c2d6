ghost use Rattle.std.specs.Prelude.{◌≡◌, ℕ, ◌+◌, ◌-◌, ◌<◌, ◌≤◌, ◌++◌, List, All, IfOk, OnOk, drop, length, slice_index_or, take};
ghost use Rattle.grammar_data.specs.declared.token.Token.{Token as TextToken};
ghost use Rattle.tree_theory.specs.Stores.{Ref};
ghost use Rattle.tree_theory.specs.Walks.{Step};
ghost use Rattle.node_store.specs.Chunks.{store_of};
ghost use Rattle.arrow_table.specs.Looks.{Grows};
ghost use Rattle.segment_parser.specs.Entering.{IsKnown};
ghost use Rattle.segment_parser.specs.Numbers.{AreFrom, Stands};
ghost use Rattle.segment_parser.specs.Opening.{IsOpenIn};
ghost use Rattle.segment_parser.specs.Retracing.{IsOver, IsRewritten};
ghost use Rattle.segment_parser.specs.Standing.{HasMaps, IsAt, SameButEntries};
ghost use Rattle.segment_parser.specs.Working.{last_id};

use crate::entering::enter;
use crate::leaf::Leaf;
use arrow_table::{ArrowId, Arrows};
use lr_base::NoMemory;
use node_store::Store;
use std::alloc::Global;

/// Puts numbers in place of others, from a place on.
fn overwrite(ids: &mut [ArrowId], first: usize, numbers: &[ArrowId])
    requires { first + length numbers.now ≤ length ids.old }
    ensures { ids.new ≡ take first ids.old ++ (numbers.now ++ drop (first + length numbers.now) ids.old) }
{
    ids[first..first + numbers.len()].copy_from_slice(numbers);
}

impl Leaf {
    /// How many of the first entries there are up to the last one before a place whose map is kept.
    fn kept_below(&self, arrows: &Arrows<'_>, place: usize) -> usize
        requires { place ≤ length self.now.ids.items }
        ensures within { result ≤ place }
        ensures stands { 0 < result → arrows.now.2 ≤ slice_index_or self.now.ids.items (result - 1) 0 }
    {
        let mut first = place;
        while first > 0 {
            if arrows.stands(self.ids[first - 1]) {
                return first;
            }
            first -= 1;
        }
        0
    }

    /// The map over the first entries, so many, with alive starts alone. Over no entry it leads each start to itself.
    fn over(
        &self,
        alloc: Global,
        arrows: &mut Arrows<'_>,
        first: usize,
    ) -> Result<ArrowId, NoMemory>
        requires first { first ≤ length self.now.ids.items }
        requires maps { HasMaps arrows.old.1 self.now }
        requires stand { Stands arrows.old.2 self.now }
        requires kept { 0 < first → arrows.old.2 ≤ slice_index_or self.now.ids.items (first - 1) 0 }
        ensures tables { arrows.new.0 ≡ arrows.old.0 }
        ensures base { arrows.new.2 ≡ arrows.old.2 }
        ensures grows { Grows arrows.old.1 arrows.new.1 }
        ensures over { IfOk result (IsOver arrows.old.1 arrows.new.1 self.now first) }
        ensures stands { IfOk result (λ id. arrows.new.2 ≤ id) }
    {
        if first == 0 {
            return Ok(self.own);
        }
        arrows.restrict(alloc, self.ids[first - 1], self.starts)
    }

    /// The map over an entry below the last one is found again, and with it those of the forgotten ones before it.
    fn find_again(
        &mut self,
        alloc: Global,
        arrows: &mut Arrows<'_>,
        store: &Store,
        depth: usize,
    ) -> Result<(), NoMemory>
        requires depth { depth + 1 < length self.old.ids.items }
        requires maps { HasMaps arrows.old.1 self.old }
        requires stand { Stands arrows.old.2 self.old }
        requires known { All (IsKnown arrows.old.0.rules (store_of store.now)) self.old.block.kids }
        ensures tables { arrows.new.0 ≡ arrows.old.0 }
        ensures base { arrows.new.2 ≡ arrows.old.2 }
        ensures grows { Grows arrows.old.1 arrows.new.1 }
        ensures block { self.new.block ≡ self.old.block }
        ensures same { SameButEntries self.old self.new }
        ensures count { self.new.count ≡ self.old.count }
        ensures stale { self.new.stale ≡ self.old.stale }
        ensures again { OnOk result (IsRewritten arrows.old.0 (store_of store.now) arrows.old.1 arrows.new.1 self.old self.new.ids.items) }
        ensures stands { OnOk result (arrows.new.2 ≤ slice_index_or self.new.ids.items depth 0) }
    {
        let first = self.kept_below(arrows, depth);
        let from = self.over(alloc, arrows, first)?;
        let kids = &self.block.open_list()[first..depth + 1];
        let fresh = enter(alloc, arrows, store, from, kids)?;
        overwrite(&mut self.ids, first, &fresh);
        Ok(())
    }

    /// Where the table has forgotten the map over an entry, it is found again from the nearest entry below whose map is kept, or
    /// from the last floor's starts, along the kids' symbols. The entries in between get theirs too, with alive starts alone.
    pub fn retrace(
        &mut self,
        alloc: Global,
        arrows: &mut Arrows<'_>,
        store: &Store,
        depth: usize,
    ) -> Result<(), NoMemory>
        requires depth { depth < length self.old.ids.items }
        requires maps { HasMaps arrows.old.1 self.old }
        requires stand { Stands arrows.old.2 self.old }
        requires known { All (IsKnown arrows.old.0.rules (store_of store.now)) self.old.block.kids }
        ensures tables { arrows.new.0 ≡ arrows.old.0 }
        ensures base { arrows.new.2 ≡ arrows.old.2 }
        ensures grows { Grows arrows.old.1 arrows.new.1 }
        ensures block { self.new.block ≡ self.old.block }
        ensures same { SameButEntries self.old self.new }
        ensures count { self.new.count ≡ self.old.count }
        ensures stale { self.new.stale ≡ self.old.stale }
        ensures length { OnOk result (length self.new.ids.items ≡ length self.old.ids.items) }
        ensures last { OnOk result (last_id self.new.ids.items ≡ last_id self.old.ids.items) }
        ensures maps { OnOk result (HasMaps arrows.new.1 self.new) }
        ensures stand { OnOk result (Stands arrows.new.2 self.new) }
        ensures stands { OnOk result (arrows.new.2 ≤ slice_index_or self.new.ids.items depth 0) }
        ensures levels { OnOk result (AreFrom arrows.old.2 self.old.ids.items → AreFrom arrows.new.2 self.new.ids.items) }
        ensures open { OnOk result ((nodes : List Ref) (front : List Step) (w next : List TextToken)
            → IsOpenIn arrows.old.0 (store_of store.now) arrows.old.1 self.old nodes front w next
            → IsOpenIn arrows.old.0 (store_of store.now) arrows.new.1 self.new nodes front w next) }
        ensures at { OnOk result ((tokens w rest next : List TextToken)
            → IsAt arrows.old.0 (store_of store.now) arrows.old.1 self.old tokens w rest next
            → IsAt arrows.old.0 (store_of store.now) arrows.new.1 self.new tokens w rest next) }
    {
        if arrows.stands(self.ids[depth]) {
            return Ok(());
        }
        self.find_again(alloc, arrows, store, depth)?;
        Ok(())
    }
}
