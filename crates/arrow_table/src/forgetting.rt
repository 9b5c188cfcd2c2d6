ghost use Rattle.std.specs.Prelude.{◌≡◌, ℕ, ◌+◌, ◌<◌, ◌≤◌, All, IfOk, OnOk, length};
ghost use Rattle.state_sets.specs.Within.{AreWithin};
ghost use Rattle.arrow_table.specs.Looks.{Grows, map_at};
ghost use Rattle.arrow_table.specs.Forgetting.{AreKept};

use crate::arrows::Arrows;
use crate::forgotten::Forgotten;
use crate::id::ArrowId;
use lr_base::NoMemory;
use state_sets::Arrow;
use std::alloc::Global;

/// From so many bytes of maps and cells on a table is full.
const FULL: usize = 16 << 20;

impl<'a> Arrows<'a> {
    /// Whether the table has grown to 16 MiB, and to twice the maps that stayed when maps were forgotten: about 100 bytes a map,
    /// 8 a pair and 4 a cell. It is a hint alone: when maps are forgotten is for the caller to say.
    pub fn is_full(&self) -> bool {
        let cells = self.looks.len().saturating_add(self.steps.len());
        let pairs = self.pairs.saturating_mul(8);
        let maps = self.maps.len().saturating_mul(100);
        let bytes = cells
            .saturating_mul(4)
            .saturating_add(pairs)
            .saturating_add(maps);
        bytes >= FULL && self.maps.len() / 2 >= self.copied
    }

    /// Takes the maps out of the table: all that ever had a number are forgotten, and so is what was known of them.
    fn take_maps(&mut self, alloc: Global) -> Result<Vec<Arrow>, NoMemory>
        ensures tables { self.new.0 ≡ self.old.0 }
        ensures all { self.new.1 ≡ self.old.1 }
        ensures base { OnOk result (self.new.2 ≡ length self.old.1) }
        ensures count { IfOk result (λ maps. length self.old.1 ≡ self.old.2 + length maps.items) }
        ensures maps { IfOk result (λ maps. (place : ℕ) → map_at maps.items place ≡ map_at self.old.1 (self.old.2 + place)) }
        ensures within { IfOk result (λ maps. All (AreWithin self.old.0.states) maps.items) }
    {
        let base = self.base as usize + self.maps.len();
        if base > u32::MAX as usize {
            return Err(NoMemory);
        }
        self.forgotten.push(Forgotten::of(&self.maps))?;
        let maps = std::mem::replace(&mut self.maps, Vec::new(alloc));
        self.base = base as u32;
        self.prints.clear();
        self.looks.clear();
        self.steps.clear();
        self.memo.clear();
        self.pairs = 0;
        Ok(maps)
    }

    /// Forgets all maps but those with these numbers, which get new numbers in the list's places: so many maps are kept at most.
    /// After an error maps may be forgotten all the same, and the numbers in the list aren't to be used again.
    pub fn forget(&mut self, alloc: Global, keep: &mut [ArrowId]) -> Result<(), NoMemory>
        requires there { All {X = ℕ} (λ id. id < length self.old.1) keep.old }
        requires stand { All {X = ℕ} (λ id. self.old.2 ≤ id) keep.old }
        ensures tables { self.new.0 ≡ self.old.0 }
        ensures grows { Grows self.old.1 self.new.1 }
        ensures few { length self.new.1 ≤ length self.old.1 + length keep.old }
        ensures gone { OnOk result (self.new.2 ≡ length self.old.1) }
        ensures kept { OnOk result (AreKept self.old.1 self.new.1 self.new.2 keep.old keep.new) }
    {
        let first = self.base;
        let maps = self.take_maps(alloc)?;
        for place in 0..keep.len() {
            let map = maps[(keep[place].number() - first) as usize].copy()?;
            keep[place] = self.add(map)?;
        }
        self.copied = self.maps.len();
        Ok(())
    }
}
