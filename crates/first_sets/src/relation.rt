ghost use Rattle.std.specs.Prelude.{◌≡◌, ◌↔◌, ℕ, ◌<◌, ◌^◌, length, All, Contains, IfOk, OnOk};
ghost use Rattle.first_sets.specs.Relations.{IsExtended};

use lr_base::NoMemory;
use std::alloc::Global;
use std::marker::Model;

/// Pairs of numbers, looked up by their first, the key. Each pair leads to the last one before it with its key.
#[derive(Debug, Drop)]
pub struct Relation {
    pairs: Vec<(u32, u32)>,
    last: Vec<u32>,
    before: Vec<u32>,
}

impl Model for Relation {
    ghost use Rattle.std.specs.Prelude.{length};
    ghost use Rattle.first_sets.specs.Relations.{IsLinked, KeyedPairs};

    ghost Value = { KeyedPairs };

    ghost view = { λ s. record { pairs = s.pairs.items; keys = length s.last.items } };

    ghost invariant = { λ s. IsLinked s.pairs.items (length s.pairs.items) s.last.items s.before.items };
}

/// The numbers below `count`.
pub fn numbers_below(alloc: Global, count: u32) -> Result<Vec<u32>, NoMemory>
    ensures members { IfOk result (λ numbers. (n : ℕ) → Contains numbers.items n ↔ n < count) }
    ensures count { IfOk result (λ numbers. length numbers.items ≡ count) }
{
    let mut numbers = Vec::new(alloc);
    for number in 0..count {
        numbers.push(number)?;
    }
    Ok(numbers)
}

impl Relation {
    /// The pairs, whose keys are below `keys`.
    pub fn new(alloc: Global, pairs: Vec<(u32, u32)>, keys: u32) -> Result<Relation, NoMemory>
        requires few { length pairs.items < 2 ^ 32 }
        requires keys { All (λ pair. pair.0 < keys) pairs.items }
        ensures pairs { IfOk result (λ relation. relation.pairs ≡ pairs.items) }
        ensures keys { IfOk result (λ relation. relation.keys ≡ keys) }
    {
        let mut last = vec![in alloc; 0; keys as usize]?;
        let mut before = Vec::new(alloc);
        for (place, pair) in pairs.iter().enumerate() {
            before.push(last[pair.0 as usize])?;
            last[pair.0 as usize] = place as u32 + 1;
        }
        Ok(Relation {
            pairs,
            last,
            before,
        })
    }

    /// All pairs.
    pub fn pairs(&self) -> &[(u32, u32)]
        ensures { result.now ≡ self.now.pairs }
    {
        &self.pairs
    }

    /// Puts each value of the key to the end of `values`, in time proportional to their number. After want of memory
    /// some of them are there.
    pub fn push_all(&self, key: u32, values: &mut Vec<u32>) -> Result<(), NoMemory>
        requires { key < self.now.keys }
        ensures { OnOk result (IsExtended self.now.pairs key values.old.items values.new.items) }
    {
        let mut place = self.last[key as usize];
        while place > 0 {
            values.push(self.pairs[place as usize - 1].1)?;
            place = self.before[place as usize - 1];
        }
        Ok(())
    }
}
