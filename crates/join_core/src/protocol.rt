ghost use Rattle.std.specs.Prelude.{◌≡◌, ◌≢◌, ◌↔◌, ◌<◌, ◌≤◌, if◌then◌else◌, IfOk, Contains, true};
ghost use Rattle.core_theory.specs.Tree.{IsRange, whole_range};
ghost use Rattle.core_theory.specs.Core.{IsCovered};
ghost use Rattle.core_theory.specs.Events.{Claims, Finishes};
ghost use Rattle.core_theory.specs.Runs.{IsStart};
ghost use Rattle.join_core.specs.Nodes.{range_from, Arrives};
ghost use Rattle.join_core.specs.declared.limits.TheConstants.{LEAVES};

use crate::above::{Node, node_above};
use crate::arrival::Arrival;
use crate::held::Held;
use lr_base::NoMemory;
use std::alloc::Global;
use std::marker::Model;

/// What workers share: how many leaves there are, the counter, a word at each boundary, which ranges are carried and which
/// wait, and whether the end was reached. Contracts see it as a state of `core_theory`, and each is covered there. A range is
/// kept under its first leaf.
#[derive(Drop)]
pub struct Core {
    leaves: u32,
    counter: u64,
    words: Vec<bool>,
    held: Vec<Held>,
    done: bool,
}

impl Model for Core {
    ghost use Rattle.core_theory.specs.Core.{CoreState};

    ghost Value = { CoreState };

    ghost use Rattle.join_core.specs.Ranges.{kept_state, IsKept};

    ghost view = { λ c. kept_state c.leaves c.counter c.words.items c.held.items c.done };

    ghost invariant = { λ c. IsKept c.leaves c.counter c.words.items c.held.items c.done };
}

impl Core {
    /// A core of so many leaves, from 1 to 4,096, of which none is claimed. All memory that a core ever has is taken here.
    pub fn start(alloc: Global, leaves: u32) -> Result<Core, NoMemory>
        requires some { 0 < leaves }
        requires few { leaves ≤ LEAVES }
        ensures start { IfOk result (λ core. IsStart leaves core) }
        ensures covered { IfOk result (λ core. IsCovered core) }
    {
        let words = vec![in alloc; false; leaves as usize]?;
        let held = vec![in alloc; Held::NoRange; leaves as usize]?;
        Ok(Core {
            leaves,
            counter: 0,
            words,
            held,
            done: false,
        })
    }

    /// Claims the leaf at which the counter stands, which is carried then; `None` exactly where it stands behind all leaves.
    /// The counter rises by one, or stays at its greatest value.
    pub fn claim(&mut self) -> Option<u32>
        ensures claims { Claims self.old result self.new }
        ensures covered { IsCovered self.new }
    {
        let place = self.counter;
        self.counter = place.saturating_add(1);
        if place >= self.leaves as u64 {
            return None;
        }
        let leaf = place as u32;
        self.held[leaf as usize] = Held::Carried(leaf + 1);
        Some(leaf)
    }

    /// A carried range, from `first` up to `last`, comes to the boundary of the node above it; it must not be that of all
    /// leaves. `First` exactly where the boundary's word is unset: the word is set, and the range waits. `Second` exactly
    /// where it is set: the answer is the range of the node's other part, which waited and waits no more, and the node is
    /// carried in place of the two.
    pub fn arrive(&mut self, first: u32, last: u32) -> Arrival
        requires carried { Contains self.old.carried (range_from first last) }
        requires part { range_from first last ≢ whole_range self.old.leaves }
        ensures arrives { Arrives self.old (range_from first last) result self.new }
        ensures covered { IsCovered self.new }
    {
        let node = node_above(first, last, self.leaves);
        if !self.words[node.boundary as usize] {
            self.words[node.boundary as usize] = true;
            self.held[first as usize] = Held::Waiting(last);
            return Arrival::First;
        }
        self.held[node.boundary as usize] = Held::NoRange;
        self.held[node.first as usize] = Held::Carried(node.last);
        other_part(node)
    }

    /// The range of all leaves, which must be carried, is the end: nothing is carried then.
    pub fn finish(&mut self)
        requires { Contains self.old.carried (whole_range self.old.leaves) }
        ensures finishes { Finishes self.old self.new }
        ensures covered { IsCovered self.new }
    {
        self.held[0] = Held::NoRange;
        self.done = true;
    }

    /// How many leaves there are.
    pub fn leaves(&self) -> u32
        ensures { result ≡ self.now.leaves }
    {
        self.leaves
    }

    /// Whether the range from `first` up to `last` is carried. One that is carried is one of the tree.
    pub fn carries(&self, first: u32, last: u32) -> bool
        ensures carried { result ≡ true ↔ Contains self.now.carried (range_from first last) }
        ensures range { result ≡ true → IsRange self.now.leaves (range_from first last) }
    {
        if first >= self.leaves {
            return false;
        }
        match self.held[first as usize] {
            Held::Carried(end) => end == last,
            _ => false,
        }
    }

    /// Whether the end was reached.
    pub fn is_done(&self) -> bool
        ensures { result ≡ self.now.done }
    {
        self.done
    }
}

/// The part of a node other than the one that it was asked for.
fn other_part(node: Node) -> Arrival
    ensures { result ≡ (if node.is_left then Arrival.Second node.boundary node.last else Arrival.Second node.first node.boundary) }
{
    if node.is_left {
        Arrival::Second(node.boundary, node.last)
    } else {
        Arrival::Second(node.first, node.boundary)
    }
}
