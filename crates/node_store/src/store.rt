ghost use Rattle.std.specs.Prelude.{◌≡◌, ◌≢◌, ◌↔◌, ℕ, ◌+◌, ◌-◌, ◌≤◌, List, [], ◌∷◌, ◌++◌, length, take, drop, Some, IsTrue, IfOk, IfErr, OnOk, OnErr, slice_set};
ghost use Rattle.std.specs.Option.{option_map};
ghost use Rattle.node_data.specs.declared.kid.Kid.{Kid};
ghost use Rattle.node_data.specs.declared.kid.Kid.TheVariants.{Hidden};
ghost use Rattle.node_store.specs.Chunks.{AddsNode, AreApart, HasChunk, IsHiddenAt, IsNodeOf, IsPlaceOf, StoresBoth, StoresKid, StoresNode, SetsKid, node_count_in, numbers_in, store_of};
ghost use Rattle.node_store.specs.Kids.{kids_seen};

use crate::chunk::Chunk;
use crate::kids::Kids;
use crate::packed_kid::PackedKid;
use crate::slots::{MOST_CHUNKS, grow, set_slots};
use grammar_data::RuleId;
use lr_base::NoMemory;
use node_data::NodeRef;
use std::alloc::Global;
use std::marker::Model;

/// Nodes in chunks. A chunk has a number and never moves a node, so that a reference stays good as long as the store stands,
/// also where it is appended to another. Contracts see the list of the chunks in the order in which they came, each its
/// number and its nodes, each node the number of its rule and its kids; `store_of` is what trees see of it.
///
/// The number of a chunk finds it by one load, in a list that is as long as the greatest number asks. A node takes 8 bytes, a
/// kid that is a node of the same chunk 4, and any other kid 20, beside the lists' spare room. No call recurses on trees.
#[derive(Debug, Drop)]
pub struct Store {
    chunks: Vec<Chunk>,
    slots: Vec<u32>,
    count: u64,
}

impl Model for Store {
    ghost use Rattle.std.specs.Prelude.{List};
    ghost use Rattle.node_store.specs.Chunks.{Chunk as Nodes, IsStore};

    ghost Value = { List Nodes };

    ghost view = { λ s. s.chunks.items };

    ghost invariant = { λ s. IsStore s.chunks.items s.slots.items s.count };
}

impl Store {
    /// A store with no chunk.
    pub fn new(alloc: Global) -> Store
        ensures { result ≡ [] }
    {
        Store {
            chunks: Vec::new(alloc),
            slots: Vec::new(alloc),
            count: 0,
        }
    }

    /// Whether there is a chunk of that number.
    pub fn has_chunk(&self, number: u32) -> bool
        ensures { IsTrue result ↔ HasChunk self.now number }
    {
        match self.slots.get(number as usize) {
            Some(slot) => *slot > 0,
            None => false,
        }
    }

    /// How many nodes there are.
    pub fn node_count(&self) -> u64
        ensures { result ≡ node_count_in self.now }
    {
        self.count
    }

    /// The place of the chunk of a number.
    fn place_of(&self, number: u32) -> usize
        requires { HasChunk self.now number }
        ensures { IsPlaceOf self.now number result }
    {
        self.slots[number as usize] as usize - 1
    }

    /// Adds a chunk with no node. A refused call leaves the store as it was. The list that finds chunks grows with the
    /// greatest number of a chunk, 4 bytes a number.
    pub fn add_chunk(&mut self, alloc: Global, number: u32) -> Result<(), NoMemory>
        requires { ¬ (HasChunk self.old number) }
        ensures added { OnOk result (self.new ≡ self.old ++ (number, []) ∷ []) }
        ensures has { OnOk result (HasChunk self.new number) }
        ensures trees { (m : ℕ × ℕ) → store_of self.new m ≡ store_of self.old m }
        ensures count { node_count_in self.new ≡ node_count_in self.old }
        ensures err { OnErr result (self.new ≡ self.old) }
    {
        let place = self.chunks.len();
        if place >= MOST_CHUNKS {
            return Err(NoMemory);
        }
        grow(&mut self.slots, number as usize + 1)?;
        self.chunks.push(Chunk::new(alloc, number))?;
        set_slots(&mut self.slots, &self.chunks, place);
        Ok(())
    }

    /// Adds a node to a chunk. Its reference is the chunk and the number of nodes that the chunk had. A refused call leaves
    /// the store as it was. The nodes of a chunk have fewer than 2^32 kids in all, at most 2^31 of them tokens, hidden or nodes
    /// of other chunks, and a store has fewer than 2^64 nodes; more is want of memory.
    pub fn add(&mut self, chunk: u32, rule: RuleId, kids: &[PackedKid]) -> Result<NodeRef, NoMemory>
        requires { HasChunk self.old chunk }
        ensures added { IfOk result (λ node. AddsNode self.old self.new chunk rule kids.now node) }
        ensures trees { IfOk result (λ node. StoresNode (store_of self.old) (store_of self.new)
            rule kids.now node) }
        ensures chunks { numbers_in self.new ≡ numbers_in self.old }
        ensures count { OnOk result (node_count_in self.new ≡ node_count_in self.old + 1) }
        ensures err { OnErr result (self.new ≡ self.old) }
    {
        let Some(count) = self.count.checked_add(1) else {
            return Err(NoMemory);
        };
        let at = self.place_of(chunk);
        let place = self.chunks[at].add(rule, kids)?;
        self.count = count;
        Ok(NodeRef { place, chunk })
    }

    /// Adds a node whose kids are the last of a list, which loses them. A refused call leaves the store and the list as they
    /// were.
    pub fn add_from(
        &mut self,
        chunk: u32,
        rule: RuleId,
        stack: &mut Vec<PackedKid>,
        count: usize,
    ) -> Result<NodeRef, NoMemory>
        requires chunk { HasChunk self.old chunk }
        requires count { count ≤ length stack.old.items }
        ensures added { IfOk result (λ node. AddsNode self.old self.new chunk rule
            (drop (length stack.old.items - count) stack.old.items) node) }
        ensures trees { IfOk result (λ node. StoresNode (store_of self.old) (store_of self.new) rule
            (drop (length stack.old.items - count) stack.old.items) node) }
        ensures stack { OnOk result (stack.new.items
            ≡ take (length stack.old.items - count) stack.old.items) }
        ensures chunks { numbers_in self.new ≡ numbers_in self.old }
        ensures count { OnOk result (node_count_in self.new ≡ node_count_in self.old + 1) }
        ensures err { OnErr result (self.new ≡ self.old) }
        ensures stack_err { OnErr result (stack.new.items ≡ stack.old.items) }
    {
        let rest = stack.len() - count;
        let node = self.add(chunk, rule, &stack[rest..])?;
        stack.truncate(rest);
        Ok(node)
    }

    /// Puts a kid in the place of a hidden one of a node, and changes nothing else.
    pub fn fill(&mut self, node: NodeRef, at: u32, kid: PackedKid)
        requires hidden { IsHiddenAt self.old node at }
        requires shown { kid ≢ Hidden }
        ensures filled { SetsKid self.old self.new node at kid }
        ensures trees { StoresKid (store_of self.old) (store_of self.new) node at kid }
        ensures chunks { numbers_in self.new ≡ numbers_in self.old }
        ensures count { node_count_in self.new ≡ node_count_in self.old }
    {
        let place = self.place_of(node.chunk);
        self.chunks[place].set_kid(node.place, at, kid);
    }

    /// The rule of a node.
    pub fn rule(&self, node: NodeRef) -> RuleId
        requires { IsNodeOf self.now node }
        ensures { option_map (λ n. n.0) (store_of self.now node) ≡ Some result }
    {
        self.chunks[self.place_of(node.chunk)].rule(node.place)
    }

    /// The kids of a node.
    pub fn kids(&self, node: NodeRef) -> Kids<'_>
        requires { IsNodeOf self.now node }
        ensures { option_map (λ n. n.1) (store_of self.now node) ≡ Some (kids_seen result) }
    {
        self.chunks[self.place_of(node.chunk)].kids(node.place)
    }

    /// Appends the chunks of another store, whose references then are references to this one; no node is copied. `Err` is want
    /// of memory: it hands the other store back as it was, and this one is unchanged.
    pub fn append(&mut self, mut other: Store) -> Result<(), Store>
        requires { AreApart self.old other }
        ensures appended { OnOk result (self.new ≡ self.old ++ other) }
        ensures trees { OnOk result (StoresBoth (store_of self.old) (store_of other)
            (store_of self.new)) }
        ensures count { OnOk result (node_count_in self.new
            ≡ node_count_in self.old + node_count_in other) }
        ensures back { IfErr result (λ back. back ≡ other) }
        ensures err { OnErr result (self.new ≡ self.old) }
    {
        let Some(count) = self.count.checked_add(other.count) else {
            return Err(other);
        };
        let place = self.chunks.len();
        if place > MOST_CHUNKS || other.chunks.len() > MOST_CHUNKS - place {
            return Err(other);
        }
        if grow(&mut self.slots, other.slots.len()).is_err() {
            return Err(other);
        }
        if self.chunks.append(&mut other.chunks).is_err() {
            return Err(other);
        }
        set_slots(&mut self.slots, &self.chunks, place);
        self.count = count;
        Ok(())
    }
}
