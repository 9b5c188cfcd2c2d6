ghost use Rattle.std.specs.Prelude.{◌≡◌, ℕ, ◌+◌, ◌<◌, ◌≤◌, List, [], ◌∷◌, ◌++◌, length, take, drop, slice_get, slice_set, Some, IfOk, IfSome, OnErr, OnOk};
ghost use Rattle.std.specs.Option.{option_map};
ghost use Rattle.node_data.specs.declared.kid.Kid.{Kid as AKid};
ghost use Rattle.node_data.specs.declared.kid.Kid.TheVariants.{Hidden};
ghost use Rattle.node_store.specs.Flat.{all_kids, start_at};
ghost use Rattle.node_store.specs.Kids.{kids_seen};

use crate::kids::Kids;
use crate::link::{Link, PackedLink};
use crate::links::push_kids;
use crate::node::Node;
use crate::packed_kid::PackedKid;
use grammar_data::RuleId;
use lr_base::NoMemory;
use node_data::{Kid, NodeRef};
use std::alloc::Global;
use std::marker::Model;

/// A chunk of nodes, in flat lists: the nodes; a link for each kid, those of all nodes one after another; and the leaves, which
/// are the kids that are no nodes of the chunk, in the order in which they came. Contracts see its number and its nodes, each
/// the number of its rule and its kids.
#[derive(Debug, Drop)]
pub struct Chunk {
    nodes: Vec<Node>,
    links: Vec<PackedLink>,
    leaves: Vec<PackedKid>,
    number: u32,
}

impl Model for Chunk {
    ghost use Rattle.node_store.specs.Chunks.{Chunk as Nodes};
    ghost use Rattle.node_store.specs.Flat.{AreLists, cut};
    ghost use Rattle.node_store.specs.Links.{linked};

    ghost Value = { Nodes };

    ghost view = { λ s. (s.number, cut 0 s.nodes.items (linked s.number s.leaves.items s.links.items)) };

    ghost invariant = { λ s. AreLists s.nodes.items s.links.items s.leaves.items };
}

/// The end of so many kids behind those that are there, as far as 32 bits tell it.
fn end_of(held: usize, more: usize) -> Option<u32>
    ensures { IfSome result (λ end. end ≡ held + more) }
{
    u32::try_from(held.checked_add(more)?).ok()
}

/// Where the kids of the node at a place begin.
fn start_of(nodes: &[Node], place: usize) -> u32
    requires { place < length nodes.now }
    ensures { result ≡ start_at 0 nodes.now place }
{
    if place == 0 {
        return 0;
    }
    nodes[place - 1].end
}

impl Chunk {
    /// A chunk with no node.
    pub fn new(alloc: Global, number: u32) -> Chunk
        ensures { result ≡ (number, []) }
    {
        Chunk {
            nodes: Vec::new(alloc),
            links: Vec::new(alloc),
            leaves: Vec::new(alloc),
            number,
        }
    }

    /// The chunk's number.
    pub fn number(&self) -> u32
        ensures { result ≡ self.now.0 }
    {
        self.number
    }

    /// Adds a node and gives its place. A refused call leaves the chunk as it was.
    pub fn add(&mut self, rule: RuleId, kids: &[PackedKid]) -> Result<u64, NoMemory>
        ensures place { IfOk result (λ place. place ≡ length self.old.1) }
        ensures nodes { OnOk result (self.new ≡ (self.old.0, self.old.1 ++ (rule, kids.now) ∷ [])) }
        ensures err { OnErr result (self.new ≡ self.old) }
    {
        let Some(end) = end_of(self.links.len(), kids.len()) else {
            return Err(NoMemory);
        };
        let place = self.nodes.len() as u64;
        self.nodes.reserve(1)?;
        push_kids(self.number, &mut self.links, &mut self.leaves, kids)?;
        self.nodes.push_reserved(Node { end, rule });
        Ok(place)
    }

    /// Puts a kid in the place of a hidden one of a node.
    pub fn set_kid(&mut self, place: u64, at: u32, kid: PackedKid)
        requires { (r : ℕ) × (kids : List AKid)
            × (slice_get self.old.1 place ≡ Some (r, kids)) × (slice_get kids at ≡ Some Hidden) }
        ensures { (r : ℕ) (kids : List AKid) → slice_get self.old.1 place ≡ Some (r, kids)
            → self.new ≡ (self.old.0, slice_set self.old.1 place (r, slice_set kids at kid)) }
    {
        let first = start_of(&self.nodes, place as usize);
        match self.links[first as usize + at as usize].link() {
            Link::Leaf(index) => self.leaves[index as usize] = kid,
            Link::Node(_) => unreachable!(),
        }
    }

    /// The rule of a node.
    pub fn rule(&self, place: u64) -> RuleId
        requires { place < length self.now.1 }
        ensures { option_map (λ node. node.0) (slice_get self.now.1 place) ≡ Some result }
    {
        self.nodes[place as usize].rule
    }

    /// The kids of a node.
    pub fn kids(&self, place: u64) -> Kids<'_>
        requires { place < length self.now.1 }
        ensures { option_map (λ node. node.1) (slice_get self.now.1 place) ≡ Some (kids_seen result) }
    {
        let place = place as usize;
        let first = start_of(&self.nodes, place);
        Kids::new(self, first, self.nodes[place].end)
    }

    /// The kid at an index among the kids of all nodes.
    pub fn kid(&self, index: usize) -> PackedKid
        requires { index < length (all_kids self.now) }
        ensures { slice_get (all_kids self.now) index ≡ Some result }
    {
        match self.links[index].link() {
            Link::Leaf(index) => self.leaves[index as usize],
            Link::Node(place) => PackedKid::of(Kid::Node(NodeRef {
                place: place as u64,
                chunk: self.number,
            })),
        }
    }
}
