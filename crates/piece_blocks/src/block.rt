ghost use Rattle.std.specs.Prelude.{◌≡◌, ℕ, ◌+◌, ◌-◌, ◌<◌, ◌≤◌, List, [], ◌∷◌, ◌++◌, length, take, drop, replicate, IfOk, OnOk, OnErr};
ghost use Rattle.node_data.specs.declared.kid.Kid.TheVariants.{Hidden};
ghost use Rattle.node_store.specs.Chunks.{AddsNode, HasChunk, StoresNode, numbers_in, node_count_in, store_of};
ghost use Rattle.piece_blocks.specs.Blocks.{piece_at};

use crate::floor::Floor;
use crate::head::{Extent, Head};
use grammar_data::{RuleId, Token};
use lr_base::NoMemory;
use node_data::{Kid, NodeRef};
use node_store::{PackedKid, Store};
use std::alloc::Global;
use std::marker::Model;

/// Pieces in flat lists, and what an open piece has so far: the floors below its last one, and the kids of its entries.
/// Contracts see the closed pieces as a list, and the open one's floors and kids.
#[derive(Debug, Drop)]
pub struct Block {
    heads: Vec<Head>,
    floors: Vec<Floor>,
    kids: Vec<PackedKid>,
    closed_floors: usize,
    closed_kids: usize,
}

impl Model for Block {
    ghost use Rattle.std.specs.Prelude.{drop};
    ghost use Rattle.piece_blocks.specs.Blocks.{Filling, IsBlock, cut_pieces};

    ghost Value = { Filling };

    ghost view = { λ s. record {
      closed = cut_pieces s.heads.items s.floors.items s.kids.items;
      floors = drop s.closed_floors s.floors.items;
      kids = drop s.closed_kids s.kids.items;
    } };

    ghost invariant = { λ s. IsBlock s.heads.items s.floors.items s.kids.items s.closed_floors s.closed_kids };
}

impl Block {
    /// A block with no piece.
    pub fn new(alloc: Global) -> Block
        ensures closed { result.closed ≡ [] }
        ensures floors { result.floors ≡ [] }
        ensures kids { result.kids ≡ [] }
    {
        Block {
            heads: Vec::new(alloc),
            floors: Vec::new(alloc),
            kids: Vec::new(alloc),
            closed_floors: 0,
            closed_kids: 0,
        }
    }

    /// How many pieces are closed.
    pub fn count(&self) -> usize
        ensures { result ≡ length self.now.closed }
    {
        self.heads.len()
    }

    /// The first token of a closed piece, by the piece's number, from 0.
    pub fn first(&self, index: usize) -> Token
        requires { index < length self.now.closed }
        ensures { result ≡ (piece_at self.now.closed index).first }
    {
        self.heads[index].first
    }

    /// How many tokens a closed piece has.
    pub fn tokens(&self, index: usize) -> u32
        requires { index < length self.now.closed }
        ensures { result ≡ (piece_at self.now.closed index).count }
    {
        self.heads[index].count
    }

    /// The floors of a closed piece, the first one first.
    pub fn floors(&self, index: usize) -> &[Floor]
        requires { index < length self.now.closed }
        ensures { result.now ≡ (piece_at self.now.closed index).floors }
    {
        let head = self.heads[index];
        part(&self.floors, head.floors_from, head.floors)
    }

    /// The kids of a closed piece's entries, the lowest first.
    pub fn kids(&self, index: usize) -> &[PackedKid]
        requires { index < length self.now.closed }
        ensures { result.now ≡ (piece_at self.now.closed index).kids }
    {
        let head = self.heads[index];
        part(&self.kids, head.kids_from, head.kids)
    }

    /// How many kids the open piece has.
    pub fn open_kids(&self) -> usize
        ensures { result ≡ length self.now.kids }
    {
        self.kids.len() - self.closed_kids
    }

    /// The kids of the open piece.
    pub fn open_list(&self) -> &[PackedKid]
        ensures { result.now ≡ self.now.kids }
    {
        &self.kids[self.closed_kids..]
    }

    /// The open piece loses its last kids, so many.
    pub fn drop_kids(&mut self, count: usize)
        requires { count ≤ length self.old.kids }
        ensures closed { self.new.closed ≡ self.old.closed }
        ensures floors { self.new.floors ≡ self.old.floors }
        ensures kids { self.new.kids ≡ take (length self.old.kids - count) self.old.kids }
    {
        let rest = self.kids.len() - count;
        self.kids.truncate(rest);
    }

    /// The open piece gets one kid more. A refused call leaves the block as it was.
    pub fn push_kid(&mut self, kid: PackedKid) -> Result<(), NoMemory>
        ensures closed { OnOk result (self.new.closed ≡ self.old.closed) }
        ensures floors { self.new.floors ≡ self.old.floors }
        ensures kids { OnOk result (self.new.kids ≡ self.old.kids ++ kid ∷ []) }
        ensures err { OnErr result (self.new ≡ self.old) }
    {
        self.kids.push(kid)?;
        Ok(())
    }

    /// Makes a node of the last kids of the open piece, which loses them. A refused call leaves the block and the store as they
    /// were.
    pub fn take_kids(
        &mut self,
        store: &mut Store,
        chunk: u32,
        rule: RuleId,
        count: usize,
    ) -> Result<NodeRef, NoMemory>
        requires chunk { HasChunk store.old chunk }
        requires count { count ≤ length self.old.kids }
        ensures closed { OnOk result (self.new.closed ≡ self.old.closed) }
        ensures floors { self.new.floors ≡ self.old.floors }
        ensures kids { OnOk result (self.new.kids ≡ take (length self.old.kids - count) self.old.kids) }
        ensures trees { IfOk result (λ node. StoresNode (store_of store.old) (store_of store.new) rule
            (drop (length self.old.kids - count) self.old.kids) node) }
        ensures chunks { numbers_in store.new ≡ numbers_in store.old }
        ensures nodes { OnOk result (node_count_in store.new ≡ node_count_in store.old + 1) }
        ensures err { OnErr result (self.new ≡ self.old) }
        ensures store_err { OnErr result (store.new ≡ store.old) }
    {
        let node = store.add_from(chunk, rule, &mut self.kids, count)?;
        Ok(node)
    }

    /// Makes a node of hidden kids, so many, and all kids of the open piece, which loses them. A refused call leaves the block
    /// and the store as they were.
    pub fn hide_kids(
        &mut self,
        alloc: Global,
        store: &mut Store,
        chunk: u32,
        rule: RuleId,
        hidden: u32,
    ) -> Result<NodeRef, NoMemory>
        requires { HasChunk store.old chunk }
        ensures closed { OnOk result (self.new.closed ≡ self.old.closed) }
        ensures floors { self.new.floors ≡ self.old.floors }
        ensures kids { OnOk result (self.new.kids ≡ []) }
        ensures trees { IfOk result (λ node. StoresNode (store_of store.old) (store_of store.new) rule
            (replicate hidden Hidden ++ self.old.kids) node) }
        ensures chunks { numbers_in store.new ≡ numbers_in store.old }
        ensures nodes { OnOk result (node_count_in store.new ≡ node_count_in store.old + 1) }
        ensures err { OnErr result (self.new ≡ self.old) }
        ensures store_err { OnErr result (store.new ≡ store.old) }
    {
        let kids = with_hidden(alloc, hidden, &self.kids[self.closed_kids..])?;
        let node = store.add(chunk, rule, &kids)?;
        self.kids.truncate(self.closed_kids);
        Ok(node)
    }

    /// The open piece gets one floor more below its last one. A refused call leaves the block as it was.
    pub fn push_floor(&mut self, floor: Floor) -> Result<(), NoMemory>
        ensures closed { OnOk result (self.new.closed ≡ self.old.closed) }
        ensures kids { self.new.kids ≡ self.old.kids }
        ensures floors { OnOk result (self.new.floors ≡ self.old.floors ++ floor ∷ []) }
        ensures err { OnErr result (self.new ≡ self.old) }
    {
        self.floors.push(floor)?;
        Ok(())
    }

    /// Closes the open piece, with the floors and kids that it has, and opens another without any. A refused call leaves the
    /// block as it was.
    pub fn close(&mut self, first: Token, count: u32) -> Result<(), NoMemory>
        ensures closed { OnOk result (self.new.closed ≡ self.old.closed
            ++ record { first = first; count = count; floors = self.old.floors; kids = self.old.kids } ∷ []) }
        ensures floors { OnOk result (self.new.floors ≡ []) }
        ensures kids { OnOk result (self.new.kids ≡ []) }
        ensures err { OnErr result (self.new ≡ self.old) }
    {
        let floors = self.floors.len() - self.closed_floors;
        let kids = self.kids.len() - self.closed_kids;
        self.heads.push(Head {
            first,
            count,
            floors_from: self.closed_floors,
            floors,
            kids_from: self.closed_kids,
            kids,
        })?;
        self.closed_floors += floors;
        self.closed_kids += kids;
        Ok(())
    }

    /// Opens the last closed piece again: its floors and kids are those of the open piece, in place of what that had.
    pub fn reopen(&mut self) -> Extent
        requires { 0 < length self.old.closed }
        ensures { self.old.closed ≡ self.new.closed
            ++ record { first = result.first; count = result.count; floors = self.new.floors; kids = self.new.kids } ∷ [] }
    {
        let last = self.heads.len() - 1;
        let head = self.heads[last];
        self.floors.truncate(self.closed_floors);
        self.kids.truncate(self.closed_kids);
        self.heads.truncate(last);
        self.closed_floors = head.floors_from;
        self.closed_kids = head.kids_from;
        Extent {
            first: head.first,
            count: head.count,
        }
    }

    /// Takes the last floor off those of the open piece.
    pub fn pop_floor(&mut self) -> Floor
        requires { 0 < length self.old.floors }
        ensures closed { self.new.closed ≡ self.old.closed }
        ensures floors { self.old.floors ≡ self.new.floors ++ result ∷ [] }
        ensures kids { self.new.kids ≡ self.old.kids }
    {
        self.floors.pop().unwrap()
    }
}

/// Hidden kids, so many, and then these.
fn with_hidden(alloc: Global, hidden: u32, kids: &[PackedKid]) -> Result<Vec<PackedKid>, NoMemory>
    ensures { IfOk result (λ all. all.items ≡ replicate hidden Hidden ++ kids.now) }
{
    let mut all = vec![in alloc; PackedKid::of(Kid::Hidden); hidden as usize]?;
    all.extend_from_slice(kids)?;
    Ok(all)
}

/// So many items of a list, from a place on.
fn part<T>(items: &[T], from: usize, count: usize) -> &[T]
    requires { from + count ≤ length items.now }
    ensures { result.now ≡ take count (drop from items.now) }
{
    &items[from..from + count]
}
