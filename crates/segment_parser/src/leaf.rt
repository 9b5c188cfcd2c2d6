ghost use Rattle.std.specs.Prelude.{◌≡◌, ℕ, ◌+◌, ◌-◌, ◌^◌, ◌<◌, ◌≤◌, [], ◌∷◌, ◌++◌, length, List, IfOk, OnOk, slice_index_or, slice_set, take, drop, replicate, Some, None};
ghost use Rattle.grammar_data.specs.declared.rule.Sym.TheVariants.{Name};
ghost use Rattle.grammar_data.specs.declared.rule.Sym.{Sym as Symbol};
ghost use Rattle.grammar_data.specs.declared.token.Token.{Token as TextToken};
ghost use Rattle.grammar_theory.specs.Rules.{IsRule};
ghost use Rattle.tree_theory.specs.Stores.{Ref, Store as NodeTable};
ghost use Rattle.tree_theory.specs.Walks.{Step};
ghost use Rattle.lawful_theory.specs.Lawful.{IsLawful};
ghost use Rattle.context_laws.specs.Contexts.{LeadFromStates};
ghost use Rattle.segment_parser.specs.Opening.{IsOpenIn};
ghost use Rattle.node_data.specs.declared.kid.Kid.TheVariants.{Token as TokenKid, Node as NodeKid, Hidden};
ghost use Rattle.map_theory.specs.Relations.{AreAlive, AreShiftStarts, IsBack, IsIdentityOf, IsRestricted, IsThenSymbol};
ghost use Rattle.node_store.specs.Chunks.{HasChunk, StoresNode, numbers_in, store_of};
ghost use Rattle.state_sets.specs.Within.{HasSymbol};
ghost use Rattle.arrow_table.specs.Looks.{Grows, HasMap, map_at};
ghost use Rattle.segment_parser.specs.Working.{AreThere, IsFreshAt, last_id, last_of};
ghost use Rattle.segment_parser.specs.Standing.{SameButEntries};
ghost use Rattle.segment_parser.specs.Numbers.{AllStand, AreFrom, Stands};
ghost use Rattle.look_laws.specs.Deaths.{deaths};
ghost use Rattle.piece_blocks.specs.Faults.{lost};

use arrow_table::{ArrowId, Arrows, Opening};
use lr_base::{NameId, NoMemory, RuleId, Sym, Token};
use node_store::{Kid, NodeRef, PackedKid, Store};
use piece_blocks::{Block, Faults, Floor, Opened};
use std::alloc::Global;

/// The piece that is open, and the pieces before it. `ids` has the number of the map over each entry, whose kids stand in the
/// block; from entry `stale` on the maps have alive starts alone. The last floor's starts are two maps: each start to the
/// start of the floor below, and each to itself. The table keeps these two maps and the last entry's; those over lower entries
/// it may have forgotten, and they are found again when they are wanted. After an error nothing is known of the piece, and it's
/// to be dropped.
#[derive(Debug, Drop)]
pub struct Leaf {
    pub block: Block,
    pub ids: Vec<ArrowId>,
    pub faults: Faults,
    pub opened: Option<Opened>,
    pub starts: ArrowId,
    pub own: ArrowId,
    pub stale: usize,
    pub first: Token,
    pub count: u32,
}

impl Leaf {
    /// The number of the map over the last entry.
    pub fn top(&self) -> ArrowId
        requires { 0 < length self.now.ids.items }
        ensures { result ≡ last_id self.now.ids.items }
    {
        self.ids[self.ids.len() - 1]
    }

    /// Shifts a token: it is the new last entry, over which stands a map that the look has given.
    pub fn shift(&mut self, token: Token, to: ArrowId) -> Result<(), NoMemory>
        requires token { token.id < 2 ^ 32 - 2 }
        requires few { self.old.count < 2 ^ 32 - 1 }
        ensures kids { OnOk result (self.new.block.kids ≡ self.old.block.kids ++ TokenKid token ∷ []) }
        ensures ids { OnOk result (self.new.ids.items ≡ self.old.ids.items ++ to ∷ []) }
        ensures count { OnOk result (self.new.count ≡ self.old.count + 1) }
        ensures stale { OnOk result (self.new.stale ≡ self.old.stale) }
        ensures same { OnOk result (SameButEntries self.old self.new) }
    {
        self.block.push_kid(PackedKid::of(Kid::Token(token)))?;
        self.ids.push(to)?;
        self.count += 1;
        Ok(())
    }

    /// The first piece of a segment, opened with a token: its only entry is the token.
    pub fn begin(alloc: Global, arrows: &mut Arrows<'_>, token: &Token) -> Result<Leaf, NoMemory>
        requires token { token.now.id < 2 ^ 32 - 2 }
        ensures tables { arrows.new.0 ≡ arrows.old.0 }
        ensures base { arrows.new.2 ≡ arrows.old.2 }
        ensures grows { Grows arrows.old.1 arrows.new.1 }
        ensures block { IfOk result (λ leaf. (leaf.block.kids ≡ TokenKid token.now ∷ []) × (leaf.block.floors ≡ [])
            × (leaf.block.closed ≡ [])) }
        ensures ids { IfOk result (λ leaf. (after : ℕ) × (leaf.ids.items ≡ after ∷ [])
            × HasMap arrows.new.1 after (AreShiftStarts arrows.old.0 token.now.id)
            × HasMap arrows.new.1 leaf.starts (IsIdentityOf (map_at arrows.new.1 after))) }
        ensures own { IfOk result (λ leaf. HasMap arrows.new.1 leaf.own (IsIdentityOf (map_at arrows.new.1 leaf.starts))) }
        ensures first { IfOk result (λ leaf. (leaf.first ≡ token.now) × (leaf.count ≡ 1) × (leaf.stale ≡ 0)
            × (leaf.opened ≡ None) × (leaf.faults ≡ [])) }
        ensures stand { IfOk result (AllStand arrows.new.2) }
    {
        let Opening { starts, after } = arrows.open(alloc, token.id)?;
        let own = arrows.identity(alloc, starts)?;
        let mut block = Block::new(alloc);
        block.push_kid(PackedKid::of(Kid::Token(*token)))?;
        let mut ids = Vec::new(alloc);
        ids.push(after)?;
        Ok(Leaf {
            block,
            ids,
            faults: Faults::new(alloc),
            opened: None,
            starts,
            own,
            stale: 0,
            first: *token,
            count: 1,
        })
    }

    /// Opens a piece with a token, where the block has no open piece: its only entry is the token.
    pub fn open(
        &mut self,
        alloc: Global,
        arrows: &mut Arrows<'_>,
        token: &Token,
    ) -> Result<(), NoMemory>
        requires token { token.now.id < 2 ^ 32 - 2 }
        requires closed { (self.old.block.kids ≡ []) × (self.old.block.floors ≡ []) }
        ensures tables { arrows.new.0 ≡ arrows.old.0 }
        ensures base { arrows.new.2 ≡ arrows.old.2 }
        ensures grows { Grows arrows.old.1 arrows.new.1 }
        ensures kids { OnOk result (self.new.block.kids ≡ TokenKid token.now ∷ []) }
        ensures floors { OnOk result (self.new.block.floors ≡ []) }
        ensures closed { OnOk result (self.new.block.closed ≡ self.old.block.closed) }
        ensures ids { OnOk result ((after : ℕ) × (self.new.ids.items ≡ after ∷ [])
            × HasMap arrows.new.1 after (AreShiftStarts arrows.old.0 token.now.id)
            × HasMap arrows.new.1 self.new.starts (IsIdentityOf (map_at arrows.new.1 after))) }
        ensures own { OnOk result (HasMap arrows.new.1 self.new.own (IsIdentityOf (map_at arrows.new.1 self.new.starts))) }
        ensures opened { OnOk result (self.new.opened ≡ None) }
        ensures first { OnOk result ((self.new.first ≡ token.now) × (self.new.count ≡ 1) × (self.new.stale ≡ 0)) }
        ensures faults { OnOk result (self.new.faults ≡ []) }
        ensures stand { OnOk result (AllStand arrows.new.2 self.new) }
    {
        let kid = PackedKid::of(Kid::Token(*token));
        let Opening { starts, after } = arrows.open(alloc, token.id)?;
        let own = arrows.identity(alloc, starts)?;
        self.block.push_kid(kid)?;
        self.ids.clear();
        self.ids.push(after)?;
        self.faults.clear();
        self.opened = None;
        self.starts = starts;
        self.own = own;
        self.stale = 0;
        self.first = *token;
        self.count = 1;
        Ok(())
    }

    /// The entry of a node that a reduction made: over it stands the map that is gone to from a map below, along the name.
    pub fn put_node(
        &mut self,
        alloc: Global,
        arrows: &mut Arrows<'_>,
        below: ArrowId,
        name: NameId,
        node: NodeRef,
    ) -> Result<(), NoMemory>
        requires below { below < length arrows.old.1 }
        requires stands { arrows.old.2 ≤ below }
        requires name { HasSymbol arrows.old.0 (Name name) }
        ensures tables { arrows.new.0 ≡ arrows.old.0 }
        ensures base { arrows.new.2 ≡ arrows.old.2 }
        ensures grows { Grows arrows.old.1 arrows.new.1 }
        ensures kids { OnOk result (self.new.block.kids ≡ self.old.block.kids ++ NodeKid node ∷ []) }
        ensures ids { OnOk result ((to : ℕ) × (self.new.ids.items ≡ self.old.ids.items ++ to ∷ [])
            × HasMap arrows.new.1 to (IsThenSymbol arrows.old.0 (Name name) (map_at arrows.old.1 below))
            × (arrows.new.2 ≤ to)) }
        ensures count { OnOk result (self.new.count ≡ self.old.count) }
        ensures stale { OnOk result (self.new.stale ≡ self.old.stale) }
        ensures same { OnOk result (SameButEntries self.old self.new) }
    {
        let to = arrows.step(alloc, below, Sym::Name(name))?;
        self.block.push_kid(PackedKid::of(Kid::Node(node)))?;
        self.ids.push(to)?;
        Ok(())
    }

    /// A node takes the last entries, so many.
    pub fn take(
        &mut self,
        store: &mut Store,
        chunk: u32,
        rule: RuleId,
        count: usize,
    ) -> Result<NodeRef, NoMemory>
        requires chunk { HasChunk store.old chunk }
        requires kids { length self.old.block.kids ≡ length self.old.ids.items }
        requires count { count ≤ length self.old.ids.items }
        ensures kids { OnOk result (self.new.block.kids ≡ take (length self.old.ids.items - count) self.old.block.kids) }
        ensures ids { OnOk result (self.new.ids.items ≡ take (length self.old.ids.items - count) self.old.ids.items) }
        ensures trees { IfOk result (λ node. StoresNode (store_of store.old) (store_of store.new) rule
            (drop (length self.old.ids.items - count) self.old.block.kids) node) }
        ensures chunks { OnOk result (numbers_in store.new ≡ numbers_in store.old) }
        ensures count { OnOk result (self.new.count ≡ self.old.count) }
        ensures stale { OnOk result (self.new.stale ≡ self.old.stale) }
        ensures same { OnOk result (SameButEntries self.old self.new) }
    {
        let rest = self.ids.len() - count;
        let node = self.block.take_kids(store, chunk, rule, count)?;
        self.ids.truncate(rest);
        Ok(node)
    }

    /// The map over an entry that comes to the top loses the starts that have erred since it was pushed.
    pub fn freshen(
        &mut self,
        alloc: Global,
        arrows: &mut Arrows<'_>,
        depth: usize,
    ) -> Result<(), NoMemory>
        requires depth { depth < length self.old.ids.items }
        requires there { AreThere arrows.old.1 self.old.ids.items }
        requires starts { self.old.starts < length arrows.old.1 }
        requires stands { arrows.old.2 ≤ slice_index_or self.old.ids.items depth 0 }
        requires starts_stand { arrows.old.2 ≤ self.old.starts }
        ensures tables { arrows.new.0 ≡ arrows.old.0 }
        ensures base { arrows.new.2 ≡ arrows.old.2 }
        ensures grows { Grows arrows.old.1 arrows.new.1 }
        ensures fresh { OnOk result (IsFreshAt arrows.old.1 arrows.new.1 self.old.starts self.old.stale self.new.stale depth
            self.old.ids.items self.new.ids.items) }
        ensures block { self.new.block ≡ self.old.block }
        ensures count { self.new.count ≡ self.old.count }
        ensures same { SameButEntries self.old self.new }
        ensures stands { OnOk result (arrows.new.2 ≤ slice_index_or self.new.ids.items depth 0) }
        ensures levels { OnOk result (AreFrom arrows.old.2 self.old.ids.items → AreFrom arrows.new.2 self.new.ids.items) }
    {
        if depth < self.stale {
            let fresh = arrows.restrict(alloc, self.ids[depth], self.starts)?;
            self.ids[depth] = fresh;
            self.stale = depth;
        }
        Ok(())
    }

    /// Puts the last floor with the closed ones below it: its starts and faults stay as they are.
    pub fn put_floor(&mut self, alloc: Global, arrows: &Arrows<'_>) -> Result<(), NoMemory>
        requires starts { self.old.starts < length arrows.now.1 }
        requires stands { arrows.now.2 ≤ self.old.starts }
        ensures floors { OnOk result (self.new.block.floors ≡ self.old.block.floors
            ++ last_of arrows.now.1 self.old.opened self.old.starts self.old.faults ∷ []) }
        ensures faults { OnOk result (self.new.faults ≡ []) }
        ensures kids { OnOk result (self.new.block.kids ≡ self.old.block.kids) }
        ensures closed { OnOk result (self.new.block.closed ≡ self.old.block.closed) }
        ensures ids { OnOk result (self.new.ids.items ≡ self.old.ids.items) }
        ensures same { OnOk result ((self.new.opened ≡ self.old.opened) × (self.new.starts ≡ self.old.starts)
            × (self.new.own ≡ self.old.own) × (self.new.stale ≡ self.old.stale) × (self.new.first ≡ self.old.first)
            × (self.new.count ≡ self.old.count)) }
    {
        let starts = arrows.copy(self.starts)?;
        let mut faults = std::mem::replace(&mut self.faults, Faults::new(alloc));
        faults.shrink();
        let opened = self.opened;
        self.block.push_floor(Floor::new(opened, starts, faults))?;
        Ok(())
    }

    /// Closes the piece: the block has it with its tokens, floors and kids.
    pub fn close(&mut self, alloc: Global, arrows: &Arrows<'_>) -> Result<(), NoMemory>
        requires starts { self.old.starts < length arrows.now.1 }
        requires stands { arrows.now.2 ≤ self.old.starts }
        ensures closed { OnOk result (self.new.block.closed ≡ self.old.block.closed
            ++ record {
              first = self.old.first;
              count = self.old.count;
              floors = self.old.block.floors
                  ++ last_of arrows.now.1 self.old.opened self.old.starts self.old.faults ∷ [];
              kids = self.old.block.kids;
            } ∷ []) }
        ensures floors { OnOk result (self.new.block.floors ≡ []) }
        ensures kids { OnOk result (self.new.block.kids ≡ []) }
    {
        self.put_floor(alloc, arrows)?;
        self.block.close(self.first, self.count)
    }

    /// A node takes all entries behind hidden kids, and a floor is opened with the states from which the rule's first symbols,
    /// as many as there are hidden kids, lead to an alive start. The node has no entry yet.
    pub fn raise(
        &mut self,
        alloc: Global,
        arrows: &mut Arrows<'_>,
        store: &mut Store,
        chunk: u32,
        rule: RuleId,
        hidden: u32,
    ) -> Result<NodeRef, NoMemory>
        requires chunk { HasChunk store.old chunk }
        requires starts { self.old.starts < length arrows.old.1 }
        requires stands { arrows.old.2 ≤ self.old.starts }
        requires rule { rule < length arrows.old.0.rules }
        requires hidden { (n : ℕ) (right : List Symbol) → IsRule arrows.old.0.rules rule n right → hidden ≤ length right }
        ensures tables { arrows.new.0 ≡ arrows.old.0 }
        ensures base { arrows.new.2 ≡ arrows.old.2 }
        ensures grows { Grows arrows.old.1 arrows.new.1 }
        ensures trees { IfOk result (λ node. StoresNode (store_of store.old) (store_of store.new) rule
            (replicate hidden Hidden ++ self.old.block.kids) node) }
        ensures chunks { OnOk result (numbers_in store.new ≡ numbers_in store.old) }
        ensures floors { OnOk result (self.new.block.floors ≡ self.old.block.floors
            ++ last_of arrows.old.1 self.old.opened self.old.starts self.old.faults ∷ []) }
        ensures opened { IfOk result (λ node. self.new.opened
            ≡ Some (record { rule = rule; hidden = hidden; node = node })) }
        ensures back { OnOk result ((n : ℕ) (right : List Symbol) → IsRule arrows.old.0.rules rule n right
            → HasMap arrows.new.1 self.new.starts (IsBack arrows.old.0 (take hidden right) (map_at arrows.old.1 self.old.starts))) }
        ensures own { OnOk result (HasMap arrows.new.1 self.new.own (IsIdentityOf (map_at arrows.new.1 self.new.starts))) }
        ensures entries { OnOk result ((self.new.block.kids ≡ []) × (self.new.ids.items ≡ []) × (self.new.stale ≡ 0)) }
        ensures faults { OnOk result (self.new.faults ≡ []) }
        ensures stand { OnOk result ((arrows.new.2 ≤ self.new.starts) × (arrows.new.2 ≤ self.new.own)) }
        ensures closed { OnOk result (self.new.block.closed ≡ self.old.block.closed) }
        ensures same { OnOk result ((self.new.first ≡ self.old.first) × (self.new.count ≡ self.old.count)) }
    {
        let node = self.block.hide_kids(alloc, store, chunk, rule, hidden)?;
        self.put_floor(alloc, arrows)?;
        let starts = arrows.back(alloc, self.starts, rule, hidden)?;
        let own = arrows.identity(alloc, starts)?;
        self.opened = Some(Opened { node, rule, hidden });
        self.starts = starts;
        self.own = own;
        self.ids.clear();
        self.stale = 0;
        Ok(node)
    }

    /// Starts of the last floor err on the next token: they get their faults, and the floor and the last entry lose them.
    pub fn die(
        &mut self,
        alloc: Global,
        arrows: &mut Arrows<'_>,
        token: &Token,
        alive: ArrowId,
    ) -> Result<(), NoMemory>
        requires some { 0 < length self.old.ids.items }
        requires there { AreThere arrows.old.1 self.old.ids.items }
        requires starts { self.old.starts < length arrows.old.1 }
        requires alive { alive < length arrows.old.1 }
        requires alive_stands { arrows.old.2 ≤ alive }
        requires stand { Stands arrows.old.2 self.old }
        ensures tables { arrows.new.0 ≡ arrows.old.0 }
        ensures base { arrows.new.2 ≡ arrows.old.2 }
        ensures grows { Grows arrows.old.1 arrows.new.1 }
        ensures lost { OnOk result (self.new.faults ≡ self.old.faults
            ++ lost (map_at arrows.old.1 (last_id self.old.ids.items)) (map_at arrows.old.1 alive) token.now self.old.count) }
        ensures faults { OnOk result (
            AreAlive arrows.old.0 token.now.id (map_at arrows.old.1 (last_id self.old.ids.items)) (map_at arrows.old.1 alive)
            → self.new.faults ≡ self.old.faults
            ++ deaths arrows.old.0 token.now self.old.count (map_at arrows.old.1 (last_id self.old.ids.items))) }
        ensures starts { OnOk result (HasMap arrows.new.1 self.new.starts
            (IsRestricted (map_at arrows.old.1 self.old.starts) (map_at arrows.old.1 alive))) }
        ensures own { OnOk result (HasMap arrows.new.1 self.new.own (IsIdentityOf (map_at arrows.new.1 self.new.starts))) }
        ensures ids { OnOk result (self.new.ids.items
            ≡ slice_set self.old.ids.items (length self.old.ids.items - 1) alive) }
        ensures stale { OnOk result (self.new.stale ≡ length self.old.ids.items - 1) }
        ensures block { self.new.block ≡ self.old.block }
        ensures stand { OnOk result (Stands arrows.new.2 self.new) }
        ensures levels { OnOk result (AreFrom arrows.old.2 self.old.ids.items → AreFrom arrows.new.2 self.new.ids.items) }
        ensures same { OnOk result ((self.new.opened ≡ self.old.opened) × (self.new.first ≡ self.old.first)
            × (self.new.count ≡ self.old.count)) }
        ensures open { OnOk result ((store : NodeTable) (nodes : List Ref) (front : List Step) (w : List TextToken)
            → IsLawful arrows.old.0 → LeadFromStates arrows.old.0
            → AreAlive arrows.old.0 token.now.id (map_at arrows.old.1 (last_id self.old.ids.items)) (map_at arrows.old.1 alive)
            → IsOpenIn arrows.old.0 store arrows.old.1 self.old nodes front w (token.now ∷ [])
            → IsOpenIn arrows.old.0 store arrows.new.1 self.new nodes front w (token.now ∷ [])) }
    {
        let last = self.ids.len() - 1;
        let top = self.top();
        let before = arrows.map(top);
        before.holds();
        self.faults
            .push_look(before, arrows.map(alive), *token, self.count)?;
        let starts = arrows.restrict(alloc, self.starts, alive)?;
        let own = arrows.identity(alloc, starts)?;
        self.ids[last] = alive;
        self.starts = starts;
        self.own = own;
        self.stale = last;
        Ok(())
    }
}
