ghost use Rattle.std.specs.Prelude.{◌≡◌, ◌≢◌, ℕ, ◌-◌, ◌<◌, ◌≤◌, ◌++◌, ◌∷◌, List, All, IfOk, OnOk, length, take, drop};
ghost use Rattle.lr_base.specs.declared.limits.TheConstants.{TEXT_BYTES};
ghost use Rattle.grammar_data.specs.declared.token.Token.{Token as TextToken};
ghost use Rattle.tree_theory.specs.Stores.{Store as NodeTable};
ghost use Rattle.lawful_theory.specs.Lawful.{IsLawful};
ghost use Rattle.bare_theory.specs.Bare.{bare};
ghost use Rattle.plain_parse.specs.Parses.{AreTextTokens};
ghost use Rattle.table_data.specs.declared.act.Act.TheVariants.{Shift};
ghost use Rattle.table_data.specs.Tables.{Tables as TablesSeen, act_in};
ghost use Rattle.piece_theory.specs.Pieces.{Floor as FloorParts, Piece, fault_at, hidden_of};
ghost use Rattle.join_theory.specs.Faults.{HasApart};
ghost use Rattle.node_store.specs.Chunks.{HasChunk, numbers_in, store_of};
ghost use Rattle.stack_finish.specs.Gathering.{IsGathered, top_of};
ghost use Rattle.stack_finish.specs.Putting.{AreAlong, ComesThrough, FitsOn, GoesAlong, IsAfter, IsPutting, IsReached, IsSupplied, LeadsTo};

use crate::filling::fill;
use crate::gathered::Gathered;
use lr_base::{NoMemory, StateId, Token};
use lr_machine::{Act, Tables};
use node_store::{Kid, NodeRef, PackedKid, Store};
use piece_blocks::{Floor, Opened, StartFault};

/// The fault of a start on a floor; an alive start has none.
fn fault_of(floor: &Floor, start: StateId) -> Option<StartFault>
    requires { HasApart floor.now }
    ensures { result ≡ fault_at floor.now.faults start }
{
    if floor.starts().target(start).is_some() {
        return None;
    }
    floor.fault(start)
}

/// The state to which a state shifts a token.
fn shift_over(tables: &Tables, below: StateId, token: Token) -> StateId
    requires within { below < tables.now.states }
    requires shifts { (p : ℕ) × (act_in tables.now below token.id ≡ Shift p) }
    ensures { (p : ℕ) → act_in tables.now below token.id ≡ Shift p → result ≡ p }
{
    match tables.act(below, token.id) {
        Act::Shift(state) => state,
        Act::Reduce(_) | Act::Accept | Act::Error => unreachable!(),
    }
}

/// The state to which the tables go from a state along the name of a node.
fn goto_over(tables: &Tables, store: &Store, below: StateId, node: NodeRef) -> StateId
    requires within { below < tables.now.states }
    requires goes { (p : ℕ) × GoesAlong tables.now (store_of store.now) node below p }
    ensures { (p : ℕ) → GoesAlong tables.now (store_of store.now) node below p → result ≡ p }
{
    match tables.goto_name(below, tables.left(store.rule(node))) {
        Some(state) => state,
        None => unreachable!(),
    }
}

/// The state to which the tables lead from a state along the symbol of a kid.
fn state_over(tables: &Tables, store: &Store, below: StateId, kid: Kid) -> StateId
    requires { (p : ℕ) × LeadsTo tables.now (store_of store.now) kid below p }
    ensures { (p : ℕ) → LeadsTo tables.now (store_of store.now) kid below p → result ≡ p }
{
    tables.holds();
    match kid {
        Kid::Token(token) => shift_over(tables, below, token),
        Kid::Node(node) => goto_over(tables, store, below, node),
        Kid::Hidden => unreachable!(),
    }
}

impl Gathered {
    /// What a floor hides is taken from the top, and becomes the hidden kids of its node.
    fn supply(&mut self, opened: Option<Opened>)
        requires { FitsOn (store_of self.old.store) self.old.kids.items self.old.states.items opened }
        ensures kids { self.new.kids.items ≡ take (length self.old.kids.items - hidden_of opened) self.old.kids.items }
        ensures states { self.new.states.items
            ≡ take (length self.old.states.items - hidden_of opened) self.old.states.items }
        ensures supplied { IsSupplied (store_of self.old.store) (store_of self.new.store) opened
            (drop (length self.old.kids.items - hidden_of opened) self.old.kids.items) }
        ensures same { (numbers_in self.new.store ≡ numbers_in self.old.store) × (self.new.chunk ≡ self.old.chunk)
            × (self.new.count ≡ self.old.count) }
    {
        let Some(opened) = opened else {
            return;
        };
        let rest = self.kids.len() - opened.hidden as usize;
        fill(&mut self.store, opened.node, 0, &self.kids[rest..]);
        self.kids.truncate(rest);
        self.states.truncate(rest);
    }

    /// Puts a piece's floors on, or gives the fault of the first of them that has one for the state on top.
    fn put_floors(&mut self, floors: &[Floor]) -> Option<StartFault>
        requires apart { All (λ (floor : FloorParts). HasApart floor) floors.now }
        requires at { (t : TablesSeen) × (store : NodeTable) × (left : Piece) × (right : Piece) × (rest : List Piece)
            × (w : List TextToken) × IsPutting t store self.old left right floors.now rest w }
        ensures at { (t : TablesSeen) (store : NodeTable) (left right : Piece) (rest : List Piece) (w : List TextToken)
            → IsLawful t → IsPutting t store self.old left right floors.now rest w
            → ComesThrough t store self.new left right rest w result }
        ensures same { (numbers_in self.new.store ≡ numbers_in self.old.store) × (self.new.chunk ≡ self.old.chunk)
            × (self.new.count ≡ self.old.count) }
    {
        for floor in floors {
            self.supply(floor.opened());
            match fault_of(floor, self.top()) {
                Some(fault) => return Some(fault),
                None => {}
            }
        }
        None
    }

    /// Puts a piece's entries on.
    fn put_kids(&mut self, tables: &Tables, kids: &[PackedKid]) -> Result<(), NoMemory>
        requires { (states : List ℕ) × AreAlong tables.now (store_of self.old.store) (top_of self.old) kids.now states }
        ensures kids { OnOk result (self.new.kids.items ≡ self.old.kids.items ++ kids.now) }
        ensures states { OnOk result ((states : List ℕ)
            → AreAlong tables.now (store_of self.old.store) (top_of self.old) kids.now states
            → self.new.states.items ≡ self.old.states.items ++ states) }
        ensures same { OnOk result ((self.new.store ≡ self.old.store) × (self.new.chunk ≡ self.old.chunk)
            × (self.new.count ≡ self.old.count)) }
    {
        for kid in kids {
            let state = state_over(tables, &self.store, self.top(), kid.kid());
            self.kids.push(*kid)?;
            self.states.push(state)?;
        }
        Ok(())
    }

    /// Makes all reductions under the first token of the next piece, after which it is shifted; or gives the error of the whole
    /// text, which is that token.
    fn reach(&mut self, tables: &Tables, first: Token) -> Result<Option<StartFault>, NoMemory>
        requires lawful { IsLawful tables.now }
        requires chunk { HasChunk self.old.store self.old.chunk }
        requires at { (base : NodeTable) × (right : Piece) × (rest : List Piece) × (w : List TextToken)
            × AreTextTokens tables.now w × (right.first ≡ first) × IsGathered tables.now base self.old (right ∷ rest) w }
        ensures at { IfOk result (λ error. (base : NodeTable) (right : Piece) (rest : List Piece) (w : List TextToken)
            → right.first ≡ first → IsGathered tables.now base self.old (right ∷ rest) w
            → IsReached tables.now base self.new right rest w error) }
        ensures same { OnOk result ((numbers_in self.new.store ≡ numbers_in self.old.store)
            × (self.new.chunk ≡ self.old.chunk)) }
    {
        match self.settle(tables, first.id)? {
            Act::Shift(_) => Ok(None),
            Act::Error => Ok(Some(self.error(first))),
            Act::Accept | Act::Reduce(_) => unreachable!(),
        }
    }

    /// Puts a piece on, or gives the error of the whole text, which comes up to it or in it.
    pub fn put(
        &mut self,
        tables: &Tables,
        first: Token,
        count: u32,
        floors: &[Floor],
        kids: &[PackedKid],
    ) -> Result<Option<StartFault>, NoMemory>
        requires lawful { IsLawful tables.now }
        requires chunk { HasChunk self.old.store self.old.chunk }
        requires at { (base : NodeTable) × (right : Piece) × (rest : List Piece) × (w : List TextToken)
            × (length w ≤ TEXT_BYTES) × AreTextTokens tables.now w
            × (bare right ≡ record { first = first; count = count; floors = floors.now; kids = kids.now })
            × IsGathered tables.now base self.old (right ∷ rest) w }
        ensures at { IfOk result (λ error. (base : NodeTable) (right : Piece) (rest : List Piece) (w : List TextToken)
            → bare right ≡ record { first = first; count = count; floors = floors.now; kids = kids.now }
            → IsGathered tables.now base self.old (right ∷ rest) w → IsAfter tables.now base self.new rest w error) }
        ensures same { OnOk result ((numbers_in self.new.store ≡ numbers_in self.old.store)
            × (self.new.chunk ≡ self.old.chunk)) }
    {
        match self.reach(tables, first)? {
            Some(error) => return Ok(Some(error)),
            None => {}
        }
        match self.put_floors(floors) {
            Some(fault) => {
                let index = self.count + fault.index;
                return Ok(Some(StartFault { index, ..fault }));
            }
            None => {}
        }
        self.put_kids(tables, kids)?;
        self.count += count;
        Ok(None)
    }

    /// The error of the state on top on a token behind the pieces so far.
    fn error(&self, token: Token) -> StartFault
        ensures { result ≡ record { start = 0; index = self.now.count; token = token; state = top_of self.now } }
    {
        StartFault {
            token,
            start: StateId(0),
            index: self.count,
            state: self.top(),
        }
    }
}
