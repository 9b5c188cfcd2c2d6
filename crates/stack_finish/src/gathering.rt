ghost use Rattle.std.specs.Prelude.{◌≡◌, ◌≢◌, ℕ, ◌+◌, ◌++◌, ◌∷◌, [], List, IfOk, OnOk};
ghost use Rattle.grammar_data.specs.declared.token.Token.{Token as TextToken};
ghost use Rattle.table_data.specs.declared.act.Act.TheVariants.{Reduce};
ghost use Rattle.table_data.specs.Tables.{act_in};
ghost use Rattle.tree_theory.specs.Stores.{Ref};
ghost use Rattle.tree_theory.specs.Walks.{Step};
ghost use Rattle.lawful_theory.specs.Lawful.{IsLawful};
ghost use Rattle.piece_theory.specs.Laws.{HasMore};
ghost use Rattle.node_store.specs.Chunks.{HasChunk, numbers_in, store_of};
ghost use Rattle.stack_finish.specs.Gathering.{CanReduce, IsReducedBy, IsUnder, top_of};

use crate::gathered::Gathered;
use lr_base::{NoMemory, RuleId, StateId, TokenId};
use lr_machine::{Act, Tables};
use node_store::{Kid, PackedKid, Store};
use std::alloc::Global;

impl Gathered {
    /// A parse that has no piece yet, over the store of all pieces, which gets the chunk for new nodes.
    pub fn new(alloc: Global, mut store: Store, chunk: u32) -> Result<Gathered, NoMemory>
        requires { ¬ (HasChunk store chunk) }
        ensures entries { IfOk result (λ gathered. (gathered.kids.items ≡ []) × (gathered.states.items ≡ [])
            × (gathered.count ≡ 0)) }
        ensures trees { IfOk result (λ gathered. (m : Ref) → store_of gathered.store m ≡ store_of store m) }
        ensures chunks { IfOk result (λ gathered. (numbers_in gathered.store ≡ numbers_in store ++ chunk ∷ [])
            × (gathered.chunk ≡ chunk)) }
    {
        store.add_chunk(alloc, chunk)?;
        Ok(Gathered {
            kids: Vec::new(alloc),
            states: Vec::new(alloc),
            store,
            chunk,
            count: 0,
        })
    }

    /// The state on top.
    #[tactic(auto, using(crate::proofs::EntryLemmas::last_at, crate::proofs::EntryLemmas::last_none))]
    pub fn top(&self) -> StateId
        ensures { result ≡ top_of self.now }
    {
        if self.states.is_empty() {
            return StateId(0);
        }
        self.states[self.states.len() - 1]
    }

    /// Makes a node of the kids on top, as many as the rule has symbols on its right side, and goes along the rule's name.
    fn reduce(&mut self, tables: &Tables, rule: RuleId) -> Result<(), NoMemory>
        requires chunk { HasChunk self.old.store self.old.chunk }
        requires fits { CanReduce tables.now rule self.old }
        ensures { OnOk result (IsReducedBy tables.now rule self.old self.new) }
    {
        let count = tables.right(rule).len();
        let rest = self.states.len() - count;
        self.states.truncate(rest);
        let Some(state) = tables.goto_name(self.top(), tables.left(rule)) else {
            unreachable!()
        };
        let node = self
            .store
            .add_from(self.chunk, rule, &mut self.kids, count)?;
        // The number of nodes is below 2^64, which is why reductions end.
        let _nodes = self.store.node_count();
        self.kids.push(PackedKid::of(Kid::Node(node)))?;
        self.states.push(state)?;
        Ok(())
    }

    /// Makes all reductions under a token or the end mark. Gives the action that comes after them: a shift, an acceptance, or an
    /// error.
    pub fn settle(&mut self, tables: &Tables, token: TokenId) -> Result<Act, NoMemory>
        requires lawful { IsLawful tables.now }
        requires chunk { HasChunk self.old.store self.old.chunk }
        requires under { (tokens : List TextToken) × (mark : TextToken) × (nodes : List Ref) × (behind : List Step)
            × (mark.id ≡ token) × IsUnder tables.now (store_of self.old.store) self.old.kids.items self.old.states.items
            tokens mark nodes behind }
        ensures under { OnOk result ((tokens : List TextToken) (mark : TextToken) (nodes : List Ref) (behind : List Step)
            → mark.id ≡ token
            → IsUnder tables.now (store_of self.old.store) self.old.kids.items self.old.states.items tokens mark nodes behind
            → IsUnder tables.now (store_of self.new.store) self.new.kids.items self.new.states.items tokens mark nodes
            behind) }
        ensures more { OnOk result (HasMore (store_of self.old.store) (store_of self.new.store)) }
        ensures same { OnOk result ((numbers_in self.new.store ≡ numbers_in self.old.store)
            × (self.new.chunk ≡ self.old.chunk) × (self.new.count ≡ self.old.count)) }
        ensures act { IfOk result (λ act. (act ≡ act_in tables.now (top_of self.new) token)
            × ((r : ℕ) → act ≢ Reduce r)) }
    {
        loop {
            match tables.act(self.top(), token) {
                Act::Reduce(rule) => self.reduce(tables, rule)?,
                act => return Ok(act),
            }
        }
    }
}
