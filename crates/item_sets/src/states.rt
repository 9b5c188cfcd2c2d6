ghost use Rattle.std.specs.Prelude.{◌≡◌, ◌≢◌, ℕ, ◌<◌, ◌≤◌, ◌==◌, [], List, Some, length, slice_get, slice_index_or, All, IfErr, IfOk, IfSome, OnErr};
ghost use Rattle.item_sets.specs.Closing.{IsSetting};
ghost use Rattle.item_sets.specs.Successors.{key_of};
ghost use Rattle.item_sets.specs.Searching.{AreKernelsOf, IsFirstEntry, IsFoundOrAdded, IsNewKernel, IsSearchAt, IsStateSet, IsStepFound, IsStepKernel};
ghost use Rattle.table_data.specs.declared.limits.TheConstants.{MOST_STATES};

use crate::fault::CollectFault;
use crate::found::{find, key, note};
use crate::item_set::ItemSet;
use crate::layout::closure;
use crate::successors::successors;
use crate::table::Table;
use collection_data::Entry;
use lr_base::{Grammar, RuleId, StateId, TokenSet};
use std::alloc::{AllocError, Global};
use std::collections::HashMap;
use std::marker::Model;
use table_data::MOST_STATES;

/// The most states that a collection may have.
const STATES: usize = MOST_STATES as usize;

/// The states of a grammar's collection that are found so far, in their order, and by the keys of their kernels.
/// Contracts see the grammar and the entries of each state.
#[derive(Drop)]
pub struct States<'a> {
    grammar: &'a Grammar,
    table: &'a Table,
    sets: Vec<ItemSet>,
    found: HashMap<Vec<u64>, StateId>,
}

impl<'a> Model for States<'a> {
    ghost use Rattle.item_sets.specs.Searching.{AreFoundSoFar, FoundStates};

    ghost Value = { FoundStates };

    ghost view = { λ s. record { grammar = s.grammar.now; states = s.sets.items } };

    ghost invariant = { λ s. AreFoundSoFar s.grammar.now s.table.now.rows.items s.table.now.fronts.items s.sets.items s.found };
}

/// The entry of the augmented rule with the dot in front and the end mark.
fn first_entry(grammar: &Grammar) -> Entry
    requires { grammar.now.tokens < 256 }
    ensures { IsFirstEntry grammar.now result }
{
    let mut ahead = TokenSet::empty();
    ahead.insert(grammar.end());
    Entry {
        rule: RuleId(grammar.rule_count()),
        dot: 0,
        ahead,
    }
}

impl<'a> States<'a> {
    /// State 0 alone.
    pub fn first(
        alloc: Global,
        grammar: &'a Grammar,
        table: &'a Table,
    ) -> Result<States<'a>, AllocError>
        requires { IsSetting grammar.now table.now.rows.items table.now.fronts.items }
        ensures grammar { IfOk result (λ states. states.grammar ≡ grammar.now) }
        ensures search { IfOk result (λ states. IsSearchAt grammar.now states.states [] 0 0) }
    {
        let kernel = [first_entry(grammar)];
        let set = closure(alloc, grammar, table, &kernel)?;
        let mut sets = Vec::new(alloc);
        sets.push(set)?;
        let mut found = HashMap::new(alloc);
        note(&mut found, Vec::new(alloc), StateId(0))?;
        Ok(States {
            grammar,
            table,
            sets,
            found,
        })
    }

    /// How many states there are.
    pub fn count(&self) -> usize
        ensures count { result ≡ length self.now.states }
        ensures few { result ≤ MOST_STATES }
    {
        self.sets.len()
    }

    /// The kernels of a state's successors, column by column.
    pub fn kernels(&self, alloc: Global, state: usize) -> Result<Vec<ItemSet>, AllocError>
        requires { state < length self.now.states }
        ensures { IfOk result (λ kernels. AreKernelsOf self.now.grammar (slice_index_or self.now.states state []) kernels.items) }
    {
        let width = self.grammar.tokens() + self.grammar.names();
        let set = &self.sets[state];
        successors(alloc, self.table, width, &set.entries)
    }

    /// Each state is a closed set of entries.
    pub fn holds(&self)
        ensures { All (IsStateSet self.now.grammar) self.now.states }
    {
        let _ = &self.sets;
    }

    /// Puts the closure of a new kernel last. After an error all is as it was.
    fn add(
        &mut self,
        alloc: Global,
        kernel: &[Entry],
        key: Vec<u64>,
    ) -> Result<StateId, CollectFault>
        requires kernel { IsStepKernel self.old.grammar kernel.now }
        requires key { key.items ≡ key_of kernel.now }
        requires fresh { IsNewKernel self.old.states kernel.now }
        ensures added { IfOk result (λ q. IsFoundOrAdded self.old.grammar kernel.now self.old.states self.new.states q) }
        ensures in_range { IfOk result (λ q. q < MOST_STATES) }
        ensures grammar { self.new.grammar ≡ self.old.grammar }
        ensures kept { OnErr result (self.new ≡ self.old) }
        ensures many { IfErr result (λ fault. fault ≡ CollectFault.TooManyStates → MOST_STATES ≤ length self.old.states) }
    {
        let count = self.sets.len();
        if count >= STATES {
            return Err(CollectFault::TooManyStates);
        }
        let set = closure(alloc, self.grammar, self.table, kernel)?;
        self.sets.reserve(1)?;
        note(&mut self.found, key, StateId(count as u32))?;
        self.sets.push(set)?;
        Ok(StateId(count as u32))
    }

    /// The state with the kernel, which is put last if there is none. After an error all is as it was.
    fn find_or_add(&mut self, alloc: Global, kernel: &[Entry]) -> Result<StateId, CollectFault>
        requires { IsStepKernel self.old.grammar kernel.now }
        ensures added { IfOk result (λ q. IsFoundOrAdded self.old.grammar kernel.now self.old.states self.new.states q) }
        ensures in_range { IfOk result (λ q. q < MOST_STATES) }
        ensures grammar { self.new.grammar ≡ self.old.grammar }
        ensures kept { OnErr result (self.new ≡ self.old) }
        ensures many { IfErr result (λ fault. fault ≡ CollectFault.TooManyStates
            → (MOST_STATES ≤ length self.old.states) × IsNewKernel self.old.states kernel.now) }
    {
        let key = key(alloc, kernel)?;
        match find(&self.found, &key) {
            Some(state) => Ok(state),
            None => self.add(alloc, kernel, key),
        }
    }

    /// The step to the state with the kernel, which is put last if there is none; no step where the kernel is empty. After
    /// an error all is as it was.
    pub fn step_to(
        &mut self,
        alloc: Global,
        kernel: &[Entry],
    ) -> Result<Option<StateId>, CollectFault>
        requires { IsStepKernel self.old.grammar kernel.now }
        ensures step { IfOk result (λ step. IsStepFound self.old.grammar kernel.now self.old.states self.new.states step) }
        ensures in_range { IfOk result (λ step. IfSome step (λ q. q < MOST_STATES)) }
        ensures grammar { self.new.grammar ≡ self.old.grammar }
        ensures kept { OnErr result (self.new ≡ self.old) }
        ensures many { IfErr result (λ fault. fault ≡ CollectFault.TooManyStates
            → (kernel.now ≢ []) × (MOST_STATES ≤ length self.old.states) × IsNewKernel self.old.states kernel.now) }
    {
        if kernel.is_empty() {
            return Ok(None);
        }
        let state = self.find_or_add(alloc, kernel)?;
        Ok(Some(state))
    }

    /// The entries of the states, in their order.
    pub fn into_sets(self) -> Vec<ItemSet>
        ensures sets { result.items ≡ self.entry.states }
        ensures few { length result.items ≤ MOST_STATES }
        ensures each { All (IsStateSet self.entry.grammar) result.items }
    {
        let States { sets, .. } = self;
        sets
    }
}
