ghost use Rattle.std.specs.Prelude.{◌≡◌, ◌<◌, ◌≤◌, ◌+◌, ◌*◌, ◌^◌, IfSome, length};
ghost use Rattle.collection_data.specs.Collection.{column_of, items_in, state_count, step_in};
ghost use Rattle.lr_base.specs.declared.limits.TheConstants.{NAMES, TOKENS};
ghost use Rattle.table_data.specs.declared.limits.TheConstants.{MOST_STATES};

use crate::item_set::ItemSet;
use collection_data::Entry;
use grammar_data::{StateId, Sym};
use state_cells::StateCell;
use std::marker::Model;

/// The canonical collection of a grammar: its states in their order, the entries of each, and the steps, one state's
/// after the other's, 4 bytes each.
#[derive(Debug, Drop)]
pub struct Collection {
    tokens: u32,
    names: u32,
    states: Vec<ItemSet>,
    steps: Vec<StateCell>,
}

impl Model for Collection {
    ghost use Rattle.std.specs.Prelude.{◌≡◌, ◌≤◌, ◌+◌, ◌*◌, length};
    ghost use Rattle.collection_data.specs.Collection.{CollectionParts};
    ghost use Rattle.lr_base.specs.declared.limits.TheConstants.{NAMES, TOKENS};
    ghost use Rattle.table_data.specs.declared.limits.TheConstants.{MOST_STATES};

    ghost Value = { CollectionParts };

    ghost view = { λ s. record { tokens = s.tokens; names = s.names; states = s.states.items; steps = s.steps.items } };

    ghost invariant = { λ s. (s.tokens + s.names ≤ TOKENS + NAMES) × (length s.states.items ≤ MOST_STATES)
        × (length s.steps.items ≡ length s.states.items * (s.tokens + s.names)) };
}

/// Where in a state's row the symbol stands.
pub fn column(symbol: Sym, tokens: u32, names: u32) -> Option<u32>
    requires { tokens + names < 2 ^ 32 }
    ensures place { result ≡ column_of tokens names symbol }
    ensures within { IfSome result (λ column. column < tokens + names) }
{
    match symbol {
        Sym::Token(token) if token.0 < tokens => Some(token.0),
        Sym::Name(name) if name.0 < names => Some(tokens + name.0),
        _ => None,
    }
}

impl Collection {
    /// The collection of these parts.
    pub(crate) fn from_parts(
        tokens: u32,
        names: u32,
        states: Vec<ItemSet>,
        steps: Vec<StateCell>,
    ) -> Collection
        requires few_symbols { tokens + names ≤ TOKENS + NAMES }
        requires few_states { length states.items ≤ MOST_STATES }
        requires rows { length steps.items ≡ length states.items * (tokens + names) }
        ensures { result ≡ record { tokens = tokens; names = names; states = states.items; steps = steps.items } }
    {
        Collection {
            tokens,
            names,
            states,
            steps,
        }
    }

    /// How many states there are; they are numbered from 0.
    pub fn states(&self) -> u32
        ensures states { result ≡ state_count self.now }
        ensures few { result ≤ MOST_STATES }
    {
        self.states.len() as u32
    }

    /// The entries of a state, rising by rule and then by dot.
    pub fn items(&self, state: StateId) -> &[Entry]
        requires { state < state_count self.now }
        ensures { result.now ≡ items_in self.now state }
    {
        self.states[state.0 as usize].entries.as_slice()
    }

    /// The state that a state leads to along a symbol; `None` where no item of the state has its dot before it.
    pub fn step(&self, state: StateId, symbol: Sym) -> Option<StateId>
        requires { state < state_count self.now }
        ensures { result ≡ step_in self.now state symbol }
    {
        match column(symbol, self.tokens, self.names) {
            Some(column) => {
                let width = self.tokens as usize + self.names as usize;
                self.steps[state.0 as usize * width + column as usize].state()
            }
            None => None,
        }
    }
}
