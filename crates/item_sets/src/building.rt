ghost use Rattle.std.specs.Prelude.{◌≡◌, ℕ, ◌<◌, ◌≤◌, ◌+◌, [], length, All, IfErr, IfOk};
ghost use Rattle.grammar_theory.specs.UsefulNames.{AllProductive};
ghost use Rattle.first_sets.specs.NameFacts.{AreFirsts};
ghost use Rattle.item_theory.specs.Collections.{HasMoreStates};
ghost use Rattle.item_sets.specs.Searching.{IsSearchAt, IsSearchBefore};
ghost use Rattle.collection_data.specs.Collection.{IsCollectionOf};
ghost use Rattle.table_data.specs.declared.limits.TheConstants.{MOST_STATES};

use crate::collection::Collection;
use crate::fault::CollectFault;
use crate::states::States;
use crate::table::Table;
use first_sets::Firsts;
use lr_base::Grammar;
use state_cells::StateCell;
use std::alloc::Global;

/// For how many states there is room at first in the list of the steps.
const FIRST_ROWS: usize = 64;

/// Finds the steps from a state, and puts new states last.
fn expand(
    alloc: Global,
    states: &mut States,
    steps: &mut Vec<StateCell>,
    state: usize,
) -> Result<(), CollectFault>
    requires state { state < length states.old.states }
    requires search { IsSearchAt states.old.grammar states.old.states steps.old.items state 0 }
    ensures grammar { IfOk result (λ _. states.new.grammar ≡ states.old.grammar) }
    ensures search { IfOk result (λ _. IsSearchBefore states.old.grammar states.new.states steps.new.items (state + 1)) }
    ensures within { IfOk result (λ _. state < length states.new.states) }
    ensures many { IfErr result (λ fault. fault ≡ CollectFault.TooManyStates → HasMoreStates states.old.grammar MOST_STATES) }
{
    let kernels = states.kernels(alloc, state)?;
    for kernel in &kernels {
        states.holds();
        let step = states.step_to(alloc, &kernel.entries)?;
        steps.push(StateCell::of(step))?;
    }
    Ok(())
}

/// The canonical collection of a grammar whose names are all productive; `TooManyStates` exactly where it has more than
/// 10,000 states.
pub fn collect(
    alloc: Global,
    grammar: &Grammar,
    firsts: &Firsts,
) -> Result<Collection, CollectFault>
    requires productive { AllProductive grammar.now }
    requires facts { AreFirsts grammar.now firsts.now }
    ensures collection { IfOk result (λ collection. IsCollectionOf grammar.now collection) }
    ensures few { IfOk result (λ _. ¬ (HasMoreStates grammar.now MOST_STATES)) }
    ensures many { IfErr result (λ fault. fault ≡ CollectFault.TooManyStates → HasMoreStates grammar.now MOST_STATES) }
{
    let table = Table::new(alloc, grammar, firsts)?;
    let mut states = States::first(alloc, grammar, &table)?;
    let width = grammar.tokens() as usize + grammar.names() as usize;
    let mut steps = Vec::with_capacity(alloc, FIRST_ROWS * width)?;
    let mut state = 0;
    while state < states.count() {
        expand(alloc, &mut states, &mut steps, state)?;
        state += 1;
    }
    Ok(Collection::from_parts(grammar.tokens(), grammar.names(), states.into_sets(), steps))
}
