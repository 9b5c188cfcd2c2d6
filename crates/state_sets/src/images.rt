ghost use Rattle.std.specs.Prelude.{◌≡◌, ◌<◌, Some, None, IfOk, IfSome, if◌then◌else◌, map, All};
ghost use Rattle.table_data.specs.Tables.{act_in, step_by};
ghost use Rattle.map_theory.specs.Maps.{target};
ghost use Rattle.map_theory.specs.Relations.{is_error};
ghost use Rattle.state_sets.specs.Within.{HasSymbol};

use crate::arrow::Arrow;
use lr_base::{NoMemory, StateId, Sym, TokenId};
use lr_machine::{Act, Tables};
use std::alloc::Global;

/// The state that a state leads to along a symbol, if any.
pub fn step_from(t: &Tables, state: StateId, symbol: &Sym) -> Option<StateId>
    requires state { state < t.now.states }
    requires symbol { HasSymbol t.now symbol.now }
    ensures step { result ≡ step_by t.now state symbol.now }
    ensures within { IfSome result (λ p. p < t.now.states) }
{
    match *symbol {
        Sym::Token(token) => match t.act(state, token) {
            Act::Shift(to) => Some(to),
            _ => None,
        },
        Sym::Name(name) => t.goto_name(state, name),
    }
}

/// Where each state leads to along a symbol.
pub fn after_symbol(
    alloc: Global,
    t: &Tables,
    states: &[StateId],
    symbol: &Sym,
) -> Result<Vec<Option<StateId>>, NoMemory>
    requires states { All (λ p. p < t.now.states) states.now }
    requires symbol { HasSymbol t.now symbol.now }
    ensures { IfOk result (λ images. images.items ≡ map (λ p. step_by t.now p symbol.now) states.now) }
{
    let mut images = Vec::with_capacity(alloc, states.len())?;
    for state in states {
        images.push(step_from(t, *state, symbol))?;
    }
    Ok(images)
}

/// Each state that has another action than an error on the token.
pub fn alive_on(
    alloc: Global,
    t: &Tables,
    states: &[StateId],
    token: TokenId,
) -> Result<Vec<Option<StateId>>, NoMemory>
    requires { All (λ p. p < t.now.states) states.now }
    ensures { IfOk result (λ images. images.items
        ≡ map (λ p. if is_error (act_in t.now p token) then None else Some p) states.now) }
{
    let mut images = Vec::with_capacity(alloc, states.len())?;
    for state in states {
        images.push(alive_state(t, *state, token))?;
    }
    Ok(images)
}

/// The state, where it has another action than an error on the token.
fn alive_state(t: &Tables, state: StateId, token: TokenId) -> Option<StateId>
    requires { state < t.now.states }
    ensures { result ≡ (if is_error (act_in t.now state token) then None else Some state) }
{
    match t.act(state, token) {
        Act::Error => None,
        _ => Some(state),
    }
}

/// What the map makes of each state.
pub fn through(
    alloc: Global,
    states: &[StateId],
    next: &Arrow,
) -> Result<Vec<Option<StateId>>, NoMemory>
    ensures { IfOk result (λ images. images.items ≡ map (target next.now) states.now) }
{
    let mut images = Vec::with_capacity(alloc, states.len())?;
    for state in states {
        images.push(next.target(*state))?;
    }
    Ok(images)
}
