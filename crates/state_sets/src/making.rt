ghost use Rattle.std.specs.Prelude.{◌≡◌, ◌<◌, ◌≤◌, IfOk, IfSome, is_some, option_and_then, length, All, None, Some, if◌then◌else◌};
ghost use Rattle.grammar_data.specs.declared.rule.Sym.TheVariants.{Token};
ghost use Rattle.table_data.specs.declared.limits.TheConstants.{MOST_STATES};
ghost use Rattle.table_data.specs.Tables.{step_by};
ghost use Rattle.map_theory.specs.Maps.{IsMapOf, target, walk_by};
ghost use Rattle.map_theory.specs.Relations.{AreShiftStarts, IsBack};
ghost use Rattle.state_sets.specs.Parts.{AreClassed, pairs_of};
ghost use Rattle.state_sets.specs.Within.{AreWithin, HasSymbol};

use crate::arrow::Arrow;
use crate::building::Building;
use crate::images::step_from;
use lr_base::{NoMemory, StateId, Sym, TokenId};
use lr_machine::Tables;
use std::alloc::Global;

/// Each state that shifts the token, to the state that it shifts to.
pub fn shift_starts(alloc: Global, t: &Tables, token: TokenId) -> Result<Arrow, NoMemory>
    ensures starts { IfOk result (AreShiftStarts t.now token) }
    ensures within { IfOk result (AreWithin t.now.states) }
{
    t.holds();
    let symbol = Sym::Token(token);
    let mut building = Building::new(alloc);
    for number in 0..t.states() {
        let state = StateId(number);
        let Some(to) = step_from(t, state, &symbol) else {
            continue;
        };
        building.put(state, to, None)?;
    }
    Arrow::built(alloc, building)
}

/// The state that symbols lead to from a state, if there is one.
fn walk_from(t: &Tables, state: StateId, symbols: &[Sym]) -> Option<StateId>
    requires state { state < t.now.states }
    requires symbols { All (HasSymbol t.now) symbols.now }
    ensures walk { result ≡ walk_by t.now state symbols.now }
    ensures within { IfSome result (λ p. p < t.now.states) }
{
    let mut top = state;
    for symbol in symbols {
        top = step_from(t, top, symbol)?;
    }
    Some(top)
}

/// The state that symbols lead to from a state, where it is a start of the map.
fn start_from(t: &Tables, state: StateId, symbols: &[Sym], arrow: &Arrow) -> Option<StateId>
    requires state { state < t.now.states }
    requires symbols { All (HasSymbol t.now) symbols.now }
    ensures start { result ≡ option_and_then (λ p. if is_some (target arrow.now p) then Some p else None)
        (walk_by t.now state symbols.now) }
    ensures within { IfSome result (λ p. p < t.now.states) }
{
    match walk_from(t, state, symbols) {
        Some(start) if arrow.target(start).is_some() => Some(start),
        _ => None,
    }
}

/// Each state from which the symbols lead to a start of the map, to that start.
pub fn starts_before(
    alloc: Global,
    t: &Tables,
    symbols: &[Sym],
    arrow: &Arrow,
) -> Result<Arrow, NoMemory>
    requires within { AreWithin t.now.states arrow.now }
    requires symbols { All (HasSymbol t.now) symbols.now }
    ensures starts { IfOk result (IsBack t.now symbols.now arrow.now) }
    ensures within { IfOk result (AreWithin t.now.states) }
{
    t.holds();
    let mut building = Building::new(alloc);
    for number in 0..t.states() {
        let state = StateId(number);
        let Some(start) = start_from(t, state, symbols, arrow) else {
            continue;
        };
        building.put(state, start, None)?;
    }
    Arrow::built(alloc, building)
}
