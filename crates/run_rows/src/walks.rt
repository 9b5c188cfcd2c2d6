ghost use Rattle.std.specs.Prelude.{List};
ghost use Rattle.grammar_data.specs.Grammar.{Grammar};
ghost use Rattle.grammar_data.specs.declared.token.Token.{Token as TextToken};
ghost use Rattle.node_store.specs.Walking.{IsFinished};
ghost use Rattle.plain_parse.specs.Parses.{IsParsed};
ghost use Rattle.segment_runs.specs.Runs.{IsParsedIn};
ghost use Rattle.table_data.specs.Tables.{Tables as TablesSeen};

use lr_base::NoMemory;
use node_store::{NodeRef, Step, Store};
use plain_parse::Parsed;
use std::alloc::Global;

/// More steps than a walk over a tree of the rows has.
const STEPS: u32 = 1_000_000;

/// Whether two steps are the same, wherever the nodes stand.
fn is_same_step(one: Option<Step>, other: Option<Step>) -> bool {
    match (one, other) {
        (None, None)
        | (Some(Step::Enter(_)), Some(Step::Enter(_)))
        | (Some(Step::Leave(_)), Some(Step::Leave(_))) => true,
        (Some(Step::Token(token)), Some(Step::Token(other))) => token == other,
        _ => false,
    }
}

/// Whether two trees have the same walk.
fn have_same_walk(
    alloc: Global,
    store: &Store,
    root: NodeRef,
    other_store: &Store,
    other_root: NodeRef,
) -> Result<bool, NoMemory>
    requires one { IsFinished store.now root }
    requires other { IsFinished other_store.now other_root }
{
    let mut walk = store.walk(alloc, root)?;
    let mut other_walk = other_store.walk(alloc, other_root)?;
    for _ in 0..STEPS {
        let step = walk.next_step()?;
        let other_step = other_walk.next_step()?;
        if !is_same_step(step, other_step) {
            return Ok(false);
        }
        if step.is_none() {
            return Ok(true);
        }
    }
    Ok(false)
}

/// Whether two parses come to the same tree, wherever its nodes stand, or to the same wrong token and state.
pub fn are_same(alloc: Global, plain: &Parsed, parsed: &Parsed) -> Result<bool, NoMemory>
    requires { (g : Grammar) × (t : TablesSeen) × (tokens : List TextToken) × (others : List TextToken)
        × IsParsed g t tokens plain.now × IsParsedIn g t others parsed.now }
{
    match (plain, parsed) {
        (
            Parsed::Tree { root, store },
            Parsed::Tree {
                root: other_root,
                store: other_store,
            },
        ) => have_same_walk(alloc, store, *root, other_store, *other_root),
        (
            Parsed::Wrong {
                index,
                token,
                state,
            },
            Parsed::Wrong {
                index: other_index,
                token: other_token,
                state: other_state,
            },
        ) => Ok(index == other_index && token == other_token && state == other_state),
        (Parsed::Tree { .. }, Parsed::Wrong { .. }) | (Parsed::Wrong { .. }, Parsed::Tree { .. }) =>
            Ok(false),
    }
}
