ghost use Rattle.std.specs.Prelude.{IfErr, IfOk};
ghost use Rattle.grammar_theory.specs.UsefulNames.{AllProductive};
ghost use Rattle.grammar_theory.specs.UselessNames.{AllReachable};
ghost use Rattle.item_theory.specs.Items.{HasConflict};
ghost use Rattle.collection_data.specs.Collection.{IsCollectionOf};
ghost use Rattle.lawful_theory.specs.Lawful.{IsLawfulFor};
ghost use Rattle.lr_tables.specs.Building.{AreTablesOf, IsBuildFault};

use crate::clashes::first_clash;
use crate::fault::BuildFault;
use crate::filling::{Clash, set_acts, set_gotos};
use item_sets::Collection;
use lr_base::{Grammar, StateId};
use lr_machine::Tables;
use std::alloc::Global;

/// The canonical LR(1) tables of a grammar, from its collection: on each token and on the end mark a state shifts,
/// reduces or accepts exactly as its items do, and else it errs; along each name it goes where the collection steps.
/// They are lawful where all names are productive and reachable.
/// `Conflict` exactly where the grammar has one: in the least state, on the least token there, with the least item that
/// acts on the token, and the least whose action on it is another.
pub fn build(
    alloc: Global,
    grammar: &Grammar,
    collection: &Collection,
) -> Result<Tables, BuildFault>
    requires { IsCollectionOf grammar.now collection.now }
    ensures tables { IfOk result (λ tables. AreTablesOf grammar.now collection.now tables) }
    ensures lawful { IfOk result (λ tables. AllProductive grammar.now → AllReachable grammar.now
        → IsLawfulFor grammar.now tables) }
    ensures free { IfOk result (λ _. HasConflict grammar.now → ⊥) }
    ensures conflict { IfErr result (λ fault. IsBuildFault grammar.now fault) }
{
    grammar.holds();
    let mut tables = Tables::blank(alloc, grammar, collection.states())?;
    for number in 0..collection.states() {
        let state = StateId(number);
        set_gotos(&mut tables, grammar, collection, state);
        if let Err(Clash) = set_acts(&mut tables, grammar, collection, state) {
            let entries = collection.items(state);
            return Err(BuildFault::Conflict(first_clash(grammar, entries, state)));
        }
    }
    Ok(tables)
}
