ghost use Rattle.std.specs.Prelude.{IfErr, IfOk};
ghost use Rattle.grammar_data.specs.Grammar.{Grammar as GrammarParts};
ghost use Rattle.first_sets.specs.NameFacts.{AreFirsts};
ghost use Rattle.first_sets.specs.NameFaults.{IsDue};
ghost use Rattle.grammar_theory.specs.UselessNames.{IsUseful};
ghost use Rattle.collection_data.specs.Collection.{IsCollectionOf};
ghost use Rattle.item_theory.specs.Collections.{HasMoreStates};
ghost use Rattle.table_data.specs.declared.limits.TheConstants.{MOST_STATES};
ghost use Rattle.grammar_checks.specs.Building.{IsBuilt};
ghost use Rattle.grammar_faults.specs.Building.{IsFaultOf};

use first_sets::{Firsts, UselessFault, analyse};
use grammar_faults::GrammarFault;
use item_sets::{CollectFault, Collection, collect};
use lr_base::Grammar;
use lr_machine::Tables;
use lr_tables::{BuildFault, build};
use std::alloc::Global;

/// The canonical collection of a grammar, and its tables.
#[derive(Debug, Drop)]
pub struct Built {
    pub collection: Collection,
    pub tables: Tables,
}

/// A fault of names as one of the grammar.
fn name_fault(fault: UselessFault) -> GrammarFault
    ensures { (g : GrammarParts) → IsDue g fault → IsFaultOf g result }
{
    match fault {
        UselessFault::Unproductive(name) => GrammarFault::Unproductive(name),
        UselessFault::Unreachable(name) => GrammarFault::Unreachable(name),
        UselessFault::EmptyTooLarge(name) => GrammarFault::EmptyTooLarge(name),
        UselessFault::NoMemory => GrammarFault::NoMemory,
    }
}

/// What is known of the names of a grammar, where all are useful.
fn firsts_of(alloc: Global, grammar: &Grammar) -> Result<Firsts, GrammarFault>
    ensures useful { IfOk result (λ _. IsUseful grammar.now) }
    ensures facts { IfOk result (λ firsts. AreFirsts grammar.now firsts) }
    ensures fault { IfErr result (λ fault. IsFaultOf grammar.now fault) }
{
    match analyse(alloc, grammar) {
        Ok(firsts) => Ok(firsts),
        Err(fault) => Err(name_fault(fault)),
    }
}

/// The collection of a grammar whose names are all useful.
fn collection_of(
    alloc: Global,
    grammar: &Grammar,
    firsts: &Firsts,
) -> Result<Collection, GrammarFault>
    requires useful { IsUseful grammar.now }
    requires facts { AreFirsts grammar.now firsts.now }
    ensures collection { IfOk result (λ collection. IsCollectionOf grammar.now collection) }
    ensures few { IfOk result (λ _. ¬ (HasMoreStates grammar.now MOST_STATES)) }
    ensures fault { IfErr result (λ fault. IsFaultOf grammar.now fault) }
{
    match collect(alloc, grammar, firsts) {
        Ok(collection) => Ok(collection),
        Err(CollectFault::TooManyStates) => Err(GrammarFault::TooManyStates),
        Err(CollectFault::NoMemory) => Err(GrammarFault::NoMemory),
    }
}

/// The canonical collection of a grammar and its tables, which are lawful; or its first fault, in this order: the least name that derives no
/// token list, the least that the start doesn't reach, the least whose least empty tree has more than 1,000 inner nodes;
/// more than 10,000 states; the first conflict.
pub fn build_grammar(alloc: Global, grammar: &Grammar) -> Result<Built, GrammarFault>
    ensures built { IfOk result (λ built. IsBuilt grammar.now built) }
    ensures fault { IfErr result (λ fault. IsFaultOf grammar.now fault) }
{
    let firsts = firsts_of(alloc, grammar)?;
    let collection = collection_of(alloc, grammar, &firsts)?;
    match build(alloc, grammar, &collection) {
        Ok(tables) => Ok(Built { collection, tables }),
        Err(BuildFault::Conflict(conflict)) => Err(GrammarFault::Conflict(conflict)),
        Err(BuildFault::NoMemory) => Err(GrammarFault::NoMemory),
    }
}
