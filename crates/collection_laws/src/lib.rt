//! A grammar without a fault has its canonical collection and tables. No test of the definitions decides which items are
//! valid, so it is refuted that there are none. Definitions and laws alone.
#![tactic(auto)]

ghost use Rattle.collection_laws.specs.Laws.{SomeFaultLaw, SomeCollectionLaw, SomeTablesLaw, SomeBuiltLaw, SomeGrammarLaw};

/// It is refuted that a grammar with few states and at most 255 tokens has no canonical collection; and a collection has
/// canonical tables, or the grammar a conflict.
pub fn collection_existence_laws()
    ensures collection { SomeCollectionLaw }
    ensures tables { SomeTablesLaw }
{}

/// It is refuted that a grammar has neither a fault nor its collection and tables.
pub fn grammar_existence_laws()
    ensures fault { SomeFaultLaw }
    ensures built { SomeBuiltLaw }
    ensures whole { SomeGrammarLaw }
{}
