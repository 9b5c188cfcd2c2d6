//! Valid items: which items are valid for a list of symbols, the chains that lead to them, states and their leading
//! words. Definitions and laws alone.
#![tactic(auto)]

ghost use Rattle.item_theory.specs.Items.{AugmentedItemsLaw, DottedOnceLaw, OneDeedLaw, ItemRangeLaw, PrefixRangeLaw};
ghost use Rattle.item_theory.specs.Chains.{ChainLaw, FirstClosureLaw, MovedClosureLaw, OpensOnlyLaw, OpensLaw};
ghost use Rattle.item_theory.specs.LeadingWords.{TotalLaw, TransitiveLaw, IrreflexiveLaw, PushLaw, LeadingOnceLaw, StepLaw, SameStepLaw, PrefixLaw, StatesOnceLaw, StateCountLaw, LeadingStateLaw, ConflictStateLaw};
ghost use Rattle.item_theory.specs.Collections.{CollectionOnceLaw, CollectionWalkLaw, CollectionViableLaw, CollectionStopLaw, CollectionItemsLaw, MoreStatesLaw};
ghost use Rattle.item_theory.specs.Search.{NewWordLaw, SearchBeginLaw, SearchOldLaw, SearchNewLaw, SearchNamesLaw, SearchNextLaw, SearchEndLaw};

/// An item is valid for a symbol list exactly where a chain of items leads to it.
pub fn chain_law()
    ensures { ChainLaw }
{}

/// Items have one reading, do one thing at most on a token, and are in range where they are valid.
pub fn item_laws()
    ensures augmented { AugmentedItemsLaw }
    ensures dotted_once { DottedOnceLaw }
    ensures one_deed { OneDeedLaw }
    ensures item_range { ItemRangeLaw }
    ensures prefix_range { PrefixRangeLaw }
{}

/// The valid items of a list are a closure, and what an item opens is found by first tokens.
pub fn closure_laws()
    ensures first { FirstClosureLaw }
    ensures one_more { MovedClosureLaw }
    ensures opens_only { OpensOnlyLaw }
    ensures opens { OpensLaw }
{}

/// Words are in one order.
pub fn order_laws()
    ensures total { TotalLaw }
    ensures transitive { TransitiveLaw }
    ensures irreflexive { IrreflexiveLaw }
    ensures push { PushLaw }
{}

/// Viable prefixes grow by steps, and states have one leading word each and one order.
pub fn state_laws()
    ensures step { StepLaw }
    ensures same_step { SameStepLaw }
    ensures prefix { PrefixLaw }
    ensures leading_once { LeadingOnceLaw }
    ensures leading_state { LeadingStateLaw }
    ensures states_once { StatesOnceLaw }
    ensures count { StateCountLaw }
    ensures conflict { ConflictStateLaw }
{}

/// A search breadth first, tokens before names, finds the leading words of all states in their order.
pub fn search_laws()
    ensures begin { SearchBeginLaw }
    ensures old { SearchOldLaw }
    ensures new_word { NewWordLaw }
    ensures new { SearchNewLaw }
    ensures names { SearchNamesLaw }
    ensures next { SearchNextLaw }
    ensures end { SearchEndLaw }
{}

/// A grammar has one canonical collection, and a walk over it leads from list to list as the states do, for viable prefixes
/// alone.
pub fn collection_laws()
    ensures once { CollectionOnceLaw }
    ensures walk { CollectionWalkLaw }
    ensures viable { CollectionViableLaw }
    ensures stop { CollectionStopLaw }
    ensures items { CollectionItemsLaw }
    ensures more_states { MoreStatesLaw }
{}
