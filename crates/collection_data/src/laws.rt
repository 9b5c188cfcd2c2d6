ghost use Rattle.collection_data.specs.Entries.{EntriesLaw};
ghost use Rattle.collection_data.specs.Collection.{NoStepLaw, OneCollectionLaw, StateItemsLaw};

/// The items of entries are those of an entry with their rule and dot that have its lookaheads.
pub fn entry_laws()
    ensures { EntriesLaw }
{}

/// The entries of the state that a walk leads to are the valid items of the walk's list, and there is no step exactly
/// where no item moves.
pub fn table_laws()
    ensures items { StateItemsLaw }
    ensures no_step { NoStepLaw }
{}

/// A grammar has one collection at most.
pub fn one_collection_law()
    ensures { OneCollectionLaw }
{}
