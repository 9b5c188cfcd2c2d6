//! The maps over the entries of a well made piece follow from its floors and the kids of its entries. Definitions and laws
//! alone.
#![tactic(auto)]

ghost use Rattle.entry_laws.specs.Entries.{OneStackLaw, OnePieceLaw};

/// Entries with the same kids have the same exact maps, so a well made piece is known by its first token, its count, its floors
/// and its kids.
pub fn entry_laws()
    ensures one_stack { OneStackLaw }
    ensures one_piece { OnePieceLaw }
{}
