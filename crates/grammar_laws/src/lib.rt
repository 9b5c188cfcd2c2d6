//! What holds of each grammar: its symbols are its own. Definitions and laws alone.
#![tactic(auto)]

ghost use Rattle.grammar_laws.specs.Ranges.{InRangeLaw};

/// The symbols of a grammar's rules are in range.
pub fn range_law()
    ensures { InRangeLaw }
{}
