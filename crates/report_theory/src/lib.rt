//! The printed texts of items, of conflicts, of a collection with its tables, and of the faults of a sheet and of its
//! grammar. Definitions and laws alone.
#![tactic(auto)]

ghost use Rattle.report_theory.specs.Belonging.{ConflictInLaw};
ghost use Rattle.report_theory.specs.SameTexts.{OneTextLaw};

/// The first conflict of a grammar belongs to it.
pub fn conflict_in_law()
    ensures { ConflictInLaw }
{}

/// The collection and the canonical tables of a sheet's grammar print in one way.
pub fn one_text_law()
    ensures { OneTextLaw }
{}
