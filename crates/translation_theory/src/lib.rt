//! The translation of a tree by the templates of a sheet, the names that a tree declares, and the diagnostic of a text that
//! has no tree. Definitions and laws alone.
#![tactic(auto)]

ghost use Rattle.translation_theory.specs.DeclaredNames.{FirstLeavesLaw, NamedLaw, NoNumberLaw, NoRepeatLaw, NotedLaw, NumberLaw, TimesLaw};
ghost use Rattle.translation_theory.specs.Diagnostics.{OneDiagnosticLaw};
ghost use Rattle.translation_theory.specs.TokenTexts.{InTextLaw};

/// The bytes of a text's tokens stand in it, and it has no more tokens than bytes.
pub fn token_law()
    ensures { InTextLaw }
{}

/// Names differ, are the byte strings of the marked leaves, and stand in the order of their first ones; a name's number is
/// 1 plus its place, and what is no name has the number 0; each marked leaf is one of one name; one leaf more is noted.
pub fn name_laws()
    ensures no_repeat { NoRepeatLaw }
    ensures named { NamedLaw }
    ensures first_leaves { FirstLeavesLaw }
    ensures number { NumberLaw }
    ensures no_number { NoNumberLaw }
    ensures times { TimesLaw }
    ensures noted { NotedLaw }
{}

/// A token list has one diagnostic at most.
pub fn diagnostic_law()
    ensures { OneDiagnosticLaw }
{}
