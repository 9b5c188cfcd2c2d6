//! Lawful tables: canonical tables are lawful, a reduction fits its stack, reductions end and no error follows them.
//! Definitions and laws alone.
#![tactic(auto)]

ghost use Rattle.lawful_theory.specs.Laws.{CanonicalLawfulLaw, FitLaw, LawfulLaw, NoLateErrorLaw, OneGrammarLaw, ReductionsEndLaw, StacksStayLaw};

/// Canonical tables of useful names are lawful, for one grammar.
pub fn lawful_laws()
    ensures canonical { CanonicalLawfulLaw }
    ensures one_grammar { OneGrammarLaw }
    ensures lawful { LawfulLaw }
{}

/// A reduction fits the stack, and moves keep valid stacks.
pub fn fit_laws()
    ensures fit { FitLaw }
    ensures stacks { StacksStayLaw }
{}

/// Reductions under one token end, and no error follows one.
pub fn reduction_laws()
    ensures end { ReductionsEndLaw }
    ensures no_late_error { NoLateErrorLaw }
{}
