ghost use Rattle.numbering_theory.specs.Grammars.{SheetGrammarLaw};

/// The sheet of an outline without faults and within the limits has a grammar.
pub fn sheet_grammar_law()
    ensures { SheetGrammarLaw }
{}
