ghost use Rattle.word_theory.specs.Laws.{FormLaw, OneFormLaw, OneParseLaw, ParseLaw};

/// What words of a form ask for can be done.
pub fn form_law()
    ensures { FormLaw }
{}

/// Words are of one form at most.
pub fn one_form_law()
    ensures { OneFormLaw }
{}

/// As words say that a text is parsed, it can be cut, and by so many workers.
pub fn parse_law()
    ensures { ParseLaw }
{}

/// Words say in one way at most how a text is parsed.
pub fn one_parse_law()
    ensures { OneParseLaw }
{}
