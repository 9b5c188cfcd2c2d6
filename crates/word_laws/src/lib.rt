//! What plain words ask for: a command's word, and the names of what it reads, none of which begins with `-`. Definitions and laws
//! alone.
#![tactic(auto)]

ghost use Rattle.word_laws.specs.PlainForms.{PlainFormLaw};

/// Words of a plain form ask for what they say.
pub fn plain_form_law()
    ensures { PlainFormLaw }
{}
