//! Sample texts: the shortest words of tokens, the closing rules of names, the tokens that numbers choose, and the text of
//! these. Definitions and laws alone.
#![tactic(auto)]

mod laws;

pub use laws::{
    choice_laws, closing_rule_laws, number_law, sample_laws, shortest_word_laws, text_laws,
};
