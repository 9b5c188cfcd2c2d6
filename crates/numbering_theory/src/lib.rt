//! The sheet that an outline says: words by their first places, limits in their order, and that its grammar is one.
#![tactic(auto)]

mod laws;

pub use laws::sheet_grammar_law;
