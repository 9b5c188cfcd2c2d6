//! The plain types of a grammar and of a text's tokens, with what a set of tokens is, and nothing else: every other crate
//! speaks by them.
#![tactic(auto)]

mod ids;
mod rule;
mod token;

pub use ids::{NameId, RuleId, StateId, TokenId};
pub use rule::{Rule, Sym};
pub use token::{Place, Token};
