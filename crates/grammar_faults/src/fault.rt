use crate::conflict::Conflict;
use grammar_data::NameId;
use thiserror::Error;

/// Why a grammar has no tables: the first fault, in the order of the variants.
#[derive(Clone, Copy, Debug, PartialEq, Eq, Error)]
pub enum GrammarFault {
    /// The name derives no token list; the least such name.
    #[error("a name derives no token list")]
    Unproductive(NameId),
    /// The name stands in no list that is derived from the start; the least such name.
    #[error("a name is not reached from the start")]
    Unreachable(NameId),
    /// The name derives the empty token list, but only by trees with more than 1,000 inner nodes; the least such name.
    #[error("the least empty tree of a name is too large")]
    EmptyTooLarge(NameId),
    /// The collection has more than 10,000 states.
    #[error("too many states")]
    TooManyStates,
    /// Two items of a state do different things on a token; the first conflict.
    #[error("a conflict")]
    Conflict(Conflict),
    /// Memory ran out.
    #[error("no memory")]
    NoMemory,
}
