use grammar_data::{RuleId, StateId};

/// What a state does on a token: it shifts the token and goes to a state, reduces by a rule, accepts, or errs.
#[derive(Clone, Copy, Debug, PartialEq, Eq)]
pub enum Act {
    Shift(StateId),
    Reduce(RuleId),
    Accept,
    Error,
}
