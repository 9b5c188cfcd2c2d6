use grammar_data::RuleId;

/// What the targets of a map do on a token, those that err left aside: nothing is left, all shift, all reduce by one rule, or
/// several things are done.
#[derive(Clone, Copy, Debug, PartialEq, Eq)]
pub enum Agree {
    NoneLeft,
    Shift,
    Reduce(RuleId),
    Several,
}
