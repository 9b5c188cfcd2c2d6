use crate::id::ArrowId;
use lr_base::RuleId;

/// What a look at a token says of a map: some targets err, and another map has those that don't; all shift it, and another
/// map has what they shift to; all reduce by one rule; or they agree on nothing.
#[derive(Clone, Copy, Debug, PartialEq, Eq)]
pub enum Look {
    Died(ArrowId),
    Shift(ArrowId),
    Reduce(RuleId),
    Stuck,
}
