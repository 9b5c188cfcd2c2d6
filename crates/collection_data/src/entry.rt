use grammar_data::RuleId;
use lr_base::TokenSet;

/// The items of a set that have one rule and one dot: `dot` symbols of the right side stand before the dot, and `ahead`
/// has the lookaheads. The number after the last rule's is that of the augmented rule.
#[derive(Clone, Copy, Debug, PartialEq, Eq)]
pub struct Entry {
    pub rule: RuleId,
    pub dot: u32,
    pub ahead: TokenSet,
}
