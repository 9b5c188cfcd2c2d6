use grammar_data::{RuleId, StateId, TokenId};
use std::marker::Model;

/// An item: its rule, how many symbols of the right side stand before the dot, and its lookahead. Items are ordered by
/// rule, then by dot, then by lookahead. The number after the last rule's is that of the augmented rule.
#[derive(Clone, Copy, Debug, PartialEq, Eq, PartialOrd, Ord)]
pub struct Item {
    pub rule: RuleId,
    pub dot: u32,
    pub ahead: TokenId,
}

impl Model for Item {
    ghost use Rattle.item_theory.specs.Items.{Item as ItemParts};

    ghost Value = { ItemParts };

    ghost view = { λ s. record { rule = s.rule; dot = s.dot; ahead = s.ahead } };

    ghost inverse = { λ i. record { rule = i.rule; dot = i.dot; ahead = i.ahead } };
}

/// Two items of a state that do different things on a token or on the end mark.
#[derive(Clone, Copy, Debug, PartialEq, Eq)]
pub struct Conflict {
    pub state: StateId,
    pub token: TokenId,
    pub first: Item,
    pub second: Item,
}
