use crate::ids::{NameId, TokenId};
use std::marker::Model;

/// A symbol of a grammar.
#[derive(Clone, Copy, Debug, PartialEq, Eq)]
pub enum Sym {
    Token(TokenId),
    Name(NameId),
}

/// A rule, which contracts see as its left side and the list of the symbols of its right side.
#[derive(Debug, Drop)]
pub struct Rule {
    pub left: NameId,
    pub right: Vec<Sym>,
}

impl Model for Rule {
    ghost use Rattle.std.specs.Prelude.{ℕ, List};
    ghost use Rattle.grammar_data.specs.declared.rule.Sym.{Sym};

    ghost Value = { ℕ × List Sym };

    ghost view = { λ r. (r.left, r.right.items) };
}
