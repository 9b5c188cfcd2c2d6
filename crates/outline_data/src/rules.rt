use crate::outline::{PlaceUse, Word};
use sheet_data::Bytes;
use std::marker::Model;

/// A symbol of a right side as it is written.
#[derive(Debug, Drop)]
pub enum Symbol {
    /// The name of a token or of the grammar.
    Name(Word),
    /// A literal.
    Quoted(Word),
}

/// A part of a template as it is written.
#[derive(Debug, Drop)]
pub enum TemplatePart {
    /// `"bytes"`.
    Text(Bytes),
    /// `$i`.
    Fold(PlaceUse),
    /// `#i`.
    Number(PlaceUse),
}

/// One right side with its template and its marks, which contracts see as their lists.
#[derive(Debug, Drop)]
pub struct Alternative {
    pub right: Vec<Symbol>,
    /// The parts between braces, where there are braces.
    pub template: Option<Vec<TemplatePart>>,
    /// The places that the rule declares.
    pub marks: Vec<PlaceUse>,
}

impl Model for Alternative {
    ghost use Rattle.std.specs.Option.{option_map};
    ghost use Rattle.outline_data.specs.AlternativeParts.{AlternativeParts};

    ghost Value = { AlternativeParts };

    ghost view = { λ a. record {
      right = a.right.items;
      template = option_map (λ t. t.items) a.template;
      marks = a.marks.items;
    } };
}

/// The alternatives of one left side as they are written, from the name up to the semicolon; contracts see it as the
/// left side and their list.
#[derive(Debug, Drop)]
pub struct RuleGroup {
    pub left: Word,
    pub alternatives: Vec<Alternative>,
}

impl Model for RuleGroup {
    ghost use Rattle.outline_data.specs.GroupParts.{GroupParts};

    ghost Value = { GroupParts };

    ghost view = { λ g. record { left = g.left; alternatives = g.alternatives.items } };
}
