use crate::rules::RuleGroup;
use sheet_data::Bytes;
use std::marker::Model;

/// A name, or the bytes of a literal or of a pattern's spelling, and the line on which its lexeme begins.
#[derive(Debug, Drop)]
pub struct Word {
    pub bytes: Bytes,
    pub line: u32,
}

/// A place of a right side, counted from 1, as a template or a mark writes it, and its line.
#[derive(Clone, Copy, Debug, PartialEq, Eq)]
pub struct PlaceUse {
    pub place: u32,
    pub line: u32,
}

/// A declaration as it is written.
#[derive(Debug, Drop)]
pub enum Declaration {
    /// `%token NAME 'bytes'`.
    Literal { name: Word, literal: Word },
    /// `%token NAME /pattern/`.
    Matched { name: Word, pattern: Word },
    /// `%skip /pattern/`.
    Skip { pattern: Word },
    /// `%start NAME`; the line is that of the directive.
    Start { line: u32, name: Word },
}

/// A sheet as it is written, which contracts see as its parts.
#[derive(Debug, Drop)]
pub struct Outline {
    pub declarations: Vec<Declaration>,
    pub groups: Vec<RuleGroup>,
    /// A second `%%` ends the rules, and whatever stands behind it is no part of the sheet.
    pub has_rest: bool,
}

impl Model for Outline {
    ghost use Rattle.outline_data.specs.Parts.{OutlineParts};

    ghost Value = { OutlineParts };

    ghost view = { λ o. record {
      declarations = o.declarations.items;
      groups = o.groups.items;
      has_rest = o.has_rest;
    } };
}
