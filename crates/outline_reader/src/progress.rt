//! What is read of a sheet so far.
ghost use Rattle.std.specs.Prelude.{◌≡◌, ◌↔◌, Some, IsTrue, IfOk, IfErr};
ghost use Rattle.stage_theory.specs.Stages.Stage.{ended};
ghost use Rattle.stage_theory.specs.Drafts.{stage_of, next_draft, first_draft};
ghost use Rattle.outline_reader.specs.Progress.{draft_of, IsFinished, IsUnfinished};
ghost use Rattle.outline_reader.specs.Refusals.{IsRefused};

use crate::declarations::more_of_declarations;
use crate::rules::more_of_rules;
use lexeme_theory::Lexeme;
use outline_data::{
    Alternative, Declaration, Outline, RuleGroup, SheetFault, Symbol, TemplatePart, Word,
};
use std::alloc::Global;

/// The declaration that is open.
#[derive(Drop)]
pub enum OpenDeclaration {
    Nothing,
    /// Behind `%token`.
    TokenBegun,
    TokenNamed { name: Word },
    /// Behind `%skip`.
    SkipBegun,
    /// Behind `%start`, which stands on this line.
    StartBegun { line: u32 },
}

/// The left side that is open: its finished alternatives, and the one that is open.
#[derive(Drop)]
pub enum OpenRule {
    Nothing,
    /// Before the colon.
    LeftRead {
        left: Word,
    },
    SideOpen {
        group: RuleGroup,
        right: Vec<Symbol>,
    },
    /// Between braces.
    TemplateOpen {
        group: RuleGroup,
        right: Vec<Symbol>,
        parts: Vec<TemplatePart>,
    },
    /// Behind a template or a mark.
    SideBehind {
        group: RuleGroup,
        alternative: Alternative,
    },
    /// Behind `%declares`.
    MarkBegun {
        group: RuleGroup,
        alternative: Alternative,
    },
    /// Behind the second `%%`.
    Ended,
}

/// The finished declarations and left sides.
#[derive(Drop)]
pub struct Finished {
    pub declarations: Vec<Declaration>,
    pub groups: Vec<RuleGroup>,
}

/// What is read of a sheet: the finished declarations and left sides, and what is open.
#[derive(Drop)]
pub enum Progress {
    Declaring {
        declarations: Vec<Declaration>,
        part: OpenDeclaration,
    },
    Ruling {
        finished: Finished,
        part: OpenRule,
    },
}

impl Finished {
    fn outline(self, has_rest: bool) -> Outline
        ensures { result ≡ record { declarations = self.declarations.items; groups = self.groups.items; has_rest = has_rest } }
    {
        let Finished {
            declarations,
            groups,
        } = self;
        Outline {
            declarations,
            groups,
            has_rest,
        }
    }
}

impl Progress {
    /// Nothing is read.
    pub fn first(alloc: Global) -> Progress
        ensures { draft_of result ≡ first_draft }
    {
        Progress::Declaring {
            declarations: Vec::new(alloc),
            part: OpenDeclaration::Nothing,
        }
    }

    /// Whether the second `%%` is read.
    pub fn is_ended(&self) -> bool
        ensures { IsTrue result ↔ (stage_of (draft_of self.now) ≡ ended) }
    {
        matches!(
            self,
            Progress::Ruling {
                part: OpenRule::Ended,
                ..
            }
        )
    }

    /// One lexeme more, which stands on this line.
    pub fn with(self, alloc: Global, lexeme: Lexeme, line: u32) -> Result<Progress, SheetFault>
        ensures next { IfOk result (λ next. next_draft (draft_of self) lexeme line ≡ Some (draft_of next)) }
        ensures refused { IfErr result (λ fault. IsRefused (next_draft (draft_of self) lexeme line) line fault) }
    {
        match self {
            Progress::Declaring { declarations, part } => {
                more_of_declarations(alloc, declarations, part, lexeme, line)
            }
            Progress::Ruling { finished, part } => {
                more_of_rules(alloc, finished, part, lexeme, line)
            }
        }
    }

    /// The outline, where the sheet is whole; the end stands on this line.
    pub fn finished(self, line: u32) -> Result<Outline, SheetFault>
        ensures whole { IfOk result (λ o. IsFinished (draft_of self) o) }
        ensures fault { IfErr result (λ fault. IsUnfinished (draft_of self) line fault) }
    {
        match self {
            Progress::Ruling {
                finished,
                part: OpenRule::Nothing,
            } => Ok(finished.outline(false)),
            Progress::Ruling {
                finished,
                part: OpenRule::Ended,
            } => Ok(finished.outline(true)),
            _ => Err(SheetFault::Syntax(line)),
        }
    }
}
