//! One lexeme more among the declarations.
ghost use Rattle.std.specs.Prelude.{◌≡◌, Some, IfOk, IfErr};
ghost use Rattle.stage_theory.specs.Drafts.{more_declarations, more_token, more_token_text, more_skip, more_start, more_declaring};
ghost use Rattle.outline_reader.specs.Progress.{draft_of, open_declaration_of};
ghost use Rattle.outline_reader.specs.Refusals.{IsRefused};

use crate::progress::{Finished, OpenDeclaration, OpenRule, Progress};
use lexeme_theory::{Directive, Lexeme};
use outline_data::{Declaration, SheetFault, Word};
use std::alloc::Global;

/// A declaration begins, or `%%` ends them.
fn begin_declaration(
    alloc: Global,
    declarations: Vec<Declaration>,
    lexeme: Lexeme,
    line: u32,
) -> Result<Progress, SheetFault>
    ensures next { IfOk result (λ next. more_declarations declarations.items lexeme line ≡ Some (draft_of next)) }
    ensures refused { IfErr result (λ fault. IsRefused (more_declarations declarations.items lexeme line) line fault) }
{
    let part = match lexeme {
        Lexeme::Directive(Directive::Token) => OpenDeclaration::TokenBegun,
        Lexeme::Directive(Directive::Skip) => OpenDeclaration::SkipBegun,
        Lexeme::Directive(Directive::Start) => OpenDeclaration::StartBegun { line },
        Lexeme::Mark => {
            let finished = Finished {
                declarations,
                groups: Vec::new(alloc),
            };
            let part = OpenRule::Nothing;
            return Ok(Progress::Ruling { finished, part });
        }
        _ => return Err(SheetFault::Syntax(line)),
    };
    Ok(Progress::Declaring { declarations, part })
}

/// The name of a token.
fn name_token(
    declarations: Vec<Declaration>,
    lexeme: Lexeme,
    line: u32,
) -> Result<Progress, SheetFault>
    ensures next { IfOk result (λ next. more_token declarations.items lexeme line ≡ Some (draft_of next)) }
    ensures refused { IfErr result (λ fault. IsRefused (more_token declarations.items lexeme line) line fault) }
{
    match lexeme {
        Lexeme::Name(bytes) => Ok(Progress::Declaring {
            declarations,
            part: OpenDeclaration::TokenNamed {
                name: Word { bytes, line },
            },
        }),
        _ => Err(SheetFault::Syntax(line)),
    }
}

/// The literal of a token, or its pattern.
fn declare_token(
    declarations: Vec<Declaration>,
    name: Word,
    lexeme: Lexeme,
    line: u32,
) -> Result<Progress, SheetFault>
    ensures next { IfOk result (λ next. more_token_text declarations.items name lexeme line ≡ Some (draft_of next)) }
    ensures refused { IfErr result (λ fault. IsRefused (more_token_text declarations.items name lexeme line) line fault) }
{
    let mut declarations = declarations;
    match lexeme {
        Lexeme::Quoted(bytes) => {
            let literal = Word { bytes, line };
            declarations.push(Declaration::Literal { name, literal })?;
            Ok(Progress::Declaring {
                declarations,
                part: OpenDeclaration::Nothing,
            })
        }
        Lexeme::Pattern(bytes) => {
            let pattern = Word { bytes, line };
            declarations.push(Declaration::Matched { name, pattern })?;
            Ok(Progress::Declaring {
                declarations,
                part: OpenDeclaration::Nothing,
            })
        }
        _ => Err(SheetFault::Syntax(line)),
    }
}

/// The pattern that is skipped.
fn declare_skip(
    declarations: Vec<Declaration>,
    lexeme: Lexeme,
    line: u32,
) -> Result<Progress, SheetFault>
    ensures next { IfOk result (λ next. more_skip declarations.items lexeme line ≡ Some (draft_of next)) }
    ensures refused { IfErr result (λ fault. IsRefused (more_skip declarations.items lexeme line) line fault) }
{
    let mut declarations = declarations;
    match lexeme {
        Lexeme::Pattern(bytes) => {
            let pattern = Word { bytes, line };
            declarations.push(Declaration::Skip { pattern })?;
            Ok(Progress::Declaring {
                declarations,
                part: OpenDeclaration::Nothing,
            })
        }
        _ => Err(SheetFault::Syntax(line)),
    }
}

/// The name of the start, whose directive stands on line `at`.
fn declare_start(
    declarations: Vec<Declaration>,
    at: u32,
    lexeme: Lexeme,
    line: u32,
) -> Result<Progress, SheetFault>
    ensures next { IfOk result (λ next. more_start declarations.items at lexeme line ≡ Some (draft_of next)) }
    ensures refused { IfErr result (λ fault. IsRefused (more_start declarations.items at lexeme line) line fault) }
{
    let mut declarations = declarations;
    match lexeme {
        Lexeme::Name(bytes) => {
            let name = Word { bytes, line };
            declarations.push(Declaration::Start { line: at, name })?;
            Ok(Progress::Declaring {
                declarations,
                part: OpenDeclaration::Nothing,
            })
        }
        _ => Err(SheetFault::Syntax(line)),
    }
}

/// One lexeme more, on this line.
pub fn more_of_declarations(
    alloc: Global,
    declarations: Vec<Declaration>,
    part: OpenDeclaration,
    lexeme: Lexeme,
    line: u32,
) -> Result<Progress, SheetFault>
    ensures next { IfOk result (λ next. more_declaring declarations.items (open_declaration_of part) lexeme line ≡ Some (draft_of next)) }
    ensures refused { IfErr result (λ fault. IsRefused (more_declaring declarations.items (open_declaration_of part) lexeme line) line fault) }
{
    match part {
        OpenDeclaration::Nothing => begin_declaration(alloc, declarations, lexeme, line),
        OpenDeclaration::TokenBegun => name_token(declarations, lexeme, line),
        OpenDeclaration::TokenNamed { name } => declare_token(declarations, name, lexeme, line),
        OpenDeclaration::SkipBegun => declare_skip(declarations, lexeme, line),
        OpenDeclaration::StartBegun { line: at } => {
            declare_start(declarations, at, lexeme, line)
        }
    }
}
