//! One lexeme more among the rules.
ghost use Rattle.std.specs.Prelude.{◌≡◌, Some, IfOk, IfErr};
ghost use Rattle.stage_theory.specs.Drafts.{more_rules, more_left, more_ruling};
ghost use Rattle.outline_reader.specs.Progress.{draft_of, open_rule_of};
ghost use Rattle.outline_reader.specs.Refusals.{IsRefused};

use crate::progress::{Finished, OpenRule, Progress};
use crate::sides::{more_behind_side, more_of_mark, more_of_side, more_of_template};
use lexeme_theory::{Lexeme, Single};
use outline_data::{RuleGroup, SheetFault, Word};
use std::alloc::Global;

/// A left side begins, or the second `%%` ends the rules.
fn begin_rule(finished: Finished, lexeme: Lexeme, line: u32) -> Result<Progress, SheetFault>
    ensures next { IfOk result (λ next. more_rules finished.declarations.items finished.groups.items lexeme line ≡ Some (draft_of next)) }
    ensures refused { IfErr result (λ fault. IsRefused (more_rules finished.declarations.items finished.groups.items lexeme line) line fault) }
{
    let part = match lexeme {
        Lexeme::Name(bytes) => OpenRule::LeftRead {
            left: Word { bytes, line },
        },
        Lexeme::Mark => OpenRule::Ended,
        _ => return Err(SheetFault::Syntax(line)),
    };
    Ok(Progress::Ruling { finished, part })
}

/// The colon behind a left side.
fn begin_sides(
    alloc: Global,
    finished: Finished,
    left: Word,
    lexeme: Lexeme,
    line: u32,
) -> Result<Progress, SheetFault>
    ensures next { IfOk result (λ next. more_left finished.declarations.items finished.groups.items left lexeme line ≡ Some (draft_of next)) }
    ensures refused { IfErr result (λ fault. IsRefused (more_left finished.declarations.items finished.groups.items left lexeme line) line fault) }
{
    match lexeme {
        Lexeme::Single(Single::Colon) => {
            let group = RuleGroup {
                left,
                alternatives: Vec::new(alloc),
            };
            let right = Vec::new(alloc);
            let part = OpenRule::SideOpen { group, right };
            Ok(Progress::Ruling { finished, part })
        }
        _ => Err(SheetFault::Syntax(line)),
    }
}

/// One lexeme more, on this line.
pub fn more_of_rules(
    alloc: Global,
    finished: Finished,
    part: OpenRule,
    lexeme: Lexeme,
    line: u32,
) -> Result<Progress, SheetFault>
    ensures next { IfOk result (λ next. more_ruling finished.declarations.items finished.groups.items (open_rule_of part) lexeme line ≡ Some (draft_of next)) }
    ensures refused { IfErr result (λ fault. IsRefused (more_ruling finished.declarations.items finished.groups.items (open_rule_of part) lexeme line) line fault) }
{
    match part {
        OpenRule::Nothing => begin_rule(finished, lexeme, line),
        OpenRule::LeftRead { left } => begin_sides(alloc, finished, left, lexeme, line),
        OpenRule::SideOpen { group, right } => {
            more_of_side(alloc, finished, group, right, lexeme, line)
        }
        OpenRule::TemplateOpen {
            group,
            right,
            parts,
        } => more_of_template(alloc, finished, group, right, parts, lexeme, line),
        OpenRule::SideBehind { group, alternative } => {
            more_behind_side(alloc, finished, group, alternative, lexeme, line)
        }
        OpenRule::MarkBegun { group, alternative } => {
            more_of_mark(finished, group, alternative, lexeme, line)
        }
        OpenRule::Ended => Err(SheetFault::Syntax(line)),
    }
}
