//! What is said of a sheet's fault.
ghost use Rattle.std.specs.Prelude.{◌≡◌, ◌<◌, length, codes, IfOk};
ghost use Rattle.grammar_faults.specs.Building.{IsFaultOf, IsShown};
ghost use Rattle.report_theory.specs.ItemTexts.{conflict_text as text_of_conflict};
ghost use Rattle.report_theory.specs.FaultTexts.{said_on, kind_name, limit_said, fault_text as text_of_fault, name_said, name_in, grammar_text as text_of_grammar};

use block_writer::push_number;
use conflict_report::conflict_text;
use grammar_faults::{Conflict, GrammarFault};
use lr_base::{NameId, NoMemory};
use sheet_reader::{LimitKind, Sheet, SheetFault};
use std::alloc::Global;

const NO_RULES: &[u8] = b"sheet fault 7: no rules\n";

const MANY_STATES: &[u8] = b"sheet fault 15: more than 10000 states\n";

/// A fault on a line.
fn on_line(alloc: Global, number: u64, line: u32, what: &[u8]) -> Result<Vec<u8>, NoMemory>
    ensures { IfOk result (λ text. text.items ≡ said_on number line what.now) }
{
    let mut text = Vec::from_slice(alloc, b"sheet fault ".as_slice())?;
    push_number(&mut text, number)?;
    text.extend_from_slice(b": line ")?;
    push_number(&mut text, u64::from(line))?;
    text.extend_from_slice(b": ")?;
    text.extend_from_slice(what)?;
    text.extend_from_slice(b"\n")?;
    Ok(text)
}

/// What a limit counts.
fn counted_by(kind: LimitKind) -> &'static [u8]
    ensures { result.now ≡ kind_name kind }
{
    match kind {
        LimitKind::SheetBytes => b"sheet bytes",
        LimitKind::Tokens => b"tokens",
        LimitKind::Skips => b"skips",
        LimitKind::Names => b"names",
        LimitKind::Rules => b"rules",
        LimitKind::RightSide => b"right side",
        LimitKind::Symbols => b"symbols",
        LimitKind::Positions => b"positions",
        LimitKind::ScannerStates => b"scanner states",
    }
}

/// A limit that is passed.
fn too_large(alloc: Global, kind: LimitKind, count: u64) -> Result<Vec<u8>, NoMemory>
    ensures { IfOk result (λ text. text.items ≡ limit_said kind count) }
{
    let mut text = Vec::from_slice(alloc, b"sheet fault 11: too large: ".as_slice())?;
    text.extend_from_slice(counted_by(kind))?;
    text.push(b' ')?;
    push_number(&mut text, count)?;
    text.extend_from_slice(b"\n")?;
    Ok(text)
}

/// What is said of a sheet's fault: one line, with its number; nothing of want of memory.
pub fn fault_text(alloc: Global, fault: SheetFault) -> Result<Vec<u8>, NoMemory>
    ensures { IfOk result (λ text. text.items ≡ text_of_fault fault) }
{
    match fault {
        SheetFault::BadByte(line) => on_line(alloc, 1, line, b"bad byte"),
        SheetFault::Syntax(line) => on_line(alloc, 2, line, b"syntax"),
        SheetFault::BadPattern(line) => on_line(alloc, 3, line, b"bad pattern"),
        SheetFault::PatternMatchesEmpty(line) => {
            on_line(alloc, 4, line, b"pattern matches the empty text")
        }
        SheetFault::Redeclared(line) => on_line(alloc, 5, line, b"redeclared"),
        SheetFault::UnknownSymbol(line) => on_line(alloc, 6, line, b"unknown symbol"),
        SheetFault::NoRules => Ok(Vec::from_slice(alloc, NO_RULES)?),
        SheetFault::PlaceOutOfRange(line) => on_line(alloc, 8, line, b"place out of range"),
        SheetFault::PlaceTwice(line) => on_line(alloc, 9, line, b"place used twice"),
        SheetFault::NotAToken(line) => on_line(alloc, 10, line, b"not a token"),
        SheetFault::Limit(kind, count) => too_large(alloc, kind, count),
        SheetFault::NoMemory => Ok(Vec::new(alloc)),
    }
}

/// A useless name.
fn of_name(alloc: Global, number: u64, what: &[u8], name: &[u8]) -> Result<Vec<u8>, NoMemory>
    ensures { IfOk result (λ text. text.items ≡ name_said number what.now name.now) }
{
    let mut text = Vec::from_slice(alloc, b"sheet fault ".as_slice())?;
    push_number(&mut text, number)?;
    text.extend_from_slice(what)?;
    text.extend_from_slice(name)?;
    text.extend_from_slice(b"\n")?;
    Ok(text)
}

/// The text of a name of the grammar.
fn name_of(sheet: &Sheet, name: NameId) -> &[u8]
    requires { name < sheet.now.grammar.names }
    ensures { result.now ≡ name_in sheet.now name }
{
    sheet.name(name)
}

/// What is said of a grammar's first conflict: a line, and its two items.
fn conflict_said(alloc: Global, sheet: &Sheet, conflict: &Conflict) -> Result<Vec<u8>, NoMemory>
    requires { IsShown sheet.now.grammar conflict.now }
    ensures { IfOk result (λ text. text.items ≡ text_of_conflict sheet.now conflict.now) }
{
    sheet.grammar().holds();
    conflict_text(alloc, sheet, conflict)
}

/// What is said of the first fault of a sheet's grammar: one line, with the fault's number, and for a conflict two more;
/// nothing of want of memory.
pub fn grammar_text(alloc: Global, sheet: &Sheet, fault: GrammarFault) -> Result<Vec<u8>, NoMemory>
    requires { IsFaultOf sheet.now.grammar fault }
    ensures { IfOk result (λ text. text.items ≡ text_of_grammar sheet.now fault) }
{
    match fault {
        GrammarFault::Unproductive(name) => of_name(
            alloc,
            12,
            b": unproductive: ",
            name_of(sheet, name),
        ),
        GrammarFault::Unreachable(name) => of_name(
            alloc,
            13,
            b": unreachable: ",
            name_of(sheet, name),
        ),
        GrammarFault::EmptyTooLarge(name) => of_name(
            alloc,
            14,
            b": empty tree too large: ",
            name_of(sheet, name),
        ),
        GrammarFault::TooManyStates => Ok(Vec::from_slice(alloc, MANY_STATES)?),
        GrammarFault::Conflict(conflict) => conflict_said(alloc, sheet, &conflict),
        GrammarFault::NoMemory => Ok(Vec::new(alloc)),
    }
}
