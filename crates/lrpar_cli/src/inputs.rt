ghost use Rattle.std.specs.Prelude.{◌≡◌, ◌≢◌, ◌+◌, ◌≤◌, length, IfErr, IfOk};
ghost use Rattle.lr_base.specs.Outside.{IsSameShelf};
ghost use Rattle.lr_base.specs.declared.limits.TheConstants.{SHEET_BYTES as most_sheet_bytes};
ghost use Rattle.outline_data.specs.declared.fault.LimitKind.TheVariants.{SheetBytes};
ghost use Rattle.outline_data.specs.declared.fault.SheetFault.TheVariants.{Limit};
ghost use Rattle.grammar_checks.specs.Building.{IsBuilt};
ghost use Rattle.report_theory.specs.FaultTexts.{fault_text as text_of_fault, grammar_text as text_of_grammar};
ghost use Rattle.answer_theory.specs.Sheets.{HasTooManyStates, Scans, states_fault};
ghost use Rattle.answer_theory.specs.Tasks.{for_parsing, for_scanning, text_input};
ghost use Rattle.lrpar_cli.specs.Inputs.{HasInput, HasSheet, IsGrammarStop, IsInputStop, IsReady, IsScanStop, IsSheetStop, IsStatesStop, ReadsName};
ghost use Rattle.lrpar_cli.specs.Stops.{IsDueStop};

use crate::stop::{Stop, due, long_text};
use answer_theory::Status;
use grammar_checks::{Built, build_grammar};
use grammar_faults::GrammarFault;
use lr_base::{SHEET_BYTES, Shelf, TEXT_BYTES, Text, read_all};
use pattern_data::Meaning;
use program_texts::{fault_text, grammar_text};
use sheet_reader::{LimitKind, ScanOrder, Sheet, SheetFault, read_sheet};
use std::alloc::Global;
use token_patterns::{STATES, Scanner, ScannerFault};

/// A sheet, with the scanner of its patterns and what the string of each rank is.
#[derive(Drop)]
pub struct Scanned {
    pub sheet: Sheet,
    pub scanner: Scanner,
    pub means: Vec<Meaning>,
}

/// A sheet with its scanner, and the collection and the tables of its grammar.
#[derive(Drop)]
pub struct Parsing {
    pub scanned: Scanned,
    pub built: Built,
}

/// The refusal of a sheet with a fault.
fn refusal(alloc: Global, fault: SheetFault) -> Stop
    ensures { IsDueStop Status.SheetRefused (text_of_fault fault) result }
{
    due(Status::SheetRefused, fault_text(alloc, fault))
}

/// A sheet with the scanner of its patterns, unless they have too many states.
fn with_scanner(alloc: Global, sheet: Sheet) -> Result<Scanned, Stop>
    ensures sheet { IfOk result (λ scanned. scanned.sheet ≡ sheet) }
    ensures few { IfOk result (λ _. ¬ (HasTooManyStates sheet)) }
    ensures ready { IfOk result (λ scanned. IsReady scanned) }
    ensures refused { IfErr result (λ stop. IsStatesStop sheet stop) }
{
    let ScanOrder { patterns, means } = sheet.scan_order()?;
    match Scanner::build(alloc, &patterns) {
        Ok(scanner) => Ok(Scanned {
            sheet,
            scanner,
            means,
        }),
        Err(ScannerFault::TooManyStates) => {
            let fault = SheetFault::Limit(LimitKind::ScannerStates, STATES as u64 + 1);
            Err(refusal(alloc, fault))
        }
        Err(ScannerFault::NoMemory) => Err(Stop::Spent),
    }
}

/// The sheet of these bytes with its scanner, or what is said of their fault.
fn scan(alloc: Global, bytes: &[u8]) -> Result<Scanned, Stop>
    ensures scanned { IfOk result (λ scanned. Scans bytes.now scanned.sheet) }
    ensures ready { IfOk result (λ scanned. IsReady scanned) }
    ensures refused { IfErr result (λ stop. IsScanStop bytes.now stop) }
{
    match read_sheet(alloc, bytes) {
        Ok(sheet) => with_scanner(alloc, sheet),
        Err(SheetFault::NoMemory) => Err(Stop::Spent),
        Err(fault) => Err(refusal(alloc, fault)),
    }
}

/// The refusal of a sheet with too many bytes.
fn long_sheet(alloc: Global) -> Stop
    ensures { IsDueStop Status.SheetRefused (text_of_fault (Limit SheetBytes (most_sheet_bytes + 1))) result }
{
    let fault = SheetFault::Limit(LimitKind::SheetBytes, SHEET_BYTES as u64 + 1);
    refusal(alloc, fault)
}

/// Reads a sheet that a scanner can be made of, and makes it.
pub fn read_scanned<S: Shelf>(alloc: Global, shelf: &mut S, name: &str) -> Result<Scanned, Stop>
    ensures sheet { IfOk result (λ scanned. HasSheet for_scanning (S.seen shelf.old) name.now scanned.sheet) }
    ensures ready { IfOk result (λ scanned. IsReady scanned) }
    ensures stopped { IfErr result (λ stop. IsSheetStop for_scanning (S.seen shelf.old) name.now stop) }
    ensures reads { ReadsName (S.seen shelf.old) (S.seen shelf.new) name.now (result ≡ Err Stop.Unread) }
    ensures same { IsSameShelf (S.seen shelf.old) (S.seen shelf.new) }
{
    match read_all(alloc, shelf, name, SHEET_BYTES)? {
        Text::Whole(bytes) => scan(alloc, &bytes),
        Text::TooLong => Err(long_sheet(alloc)),
    }
}

/// The collection and the tables of a sheet's grammar, which has to have them.
fn build(alloc: Global, sheet: &Sheet) -> Result<Built, Stop>
    ensures built { IfOk result (λ built. IsBuilt sheet.now.grammar built) }
    ensures refused { IfErr result (λ stop. IsGrammarStop sheet.now stop) }
{
    match build_grammar(alloc, sheet.grammar()) {
        Ok(built) => Ok(built),
        Err(GrammarFault::NoMemory) => Err(Stop::Spent),
        Err(fault) => Err(due(Status::SheetRefused, grammar_text(alloc, sheet, fault))),
    }
}

/// Reads a sheet whose grammar has tables, and builds them.
pub fn read_parsing<S: Shelf>(alloc: Global, shelf: &mut S, name: &str) -> Result<Parsing, Stop>
    ensures sheet { IfOk result (λ parsing. HasSheet for_parsing (S.seen shelf.old) name.now parsing.scanned.sheet) }
    ensures ready { IfOk result (λ parsing. IsReady parsing.scanned) }
    ensures built { IfOk result (λ parsing. IsBuilt parsing.scanned.sheet.grammar parsing.built) }
    ensures stopped { IfErr result (λ stop. IsSheetStop for_parsing (S.seen shelf.old) name.now stop) }
    ensures reads { ReadsName (S.seen shelf.old) (S.seen shelf.new) name.now (result ≡ Err Stop.Unread) }
    ensures same { IsSameShelf (S.seen shelf.old) (S.seen shelf.new) }
{
    let scanned = read_scanned(alloc, shelf, name)?;
    let built = build(alloc, &scanned.sheet)?;
    Ok(Parsing { scanned, built })
}

/// Reads a text of at most so many bytes as a text may have.
pub fn read_text<S: Shelf>(alloc: Global, shelf: &mut S, name: &str) -> Result<Vec<u8>, Stop>
    ensures text { IfOk result (λ text. HasInput text_input (S.seen shelf.old) name.now text.items) }
    ensures stopped { IfErr result (λ stop. IsInputStop text_input (S.seen shelf.old) name.now stop) }
    ensures reads { ReadsName (S.seen shelf.old) (S.seen shelf.new) name.now (result ≡ Err Stop.Unread) }
    ensures same { IsSameShelf (S.seen shelf.old) (S.seen shelf.new) }
{
    match read_all(alloc, shelf, name, TEXT_BYTES)? {
        Text::Whole(text) => Ok(text),
        Text::TooLong => Err(long_text(alloc)),
    }
}
