ghost use Rattle.std.specs.Prelude.{IfOk};
ghost use Rattle.run_inputs.specs.Inputs.{IsLanguage};

use crate::fault::InputFault;
use grammar_checks::{Built, build_grammar};
use pattern_data::Meaning;
use sheet_reader::{ScanOrder, Sheet, read_sheet};
use std::alloc::Global;
use token_patterns::Scanner;

/// What texts are scanned and parsed by: a sheet, the tables of its grammar, the scanner of its patterns, and what the string of
/// each rank is.
#[derive(Drop)]
pub struct Language {
    pub sheet: Sheet,
    pub built: Built,
    pub scanner: Scanner,
    pub means: Vec<Meaning>,
}

impl Language {
    /// The language of a sheet's bytes.
    pub fn read(alloc: Global, bytes: &[u8]) -> Result<Language, InputFault>
        ensures { IfOk result (λ language. IsLanguage language) }
    {
        let sheet = read_sheet(alloc, bytes)?;
        let built = build_grammar(alloc, sheet.grammar())?;
        let ScanOrder { patterns, means } = sheet.scan_order()?;
        let scanner = Scanner::build(alloc, &patterns)?;
        Ok(Language {
            sheet,
            built,
            scanner,
            means,
        })
    }
}
