use grammar_checks::GrammarFault;
use lr_base::NoMemory;
use sheet_reader::SheetFault;
use thiserror::Error;
use token_patterns::ScannerFault;

/// Why there is no language, or no text of one.
#[derive(Clone, Copy, Debug, PartialEq, Eq, Error)]
pub enum InputFault {
    #[error("the sheet is refused")]
    Sheet,
    #[error("the sheet's grammar has no tables")]
    Grammar,
    #[error("the sheet's patterns have too many states")]
    Scanner,
    #[error("the text is too long")]
    LongText,
    #[error("a token of the text is none of the sheet's")]
    OtherTokens,
    #[error("no memory")]
    NoMemory,
}

impl From<NoMemory> for InputFault {
    fn from(_error: NoMemory) -> InputFault {
        InputFault::NoMemory
    }
}

impl From<SheetFault> for InputFault {
    fn from(fault: SheetFault) -> InputFault {
        match fault {
            SheetFault::NoMemory => InputFault::NoMemory,
            _ => InputFault::Sheet,
        }
    }
}

impl From<GrammarFault> for InputFault {
    fn from(fault: GrammarFault) -> InputFault {
        match fault {
            GrammarFault::NoMemory => InputFault::NoMemory,
            _ => InputFault::Grammar,
        }
    }
}

impl From<ScannerFault> for InputFault {
    fn from(fault: ScannerFault) -> InputFault {
        match fault {
            ScannerFault::NoMemory => InputFault::NoMemory,
            ScannerFault::TooManyStates => InputFault::Scanner,
        }
    }
}
