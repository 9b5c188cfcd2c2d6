use lr_base::NoMemory;
use thiserror::Error;

/// Why no lexeme was read. Lines count from 1.
#[derive(Clone, Copy, Debug, PartialEq, Eq, Error)]
pub enum LexFault {
    /// A byte stands where it may not.
    #[error("bad byte on line {line}")]
    BadByte { line: usize },
    /// The bytes are no lexeme.
    #[error("syntax on line {line}")]
    Syntax { line: usize },
    /// Memory ran out.
    #[error("no memory")]
    NoMemory,
}

impl From<NoMemory> for LexFault {
    ghost use Rattle.std.specs.Prelude.{◌≡◌};
    ghost use Rattle.sheet_lexemes.specs.declared.fault.LexFault.TheVariants.{NoMemory as no_memory};

    ghost from_gives = { λ _ e. e ≡ no_memory };

    fn from(_error: NoMemory) -> LexFault {
        LexFault::NoMemory
    }
}
