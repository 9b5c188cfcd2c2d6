use std::alloc::{AllocError, AllocFailed};
use thiserror::Error;

/// Why no pattern was made.
#[derive(Clone, Copy, Debug, PartialEq, Eq, Error)]
pub enum PatternFault {
    /// The spelling is none of a pattern.
    #[error("the pattern's spelling is wrong")]
    Syntax,
    /// The pattern has the empty string.
    #[error("the pattern matches the empty string")]
    MatchesEmpty,
    /// Memory ran out.
    #[error("no memory")]
    NoMemory,
}

impl From<AllocError> for PatternFault {
    ghost use Rattle.std.specs.Prelude.{◌≡◌};
    ghost use Rattle.pattern_data.specs.declared.fault.PatternFault.TheVariants.{NoMemory};

    ghost from_gives = { λ _ fault. fault ≡ NoMemory };

    fn from(_error: AllocError) -> PatternFault {
        PatternFault::NoMemory
    }
}

impl<T: Drop> From<AllocFailed<T>> for PatternFault {
    ghost use Rattle.std.specs.Prelude.{◌≡◌};
    ghost use Rattle.pattern_data.specs.declared.fault.PatternFault.TheVariants.{NoMemory};

    ghost from_gives = { λ _ fault. fault ≡ NoMemory };

    fn from(_error: AllocFailed<T>) -> PatternFault {
        PatternFault::NoMemory
    }
}
