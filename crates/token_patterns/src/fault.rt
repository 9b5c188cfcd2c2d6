use std::alloc::{AllocError, AllocFailed};
use thiserror::Error;

/// Why no scanner was made.
#[derive(Clone, Copy, Debug, PartialEq, Eq, Error)]
pub enum ScannerFault {
    /// The patterns have more states than a scanner may have.
    #[error("too many states")]
    TooManyStates,
    /// Memory ran out.
    #[error("no memory")]
    NoMemory,
}

impl From<AllocError> for ScannerFault {
    ghost use Rattle.std.specs.Prelude.{◌≡◌};
    ghost use Rattle.token_patterns.specs.declared.fault.ScannerFault.TheVariants.{NoMemory};

    ghost from_gives = { λ _ fault. fault ≡ NoMemory };

    fn from(_error: AllocError) -> ScannerFault {
        ScannerFault::NoMemory
    }
}

impl<T: Drop> From<AllocFailed<T>> for ScannerFault {
    ghost use Rattle.std.specs.Prelude.{◌≡◌};
    ghost use Rattle.token_patterns.specs.declared.fault.ScannerFault.TheVariants.{NoMemory};

    ghost from_gives = { λ _ fault. fault ≡ NoMemory };

    fn from(_error: AllocFailed<T>) -> ScannerFault {
        ScannerFault::NoMemory
    }
}
