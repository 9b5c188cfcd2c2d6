use std::alloc::{AllocError, AllocFailed};
use thiserror::Error;

/// Why there is no collection.
#[derive(Clone, Copy, Debug, PartialEq, Eq, Error)]
pub enum CollectFault {
    /// There are more than 10,000 states.
    #[error("too many states")]
    TooManyStates,
    /// Memory ran out.
    #[error("no memory")]
    NoMemory,
}

impl From<AllocError> for CollectFault {
    ghost use Rattle.std.specs.Prelude.{◌≡◌};
    ghost use Rattle.item_sets.specs.declared.fault.CollectFault.TheVariants.{NoMemory};

    ghost from_gives = { λ _ fault. fault ≡ NoMemory };

    fn from(_error: AllocError) -> CollectFault {
        CollectFault::NoMemory
    }
}

impl<T: Drop> From<AllocFailed<T>> for CollectFault {
    ghost use Rattle.std.specs.Prelude.{◌≡◌};
    ghost use Rattle.item_sets.specs.declared.fault.CollectFault.TheVariants.{NoMemory};

    ghost from_gives = { λ _ fault. fault ≡ NoMemory };

    fn from(_error: AllocFailed<T>) -> CollectFault {
        CollectFault::NoMemory
    }
}
