use lr_base::{Failed, NoMemory};
use std::alloc::AllocError;
use thiserror::Error;

/// Why a text was not written whole.
#[derive(Clone, Copy, Debug, PartialEq, Eq, Error)]
pub enum WriteFault {
    #[error("the text can't be written")]
    Failed,
    #[error("no memory")]
    NoMemory,
}

impl From<AllocError> for WriteFault {
    ghost use Rattle.std.specs.Prelude.{◌≡◌};
    ghost use Rattle.writing_theory.specs.declared.fault.WriteFault.TheVariants.{NoMemory};

    ghost from_gives = { λ _ fault. fault ≡ NoMemory };

    fn from(_error: AllocError) -> WriteFault {
        WriteFault::NoMemory
    }
}

impl From<NoMemory> for WriteFault {
    ghost use Rattle.std.specs.Prelude.{◌≡◌};
    ghost use Rattle.writing_theory.specs.declared.fault.WriteFault.TheVariants.{NoMemory};

    ghost from_gives = { λ _ fault. fault ≡ NoMemory };

    fn from(_error: NoMemory) -> WriteFault {
        WriteFault::NoMemory
    }
}

impl From<Failed> for WriteFault {
    ghost use Rattle.std.specs.Prelude.{◌≡◌};
    ghost use Rattle.writing_theory.specs.declared.fault.WriteFault.TheVariants.{Failed};

    ghost from_gives = { λ _ fault. fault ≡ Failed };

    fn from(_failed: Failed) -> WriteFault {
        WriteFault::Failed
    }
}
