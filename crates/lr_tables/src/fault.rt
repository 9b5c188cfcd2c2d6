use grammar_faults::Conflict;
use lr_base::NoMemory;
use thiserror::Error;

/// Why there are no tables.
#[derive(Clone, Copy, Debug, PartialEq, Eq, Error)]
pub enum BuildFault {
    /// Two items of a state do different things on a token.
    #[error("a conflict")]
    Conflict(Conflict),
    /// Memory ran out.
    #[error("no memory")]
    NoMemory,
}

impl From<NoMemory> for BuildFault {
    ghost use Rattle.std.specs.Prelude.{◌≡◌};
    ghost use Rattle.lr_tables.specs.declared.fault.BuildFault.TheVariants.{NoMemory as no_memory};

    ghost from_gives = { λ _ fault. fault ≡ no_memory };

    fn from(_error: NoMemory) -> BuildFault {
        BuildFault::NoMemory
    }
}
