use grammar_data::NameId;
use lr_base::NoMemory;
use thiserror::Error;

/// Why no tables are built of a grammar: the least useless name of the first kind that is there, in the order of the
/// variants.
#[derive(Clone, Copy, Debug, PartialEq, Eq, Error)]
pub enum UselessFault {
    /// The name derives no token list.
    #[error("a name derives no token list")]
    Unproductive(NameId),
    /// The name stands in no list that is derived from the start.
    #[error("a name is not reached from the start")]
    Unreachable(NameId),
    /// The name derives the empty token list, but only by trees with more than 1,000 inner nodes.
    #[error("the least empty tree of a name is too large")]
    EmptyTooLarge(NameId),
    /// Memory ran out.
    #[error("no memory")]
    NoMemory,
}

impl From<NoMemory> for UselessFault {
    ghost use Rattle.std.specs.Prelude.{◌≡◌};
    ghost use Rattle.first_sets.specs.declared.fault.UselessFault.TheVariants.{NoMemory as no_memory};

    ghost from_gives = { λ _ fault. fault ≡ no_memory };

    fn from(_error: NoMemory) -> UselessFault {
        UselessFault::NoMemory
    }
}
