//! Each node of a store is used once: how often a walk enters nodes, hidden kids that are filled, and what stays.
//! Definitions and laws alone.
#![tactic(auto)]

ghost use Rattle.use_theory.specs.Counts.{CountedLaw, JoinedLaw};
ghost use Rattle.use_theory.specs.Distinct.{FilledLaw, GrownLaw, RenewedLaw, TakenOutLaw, UnitedLaw};
ghost use Rattle.use_theory.specs.Fills.{FillWalkLaw, FilledStepsLaw, KidByKidLaw, NoneSuppliedLaw, SuppliedLaw};
ghost use Rattle.use_theory.specs.Kept.{KeptByLaw, KeptThenLaw, SameShownLaw, SameWalkLaw};
ghost use Rattle.use_theory.specs.Spines.{SpineFilledLaw, SpineInsideLaw, SpineMoreLaw, SpineOpenedLaw};

/// Nodes are counted in lists and in walks.
pub fn count_laws()
    ensures counted { CountedLaw }
    ensures joined { JoinedLaw }
    ensures taken_out { TakenOutLaw }
{}

/// Each node stays used once where one changes, where one is put around entries, where hidden kids are filled, and where two
/// stores are put together.
pub fn distinct_laws()
    ensures renewed { RenewedLaw }
    ensures grown { GrownLaw }
    ensures filled { FilledLaw }
    ensures united { UnitedLaw }
{}

/// Where a store changes, walks and what kids show stay where their nodes do; nodes are kept by each change.
pub fn kept_laws()
    ensures walk { SameWalkLaw }
    ensures shown { SameShownLaw }
    ensures then { KeptThenLaw }
    ensures by_change { KeptByLaw }
{}

/// Hidden kids are filled: the walk over the filled store, what it meets, how a part is supplied, and that nodes show the
/// same.
pub fn fill_laws()
    ensures walk { FillWalkLaw }
    ensures steps { FilledStepsLaw }
    ensures kid_by_kid { KidByKidLaw }
    ensures none { NoneSuppliedLaw }
    ensures shown { SuppliedLaw }
{}

/// The nodes of the floors stay at the left edge of the walk: where steps come before, between and after, where a node is put
/// around all, and where the innermost node is filled.
pub fn spine_laws()
    ensures more { SpineMoreLaw }
    ensures inside { SpineInsideLaw }
    ensures opened { SpineOpenedLaw }
    ensures filled { SpineFilledLaw }
{}
