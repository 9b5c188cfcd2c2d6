//! The protocol by which workers join neighbouring results without waiting for each other: the tree over leaves, states,
//! events and runs. Definitions and laws alone.
#![tactic(auto)]

ghost use Rattle.core_theory.specs.Laws.{ApartLaw, ClaimRunLaw, ClaimStepLaw, CoveredRunLaw, DoneLaw, JoinRunLaw, JoinStepLaw, LeafLaw, NestedLaw, OneNodeLaw, OneParentLaw, ReorderLaw, SiblingLaw, SomeNodeLaw, SomeParentLaw, StartLaw, StepLaw, WholeRunLaw};

/// Ranges of the tree are nested or apart; each boundary is that of one node; each range but all leaves has one node above
/// it; each leaf is a range.
pub fn join_tree_laws()
    ensures nested { NestedLaw }
    ensures some_node { SomeNodeLaw }
    ensures one_node { OneNodeLaw }
    ensures some_parent { SomeParentLaw }
    ensures one_parent { OneParentLaw }
    ensures leaf { LeafLaw }
{}

/// A start is covered, and each event keeps a covered state covered, as another order of its lists does. An event claims and
/// joins what none before it did.
pub fn event_laws()
    ensures start { StartLaw }
    ensures step { StepLaw }
    ensures reorder { ReorderLaw }
    ensures claim_step { ClaimStepLaw }
    ensures join_step { JoinStepLaw }
{}

/// In a covered state a second arrival finds the other part waiting, live ranges have no leaf in common, and the end has
/// all leaves.
pub fn covered_laws()
    ensures sibling { SiblingLaw }
    ensures apart { ApartLaw }
    ensures done { DoneLaw }
{}

/// Over any events from a start the state is covered, each leaf is claimed once at most, and each boundary joined once at
/// most; at the end each was.
pub fn core_run_laws()
    ensures covered { CoveredRunLaw }
    ensures claims { ClaimRunLaw }
    ensures joins { JoinRunLaw }
    ensures whole { WholeRunLaw }
{}
