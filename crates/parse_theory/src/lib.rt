//! One left-to-right parse by lawful tables: one tree for a sentence, and the exact first error. Definitions and laws
//! alone.
#![tactic(auto)]

ghost use Rattle.parse_theory.specs.Parses.{CompleteLaw, FirstErrorLaw, OneTreeLaw, OnlyTreesLaw, RejectLaw, SentenceOrWrongLaw, SoundLaw, TreeBoundLaw, WholeLaw};

/// A whole run accepts exactly the trees of the start, each by its tokens; a sentence has one tree, each tree of a name is
/// the only one with its yield, and its inner nodes are bounded.
pub fn tree_laws()
    ensures sound { SoundLaw }
    ensures complete { CompleteLaw }
    ensures one_tree { OneTreeLaw }
    ensures only_trees { OnlyTreesLaw }
    ensures tree_bound { TreeBoundLaw }
{}

/// A run errs at the first wrong place, in a state that shows exactly the expected tokens.
pub fn error_laws()
    ensures first_error { FirstErrorLaw }
    ensures reject { RejectLaw }
{}

/// A whole run ends, so each list of tokens is a sentence or has a first wrong place.
pub fn whole_run_laws()
    ensures whole { WholeLaw }
    ensures sentence_or_wrong { SentenceOrWrongLaw }
{}
