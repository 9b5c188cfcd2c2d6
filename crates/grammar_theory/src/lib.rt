//! Derivations of a grammar: which token lists it derives, what goes on, and which names are productive, reachable and
//! nullable. Definitions and laws alone.
#![tactic(auto)]

ghost use Rattle.grammar_theory.specs.Derivations.{AppendLaw, SplitLaw, FoldLaw, MoreRulesLaw, WordLaw, StepsLaw, TokensLaw, EndLaw};
ghost use Rattle.grammar_theory.specs.Trees.{TreesLaw, TreeLaw, SentenceLaw};
ghost use Rattle.grammar_theory.specs.UsefulNames.{ProductiveTreeLaw, ProductiveRuleLaw, ProductiveTestLaw, ReachableLaw, ReachableTestLaw};
ghost use Rattle.grammar_theory.specs.UselessNames.{OneUnproductiveLaw, OneUnreachableLaw, OneTooLargeLaw};
ghost use Rattle.grammar_theory.specs.EmptyNames.{EmptyTreeLaw, NullableSizeLaw, OneSizeLaw, NullableRuleLaw, NullableListLaw, NullableTestLaw, FirstRoundLaw, RoundLaw, NextRoundLaw, UnsizedLaw};
ghost use Rattle.grammar_theory.specs.FirstTokens.{FirstOnlyLaw, FirstLaw, FollowsOnlyLaw, FollowsLaw, FoundPartsLaw, FirstRuleOnlyLaw, FirstRuleLaw, FirstTableLaw};

mod limits;

pub use limits::EMPTY_NODES;

/// Derivations are joined, split and folded, and agree with steps.
pub fn derivation_laws()
    ensures append { AppendLaw }
    ensures split { SplitLaw }
    ensures fold { FoldLaw }
    ensures more_rules { MoreRulesLaw }
    ensures word { WordLaw }
    ensures steps { StepsLaw }
    ensures tokens { TokensLaw }
    ensures end { EndLaw }
{}

/// Derivation trees agree with derivations.
pub fn tree_laws()
    ensures trees { TreesLaw }
    ensures tree { TreeLaw }
    ensures sentence { SentenceLaw }
{}

/// Productive and reachable names are found by rules, and known exactly by closed tests.
pub fn useful_name_laws()
    ensures productive_tree { ProductiveTreeLaw }
    ensures productive_rule { ProductiveRuleLaw }
    ensures productive_test { ProductiveTestLaw }
    ensures reachable { ReachableLaw }
    ensures reachable_test { ReachableTestLaw }
{}

/// The least useless name of each kind is one.
pub fn useless_name_laws()
    ensures unproductive { OneUnproductiveLaw }
    ensures unreachable { OneUnreachableLaw }
    ensures too_large { OneTooLargeLaw }
{}

/// Nullable names are found by rules, and known exactly by a closed test.
pub fn nullable_laws()
    ensures rule { NullableRuleLaw }
    ensures list { NullableListLaw }
    ensures test { NullableTestLaw }
    ensures size { NullableSizeLaw }
{}

/// Empty sizes are those of empty trees, and found in rounds.
pub fn empty_size_laws()
    ensures tree { EmptyTreeLaw }
    ensures one { OneSizeLaw }
    ensures first_round { FirstRoundLaw }
    ensures round { RoundLaw }
    ensures next_round { NextRoundLaw }
    ensures none_below { UnsizedLaw }
{}

/// First tokens are found by symbols and by rules, and known exactly by a closed table.
pub fn first_token_laws()
    ensures first_only { FirstOnlyLaw }
    ensures first { FirstLaw }
    ensures follows_only { FollowsOnlyLaw }
    ensures follows { FollowsLaw }
    ensures found_parts { FoundPartsLaw }
    ensures rule_only { FirstRuleOnlyLaw }
    ensures rule { FirstRuleLaw }
    ensures table { FirstTableLaw }
{}
