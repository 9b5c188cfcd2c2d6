//! The LR machine over a base state: stacks, moves and runs, by tables alone. Definitions and laws alone.
#![tactic(auto)]

ghost use Rattle.machine_theory.specs.Runs.{ErrorFrameLaw, ErrorMoreInputLaw, ErrorThenLaw, FrameLaw, LookaheadLaw, MoreInputLaw, OneErrorLaw, OneReductionLaw, OneRunLaw, StackFrameLaw, StopLaw, ThenLaw, TokensStayLaw};

/// Moves leave the stack below their base as it is.
pub fn frame_laws()
    ensures runs { FrameLaw }
    ensures errors { ErrorFrameLaw }
    ensures stacks { StackFrameLaw }
{}

/// Runs are joined, look one token ahead, and keep the tokens.
pub fn run_laws()
    ensures then { ThenLaw }
    ensures error_then { ErrorThenLaw }
    ensures more_input { MoreInputLaw }
    ensures error_more_input { ErrorMoreInputLaw }
    ensures lookahead { LookaheadLaw }
    ensures tokens { TokensStayLaw }
{}

/// The machine makes one run.
pub fn one_run_laws()
    ensures one_reduction { OneReductionLaw }
    ensures one_run { OneRunLaw }
    ensures stop { StopLaw }
    ensures one_error { OneErrorLaw }
{}
