//! The end of a parse from unknown contexts: pieces are put onto state 0. Definitions and laws alone.
#![tactic(auto)]

ghost use Rattle.finish_theory.specs.Endings.{EndPutEndLaw, EndPutStartLaw, EndPutWholeLaw, EndingMoveLaw, EndingStartLaw, EnoughLaw};
ghost use Rattle.finish_theory.specs.Finishing.{AcceptLaw, ClosingFaultLaw, ClosingLaw, ClosingStopLaw, FaultLaw, OneEndLaw, StopLaw};

/// Pieces are put onto state 0 one after the other.
pub fn ending_laws()
    ensures start { EndingStartLaw }
    ensures move_on { EndingMoveLaw }
    ensures put_start { EndPutStartLaw }
    ensures enough { EnoughLaw }
    ensures put_whole { EndPutWholeLaw }
    ensures put_end { EndPutEndLaw }
{}

/// The end gives what the whole run from state 0 gives: its error, or the tree that it accepts, and there is one such answer.
pub fn finish_laws()
    ensures closing { ClosingLaw }
    ensures fault { FaultLaw }
    ensures closing_fault { ClosingFaultLaw }
    ensures stop { StopLaw }
    ensures closing_stop { ClosingStopLaw }
    ensures accept { AcceptLaw }
    ensures one_end { OneEndLaw }
{}
