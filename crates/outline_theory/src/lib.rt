//! What a grammar sheet means: how its bytes are an outline, which faults an outline has and which comes first, the
//! sheet that it says, and the sheet's normal layout. Definitions alone.
#![tactic(auto)]
