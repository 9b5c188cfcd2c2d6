//! What a sheet says: the names of its tokens, the order in which it is scanned, and the printed token list.
//! Definitions and laws alone.
#![tactic(auto)]
