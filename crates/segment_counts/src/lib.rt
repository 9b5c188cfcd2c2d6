//! A text that is cut into segments: how many tokens they have, and how many pieces each of them comes to where it is parsed for all
//! left contexts at once; and how many nodes a tree has.
#![tactic(auto)]

mod counts;
mod job;
mod nodes;

pub use counts::{Counts, count_segments};
pub use job::Job;
pub use nodes::node_count;
