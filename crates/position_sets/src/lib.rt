//! The positions of patterns as data: sets of places, what each position reads, and what follows it.
#![tactic(auto)]

mod begin;
mod counting;
mod following;
mod joint;
mod places;

pub use begin::{Begin, begin_of};
pub use counting::{count_positions, count_together};
pub use following::{Position, follow};
pub use joint::{Joint, join_patterns};
pub use places::{common, equal_by_places, has, insert, meet, no_places, union};
