//! The types of pieces of a parse whose left context is not known, as the code keeps them: closed pieces in flat lists
//! without the maps of their entries, which follow from the rest. The code that makes pieces and the code that joins them
//! speak by these types.
#![tactic(auto)]

mod block;
mod faults;
mod floor;
mod head;

pub use block::Block;
pub use faults::Faults;
pub use floor::{Floor, Opened, StartFault};
pub use head::{Extent, Head};
