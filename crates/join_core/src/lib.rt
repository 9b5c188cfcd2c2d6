//! The protocol by which workers join neighbouring results without waiting for each other, as data: the tree over leaves,
//! and the events of a core. It starts no thread; who shares a core among threads makes these events on words of its own.
#![tactic(auto)]

mod above;
mod arrival;
mod call;
mod held;
mod limits;
mod protocol;
mod running;

pub use above::{Above, parent};
pub use arrival::Arrival;
pub use call::Call;
pub use limits::LEAVES;
pub use protocol::Core;
pub use running::{Ran, run_calls};
