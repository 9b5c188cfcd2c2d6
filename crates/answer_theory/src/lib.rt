//! What the program answers: one relation between a task, the bytes that it had to read, its status, and the bytes that its output
//! and its error output take; with the laws that there is one answer at most, and not none, and that no sample text is refused.
#![tactic(auto)]

mod laws;
mod status;
mod task;

pub use laws::{load_law, one_answer_law, some_answer_law};
pub use status::Status;
pub use task::{Seed, Task};
