use run_theory::Emit;
use tally_theory::Cut;

/// What is wanted of a text.
#[derive(Clone, Copy, Debug, PartialEq, Eq)]
pub enum Want {
    /// What is due of its tree: its translation, or the names that it declares.
    Text(Emit),
    /// The report of its segments.
    Report,
}

/// The options of a run over a text: what is wanted of it, into which segments it is cut to be parsed, and by how many workers.
/// The cutting and the workers are told whatever is wanted.
#[derive(Debug, Drop)]
pub struct RunOptions {
    pub want: Want,
    pub cut: Cut,
    /// From 1 to `WORKERS_LIMIT`.
    pub workers: u32,
}
