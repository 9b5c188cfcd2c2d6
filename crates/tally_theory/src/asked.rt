use crate::cut::Cut;
use run_theory::Emit;

/// What is asked of a run over a text.
#[derive(Debug, Drop)]
pub enum Asked {
    /// What is due of its tree: its translation, or the names that it declares.
    Text(Emit),
    /// The report of the text where it is cut so.
    Report(Cut),
}
