/// What is asked of a run over a text.
#[derive(Clone, Copy, Debug, PartialEq, Eq)]
pub enum Emit {
    /// The translation of the text.
    Output,
    /// The names that the text declares.
    Names,
}
