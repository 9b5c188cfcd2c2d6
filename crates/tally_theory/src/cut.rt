use crate::begins::Begins;

/// How the lines of a text are cut into segments.
#[derive(Debug, Drop)]
pub enum Cut {
    /// So many segments, whose numbers of lines differ by at most one.
    Even(u32),
    /// A segment at the first line, and one at each of these.
    At(Begins),
}
