use crate::bytes::Bytes;
use pattern_data::Pattern;

/// A declaration of a sheet.
#[derive(Debug, Drop)]
pub enum Decl {
    /// `%token NAME 'bytes'`.
    Literal { name: Bytes, bytes: Bytes },
    /// `%token NAME /pattern/`.
    Matched { name: Bytes, pattern: Pattern },
    /// `%skip /pattern/`.
    Skip { pattern: Pattern },
}

/// A part of a rule's template. Places count from 1.
#[derive(Debug, Drop)]
pub enum Part {
    /// These bytes.
    Text(Bytes),
    /// `$i`: what part `i` of the right side gives.
    Fold(u32),
    /// `#i`: the number of part `i`'s bytes among the declared names.
    Number(u32),
}
