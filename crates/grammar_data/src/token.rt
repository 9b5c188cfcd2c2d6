use crate::ids::TokenId;

/// Where a token stands: its line, counted from 1, the offset of its first byte in the text, counted from 0, and how
/// many bytes it has.
#[derive(Clone, Copy, Debug, PartialEq, Eq)]
pub struct Place {
    pub line: u32,
    pub start: u32,
    pub len: u32,
}

/// A token of a text.
#[derive(Clone, Copy, Debug, PartialEq, Eq)]
pub struct Token {
    pub id: TokenId,
    pub place: Place,
}

const _: () = prove!(std::mem::size_of::<Token>() == 16);
