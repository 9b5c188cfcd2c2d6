use grammar_data::TokenId;

/// What a scan takes at one place of a line, with its number of bytes.
#[derive(Clone, Copy, Debug)]
pub enum Taken {
    Token(TokenId, usize),
    Skip(usize),
}
