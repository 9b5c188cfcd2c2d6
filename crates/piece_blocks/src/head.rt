use grammar_data::Token;

/// What a block keeps of a closed piece beside its floors and kids: the first token, how many tokens there are, and where in
/// the block's lists its floors and kids begin, and how many there are.
#[derive(Clone, Copy, Debug)]
pub struct Head {
    pub first: Token,
    pub count: u32,
    pub floors_from: usize,
    pub floors: usize,
    pub kids_from: usize,
    pub kids: usize,
}

/// The tokens of a piece: the first, and how many there are.
#[derive(Clone, Copy, Debug)]
pub struct Extent {
    pub first: Token,
    pub count: u32,
}
