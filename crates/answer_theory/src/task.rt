use tally_theory::Asked;

/// What determines a sample text of a sheet: the number from which choices are drawn, and how many are drawn at the most.
#[derive(Clone, Copy, Debug, PartialEq, Eq)]
pub struct Seed {
    pub from: u32,
    pub size: u32,
}

/// What a command asks for, without the names of what it reads.
#[derive(Debug, Drop)]
pub enum Task {
    /// The tokens of a text, by a sheet.
    Tokens,
    /// A sheet without faults, in its normal layout.
    Check,
    /// The states of a sheet's grammar, with their items and what they do.
    Tables,
    /// What is asked of a text, by a sheet.
    Run(Asked),
    /// The sample text of a sheet.
    Gen(Seed),
    /// What is asked of the sample text of a sheet.
    Load(Seed, Asked),
}
