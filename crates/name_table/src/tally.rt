/// What is counted of a name: the line of its first marked leaf, and how many marked leaves it has.
#[derive(Clone, Copy, Debug)]
pub struct Tally {
    pub line: u32,
    pub times: u32,
}
