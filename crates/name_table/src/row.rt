/// A declared name: its bytes, the line of its first marked leaf, counted from 1, and how many marked leaves it has.
#[derive(Clone, Copy, Debug)]
pub struct Row<'a> {
    pub text: &'a [u8],
    pub line: u32,
    pub times: u32,
}
