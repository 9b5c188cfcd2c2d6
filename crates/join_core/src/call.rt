/// A call of a core, as data.
#[derive(Clone, Copy, Debug)]
pub enum Call {
    /// A claim.
    Claim,
    /// The arrival of the range from the first leaf up to the last, which is not in it.
    Arrive(u32, u32),
    /// The end.
    Finish,
}
