/// What a range that comes to the boundary of the node above it finds.
#[derive(Clone, Copy, Debug, PartialEq, Eq)]
pub enum Arrival {
    /// It is the first part of the node to come, and waits there.
    First,
    /// The node's other part, from this leaf up to that one, waited there; the node is carried now.
    Second(u32, u32),
}
