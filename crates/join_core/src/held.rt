/// What is live from a leaf on: no range, or one that ends before the given leaf.
#[derive(Clone, Copy, Debug)]
pub enum Held {
    NoRange,
    Carried(u32),
    Waiting(u32),
}
