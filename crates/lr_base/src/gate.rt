/// Where workers report what they are about to do, so that a test can watch or hold them. Both calls return; nothing
/// else is promised of them.
pub trait Gate {
    /// Called by a worker before it lexes and parses a leaf.
    fn pass(&self, leaf: u32);

    /// Called by a worker that came second to a boundary, before it joins there.
    fn meet(&self, boundary: u32);
}

/// The gate that lets everyone through at once.
#[derive(Clone, Copy, Debug)]
pub struct OpenGate;

impl Gate for OpenGate {
    fn pass(&self, _leaf: u32) {}

    fn meet(&self, _boundary: u32) {}
}
