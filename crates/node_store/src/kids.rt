ghost use Rattle.std.specs.Prelude.{◌≡◌, ◌-◌, ◌<◌, ◌≤◌, drop, length, slice_get, take, Some};
ghost use Rattle.node_store.specs.Flat.{all_kids};

use crate::chunk::Chunk;
use crate::packed_kid::PackedKid;
use node_data::Kid;

/// The kids of a node, or the last of them: a look into the node's chunk, in 16 bytes. Contracts see their list by
/// `kids_seen`.
#[derive(Clone, Copy, Debug)]
pub struct Kids<'a> {
    chunk: &'a Chunk,
    first: u32,
    end: u32,
    ghost order: { first ≤ end },
    ghost inside: { end ≤ length (all_kids chunk.now) },
}

const _: () = prove!(std::mem::size_of::<Kids>() == 16);

impl<'a> Kids<'a> {
    ghost use Rattle.node_store.specs.Kids.{kids_seen};

    /// The kids of a chunk from an index on, up to another.
    pub(crate) fn new(chunk: &'a Chunk, first: u32, end: u32) -> Kids<'a>
        requires order { first ≤ end }
        requires inside { end ≤ length (all_kids chunk.now) }
        ensures { kids_seen result ≡ take (end - first) (drop first (all_kids chunk.now)) }
    {
        Kids { chunk, first, end }
    }

    /// How many kids there are.
    pub fn len(self) -> usize
        ensures { result ≡ length (kids_seen self.entry) }
    {
        (self.end - self.first) as usize
    }

    /// The kid at an index, counted from 0, in 16 bytes.
    pub fn packed(self, at: usize) -> PackedKid
        requires { at < length (kids_seen self) }
        ensures { slice_get (kids_seen self.entry) at ≡ Some result }
    {
        self.chunk.kid(self.first as usize + at)
    }

    /// The kid at an index, counted from 0; `None` where there are no more than that.
    pub fn get(self, at: usize) -> Option<Kid>
        ensures { result ≡ slice_get (kids_seen self.entry) at }
    {
        if at >= self.len() {
            return None;
        }
        Some(self.packed(at).kid())
    }

    /// Those behind the first.
    pub(crate) fn rest(self) -> Kids<'a>
        requires { 0 < length (kids_seen self) }
        ensures { kids_seen result ≡ drop 1 (kids_seen self.entry) }
    {
        Kids {
            chunk: self.chunk,
            first: self.first + 1,
            end: self.end,
        }
    }
}
