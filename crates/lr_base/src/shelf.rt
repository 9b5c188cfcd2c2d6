ghost use Rattle.std.specs.Io.{ReadsAtMost};
ghost use Rattle.lr_base.specs.Outside.{Begins, ReadsOn, ShelfSeen};

use crate::errors::Failed;

/// Where named bytes stand.
///
/// `seen` is what is known of it. A shelf that `tells` its bytes says in `stands` what stands under each name, `None`
/// where nothing does, and in `left` which bytes of the name that was begun last were not read yet; another says `None`
/// in both. `begun` has the names that were handed to `begin`, in order. `faults` counts the calls that failed; as a
/// number of 64 bits it stands still at its greatest value. `served` lists the names for which neither `begin` nor a
/// `read` after it fails; where `serving` is true, no `read` fails until the next `begin`.
pub trait Shelf {
    ghost seen: { Self → ShelfSeen };

    /// Begins to read what stands under a name; this ends an earlier reading. Of a shelf that tells its bytes it fails
    /// where nothing stands there. Where it fails, nothing is left to be read.
    fn begin(&mut self, name: &str) -> Result<(), Failed>
        ensures begins { Begins (seen self.old) (seen self.new) name.now result };

    /// Puts the next bytes at the front of the buffer, and answers how many: none exactly at the end of the bytes, or
    /// for an empty buffer. A failed read leaves the bytes as they are.
    fn read(&mut self, buffer: &mut [u8]) -> Result<usize, Failed>
        ensures bound { ReadsAtMost result buffer.new }
        ensures reads { ReadsOn (seen self.old) (seen self.new) buffer.new result };
}
