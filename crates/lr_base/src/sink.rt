ghost use Rattle.std.specs.Io.{WritesAtMost};
ghost use Rattle.lr_base.specs.Outside.{SinkSeen, Writes};

use crate::errors::Failed;

/// What takes bytes.
///
/// `seen` is what is known of it. A sink that tells its bytes says in `taken` what it took so far, and else `None`.
/// `faults` counts the calls that failed; as a number of 64 bits it stands still at its greatest value. `room` is the
/// sink's sure room, which may be 0: where the sink tells its bytes and took fewer than that many, no call failed.
pub trait Sink {
    ghost seen: { Self → SinkSeen };

    /// Takes bytes from the front of the piece, and answers how many: at least one of a piece that isn't empty. A
    /// failed write took nothing.
    fn write(&mut self, bytes: &[u8]) -> Result<usize, Failed>
        ensures bound { WritesAtMost result bytes.now }
        ensures writes { Writes (seen self.old) (seen self.new) bytes.now result };
}
