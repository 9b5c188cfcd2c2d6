ghost use Rattle.std.specs.Prelude.{◌≡◌, ◌<◌, ◌≤◌, [], length, IsErr, OnErr, OnOk};
ghost use Rattle.lr_base.specs.Outside.{Fails, IsSameSink, Takes};
ghost use Rattle.writing_theory.specs.Writing.{Passes};

use lr_base::{Failed, Sink, write_all};
use std::alloc::Global;

/// How many bytes are gathered before they are written.
pub const BLOCK_BYTES: usize = 65_536;

/// A text on its way to a sink: its bytes are gathered, and written in blocks.
#[derive(Drop)]
pub struct Blocks {
    /// What is gathered, and was not written yet.
    pub gathered: Vec<u8>,
}

impl Blocks {
    /// Nothing is gathered.
    pub fn new(alloc: Global) -> Blocks
        ensures { result.gathered.items ≡ [] }
    {
        Blocks {
            gathered: Vec::new(alloc),
        }
    }

    /// Writes what is gathered, where that is a block or more; where it is less, it stays. After a failure it is still there.
    pub fn pass<O: Sink>(&mut self, out: &mut O) -> Result<(), Failed>
        ensures passed { OnOk result (Passes (O.seen out.old) (O.seen out.new) self.old.gathered.items self.new.gathered.items []) }
        ensures failed { OnErr result (Fails (O.seen out.old) (O.seen out.new) self.old.gathered.items) }
        ensures block { BLOCK_BYTES ≤ length self.old.gathered.items → OnOk result (self.new.gathered.items ≡ []) }
        ensures less { length self.old.gathered.items < BLOCK_BYTES
            → (result ≡ Ok tt) × (self.new.gathered.items ≡ self.old.gathered.items) × (out.new ≡ out.old) }
        ensures kept { IsErr result → self.new.gathered.items ≡ self.old.gathered.items }
        ensures same { IsSameSink (O.seen out.old) (O.seen out.new) }
    {
        if self.gathered.len() >= BLOCK_BYTES {
            write_all(out, &self.gathered)?;
            self.gathered.clear();
        }
        Ok(())
    }

    /// Writes what is gathered, and ends.
    pub fn finish<O: Sink>(self, out: &mut O) -> Result<(), Failed>
        ensures whole { OnOk result (Takes (O.seen out.old) (O.seen out.new) self.gathered.items) }
        ensures failed { OnErr result (Fails (O.seen out.old) (O.seen out.new) self.gathered.items) }
        ensures same { IsSameSink (O.seen out.old) (O.seen out.new) }
    {
        write_all(out, &self.gathered)
    }
}
