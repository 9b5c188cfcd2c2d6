ghost use Rattle.std.specs.Prelude.{◌≡◌, None};

use crate::counts::fail;
use crate::errors::Failed;
use crate::sink::Sink;
use std::io::{Stderr, Stdout, Write};
use std::marker::Model;

/// A stream of the runtime. It tells no bytes, and has no sure room; contracts see how many of its calls failed.
#[derive(Drop)]
pub struct StreamSink<W: Write + Drop> {
    stream: W,
    faults: u64,
}

/// Standard output.
pub type OutSink = StreamSink<Stdout>;

/// Standard error.
pub type ErrSink = StreamSink<Stderr>;

impl<W: Write + Drop> Model for StreamSink<W> {
    ghost use Rattle.std.specs.Prelude.{ℕ};

    ghost Value = { ℕ };

    ghost view = { λ s. s.faults };
}

impl<W: Write + Drop> StreamSink<W> {
    /// Nothing was written.
    pub fn new(stream: W) -> StreamSink<W>
        ensures { result ≡ 0 }
    {
        StreamSink { stream, faults: 0 }
    }
}

impl<W: Write + Drop> Sink for StreamSink<W> {
    ghost seen = { λ faults. record { taken = None; faults = faults; room = 0 } };

    /// Writes to the stream; where that takes nothing of a piece that isn't empty, it is a failed call.
    fn write(&mut self, bytes: &[u8]) -> Result<usize, Failed> {
        if let Ok(count) = self.stream.write(bytes)
            && (count > 0 || bytes.is_empty())
        {
            return Ok(count);
        }
        Err(fail(&mut self.faults))
    }
}
