ghost use Rattle.std.specs.Prelude.{◌≡◌, ◌+◌, ◌-◌, ◌^◌, length, min};
ghost use Rattle.std.specs.Io.{WritesAtMost};
ghost use Rattle.lr_base.specs.CountSink.{untold};
ghost use Rattle.lr_base.specs.Outside.{Writes};

use crate::errors::Failed;
use crate::sink::Sink;
use std::marker::Model;

/// A sink that takes all bytes, and keeps only how many they were; a count of 64 bits stands still at its greatest
/// value.
#[derive(Debug, Drop)]
pub struct CountSink {
    count: u64,
}

impl Model for CountSink {
    ghost use Rattle.std.specs.Prelude.{ℕ};

    ghost Value = { ℕ };

    ghost view = { λ s. s.count };
}

impl CountSink {
    /// Nothing was taken.
    pub fn new() -> CountSink
        ensures { result ≡ 0 }
    {
        CountSink { count: 0 }
    }

    /// How many bytes were taken.
    pub fn count(&self) -> u64
        ensures { result ≡ self.now }
    {
        self.count
    }
}

impl Sink for CountSink {
    ghost seen = { λ _. untold };

    /// Takes the whole piece.
    fn write(&mut self, bytes: &[u8]) -> Result<usize, Failed>
        ensures answer { result ≡ Ok (length bytes.now) }
        ensures state { self.new ≡ min (self.old + length bytes.now) (2 ^ 64 - 1) }

        ensures bound { WritesAtMost result bytes.now }
        ensures writes { Writes untold untold bytes.now result }
    {
        self.count = self.count.saturating_add(bytes.len() as u64);
        Ok(bytes.len())
    }
}
