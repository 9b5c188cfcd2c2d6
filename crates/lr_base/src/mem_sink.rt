ghost use Rattle.std.specs.Prelude.{◌≡◌, ◌≤◌, IfOk};
ghost use Rattle.std.specs.Io.{WritesAtMost};
ghost use Rattle.std.specs.Result.{result_ok};
ghost use Rattle.lr_base.specs.MemSink.{after_write, empty_sink, sink_seen, write_count};
ghost use Rattle.lr_base.specs.Outside.{HasSureRoom, Writes};

use crate::counts::fail;
use crate::errors::{Failed, NoMemory};
use crate::sink::Sink;
use std::alloc::Global;
use std::marker::Model;

/// A sink in memory with room for so many bytes, of which one write takes `step` at most, and of which the writes with
/// given numbers fail, counted from 1. A count of 64 bits stands still at its greatest value.
#[derive(Drop)]
pub struct MemSink {
    taken: Vec<u8>,
    room: usize,
    step: usize,
    fails: Vec<u64>,
    writes: u64,
    faults: u64,
}

impl Model for MemSink {
    ghost use Rattle.std.specs.Prelude.{◌≤◌, length, vec_capacity};
    ghost use Rattle.lr_base.specs.MemSink.{SinkState, sink_seen};
    ghost use Rattle.lr_base.specs.Outside.{HasSureRoom};

    ghost Value = { SinkState };

    ghost view = { λ s. record {
      taken = s.taken.items;
      room = s.room;
      step = s.step;
      fails = s.fails.items;
      writes = s.writes;
      faults = s.faults;
    } };

    ghost invariant = { λ s. (length s.taken.items ≤ s.room) × (s.room ≤ vec_capacity s.taken) × (1 ≤ s.step)
        × HasSureRoom (sink_seen (record {
          taken = s.taken.items;
          room = s.room;
          step = s.step;
          fails = s.fails.items;
          writes = s.writes;
          faults = s.faults;
        })) };
}

impl MemSink {
    /// A sink that took nothing; its memory is taken at once, and a write takes none.
    pub fn new(
        alloc: Global,
        room: usize,
        step: usize,
        fails: Vec<u64>,
    ) -> Result<MemSink, NoMemory>
        requires { 1 ≤ step }
        ensures state { IfOk result (λ sink. sink ≡ empty_sink room step fails.items) }
        ensures sure { IfOk result (λ sink. HasSureRoom (sink_seen sink)) }
    {
        Ok(MemSink {
            taken: Vec::with_capacity(alloc, room)?,
            room,
            step,
            fails,
            writes: 0,
            faults: 0,
        })
    }

    /// What was taken so far.
    pub fn bytes(&self) -> &[u8]
        ensures { result.now ≡ self.now.taken }
    {
        &self.taken
    }
}

impl Sink for MemSink {
    ghost seen = { sink_seen };

    /// Fails exactly where this write is to fail, or where the room is full and the piece isn't empty; else takes as
    /// many bytes as the piece has, as one write takes and as there is room for.
    fn write(&mut self, bytes: &[u8]) -> Result<usize, Failed>
        ensures answer { result_ok result ≡ write_count self.old bytes.now }
        ensures state { self.new ≡ after_write self.old bytes.now }

        ensures bound { WritesAtMost result bytes.now }
        ensures writes { Writes (sink_seen self.old) (sink_seen self.new) bytes.now result }
    {
        self.writes = self.writes.saturating_add(1);
        if self.fails.contains(&self.writes)
            || (self.taken.len() == self.room && !bytes.is_empty())
        {
            return Err(fail(&mut self.faults));
        }
        let count = bytes.len().min(self.step).min(self.room - self.taken.len());
        match self.taken.extend_from_slice(&bytes[..count]) {
            Ok(()) => Ok(count),
            // The memory for the whole room was taken when the sink was made.
            Err(_) => unreachable!(),
        }
    }
}
