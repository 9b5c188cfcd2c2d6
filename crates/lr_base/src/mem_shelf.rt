ghost use Rattle.std.specs.Prelude.{◌≡◌, length, min, is_ok, is_some};
ghost use Rattle.std.specs.Io.{ReadsAtMost};
ghost use Rattle.std.specs.Option.{option_map};
ghost use Rattle.std.specs.Result.{result_ok};
ghost use Rattle.lr_base.specs.Files.{named_bytes};
ghost use Rattle.lr_base.specs.MemShelf.{after_begin, after_read, first_state, found, readable, shelf_seen};
ghost use Rattle.lr_base.specs.Outside.{Begins, ReadsOn};

use crate::counts::fail;
use crate::errors::Failed;
use crate::files::{Mark, find_file, read_from};
use crate::names_begun::NamesBegun;
use crate::shelf::Shelf;
use std::marker::Model;

/// A shelf of files in memory, of which the calls with given numbers fail. `begin` and `read` are counted together
/// from 1. Of several files with one name the first stands under it. A count of 64 bits stands still at its greatest
/// value.
#[derive(Drop)]
pub struct MemShelf {
    files: Vec<(String, Vec<u8>)>,
    fails: Vec<u64>,
    calls: u64,
    begun: NamesBegun,
    reading: Option<Mark>,
    faults: u64,
}

impl Model for MemShelf {
    ghost use Rattle.std.specs.Prelude.{IfSome};
    ghost use Rattle.std.specs.Option.{option_and_then};
    ghost use Rattle.lr_base.specs.Files.{named_bytes};
    ghost use Rattle.lr_base.specs.MemShelf.{ShelfState};
    ghost use Rattle.lr_base.specs.Marks.{bytes_from, IsMarkIn};

    ghost Value = { ShelfState };

    ghost view = { λ s. record {
      files = named_bytes s.files.items;
      fails = s.fails.items;
      calls = s.calls;
      begun = s.begun.names;
      reading = option_and_then (bytes_from (named_bytes s.files.items)) s.reading;
      faults = s.faults;
    } };

    ghost invariant = { λ s. IfSome s.reading (IsMarkIn (named_bytes s.files.items)) };
}

impl MemShelf {
    /// A shelf of these files, each with its name; nothing was begun, and no call was made.
    pub fn new(files: Vec<(String, Vec<u8>)>, fails: Vec<u64>) -> MemShelf
        ensures { result ≡ first_state (named_bytes files.items) fails.items }
    {
        MemShelf {
            files,
            fails,
            calls: 0,
            begun: NamesBegun::new(),
            reading: None,
            faults: 0,
        }
    }
}

impl Shelf for MemShelf {
    ghost seen = { shelf_seen };

    /// Fails exactly where this call is to fail or no file has the name; then nothing is left to be read.
    fn begin(&mut self, name: &str) -> Result<(), Failed>
        ensures answer { is_ok result ≡ is_some (found self.old name.now) }
        ensures state { self.new ≡ after_begin self.old name.now }

        ensures begins { Begins (shelf_seen self.old) (shelf_seen self.new) name.now result }
    {
        self.begun = NamesBegun::with(&self.begun, name);
        self.calls = self.calls.saturating_add(1);
        self.reading = None;
        if self.fails.contains(&self.calls) {
            return Err(fail(&mut self.faults));
        }
        self.reading = find_file(&self.files, name);
        if self.reading.is_none() {
            return Err(fail(&mut self.faults));
        }
        Ok(())
    }

    /// Fails exactly where this call is to fail or nothing is being read; else gives as many bytes as are left and as
    /// the buffer has room for.
    fn read(&mut self, buffer: &mut [u8]) -> Result<usize, Failed>
        ensures answer { result_ok result
            ≡ option_map (λ left. min (length left) (length buffer.old)) (readable self.old) }
        ensures state { self.new ≡ after_read self.old (length buffer.old) }

        ensures bound { ReadsAtMost result buffer.new }
        ensures reads { ReadsOn (shelf_seen self.old) (shelf_seen self.new) buffer.new result }
    {
        self.calls = self.calls.saturating_add(1);
        if self.fails.contains(&self.calls) {
            return Err(fail(&mut self.faults));
        }
        let Some(mark) = self.reading else {
            return Err(fail(&mut self.faults));
        };
        let count = read_from(&self.files, mark, buffer);
        self.reading = Some(Mark {
            file: mark.file,
            at: mark.at + count,
        });
        Ok(count)
    }
}
