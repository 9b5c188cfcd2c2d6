ghost use Rattle.std.specs.Prelude.{◌≡◌, [], length, min};
ghost use Rattle.std.specs.Io.{ReadsAtMost};
ghost use Rattle.lr_base.specs.Files.{named_bytes};
ghost use Rattle.lr_base.specs.Outside.{Begins, ReadsOn};
ghost use Rattle.lr_base.specs.SteadyShelf.{steady_seen, with_begun, with_read};

use crate::errors::Failed;
use crate::files::{Mark, find_file, read_from};
use crate::names_begun::NamesBegun;
use crate::shelf::Shelf;
use std::marker::Model;

/// A shelf of files in memory that never fails: under a name that no file has stand no bytes, and where nothing
/// is being read none are left. Of several files with one name the first stands under it.
#[derive(Drop)]
pub struct SteadyShelf {
    files: Vec<(String, Vec<u8>)>,
    begun: NamesBegun,
    reading: Option<Mark>,
}

impl Model for SteadyShelf {
    ghost use Rattle.std.specs.Prelude.{[], IfSome, unwrap_or};
    ghost use Rattle.std.specs.Option.{option_and_then};
    ghost use Rattle.lr_base.specs.Files.{named_bytes};
    ghost use Rattle.lr_base.specs.Marks.{bytes_from, IsMarkIn};
    ghost use Rattle.lr_base.specs.SteadyShelf.{SteadyState};

    ghost Value = { SteadyState };

    ghost view = { λ s. record {
      files = named_bytes s.files.items;
      begun = s.begun.names;
      left = unwrap_or (option_and_then (bytes_from (named_bytes s.files.items)) s.reading) [];
    } };

    ghost invariant = { λ s. IfSome s.reading (IsMarkIn (named_bytes s.files.items)) };
}

impl SteadyShelf {
    /// A shelf of these files, each with its name; nothing was begun.
    pub fn new(files: Vec<(String, Vec<u8>)>) -> SteadyShelf
        ensures { result ≡ record { files = named_bytes files.items; begun = []; left = [] } }
    {
        SteadyShelf {
            files,
            begun: NamesBegun::new(),
            reading: None,
        }
    }
}

impl Shelf for SteadyShelf {
    ghost seen = { steady_seen };

    /// Begins what stands under the name.
    fn begin(&mut self, name: &str) -> Result<(), Failed>
        ensures answer { result ≡ Ok tt }
        ensures state { self.new ≡ with_begun self.old name.now }

        ensures begins { Begins (steady_seen self.old) (steady_seen self.new) name.now result }
    {
        self.begun = NamesBegun::with(&self.begun, name);
        self.reading = find_file(&self.files, name);
        Ok(())
    }

    /// Gives as many bytes as are left and as the buffer has room for.
    fn read(&mut self, buffer: &mut [u8]) -> Result<usize, Failed>
        ensures answer { result ≡ Ok (min (length self.old.left) (length buffer.old)) }
        ensures state { self.new ≡ with_read self.old (length buffer.old) }

        ensures bound { ReadsAtMost result buffer.new }
        ensures reads { ReadsOn (steady_seen self.old) (steady_seen self.new) buffer.new result }
    {
        let Some(mark) = self.reading else {
            return Ok(0);
        };
        let count = read_from(&self.files, mark, buffer);
        self.reading = Some(Mark {
            file: mark.file,
            at: mark.at + count,
        });
        Ok(count)
    }
}
