ghost use Rattle.std.specs.Prelude.{◌≡◌, [], false, is_ok, IsErr};
ghost use Rattle.std.specs.Io.{ReadsAtMost};
ghost use Rattle.lr_base.specs.FileShelf.{files_seen};
ghost use Rattle.lr_base.specs.Outside.{Begins, ReadsOn};

use crate::counts::fail;
use crate::errors::Failed;
use crate::names_begun::NamesBegun;
use crate::shelf::Shelf;
use std::fs;
use std::io::Read;
use std::marker::Model;
use std::rt::Files;

/// The files of the runtime, by their paths. It tells no bytes, and serves no name for sure; contracts see which names
/// were begun, whether a file is being read, and how many calls failed.
#[derive(Drop)]
pub struct FileShelf<'a, R: Files> {
    rt: &'a R,
    begun: NamesBegun,
    file: Option<R::File>,
    faults: u64,
}

impl<'a, R: Files> Model for FileShelf<'a, R> {
    ghost use Rattle.std.specs.Prelude.{is_some};
    ghost use Rattle.lr_base.specs.FileShelf.{FilesState};

    ghost Value = { FilesState };

    ghost view = { λ s. record { begun = s.begun.names; is_reading = is_some s.file; faults = s.faults } };
}

impl<'a, R: Files> FileShelf<'a, R> {
    /// Nothing was begun.
    pub fn new(rt: &'a R) -> FileShelf<'a, R>
        ensures { result ≡ record { begun = []; is_reading = false; faults = 0 } }
    {
        FileShelf {
            rt,
            begun: NamesBegun::new(),
            file: None,
            faults: 0,
        }
    }
}

impl<'a, R: Files> Shelf for FileShelf<'a, R> {
    ghost seen = { files_seen };

    /// Opens the file; it is being read where that didn't fail, and else none is.
    fn begin(&mut self, name: &str) -> Result<(), Failed>
        ensures reading { self.new.is_reading ≡ is_ok result }

        ensures begins { Begins (files_seen self.old) (files_seen self.new) name.now result }
    {
        self.begun = NamesBegun::with(&self.begun, name);
        match fs::open(self.rt, name) {
            Ok(file) => {
                self.file = Some(file);
                Ok(())
            }
            Err(_) => {
                self.file = None;
                Err(fail(&mut self.faults))
            }
        }
    }

    /// Reads on in the file; where none is being read, that is a failed call.
    fn read(&mut self, buffer: &mut [u8]) -> Result<usize, Failed>
        ensures none { self.old.is_reading ≡ false → IsErr result }
        ensures reading { self.new.is_reading ≡ self.old.is_reading }

        ensures bound { ReadsAtMost result buffer.new }
        ensures reads { ReadsOn (files_seen self.old) (files_seen self.new) buffer.new result }
    {
        if let Some(file) = &mut self.file
            && let Ok(count) = file.read(buffer)
        {
            return Ok(count);
        }
        Err(fail(&mut self.faults))
    }
}
