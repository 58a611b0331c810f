ghost use Rattle.std.specs.Prelude.{◌≡◌, ◌-◌, ◌^◌, min, Some};
ghost use Rattle.std.specs.Io.{ReadsAtMost};
ghost use Rattle.outside.specs.Files.{GivesOfFile};
ghost use Rattle.outside.specs.Causes.{ReadCauses};
ghost use Rattle.outside.specs.Memory.{files_of, HaveOwnNames, ReadsFrom};

use crate::{NamedBytes, Shelf, ShelfError, reads};
use std::marker::Model;

/// A shelf of files in memory. Its reads fail at the listed calls, and nowhere else.
#[derive(Debug, Drop)]
pub struct MemShelf {
    files: Vec<NamedBytes>,
    failing: Vec<u64>,
    calls: u64,
    absent: u64,
    faults: u64,
}

impl Model for MemShelf {
    ghost use Rattle.outside.specs.Memory.{ShelfState, files_of};

    ghost Value = { ShelfState };

    ghost view = { λ s. record {
      files = files_of s.files.items;
      failing = s.failing.items;
      calls = s.calls;
      absent = s.absent;
      faults = s.faults;
    } };
}

impl MemShelf {
    /// A shelf of these files, no two of one name, that was not yet called.
    /// `failing` lists the calls that fail, the first call being 1.
    pub fn new(files: Vec<NamedBytes>, failing: Vec<u64>) -> MemShelf
        requires { HaveOwnNames files.items }
        ensures { result ≡ record {
          files = files_of files.items;
          failing = failing.items;
          calls = 0;
          absent = 0;
          faults = 0;
        } }
    {
        MemShelf {
            files,
            failing,
            calls: 0,
            absent: 0,
            faults: 0,
        }
    }
}

impl Shelf for MemShelf {
    ghost told = { λ s. Some s.files };

    ghost absent = { λ s. s.absent };

    ghost faults = { λ s. s.faults };

    fn read_at(&mut self, name: &str, offset: u64, into: &mut [u8]) -> Result<usize, ShelfError>
        ensures bound { ReadsAtMost result into.new }
        ensures told { Some self.new.files ≡ Some self.old.files }
        ensures bytes { GivesOfFile (Some self.old.files) name.now offset into.new result }
        ensures cause { ReadCauses (Some self.old.files) name.now self.old.absent self.new.absent
            self.old.faults self.new.faults result }
        ensures exact { ReadsFrom self.old self.new name.now offset into.new result }
    {
        self.calls = self.calls.saturating_add(1);
        if self.failing.contains(&self.calls) {
            self.faults = self.faults.saturating_add(1);
            return Err(ShelfError::Failed);
        }
        match reads::find(&self.files, name) {
            None => {
                self.absent = self.absent.saturating_add(1);
                Err(ShelfError::Absent)
            }
            Some(bytes) => Ok(reads::copy_from(bytes, offset, into)),
        }
    }
}
