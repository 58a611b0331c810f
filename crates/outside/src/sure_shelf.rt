ghost use Rattle.std.specs.Prelude.{◌≡◌, Some, length};
ghost use Rattle.std.specs.Io.{ReadsAtMost};
ghost use Rattle.outside.specs.Files.{bytes_of, GivesOfFile};
ghost use Rattle.outside.specs.Causes.{ReadCauses};
ghost use Rattle.outside.specs.Memory.{count_or_absent, files_of, HaveOwnNames};

use crate::{NamedBytes, Shelf, ShelfError, reads};
use std::marker::Model;

/// A shelf of files in memory whose reads never fail. Contracts see its files.
#[derive(Debug, Drop)]
pub struct SureShelf {
    files: Vec<NamedBytes>,
}

impl Model for SureShelf {
    ghost use Rattle.std.specs.Prelude.{List};
    ghost use Rattle.outside.specs.Files.{File};
    ghost use Rattle.outside.specs.Memory.{files_of};

    ghost Value = { List File };

    ghost view = { λ s. files_of s.files.items };
}

impl SureShelf {
    /// A shelf of these files, no two of one name.
    pub fn new(files: Vec<NamedBytes>) -> SureShelf
        requires { HaveOwnNames files.items }
        ensures { result ≡ files_of files.items }
    {
        SureShelf { files }
    }
}

impl Shelf for SureShelf {
    ghost told = { λ s. Some s };

    ghost absent = { λ _. 0 };

    ghost faults = { λ _. 0 };

    fn read_at(&mut self, name: &str, offset: u64, into: &mut [u8]) -> Result<usize, ShelfError>
        ensures bound { ReadsAtMost result into.new }
        ensures told { Some self.new ≡ Some self.old }
        ensures bytes { GivesOfFile (Some self.old) name.now offset into.new result }
        ensures cause { ReadCauses (Some self.old) name.now 0 0 0 0 result }
        ensures exact { result ≡ count_or_absent (bytes_of self.old name.now) offset
            (length into.new) }
    {
        match reads::find(&self.files, name) {
            None => Err(ShelfError::Absent),
            Some(bytes) => Ok(reads::copy_from(bytes, offset, into)),
        }
    }
}
