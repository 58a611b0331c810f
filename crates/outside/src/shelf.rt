ghost use Rattle.std.specs.Prelude.{◌≡◌, ℕ, List, Option};
ghost use Rattle.std.specs.Io.{ReadsAtMost};
ghost use Rattle.outside.specs.Files.{File, GivesOfFile};
ghost use Rattle.outside.specs.Causes.{ReadCauses};

/// Why a read gave no bytes.
#[derive(Clone, Copy, Debug, PartialEq, Eq)]
pub enum ShelfError {
    /// No file has the name.
    Absent,
    /// The file could not be read.
    Failed,
}

/// Files by name.
pub trait Shelf {
    /// The files, where the shelf tells them. No call changes them.
    ghost told: { Self → Option (List File) };

    /// How often a name was not there, up to 2^64 - 1.
    ghost absent: { Self → ℕ };

    /// How often a read failed, up to 2^64 - 1.
    ghost faults: { Self → ℕ };

    /// Reads bytes of the file from the offset on into the front of `into`, and answers how many.
    /// None come only where `into` is empty, or the offset is at the end of the file or past it.
    fn read_at(&mut self, name: &str, offset: u64, into: &mut [u8]) -> Result<usize, ShelfError>
        ensures bound { ReadsAtMost result into.new }
        ensures told { told self.new ≡ told self.old }
        ensures bytes { GivesOfFile (told self.old) name.now offset into.new result }
        ensures cause { ReadCauses (told self.old) name.now (absent self.old) (absent self.new)
            (faults self.old) (faults self.new) result };
}
