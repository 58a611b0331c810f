// The files of a script's jobs.
ghost use Rattle.std.specs.Prelude.{◌≡◌, ℕ, ◌==◌, ◌≤◌, [], Some, IsSome, OnOk, OnErr, if◌then◌else◌, length};
ghost use Rattle.outside.specs.Files.{file_limit};
ghost use Rattle.script_text.specs.FilesByLine.{bytes_at};

use htss_defs::{Bytes, OutOfMemory};
use std::alloc::Global;
use std::collections::BTreeMap;
use std::marker::Model;

/// The bytes of files, by the line of the job that names each. Contracts see the pairs of a line and its bytes.
#[derive(Debug, Drop)]
pub struct Files {
    files: BTreeMap<u32, Bytes>,
}

impl Model for Files {
    ghost use Rattle.std.specs.Prelude.{ℕ, ◌≤◌, List, All, length};
    ghost use Rattle.std.specs.Map.{values_of};
    ghost use Rattle.outside.specs.Files.{file_limit};

    ghost Value = { List (ℕ × List ℕ) };

    ghost view = { λ f. f.files.entries };

    ghost invariant = { λ f. All (λ bytes. length bytes ≤ file_limit) (values_of f.files.entries) };
}

impl Files {
    /// No files. It takes no memory.
    pub fn new(alloc: Global) -> Files
        ensures { result ≡ [] }
    {
        Files {
            files: BTreeMap::new(alloc),
        }
    }

    /// Puts these bytes, at most 268,435,456, in place of what the line had. An `Err` leaves all as it was.
    pub fn put(&mut self, line: u32, bytes: Vec<u8>) -> Result<(), OutOfMemory>
        requires { length bytes.items ≤ file_limit }
        ensures ok { OnOk result ((asked : ℕ) → bytes_at self.new asked
            ≡ (if asked == line then Some bytes.items else bytes_at self.old asked)) }
        ensures err { OnErr result (self.new ≡ self.old) }
    {
        self.files.insert(line, Bytes::new(bytes))?;
        Ok(())
    }

    /// The bytes of the line, which were put before.
    pub fn at(&self, line: u32) -> &[u8]
        requires { IsSome (bytes_at self.now line) }
        ensures bytes { bytes_at self.now line ≡ Some result.now }
        ensures size { length result.now ≤ file_limit }
    {
        self.files.get(&line).unwrap().as_slice()
    }
}
