// Real files, read by their paths.
ghost use Rattle.std.specs.Prelude.{◌≡◌, None};
ghost use Rattle.std.specs.Io.{ReadsAtMost};
ghost use Rattle.outside.specs.Causes.{ReadCauses};
ghost use Rattle.outside.specs.Counts.{absent_after, faults_after};
ghost use Rattle.outside.specs.Files.{GivesOfFile};

use crate::{Shelf, ShelfError};
use std::alloc::Global;
use std::io::{ErrorKind, Read, Seek, SeekFrom};
use std::rt::Files;
use std::{fs, io};

// An open file: the bytes before the position were read or passed over.
// It has no name where there was no memory to keep one.
#[derive(Drop)]
struct OpenedFile<T> {
    name: Option<String>,
    file: T,
    position: u64,
}

/// The real files, by path. It keeps the file that it read last open, so that a file that is read
/// in pieces is opened once. It tells nothing of what the files hold.
#[derive(Drop)]
pub struct DirShelf<'a, R: Files> {
    files: &'a R,
    alloc: Global,
    opened: Option<OpenedFile<R::File>>,
    absent: u64,
    faults: u64,
}

impl<'a, R: Files> DirShelf<'a, R> {
    /// The files of this runtime. The allocator serves the name of the open file alone.
    pub fn new(alloc: Global, files: &'a R) -> DirShelf<'a, R>
        ensures absent { result.absent ≡ 0 }
        ensures faults { result.faults ≡ 0 }
    {
        DirShelf {
            files,
            alloc,
            opened: None,
            absent: 0,
            faults: 0,
        }
    }
}

impl<'a, R: Files> Shelf for DirShelf<'a, R> {
    ghost told = { λ _. None };

    ghost absent = { λ s. s.absent };

    ghost faults = { λ s. s.faults };

    fn read_at(&mut self, name: &str, offset: u64, into: &mut [u8]) -> Result<usize, ShelfError>
        ensures bound { ReadsAtMost result into.new }
        ensures bytes { GivesOfFile None name.now offset into.new result }
        ensures cause { ReadCauses None name.now self.old.absent self.new.absent
            self.old.faults self.new.faults result }
        ensures absent { self.new.absent ≡ absent_after result self.old.absent }
        ensures faults { self.new.faults ≡ faults_after result self.old.faults }
    {
        let error = match read_named(self.files, self.alloc, &mut self.opened, name, offset, into) {
            Ok(count) => return Ok(count),
            Err(error) => error,
        };
        if error.kind() == ErrorKind::NotFound {
            self.absent = self.absent.saturating_add(1);
            return Err(ShelfError::Absent);
        }
        self.faults = self.faults.saturating_add(1);
        Err(ShelfError::Failed)
    }
}

// Reads the file of this name from the offset on, and keeps it open unless that failed.
fn read_named<R: Files>(
    files: &R,
    alloc: Global,
    kept: &mut Option<OpenedFile<R::File>>,
    name: &str,
    offset: u64,
    into: &mut [u8],
) -> io::Result<usize>
    ensures { ReadsAtMost result into.new }
{
    let mut opened = match kept.take() {
        Some(opened) if is_named(&opened.name, name) => opened,
        _ => OpenedFile {
            name: String::from_str(alloc, name).ok(),
            file: fs::open(files, name)?,
            position: 0,
        },
    };
    let count = read_from(&mut opened.file, &mut opened.position, offset, into)?;
    *kept = Some(opened);
    Ok(count)
}

fn is_named(kept: &Option<String>, name: &str) -> bool {
    match kept {
        Some(kept) => kept.as_str() == name,
        None => false,
    }
}

// Reads from the offset on; the file stands at the position, and moves only where that is another.
fn read_from<T: Read + Seek>(
    file: &mut T,
    position: &mut u64,
    offset: u64,
    into: &mut [u8],
) -> io::Result<usize>
    ensures { ReadsAtMost result into.new }
{
    if *position != offset {
        file.seek(SeekFrom::Start(offset))?;
        *position = offset;
    }
    let count = file.read(into)?;
    *position = position.saturating_add(count as u64);
    Ok(count)
}
