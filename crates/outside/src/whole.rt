// A file read whole, and a text written whole.
ghost use Rattle.std.specs.Prelude.{◌≡◌, ℕ, ◌+◌, ◌++◌, ◌<◌, ◌≤◌, List, length, take, IfOk, OnOk, OnErr, IsErrOf};
ghost use Rattle.std.specs.Io.KnownBytes.{append_known};
ghost use Rattle.outside.specs.declared.whole.ReadStop.TheVariants.{OutOfMemory};
ghost use Rattle.outside.specs.Causes.{Rose, IsAbsent};
ghost use Rattle.outside.specs.Files.{HasFront, WasRead, IsLarge, file_limit};
ghost use Rattle.outside.specs.Written.{GrewByFront};

use crate::{Failed, Shelf, ShelfError, Sink};
use std::alloc::{AllocError, Global};

// The most bytes that a file may have.
const FILE_LIMIT: usize = 268435456;

/// How many bytes of a file are asked for at a time.
pub const PIECE_SIZE: usize = 65536;

/// Why a file was not read to its end.
#[derive(Clone, Copy, Debug, PartialEq, Eq)]
pub enum ReadStop {
    /// No file has the name.
    Absent,
    /// A read failed.
    Failed,
    /// The file has more than 268,435,456 bytes.
    TooLarge,
    /// Memory ran out.
    OutOfMemory,
}

impl From<AllocError> for ReadStop {
    ghost from_gives = { λ _ e. e ≡ OutOfMemory };

    fn from(_: AllocError) -> Self {
        ReadStop::OutOfMemory
    }
}

/// The next piece of a file that is read from its front on: how many bytes, 0 at its end.
/// `offset` is how many bytes were read before, of at most 268,435,456 that a file may have.
pub fn read_piece<F: Shelf>(
    shelf: &mut F,
    name: &str,
    offset: usize,
    piece: &mut [u8],
) -> Result<usize, ReadStop>
    requires room { 0 < length piece.old }
    requires within { offset ≤ file_limit }
    ensures bound { IfOk result (λ n. (n ≤ length piece.new) × (offset + n ≤ file_limit)) }

    // Whatever was read before, the piece goes on from there.
    ensures goes_on { IfOk result (λ n. (front : List ℕ) → length front ≡ offset
        → HasFront (F.told shelf.old) name.now front
        → HasFront (F.told shelf.old) name.now (front ++ take n piece.new)) }
    ensures end { IfOk result (λ n. n ≡ 0 → (front : List ℕ) → length front ≡ offset
        → HasFront (F.told shelf.old) name.now front → WasRead (F.told shelf.old) name.now front) }

    // Each stop has its cause.
    ensures absent { IsErrOf result ReadStop.Absent →
        IsAbsent (F.told shelf.old) name.now (F.absent shelf.old) (F.absent shelf.new) }
    ensures failed { IsErrOf result ReadStop.Failed →
        Rose (F.faults shelf.old) (F.faults shelf.new) }
    ensures large { IsErrOf result ReadStop.TooLarge → (front : List ℕ) → length front ≡ offset
        → HasFront (F.told shelf.old) name.now front → IsLarge (F.told shelf.old) name.now }
    ensures memory { IsErrOf result ReadStop.OutOfMemory → ⊥ }

    ensures told { F.told shelf.new ≡ F.told shelf.old }
    ensures absent_later { F.absent shelf.old ≤ F.absent shelf.new }
    ensures faults_later { F.faults shelf.old ≤ F.faults shelf.new }
{
    match shelf.read_at(name, offset as u64, piece) {
        Ok(count) => {
            if count > FILE_LIMIT - offset {
                Err(ReadStop::TooLarge)
            } else {
                Ok(count)
            }
        }
        Err(ShelfError::Absent) => Err(ReadStop::Absent),
        Err(ShelfError::Failed) => Err(ReadStop::Failed),
    }
}

/// All bytes of the file, at most 268,435,456.
pub fn read_whole<F: Shelf>(alloc: Global, shelf: &mut F, name: &str) -> Result<Vec<u8>, ReadStop>
    ensures bytes { IfOk result (λ v. WasRead (F.told shelf.old) name.now v.items) }

    // Each stop has its cause.
    ensures absent { IsErrOf result ReadStop.Absent →
        IsAbsent (F.told shelf.old) name.now (F.absent shelf.old) (F.absent shelf.new) }
    ensures failed { IsErrOf result ReadStop.Failed →
        Rose (F.faults shelf.old) (F.faults shelf.new) }
    ensures large { IsErrOf result ReadStop.TooLarge →
        IsLarge (F.told shelf.old) name.now }

    ensures told { F.told shelf.new ≡ F.told shelf.old }
    ensures absent_later { F.absent shelf.old ≤ F.absent shelf.new }
    ensures faults_later { F.faults shelf.old ≤ F.faults shelf.new }
{
    let mut bytes = Vec::new(alloc);
    let mut piece = [0; PIECE_SIZE];
    loop {
        match read_piece(shelf, name, bytes.len(), &mut piece) {
            Ok(0) => return Ok(bytes),
            Ok(count) => bytes.extend_from_slice(&piece[..count])?,
            Err(stop) => return Err(stop),
        }
    }
}

/// Appends all the bytes. Where a write fails, or takes nothing, some first bytes were appended.
pub fn write_whole<K: Sink>(out: &mut K, bytes: &[u8]) -> Result<(), Failed>
    ensures ok { OnOk result (K.written out.new ≡ append_known (K.written out.old) bytes.now) }
    ensures err { OnErr result (GrewByFront (K.written out.old) (K.written out.new) bytes.now) }
    ensures failed { OnErr result (Rose (K.faults out.old) (K.faults out.new)) }
    ensures later { K.faults out.old ≤ K.faults out.new }
{
    let mut done = 0;
    while done < bytes.len() {
        let count = out.write(&bytes[done..])?;
        if count == 0 {
            return Err(Failed);
        }
        done += count;
    }
    Ok(())
}
