// A file of a command, read whole.
ghost use Rattle.std.specs.Prelude.{IfOk, IfErr};
ghost use Rattle.outside.specs.Files.{WasRead};
ghost use Rattle.command_ends.specs.Outcomes.{stop_why};
ghost use Rattle.command_ends.specs.Ends.{ShelfGoesOn, seen};
ghost use Rattle.command_ends.specs.Stops.{IsStopOfFile};

use crate::stop::{Stop, read_stop};
use outside::{Shelf, read_whole};
use std::alloc::Global;

/// All bytes of the file with this name, at most 268,435,456, or why its reading stopped.
#[inline(never)]
pub fn read_file<'a, F: Shelf>(
    alloc: Global,
    name: &'a str,
    shelf: &mut F,
) -> Result<Vec<u8>, Stop<'a>>
    ensures read { IfOk result (λ bytes. WasRead (F.told shelf.old) name.now bytes.items) }
    ensures stop { IfErr result (λ stop. IsStopOfFile
        (seen F.told F.absent F.faults shelf.old) (seen F.told F.absent F.faults shelf.new)
        name.now (stop_why stop)) }
    ensures goes_on { ShelfGoesOn
        (seen F.told F.absent F.faults shelf.old) (seen F.told F.absent F.faults shelf.new) }
{
    match read_whole(alloc, shelf, name) {
        Ok(bytes) => Ok(bytes),
        Err(stop) => Err(read_stop(stop, name)),
    }
}
