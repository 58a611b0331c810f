// The top call without a runtime.
ghost use Rattle.std.specs.Prelude.{List, map, string_bytes};
ghost use Rattle.command_words.specs.Tasks.{task_of};
ghost use Rattle.command_ends.specs.Completeness.{Completes};
ghost use Rattle.command_ends.specs.Ends.{EndsAs, seen, seen_out, without_waiting};

use crate::commands::do_command;
use command_ends::{Stop, refuse};
use command_words::read_words;
use htss_defs::OutOfMemory;
use outside::{Shelf, Sink};
use std::alloc::Global;

/// Does what the words after the program's name say, unless it may wait as `run` does, and answers the status: 0, or 1
/// where an audited report differs, 2 where they are no such command line, 3 where a script is at fault, 4 where a read
/// failed, 5 where a write failed, 6 where memory ran out, 7 where a file is absent, 8 where it is too large. Of such a
/// command, on a shelf that tells what files it has: where the files that it comes to read are there and within the
/// limit, a script is in the grammar, and no count of faults rises, the status is 0, or 1 of an audit, or memory ran
/// out.
pub fn htss_tool<F: Shelf, K: Sink>(
    alloc: Global,
    words: &[String],
    shelf: &mut F,
    out: &mut K,
) -> u8
    ensures ends { EndsAs (without_waiting (task_of (map string_bytes words.now)))
        (seen F.told F.absent F.faults shelf.old) (seen F.told F.absent F.faults shelf.new)
        (seen_out K.written K.faults out.old) (seen_out K.written K.faults out.new) result }
    ensures completes { Completes (without_waiting (task_of (map string_bytes words.now)))
        (seen F.told F.absent F.faults shelf.old) (seen F.told F.absent F.faults shelf.new)
        (seen_out K.written K.faults out.old) (seen_out K.written K.faults out.new) result }
{
    match read_words(alloc, words) {
        Err(OutOfMemory) => refuse(out, Stop::Memory),
        Ok(None) => refuse(out, Stop::Usage),
        Ok(Some(command)) => do_command(alloc, command, shelf, out),
    }
}
