// The exit status of the process.
ghost use Rattle.std.specs.Prelude.{◌≡◌, map, string_bytes, IfOk, IfErr};
ghost use Rattle.std.specs.Process.{exit_status};
ghost use Rattle.command_words.specs.Tasks.{task_of};
ghost use Rattle.command_ends.specs.Completeness.{Completes};
ghost use Rattle.command_ends.specs.Ends.{Ends, seen, seen_out};
ghost use Rattle.htss_top.specs.Exit.{AreUnread};

use crate::top::htss;
use command_ends::{Stop, refuse};
use outside::{Shelf, Sink};
use std::alloc::Global;
use std::io;
use std::io::ErrorKind;
use std::process::ExitCode;
use std::sync::Wait;
use std::thread::Threads;

/// Does what the words after the program's name say (`htss`), and answers an exit status of which the same holds. Words
/// that could not be read, as they are not UTF-8, are no command line, unless memory ran out.
pub fn exit<R: Threads + Wait + Sync, F: Shelf, K: Sink>(
    rt: &R,
    alloc: Global,
    words: io::Result<Vec<String>>,
    shelf: &mut F,
    out: &mut K,
) -> ExitCode
    ensures ends { IfOk words (λ words. Ends (map string_bytes words.items)
        (seen F.told F.absent F.faults shelf.old) (seen F.told F.absent F.faults shelf.new)
        (seen_out K.written K.faults out.old) (seen_out K.written K.faults out.new) (exit_status result)) }
    ensures completes { IfOk words (λ words. Completes (task_of (map string_bytes words.items))
        (seen F.told F.absent F.faults shelf.old) (seen F.told F.absent F.faults shelf.new)
        (seen_out K.written K.faults out.old) (seen_out K.written K.faults out.new) (exit_status result)) }
    ensures unread { IfErr words (λ _. AreUnread (seen_out K.written K.faults out.old)
        (seen_out K.written K.faults out.new) (exit_status result)) }
    ensures untouched { IfErr words (λ _. shelf.new ≡ shelf.old) }
{
    let status = match words {
        Ok(words) => htss(rt, alloc, &words, shelf, out).status,
        Err(error) if error.kind() == ErrorKind::OutOfMemory => refuse(out, Stop::Memory),
        Err(_) => refuse(out, Stop::Usage),
    };
    ExitCode::from(status)
}
