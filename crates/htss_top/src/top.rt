// The top call: all that the program does.
ghost use Rattle.std.specs.Prelude.{List, map, string_bytes, IfSome};
ghost use Rattle.command_words.specs.Tasks.{task_of};
ghost use Rattle.command_ends.specs.Completeness.{Completes};
ghost use Rattle.command_ends.specs.Ends.{Ends, seen, seen_out};
ghost use Rattle.run_command.specs.Headline.{HasLast};
ghost use Rattle.run_command.specs.Searchers.{HaveSearched};

use command_ends::{Stop, refuse};
use command_words::{Command, read_words};
use htss_defs::OutOfMemory;
use outside::{Shelf, Sink};
use run_command::{Ended, run};
use std::alloc::Global;
use std::sync::Wait;
use std::thread::Threads;
use tool_commands::do_command;

/// Does what the words after the program's name say, and answers the status: 0, or 1 where an audited report differs, 2
/// where they are no command line, 3 where a script is at fault, 4 where a read failed, 5 where a write failed, 6 where
/// memory ran out, 7 where a file is absent, 8 where it is too large. At status 0 of `run`, whose callers work in
/// threads of the runtime, it also answers the board that was closed: what its searchers have read for each search are
/// records that the search screened, and all of them where it has hits. Of a command, on a shelf that tells what files
/// it has: where the files that it comes to read are there and within the limit, a script is in the grammar, and no
/// count of faults rises, the status is 0, or 1 of an audit, or memory ran out.
pub fn htss<R: Threads + Wait + Sync, F: Shelf, K: Sink>(
    rt: &R,
    alloc: Global,
    words: &[String],
    shelf: &mut F,
    out: &mut K,
) -> Ended
    ensures ends { Ends (map string_bytes words.now)
        (seen F.told F.absent F.faults shelf.old) (seen F.told F.absent F.faults shelf.new)
        (seen_out K.written K.faults out.old) (seen_out K.written K.faults out.new) result.status }
    ensures completes { Completes (task_of (map string_bytes words.now))
        (seen F.told F.absent F.faults shelf.old) (seen F.told F.absent F.faults shelf.new)
        (seen_out K.written K.faults out.old) (seen_out K.written K.faults out.new) result.status }
    ensures last { HasLast (task_of (map string_bytes words.now)) (seen F.told F.absent F.faults shelf.old)
        (seen_out K.written K.faults out.old) (seen_out K.written K.faults out.new) result.status result.last }
    ensures read { IfSome result.last (λ last. HaveSearched last.shape last) }
{
    let status = match read_words(alloc, words) {
        Err(OutOfMemory) => refuse(out, Stop::Memory),
        Ok(None) => refuse(out, Stop::Usage),
        Ok(
            Some(
                Command::Run {
                    script,
                    shape,
                    budget,
                },
            ),
        ) => return run(rt, alloc, script, shape, budget, shelf, out),
        Ok(Some(command)) => do_command(alloc, command, shelf, out),
    };
    Ended { status, last: None }
}
