// `run`: the jobs of a script, and the report of them.
ghost use Rattle.std.specs.Prelude.{◌≡◌, ◌≢◌, ℕ, List, [], None, Some, All, IfOk, IfErr, IfSome};
ghost use Rattle.htss_defs.specs.Shapes.{IsShape};
ghost use Rattle.script_text.specs.declared.script.Group.{Group};
ghost use Rattle.command_words.specs.Tasks.{run_of};
ghost use Rattle.command_ends.specs.Outcomes.{stop_why};
ghost use Rattle.command_ends.specs.RunText.{ScriptWasRead};
ghost use Rattle.run_command.specs.Headline.{IsLastOf, IsRunOf};
ghost use Rattle.run_command.specs.Searchers.{HaveSearched};
ghost use Rattle.command_ends.specs.Ends.{EndsAs, MayStop, ShelfGoesOn, seen, seen_out};
ghost use Rattle.run_command.specs.Runs.{AreRising, RunMayStop};

use crate::ended::Ended;
use crate::groups::run_groups;
use crate::seats::{close, open};
use crate::texts::append_history;
use board::Final;
use command_ends::{Stop, write_stopped, write_text};
use htss_defs::{OutOfMemory, Shape};
use outside::{Shelf, Sink};
use script_files::script_of;
use script_text::Group;
use std::alloc::Global;
use std::sync::Wait;
use std::thread::Threads;

/// Runs the script of this name on a board of this shape, with its callers in threads, and answers the status: 0, 3
/// where it is no script, 4 where a read failed, 5 where a write failed, 6 where memory ran out, 7 where a file is
/// absent, 8 where it is too large. A search without a budget of its own has this one. At status 0 the board that was
/// closed is answered too.
pub fn run<R: Threads + Wait + Sync, F: Shelf, K: Sink>(
    rt: &R,
    alloc: Global,
    script: &str,
    shape: Shape,
    budget: u64,
    shelf: &mut F,
    out: &mut K,
) -> Ended
    requires { IsShape shape }
    ensures ends { EndsAs (Some (run_of script.now shape budget))
        (seen F.told F.absent F.faults shelf.old) (seen F.told F.absent F.faults shelf.new)
        (seen_out K.written K.faults out.old) (seen_out K.written K.faults out.new) result.status }
    ensures last { IsLastOf (F.told shelf.old) script.now shape budget
        (seen_out K.written K.faults out.old) (seen_out K.written K.faults out.new) result.status result.last }
    ensures read { IfSome result.last (λ last. HaveSearched shape last) }
{
    let script = match script_of(alloc, script, shelf) {
        Ok(script) => script,
        Err(stop) => return without_board(write_stopped(out, &[], stop)),
    };
    let mut text = Vec::new(alloc);
    match run_script(
        rt,
        alloc,
        script.groups.as_slice(),
        shape,
        budget,
        shelf,
        &mut text,
    ) {
        Ok(last) => with_board(write_text(out, &text), last),
        Err(stop) => without_board(write_stopped(out, &text, stop)),
    }
}

// Ended with this status, and no board.
fn without_board(status: u8) -> Ended
    ensures status { result.status ≡ status }
    ensures last { result.last ≡ None }
{
    Ended { status, last: None }
}

// Ended with this status, and with the board where the status is 0.
fn with_board(status: u8, last: Final) -> Ended
    ensures status { result.status ≡ status }
    ensures ended { status ≡ 0 → result.last ≡ Some last }
    ensures failed { status ≢ 0 → result.last ≡ None }
{
    match status {
        0 => Ended {
            status,
            last: Some(last),
        },
        _ => without_board(status),
    }
}

// Runs the groups on a new board and appends the report of them; after a stop the text is what there is of it.
#[inline(never)]
fn run_script<'a, R: Threads + Wait + Sync, F: Shelf>(
    rt: &R,
    alloc: Global,
    groups: &'a [Group],
    shape: Shape,
    budget: u64,
    shelf: &mut F,
    text: &mut Vec<u8>,
) -> Result<Final, Stop<'a>>
    requires shape { IsShape shape }
    requires rising { All (λ group. AreRising group.jobs) groups.now }
    requires empty { text.old.items ≡ [] }
    ensures text { IfOk result (λ last. (script : List ℕ) → ScriptWasRead (F.told shelf.old) script groups.now
        → IsRunOf (F.told shelf.old) script shape budget text.new.items last) }
    ensures read { IfOk result (λ last. (script : List ℕ) → ScriptWasRead (F.told shelf.old) script groups.now
        → HaveSearched shape last) }
    ensures stop { IfErr result (λ stop. RunMayStop (F.told shelf.old) groups.now shape budget
        (seen F.told F.absent F.faults shelf.old) (seen F.told F.absent F.faults shelf.new)
        text.new.items (stop_why stop)) }
    ensures goes_on { ShelfGoesOn
        (seen F.told F.absent F.faults shelf.old) (seen F.told F.absent F.faults shelf.new) }
{
    let (board, mut workers, seats) = match open(alloc, shape) {
        Ok(opened) => opened,
        Err(OutOfMemory) => return Err(Stop::Memory),
    };
    let outcome = run_groups(
        rt,
        alloc,
        &board,
        workers.as_mut_slice(),
        groups,
        budget,
        shelf,
        text,
    );
    let last = close(board, workers, seats);
    match outcome {
        Ok(()) => {}
        Err(stop) => return Err(stop),
    }
    match append_history(alloc, text, &last) {
        Ok(()) => Ok(last),
        Err(OutOfMemory) => Err(Stop::Memory),
    }
}
