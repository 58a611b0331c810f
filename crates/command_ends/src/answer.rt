// What a command leaves: its text, or what there is of it and why there is no more.
ghost use Rattle.std.specs.Prelude.{◌≡◌, ◌≤◌, ◌++◌, [], IfOk, IfErr};
ghost use Rattle.command_ends.specs.Outcomes.{differs, done, stop_why, stopped};
ghost use Rattle.command_ends.specs.Ends.{IsWritten, seen_out};

use crate::stop::{Stop, status, write_numbered, write_stop};
use outside::{Failed, Sink, write_whole};

/// Writes the answer, and answers its status, or 5 where it could not be written.
pub fn write_answer<K: Sink>(out: &mut K, answer: Result<Vec<u8>, Stop<'_>>) -> u8
    ensures text { IfOk answer.entry (λ text. IsWritten
        (seen_out K.written K.faults out.old) (seen_out K.written K.faults out.new)
        (done text.items) result) }
    ensures stop { IfErr answer.entry (λ stop. IsWritten
        (seen_out K.written K.faults out.old) (seen_out K.written K.faults out.new)
        (stopped [] (stop_why stop)) result) }
    ensures later { K.faults out.old ≤ K.faults out.new }
{
    match answer {
        Ok(text) => write_text(out, &text),
        Err(stop) => write_stopped(out, &[], stop),
    }
}

/// Writes the text of a command, and answers 0, or 5 where it could not be written.
pub fn write_text<K: Sink>(out: &mut K, text: &[u8]) -> u8
    ensures written { IsWritten (seen_out K.written K.faults out.old) (seen_out K.written K.faults out.new)
        (done text.now) result }
    ensures later { K.faults out.old ≤ K.faults out.new }
{
    match write_whole(out, text) {
        Ok(()) => 0,
        Err(Failed) => 5,
    }
}

/// Writes that a report differs at this line, and answers 1, or 5 where that could not be written. It takes no memory.
pub fn write_difference<K: Sink>(out: &mut K, at: u64) -> u8
    ensures written { IsWritten (seen_out K.written K.faults out.old) (seen_out K.written K.faults out.new)
        (differs at) result }
    ensures later { K.faults out.old ≤ K.faults out.new }
{
    match write_numbered(out, b"differs ", at) {
        Ok(()) => 1,
        Err(Failed) => 5,
    }
}

/// Writes what there is of the text, and why there is no more, and answers the status of that, or 5 where it could not
/// be written.
pub fn write_stopped<K: Sink>(out: &mut K, front: &[u8], stop: Stop<'_>) -> u8
    ensures written { IsWritten (seen_out K.written K.faults out.old) (seen_out K.written K.faults out.new)
        (stopped front.now (stop_why stop.entry)) result }
    ensures later { K.faults out.old ≤ K.faults out.new }
{
    let status = status(stop);
    match write_whole(out, front) {
        Ok(()) => {}
        Err(Failed) => return 5,
    }
    match write_stop(out, stop) {
        Ok(()) => status,
        Err(Failed) => 5,
    }
}

/// Says why nothing was done, and answers the status of that, or 5 where it could not be written.
pub fn refuse<K: Sink>(out: &mut K, stop: Stop<'_>) -> u8
    ensures written { IsWritten (seen_out K.written K.faults out.old) (seen_out K.written K.faults out.new)
        (stopped [] (stop_why stop.entry)) result }
    ensures later { K.faults out.old ≤ K.faults out.new }
{
    write_stopped(out, &[], stop)
}
