// The history that a report tells, as the code has it.
use crate::names::Namer;
use report_text::LogLine;

/// The lines of a log; for each the number of the event that withdraws its record, 0 where none does; and which line
/// names it first.
#[derive(Clone, Copy)]
pub struct Told<'a> {
    pub lines: &'a [LogLine],
    pub withdrawals: &'a [u32],
    pub table: &'a [Namer<'a>],
}
