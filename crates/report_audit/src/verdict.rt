// What an audit finds.

/// A report is one of its own log, with so many events, for a script with so many searches; or this line, from 1 on, is
/// the first at fault.
#[derive(Clone, Copy, Debug, PartialEq, Eq)]
pub enum Verdict {
    Holds { events: u32, searches: u32 },
    Differs { line: u64 },
}
