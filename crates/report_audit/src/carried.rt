// What lines carry.
ghost use Rattle.std.specs.Prelude.{◌≡◌, ℕ};
ghost use Rattle.htss_defs.specs.declared.record.NamedMol.{NamedMol};
ghost use Rattle.report_rules.specs.Answers.{taken, to_withdrawal};
ghost use Rattle.report_rules.specs.Dealing.{Dealt};
ghost use Rattle.report_rules.specs.Faults.{answer_line, line_by};
ghost use Rattle.report_rules.specs.Rules.{block_words};
ghost use Rattle.report_audit.specs.LineChecks.{answer_to, fate_of};
ghost use Rattle.report_audit.specs.Tallied.{IsCarried};

use crate::records_kept::words_of;
use crate::tally::Carried;
use report_text::{LoadLine, WithdrawLine};
use told_history::RecordRead;

/// What a line carries that has no number, front or words.
pub fn nothing_carried() -> Carried
    ensures { result ≡ record { mark = 0; front = 0; own = 0; words = 0 } }
{
    Carried {
        mark: 0,
        front: 0,
        own: 0,
        words: 0,
    }
}

/// What the line of a record carries.
pub fn carried_by_record(read: &RecordRead, line: &LoadLine) -> Carried
    ensures { (one : Dealt) → IsCarried (answer_line one (answer_to read.now line.now)) result }
{
    match read {
        RecordRead::Refused { .. } => nothing_carried(),
        RecordRead::Accepted { name, mol } => carried_by_line(line, u64::from(words_of(name, mol))),
    }
}

// What the line of an accepted record with a block of so many words carries.
fn carried_by_line(line: &LoadLine, words: u64) -> Carried
    ensures { (one : Dealt) (of : NamedMol) → words ≡ block_words of
        → IsCarried (answer_line one (taken of (fate_of line.now))) result }
{
    match line {
        LoadLine::Published { number, .. } => Carried {
            mark: *number,
            front: 0,
            own: *number,
            words,
        },
        LoadLine::LogFull { front, .. } => Carried {
            mark: *front,
            front: *front,
            own: 0,
            words,
        },
        LoadLine::DataFull { .. } => nothing_carried(),
        LoadLine::NoPage { .. } | LoadLine::ChainFull { .. } | LoadLine::Refused { .. } => Carried {
            mark: 0,
            front: 0,
            own: 0,
            words,
        },
    }
}

/// What the line of a withdrawal carries.
pub fn carried_by_withdrawal(answer: WithdrawLine) -> Carried
    ensures { (one : Dealt) (number : ℕ) → IsCarried (line_by one (to_withdrawal number answer)) result }
{
    match answer {
        WithdrawLine::At { event } => Carried {
            mark: event,
            front: 0,
            own: event,
            words: 0,
        },
        WithdrawLine::Gone { at } => Carried {
            mark: at,
            front: 0,
            own: 0,
            words: 0,
        },
        WithdrawLine::Unknown { front } | WithdrawLine::LogFull { front } => carried_by_front(
            front,
        ),
    }
}

/// What a line carries that has a front and no number.
pub fn carried_by_front(front: u32) -> Carried
    ensures { result ≡ record { mark = front; front = front; own = 0; words = 0 } }
{
    Carried {
        mark: front,
        front,
        own: 0,
        words: 0,
    }
}
