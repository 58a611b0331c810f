// The log of a report and the records of a file, each on a small case.
use crate::{BrokenEvent, RecordRead, first_broken, read_records};
use htss_defs::{Name, Shape};
use report_text::LogLine;
use std::alloc::Global;
use std::test::Fail;

const SHAPE: Shape = Shape {
    loaders: 2,
    searchers: 1,
    pages: 16,
    room: 100,
    log: 9,
    chain: 2,
};

// An event by a loader: a withdrawal of a number, or a publication where that is 0.
fn event(loader: u8, number: u32) -> Result<LogLine, Fail> {
    if number > 0 {
        return Ok(LogLine::Withdraw { loader, number });
    }
    let name = Name::new(b"co").ok_or("no name")?;
    Ok(LogLine::Publish {
        loader,
        atoms: 1,
        bonds: 0,
        name,
    })
}

// Whether the log of these events has these withdrawals, or is broken by the event of this number.
fn is_found(alloc: Global, events: &[(u8, u32)], want: &[u32], broken: u32) -> Result<bool, Fail> {
    let mut lines = Vec::new(alloc);
    for (loader, number) in events {
        lines.push(event(*loader, *number)?)?;
    }
    if lines.len() > 9 {
        return Ok(false);
    }
    match first_broken(alloc, SHAPE, &lines)? {
        Ok(withdrawals) => Ok(broken == 0 && withdrawals.as_slice() == want),
        Err(BrokenEvent { number }) => Ok(number == broken),
    }
}

// Events, the withdrawals, and the event that breaks the log, or 0.
const LOGS: &[(&[(u8, u32)], &[u32], u32)] = &[
    (&[], &[], 0),
    (&[(1, 0), (2, 0), (2, 1)], &[3, 0, 0], 0),
    (&[(1, 0), (3, 0)], &[], 2),
    (&[(1, 0), (2, 2)], &[], 2),
    (&[(1, 0), (2, 1), (1, 1)], &[], 3),
];

#[test]
fn finds_the_event_that_breaks_a_log(rt: HostRuntime) -> Result<(), Fail> {
    for (events, want, broken) in LOGS {
        assert!(rt; is_found(rt.alloc(), events, want, *broken)?, "{broken}");
    }
    Ok(())
}

const FILE: &[u8] =
    b"co\n\n\n  1  0  0  0  0  0  0  0  0  0999 V2000\n    0.0000    0.0000    0.0000 C   0  0\nM  END\n$$$$\n\n\n\n  1\nM  END\n";

#[test]
fn reads_the_records_of_a_file(rt: HostRuntime) -> Result<(), Fail> {
    let records = read_records(rt.alloc(), FILE)?;
    let are = matches!(
        records.as_slice(),
        [
            RecordRead::Accepted { .. },
            RecordRead::Refused { line: 12, code: 4 }
        ]
    );
    assert!(rt; are);
    Ok(())
}
