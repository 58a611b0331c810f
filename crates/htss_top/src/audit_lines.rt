// The report of the stored script with one number or one name of a line changed. The line at fault was found by hand:
// mostly the changed one, else the one that the comment tells of.
use crate::audit_tests::is_audited;
use crate::run_tests::{STORED, STORED_REPORT};
use std::alloc::Global;
use std::process::Abort;
use std::sync::Wait;
use std::test::Fail;
use std::thread::Threads;

// A line of the report, and what is put in its place with the first line at fault then: none where it is 0.
#[derive(Clone, Copy, Drop)]
struct Told {
    line: &'static str,
    changes: &'static [(&'static str, u64)],
}

const LINES: [Told; 21] = [
    // each shape within its limits may have printed this report, if its log has three events and its budget the six
    // atoms of the records that the first search screens; the line 9 tells the hits of that search
    Told {
        line: "htss 1 loaders 1 searchers 1 pages 16 room 100 log 8 chain 65535 budget 100",
        changes: &[
            (
                "htss 2 loaders 1 searchers 1 pages 16 room 100 log 8 chain 65535 budget 100",
                1,
            ),
            (
                "htss 1 loaders 2 searchers 1 pages 16 room 100 log 8 chain 65535 budget 100",
                0,
            ),
            (
                "htss 1 loaders 17 searchers 1 pages 16 room 100 log 8 chain 65535 budget 100",
                1,
            ),
            (
                "htss 1 loaders 1 searchers 2 pages 16 room 100 log 8 chain 65535 budget 100",
                0,
            ),
            (
                "htss 1 loaders 1 searchers 0 pages 16 room 100 log 8 chain 65535 budget 100",
                1,
            ),
            (
                "htss 1 loaders 1 searchers 1 pages 17 room 100 log 8 chain 65535 budget 100",
                0,
            ),
            (
                "htss 1 loaders 1 searchers 1 pages 15 room 100 log 8 chain 65535 budget 100",
                1,
            ),
            (
                "htss 1 loaders 1 searchers 1 pages 16 room 101 log 8 chain 65535 budget 100",
                0,
            ),
            (
                "htss 1 loaders 1 searchers 1 pages 16 room 9 log 8 chain 65535 budget 100",
                1,
            ),
            (
                "htss 1 loaders 1 searchers 1 pages 16 room 100 log 3 chain 65535 budget 100",
                0,
            ),
            (
                "htss 1 loaders 1 searchers 1 pages 16 room 100 log 2 chain 65535 budget 100",
                17,
            ),
            (
                "htss 1 loaders 1 searchers 1 pages 16 room 100 log 8 chain 65534 budget 100",
                0,
            ),
            (
                "htss 1 loaders 1 searchers 1 pages 16 room 100 log 8 chain 1 budget 100",
                1,
            ),
            (
                "htss 1 loaders 1 searchers 1 pages 16 room 100 log 8 chain 65535 budget 6",
                0,
            ),
            (
                "htss 1 loaders 1 searchers 1 pages 16 room 100 log 8 chain 65535 budget 5",
                9,
            ),
        ],
    },
    Told {
        line: "load 1 a.sdf",
        changes: &[("load 2 a.sdf", 2), ("load 1 b.sdf", 2)],
    },
    Told {
        line: "published 1 ethanol",
        changes: &[
            ("published 2 ethanol", 3),
            ("published 3 ethanol", 3),
            ("published 1 ethanal", 3),
        ],
    },
    Told {
        line: "published 2 ether",
        changes: &[
            ("published 1 ether", 4),
            ("published 3 ether", 4),
            ("published 2 ethers", 4),
        ],
    },
    Told {
        line: "loaded 2",
        changes: &[("loaded 1", 5), ("loaded 3", 5)],
    },
    // front 3 may be the search's, but there the first record is gone
    Told {
        line: "search 3 co.mol front 2",
        changes: &[
            ("search 4 co.mol front 2", 6),
            ("search 3 c.mol front 2", 6),
            ("search 3 co.mol front 1", 6),
            ("search 3 co.mol front 3", 7),
            ("search 3 co.mol front 4", 6),
        ],
    },
    Told {
        line: "hit 1 2,3 ethanol",
        changes: &[
            ("hit 2 2,3 ethanol", 7),
            ("hit 1 1,3 ethanol", 7),
            ("hit 1 2,1 ethanol", 7),
            ("hit 1 2,3 ethanal", 7),
        ],
    },
    // 3,2 is an embedding too, but not the least
    Told {
        line: "hit 2 1,2 ether",
        changes: &[
            ("hit 1 1,2 ether", 8),
            ("hit 2 3,2 ether", 8),
            ("hit 2 1,3 ether", 8),
            ("hit 2 1,2 ethanol", 8),
        ],
    },
    // how many rows were loaded is free
    Told {
        line: "hits 2 rows 4 records 2",
        changes: &[
            ("hits 1 rows 4 records 2", 9),
            ("hits 3 rows 4 records 2", 9),
            ("hits 2 rows 5 records 2", 0),
            ("hits 2 rows 4 records 1", 9),
            ("hits 2 rows 4 records 3", 9),
        ],
    },
    Told {
        line: "withdraw 5 1 at 3",
        changes: &[
            ("withdraw 6 1 at 3", 10),
            ("withdraw 5 2 at 3", 10),
            ("withdraw 5 1 at 2", 10),
            ("withdraw 5 1 at 4", 10),
        ],
    },
    Told {
        line: "withdraw 6 1 Gone 3",
        changes: &[
            ("withdraw 7 1 Gone 3", 11),
            ("withdraw 6 2 Gone 3", 11),
            ("withdraw 6 1 Gone 2", 11),
            ("withdraw 6 1 Gone 4", 11),
        ],
    },
    // the loader has withdrawn at 3 before
    Told {
        line: "withdraw 7 0 Unknown 3",
        changes: &[
            ("withdraw 8 0 Unknown 3", 12),
            ("withdraw 7 1 Unknown 3", 12),
            ("withdraw 7 0 Unknown 2", 12),
            ("withdraw 7 0 Unknown 4", 12),
        ],
    },
    Told {
        line: "withdraw 8 3 Unknown 3",
        changes: &[
            ("withdraw 9 3 Unknown 3", 13),
            ("withdraw 8 4 Unknown 3", 13),
            ("withdraw 8 3 Unknown 2", 13),
            ("withdraw 8 3 Unknown 4", 13),
        ],
    },
    // a search is no shorter than the lines of earlier groups
    Told {
        line: "search 10 co.mol front 3",
        changes: &[
            ("search 11 co.mol front 3", 14),
            ("search 10 c.mol front 3", 14),
            ("search 10 co.mol front 2", 14),
            ("search 10 co.mol front 4", 14),
        ],
    },
    Told {
        line: "hit 2 1,2 ether",
        changes: &[
            ("hit 1 1,2 ether", 15),
            ("hit 2 3,2 ether", 15),
            ("hit 2 1,2 ethers", 15),
        ],
    },
    Told {
        line: "hits 1 rows 4 records 1",
        changes: &[
            ("hits 2 rows 4 records 1", 16),
            ("hits 1 rows 0 records 1", 0),
            ("hits 1 rows 4 records 2", 16),
            ("hits 1 rows 4 records 0", 16),
        ],
    },
    // an event too many in line 20, or none where the line `end` is
    Told {
        line: "log 3",
        changes: &[("log 2", 20), ("log 4", 21)],
    },
    // the line that names a publication is at fault where its atoms, its bonds or its name differ
    Told {
        line: "event 1 publish 1 3 2 ethanol",
        changes: &[
            ("event 2 publish 1 3 2 ethanol", 18),
            ("event 1 publish 2 3 2 ethanol", 18),
            ("event 1 publish 1 4 2 ethanol", 3),
            ("event 1 publish 1 3 3 ethanol", 3),
            ("event 1 publish 1 3 2 ethanal", 3),
        ],
    },
    Told {
        line: "event 2 publish 1 3 2 ether",
        changes: &[
            ("event 3 publish 1 3 2 ether", 19),
            ("event 2 publish 0 3 2 ether", 19),
            ("event 2 publish 1 2 2 ether", 4),
            ("event 2 publish 1 3 1 ether", 4),
            ("event 2 publish 1 3 2 ethers", 4),
        ],
    },
    // 2 may be withdrawn, but line 10 tells that 1 was
    Told {
        line: "event 3 withdraw 1 1",
        changes: &[
            ("event 4 withdraw 1 1", 20),
            ("event 3 withdraw 2 1", 20),
            ("event 3 withdraw 1 0", 20),
            ("event 3 withdraw 1 2", 10),
            ("event 3 withdraw 1 3", 20),
        ],
    },
    Told {
        line: "end",
        changes: &[("ends", 21)],
    },
];

// The report with this text in the place of a line.
fn with_line(alloc: Global, place: usize, text: &str) -> Result<String, Fail> {
    let mut report = String::new(alloc);
    for (index, line) in STORED_REPORT.lines().enumerate() {
        report.push_str(if index == place { text } else { line })?;
        report.push('\n')?;
    }
    Ok(report)
}

fn is_stored(report: &str) -> bool {
    report == STORED_REPORT
}

fn differs_where_it_must<R: Threads + Wait + Sync + Abort>(
    rt: &R,
    alloc: Global,
    place: usize,
    told: &Told,
) -> Result<(), Fail> {
    let same = with_line(alloc, place, told.line)?;
    let stands = is_stored(&same);
    assert!(rt; stands);
    for (text, line) in told.changes {
        let report = with_line(alloc, place, text)?;
        let whole = "audit 3 events 2 searches\n";
        is_audited(rt, alloc, STORED, &[&report], *line, whole)?;
    }
    Ok(())
}

#[test]
fn each_changed_word_differs_where_it_must(rt: HostRuntime) -> Result<(), Fail> {
    for (place, told) in LINES.iter().enumerate() {
        differs_where_it_must(&rt, rt.alloc(), place, told)?;
    }
    Ok(())
}
