// `check` of one file: every front of it, and single changes to it.
use crate::made::{Given, done};
use outside::MemSink;
use std::alloc::Global;
use std::process::Abort;
use std::test::Fail;

const CARBON: &str =
    "c\n\n\n  1  0  0  0  0  0  0  0  0  0999 V2000\n    0.0000    0.0000    0.0000 C   0  0\nM  END\n$$$$\n";

const CARBONS: &str =
    "\n\n\n  2  2  0  0  0  0  0  0  0  0999 V2000\n    0.0000    0.0000    0.0000 C   0  0\n    0.0000    0.0000    0.0000 C   0  0\n  1  2  1  0\n  2  1  1  0\nM  END\n";

// Whether this is the first line that `check` prints of a file of this text.
fn is_told(rt: &impl Abort, alloc: Global, text: &str, line: &str) -> Result<(), Fail> {
    let files = [Given {
        name: "c.sdf",
        parts: &[text],
    }];
    let mut out = MemSink::new(alloc, 200, 200, vec![in alloc]?, vec![in alloc]?)?;
    let status = done(rt, alloc, &files, 0, &["check", "c.sdf"], &mut out)?;
    assert_eq!(rt; status, 0, "{line}");
    assert!(rt; out.bytes().starts_with(line.as_bytes()), "{line}");
    Ok(())
}

// The first front, the one after the last, and the line.
const FRONTS: [(usize, usize, &str); 12] = [
    (0, 1, "records 0 ok 0 refused 0\n"),
    (1, 3, "refused 1 2 12 NoEnd\n"),
    (3, 4, "refused 1 3 12 NoEnd\n"),
    (4, 5, "refused 1 4 12 NoEnd\n"),
    (5, 7, "refused 1 4 14 Empty\n"),
    (7, 39, "refused 1 5 12 NoEnd\n"),
    (39, 43, "refused 1 4 2 Version\n"),
    (43, 45, "refused 1 5 12 NoEnd\n"),
    (45, 76, "refused 1 5 4 AtomLine\n"),
    (76, 85, "refused 1 6 12 NoEnd\n"),
    (85, 90, "refused 1 7 12 NoEnd\n"),
    (90, 97, "ok 1 1 0 c\n"),
];

#[test]
fn each_front_of_a_file_is_checked(rt: HostRuntime) -> Result<(), Fail> {
    for (start, end, line) in &FRONTS {
        for size in *start..*end {
            let front = CARBON.get(..size).ok_or("no such front")?;
            is_told(&rt, rt.alloc(), front, line)?;
        }
    }
    Ok(())
}

// The file, the text that is changed, the text in its place, how many x follow that, and the line.
const CHANGES: [(&str, &str, &str, usize, &str); 19] = [
    (
        CARBON,
        "  1  0  0",
        "999  0  0",
        0,
        "refused 1 6 4 AtomLine\n",
    ),
    (
        CARBON,
        "  1  0  0",
        " -1  0  0",
        0,
        "refused 1 4 1 Counts\n",
    ),
    (
        CARBON,
        "  1  0  0  0  0  0",
        "  1  0  0  0  0  1",
        0,
        "refused 1 4 3 Stext\n",
    ),
    (
        CARBON,
        "  1  0  0",
        "  1  1  0",
        0,
        "refused 1 6 7 BondLine\n",
    ),
    (
        CARBON,
        "  1  0  0",
        "  0  0  0",
        0,
        "refused 1 4 14 Empty\n",
    ),
    (CARBON, "V2000", "V3000", 0, "refused 1 4 2 Version\n"),
    (CARBON, "c\n", "c\n", 4097, "refused 1 2 13 LongLine\n"),
    (CARBON, "c\n", "c\n", 4096, "ok 1 1 0 c\n"),
    (
        CARBON,
        " C   0  0",
        " C   0  8",
        0,
        "refused 1 5 6 Charge\n",
    ),
    (
        CARBON,
        " C   0  0",
        " c   0  0",
        0,
        "refused 1 5 5 Symbol\n",
    ),
    (
        CARBON,
        "M  END",
        "M  CHG  9\nM  END",
        0,
        "refused 1 6 11 Property\n",
    ),
    (
        CARBON,
        "M  END",
        "A    1\nM  END",
        0,
        "refused 1 8 12 NoEnd\n",
    ),
    (CARBON, " C   0  0", "", 0, "refused 1 5 4 AtomLine\n"),
    (CARBON, "M  END\n", "", 0, "refused 1 6 12 NoEnd\n"),
    (CARBON, "$$$$\n", "", 0, "ok 1 1 0 c\n"),
    (CARBON, "$$$$\n", "$$$$", 0, "ok 1 1 0 c\n"),
    (CARBON, CARBON, "$$$$\n", 0, "refused 1 1 12 NoEnd\n"),
    (
        CARBONS,
        "  1  2  1",
        "  1  1  1",
        0,
        "refused 1 7 8 BondAtom\n",
    ),
    (
        CARBONS,
        "  1  2  1",
        "  1  2  1",
        0,
        "refused 1 8 10 BondTwice\n",
    ),
];

#[test]
fn each_change_to_a_file_is_checked(rt: HostRuntime) -> Result<(), Fail> {
    for (text, old, new, more, line) in &CHANGES {
        let mut new = String::from_str(rt.alloc(), new)?;
        for _ in 0..*more {
            new.push('x')?;
        }
        let changed = text.replacen(rt.alloc(), *old, &new, 1)?;
        is_told(&rt, rt.alloc(), &changed, line)?;
    }
    Ok(())
}
