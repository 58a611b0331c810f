// Command lines over files in memory: words, failing calls, what the sink takes, the status and the text.
use crate::made::{Case, Given, is_right};
use std::test::Fail;

const ETHANOL: &str =
    "ethanol\n\n\n  3  2  0  0  0  0  0  0  0  0999 V2000\n    0.0000    0.0000    0.0000 C   0  0\n    0.0000    0.0000    0.0000 C   0  0\n    0.0000    0.0000    0.0000 O   0  0\n  1  2  1  0\n  2  3  1  0\nM  END\n$$$$\n";

const ETHER: &str =
    "ether\n\n\n  3  2  0  0  0  0  0  0  0  0999 V2000\n    0.0000    0.0000    0.0000 C   0  0\n    0.0000    0.0000    0.0000 O   0  0\n    0.0000    0.0000    0.0000 C   0  0\n  1  2  1  0\n  2  3  1  0\nM  END\n$$$$\n";

const CO: &str =
    "co\n\n\n  2  1  0  0  0  0  0  0  0  0999 V2000\n    0.0000    0.0000    0.0000 C   0  0\n    0.0000    0.0000    0.0000 O   0  0\n  1  2  1  0\nM  END\n";

const CARBON: &str =
    "c\n\n\n  1  0  0  0  0  0  0  0  0  0999 V2000\n    0.0000    0.0000    0.0000 C   0  0\nM  END\n$$$$\n";

const BOND_TYPE_FIVE: &str =
    "\n\n\n  2  1  0  0  0  0  0  0  0  0999 V2000\n    0.0000    0.0000    0.0000 C   0  0\n    0.0000    0.0000    0.0000 C   0  0\n  1  2  5  0\nM  END\n$$$$\n";

const FILES: [Given<'static>; 8] = [
    Given {
        name: "ethanol.sdf",
        parts: &[ETHANOL],
    },
    Given {
        name: "a.sdf",
        parts: &[ETHANOL, ETHER],
    },
    Given {
        name: "co.mol",
        parts: &[CO],
    },
    Given {
        name: "empty.sdf",
        parts: &[],
    },
    Given {
        name: "blank.sdf",
        parts: &["\n\n"],
    },
    Given {
        name: "mixed.sdf",
        parts: &[BOND_TYPE_FIVE, CARBON],
    },
    Given {
        name: "c.mol",
        parts: &[CARBON],
    },
    Given {
        name: "s.txt",
        parts: &[],
    },
];

const BOTH: &str = "hit 1 2,3 ethanol\nhit 2 1,2 ether\nhits 2\n";

const USAGE: &str = "stop 2 usage\n";

const CARBON_CODES: &str =
    "1 0000000000000006 0000000000010101 0000000000010101 0000000000010101 0000000000010101\n";

const ETHANOL_CODES: &str =
    "1 0000000000000106 0000000000020202 0000000100020303 0000000100020303 0000000100020303\n2 0000000000000206 0000000100020303 0000000100020303 0000000100020303 0000000100020303\n3 0000000000000108 0000000100010202 0000000100020303 0000000100020303 0000000100020303\n";

// The words, the status and the text.
const COMMANDS: [(&[&str], u8, &str); 54] = [
    (
        &["find", "ethanol.sdf", "co.mol"],
        0,
        "hit 1 2,3 ethanol\nhits 1\n",
    ),
    (&["find", "a.sdf", "co.mol"], 0, BOTH),
    (&["find", "empty.sdf", "co.mol"], 0, "hits 0\n"),
    (&["find", "co.mol", "co.mol"], 0, "hit 1 1,2 co\nhits 1\n"),
    (&["find", "blank.sdf", "co.mol"], 0, "hits 0\n"),
    (
        &["find", "mixed.sdf", "c.mol"],
        0,
        "refused 1 7 9 BondType\nhit 1 1 c\nhits 1\n",
    ),
    (
        &["find", "none.sdf", "blank.sdf"],
        0,
        "query refused 3 12 NoEnd\n",
    ),
    (
        &["find", "none.sdf", "co.mol"],
        7,
        "stop 7 absent none.sdf\n",
    ),
    (
        &["find", "none.sdf", "none.mol"],
        7,
        "stop 7 absent none.mol\n",
    ),
    (
        &["check", "ethanol.sdf"],
        0,
        "ok 1 3 2 ethanol\nrecords 1 ok 1 refused 0\n",
    ),
    (
        &["check", "mixed.sdf"],
        0,
        "refused 1 7 9 BondType\nok 2 1 0 c\nrecords 2 ok 1 refused 1\n",
    ),
    (&["check", "empty.sdf"], 0, "records 0 ok 0 refused 0\n"),
    (&["check", "none.sdf"], 7, "stop 7 absent none.sdf\n"),
    (&["check", "-none.sdf"], 2, USAGE),
    (&["check"], 2, USAGE),
    (&["find", "a.sdf"], 2, USAGE),
    (&["find", "a.sdf", "-co"], 2, USAGE),
    (&["find", "", "co.mol"], 2, USAGE),
    (&["run", "a.sdf", "co.mol"], 2, USAGE),
    (&["run", "s.txt"], 2, USAGE),
    (&[], 2, USAGE),
    (
        &["make", "1", "0", "--summary"],
        0,
        "made 1 records 1 atoms 25 bonds 25 hits 1\n",
    ),
    (
        &["make", "100", "9", "--summary"],
        0,
        "made 100 records 100 atoms 2500 bonds 2500 hits 100\n",
    ),
    (
        &["make", "2000", "7", "--summary"],
        0,
        "made 2000 records 2000 atoms 50000 bonds 50000 hits 2000\n",
    ),
    (&["codes", "c.mol"], 0, CARBON_CODES),
    (&["codes", "ethanol.sdf"], 0, ETHANOL_CODES),
    (&["codes", "a.sdf"], 0, ETHANOL_CODES),
    (&["codes", "mixed.sdf"], 0, "refused 1 7 9 BondType\n"),
    (&["codes", "empty.sdf"], 0, "refused 1 1 12 NoEnd\n"),
    (&["codes", "none.mol"], 7, "stop 7 absent none.mol\n"),
    (&["codes"], 2, USAGE),
    (&["codes", ""], 2, USAGE),
    (&["codes", "-c.mol"], 2, USAGE),
    (&["codes", "c.mol", "c.mol"], 2, USAGE),
    // within a budget
    (&["find", "a.sdf", "co.mol", "--budget", "18"], 0, BOTH),
    (
        &[
            "find",
            "a.sdf",
            "co.mol",
            "--budget",
            "00000000000000000018",
        ],
        0,
        BOTH,
    ),
    (
        &[
            "find",
            "a.sdf",
            "co.mol",
            "--budget",
            "18446744073709551615",
        ],
        0,
        BOTH,
    ),
    (
        &["find", "a.sdf", "co.mol", "--budget", "0"],
        0,
        "overbudget 0\n",
    ),
    (
        &["find", "a.sdf", "co.mol", "--budget", "5"],
        0,
        "overbudget 5\n",
    ),
    (
        &["find", "a.sdf", "co.mol", "--budget", "005"],
        0,
        "overbudget 5\n",
    ),
    (&["find", "a.sdf", "co.mol", "--budget", ""], 2, USAGE),
    (&["find", "a.sdf", "co.mol", "--budget", "-1"], 2, USAGE),
    (&["find", "a.sdf", "co.mol", "--budget", "+18"], 2, USAGE),
    (&["find", "a.sdf", "co.mol", "--budget", "1_8"], 2, USAGE),
    (
        &[
            "find",
            "a.sdf",
            "co.mol",
            "--budget",
            "18446744073709551616",
        ],
        2,
        USAGE,
    ),
    (
        &[
            "find",
            "a.sdf",
            "co.mol",
            "--budget",
            "018446744073709551615",
        ],
        2,
        USAGE,
    ),
    (
        &["find", "mixed.sdf", "c.mol", "--budget", "0"],
        0,
        "refused 1 7 9 BondType\noverbudget 0\n",
    ),
    (&["find", "c.mol", "co.mol", "--budget", "0"], 0, "hits 0\n"),
    (
        &["find", "none.sdf", "blank.sdf", "--budget", "0"],
        0,
        "query refused 3 12 NoEnd\n",
    ),
    (&["find", "a.sdf", "co.mol", "--budget"], 2, USAGE),
    (&["find", "a.sdf", "co.mol", "--budget=18"], 0, BOTH),
    (&["find", "--budget", "18", "a.sdf", "co.mol"], 0, BOTH),
    (&["find", "a.sdf", "co.mol", "--budge", "18"], 2, USAGE),
    (&["find", "a.sdf", "-co.mol", "--budget", "18"], 2, USAGE),
];

// The words, the call of the shelf that fails, the call of the sink that takes nothing (0 for none), the status and the
// text.
const FAULTS: [(&[&str], u64, u64, u8, &str); 8] = [
    (
        &["find", "ethanol.sdf", "co.mol"],
        1,
        0,
        4,
        "stop 4 read co.mol\n",
    ),
    (
        &["find", "ethanol.sdf", "co.mol"],
        2,
        0,
        4,
        "stop 4 read co.mol\n",
    ),
    (
        &["find", "ethanol.sdf", "co.mol"],
        3,
        0,
        4,
        "stop 4 read ethanol.sdf\n",
    ),
    (
        &["find", "ethanol.sdf", "co.mol"],
        4,
        0,
        4,
        "stop 4 read ethanol.sdf\n",
    ),
    (&["find", "ethanol.sdf", "co.mol"], 0, 1, 5, ""),
    (&["find", "ethanol.sdf", "co.mol"], 0, 2, 5, "hit 1 2"),
    (&["find", "ethanol.sdf", "co.mol"], 2, 3, 5, "stop 4 read "),
    (&["codes", "c.mol"], 2, 0, 4, "stop 4 read c.mol\n"),
];

#[test]
fn each_command_line_has_its_status_and_text(rt: HostRuntime) -> Result<(), Fail> {
    for (words, status, text) in &COMMANDS {
        let case = Case {
            words,
            failing: 0,
            zero: 0,
            status: *status,
            text,
        };
        is_right(&rt, rt.alloc(), &FILES, &case)?;
    }
    Ok(())
}

#[test]
fn a_fault_of_the_outside_has_its_status(rt: HostRuntime) -> Result<(), Fail> {
    for (words, failing, zero, status, text) in &FAULTS {
        let case = Case {
            words,
            failing: *failing,
            zero: *zero,
            status: *status,
            text,
        };
        is_right(&rt, rt.alloc(), &FILES, &case)?;
    }
    Ok(())
}
