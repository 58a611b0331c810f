// Command lines over the files of the cases, one or more for each command and each status that a file can cause. The
// texts that are wanted were written by hand.
use crate::made::Given;

// A part of the text that stands in the output before a file is read, and the file. Each file is read in two calls: the
// second finds its end.
#[derive(Clone, Copy, Drop)]
pub(crate) struct Read {
    pub(crate) before: &'static str,
    pub(crate) name: &'static str,
}

// A command line: its words, the files that it reads in their order, its status and its text.
#[derive(Clone, Copy, Drop)]
pub(crate) struct Line {
    pub(crate) words: &'static [&'static str],
    pub(crate) reads: &'static [Read],
    pub(crate) status: u8,
    pub(crate) text: &'static str,
}

// The script of the cases. Each group has one job, or jobs of one loader, so its report is the same each time.
pub(crate) const SCRIPT: Given<'static> = Given {
    name: "s.txt",
    parts: &[
        "load two.sdf\nsettle\nsearch c.mol\nsettle\nwithdraw 1\nwithdraw 1\nwithdraw 9\nsettle\nload c.sdf\n",
    ],
};

const RUN: &[&str] = &[
    "run",
    "s.txt",
    "--loaders=1",
    "--searchers=1",
    "--pages=16",
    "--room=100",
    "--log=8",
    "--budget=100",
];

const LOADED: &str =
    "htss 1 loaders 1 searchers 1 pages 16 room 100 log 8 chain 65535 budget 100\nload 1 two.sdf\npublished 1 c\npublished 2 c\nloaded 2\n";

const WITHDRAWN: &str =
    "htss 1 loaders 1 searchers 1 pages 16 room 100 log 8 chain 65535 budget 100\nload 1 two.sdf\npublished 1 c\npublished 2 c\nloaded 2\nsearch 3 c.mol front 2\nhit 1 1 c\nhit 2 1 c\nhits 2 rows 2 records 2\nwithdraw 5 1 at 3\nwithdraw 6 1 Gone 3\nwithdraw 7 9 Unknown 3\n";

const REPORT: &str =
    "htss 1 loaders 1 searchers 1 pages 16 room 100 log 8 chain 65535 budget 100\nload 1 two.sdf\npublished 1 c\npublished 2 c\nloaded 2\nsearch 3 c.mol front 2\nhit 1 1 c\nhit 2 1 c\nhits 2 rows 2 records 2\nwithdraw 5 1 at 3\nwithdraw 6 1 Gone 3\nwithdraw 7 9 Unknown 3\nload 9 c.sdf\npublished 4 c\nloaded 1\nlog 4\nevent 1 publish 1 1 0 c\nevent 2 publish 1 1 0 c\nevent 3 withdraw 1 1\nevent 4 publish 1 1 0 c\nend\n";

pub(crate) const LINES: [Line; 11] = [
    Line {
        words: &["find", "ethanol.sdf", "co.mol"],
        reads: &[
            Read {
                before: "",
                name: "co.mol",
            },
            Read {
                before: "",
                name: "ethanol.sdf",
            },
        ],
        status: 0,
        text: "hit 1 2,3 ethanol\nhits 1\n",
    },
    Line {
        words: &["find", "a.sdf", "co.mol", "--budget=5"],
        reads: &[
            Read {
                before: "",
                name: "co.mol",
            },
            Read {
                before: "",
                name: "a.sdf",
            },
        ],
        status: 0,
        text: "overbudget 5\n",
    },
    Line {
        words: &["find", "a.sdf", "blank.mol"],
        reads: &[Read {
            before: "",
            name: "blank.mol",
        }],
        status: 0,
        text: "query refused 3 12 NoEnd\n",
    },
    Line {
        words: &["check", "a.sdf"],
        reads: &[Read {
            before: "",
            name: "a.sdf",
        }],
        status: 0,
        text: "ok 1 3 2 ethanol\nok 2 3 2 ether\nrecords 2 ok 2 refused 0\n",
    },
    Line {
        words: &["codes", "ethanol.sdf"],
        reads: &[Read {
            before: "",
            name: "ethanol.sdf",
        }],
        status: 0,
        text: "1 0000000000000106 0000000000020202 0000000100020303 0000000100020303 0000000100020303\n2 0000000000000206 0000000100020303 0000000100020303 0000000100020303 0000000100020303\n3 0000000000000108 0000000100010202 0000000100020303 0000000100020303 0000000100020303\n",
    },
    Line {
        words: &["make", "3", "7", "--summary"],
        reads: &[],
        status: 0,
        text: "made 3 records 3 atoms 75 bonds 75 hits 3\n",
    },
    Line {
        words: RUN,
        reads: &[
            Read {
                before: "",
                name: "s.txt",
            },
            Read {
                before: "",
                name: "two.sdf",
            },
            Read {
                before: LOADED,
                name: "c.mol",
            },
            Read {
                before: WITHDRAWN,
                name: "c.sdf",
            },
        ],
        status: 0,
        text: REPORT,
    },
    Line {
        words: &["find", "a.sdf"],
        reads: &[],
        status: 2,
        text: "stop 2 usage\n",
    },
    Line {
        words: &["run", "c.sdf"],
        reads: &[Read {
            before: "",
            name: "c.sdf",
        }],
        status: 3,
        text: "stop 3 script 1\n",
    },
    Line {
        words: &["find", "none.sdf", "co.mol"],
        reads: &[Read {
            before: "",
            name: "co.mol",
        }],
        status: 7,
        text: "stop 7 absent none.sdf\n",
    },
    Line {
        words: &["run", "none.txt", "--pages=16", "--room=10", "--log=1"],
        reads: &[],
        status: 7,
        text: "stop 7 absent none.txt\n",
    },
];
