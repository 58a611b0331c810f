// Loads that fill chains of pages, or want a page where there is none.
use crate::run_tests::{
    Answer, CARBON, Given, HEADER, add, file, files_with, is_answered, push_numbered,
};
use std::alloc::Global;
use std::process::Abort;
use std::sync::Wait;
use std::test::Fail;
use std::thread::Threads;

const FORTY: Given<'static> = Given {
    name: "forty.sdf",
    parts: &[CARBON; 40],
};

const FIFTEEN_COPIES: Given<'static> = Given {
    name: "copies.sdf",
    parts: &[CARBON; 15],
};

const FRONT: &str =
    "x\n\n\n  1  0  0  0  0  0  0  0  0  0999 V2000\n    0.0000    0.0000    0.0000 ";

const END: &str = " 0  0\nM  END\n$$$$\n";

// Records of one atom each, of the first fifteen elements.
const FIFTEEN: Given<'static> = Given {
    name: "fifteen.sdf",
    parts: &[
        FRONT, "H  ", END, FRONT, "He ", END, FRONT, "Li ", END, FRONT, "Be ", END, FRONT, "B  ",
        END, FRONT, "C  ", END, FRONT, "N  ", END, FRONT, "O  ", END, FRONT, "F  ", END, FRONT,
        "Ne ", END, FRONT, "Na ", END, FRONT, "Mg ", END, FRONT, "Al ", END, FRONT, "Si ", END,
        FRONT, "P  ", END,
    ],
};

// Lines that stand once for each number from the first on and before the last: # is the number.
#[derive(Clone, Copy, Drop)]
struct Span {
    first: u32,
    until: u32,
    text: &'static str,
}

// A file, the words over the script that loads it, and the report.
#[derive(Clone, Copy, Drop)]
struct Load {
    file: Given<'static>,
    script: &'static str,
    words: &'static [&'static str],
    events: usize,
    report: &'static [Span],
}

// All rows of forty equal records stand in one chain of three leaves.
const ALL_FORTY: Load = Load {
    file: FORTY,
    script: "load forty.sdf\n",
    words: &["run", "s.txt"],
    events: 40,
    report: &[
        Span {
            first: 0,
            until: 1,
            text: HEADER,
        },
        Span {
            first: 0,
            until: 1,
            text: "load 1 forty.sdf\n",
        },
        Span {
            first: 1,
            until: 41,
            text: "published # c\n",
        },
        Span {
            first: 0,
            until: 1,
            text: "loaded 40\nlog 40\n",
        },
        Span {
            first: 1,
            until: 41,
            text: "event # publish 1 1 0 c\n",
        },
        Span {
            first: 0,
            until: 1,
            text: "end\n",
        },
    ],
};

// A chain of two leaves has room for 28.
const TWENTY_EIGHT: Load = Load {
    file: FORTY,
    script: "load forty.sdf\n",
    words: &["run", "s.txt", "--chain", "2"],
    events: 28,
    report: &[
        Span {
            first: 0,
            until: 1,
            text: "htss 1 loaders 2 searchers 2 pages 1048576 room 4194304 log 1048576 chain 2 budget 10000000000\n",
        },
        Span {
            first: 0,
            until: 1,
            text: "load 1 forty.sdf\n",
        },
        Span {
            first: 1,
            until: 29,
            text: "published # c\n",
        },
        Span {
            first: 29,
            until: 41,
            text: "unpublished # ChainFull 2\n",
        },
        Span {
            first: 0,
            until: 1,
            text: "loaded 28\nlog 28\n",
        },
        Span {
            first: 1,
            until: 29,
            text: "event # publish 1 1 0 c\n",
        },
        Span {
            first: 0,
            until: 1,
            text: "end\n",
        },
    ],
};

// For 15 rows and one loader 70 x 15 + 33 + 1 pages may be wanted at most, which is one less than there are.
const FIFTEEN_IN_ENOUGH_PAGES: Load = Load {
    file: FIFTEEN_COPIES,
    script: "load copies.sdf\n",
    words: &["run", "s.txt", "--loaders", "1", "--pages", "1085"],
    events: 15,
    report: &[
        Span {
            first: 0,
            until: 1,
            text: "htss 1 loaders 1 searchers 2 pages 1085 room 4194304 log 1048576 chain 65535 budget 10000000000\n",
        },
        Span {
            first: 0,
            until: 1,
            text: "load 1 copies.sdf\n",
        },
        Span {
            first: 1,
            until: 16,
            text: "published # c\n",
        },
        Span {
            first: 0,
            until: 1,
            text: "loaded 15\nlog 15\n",
        },
        Span {
            first: 1,
            until: 16,
            text: "event # publish 1 1 0 c\n",
        },
        Span {
            first: 0,
            until: 1,
            text: "end\n",
        },
    ],
};

// Forty rows fill no chain of six pages: seven rows for each page are more than there are.
const FORTY_IN_SHORT_CHAINS: Load = Load {
    file: FORTY,
    script: "load forty.sdf\n",
    words: &["run", "s.txt", "--chain", "6"],
    events: 40,
    report: &[
        Span {
            first: 0,
            until: 1,
            text: "htss 1 loaders 2 searchers 2 pages 1048576 room 4194304 log 1048576 chain 6 budget 10000000000\n",
        },
        Span {
            first: 0,
            until: 1,
            text: "load 1 forty.sdf\n",
        },
        Span {
            first: 1,
            until: 41,
            text: "published # c\n",
        },
        Span {
            first: 0,
            until: 1,
            text: "loaded 40\nlog 40\n",
        },
        Span {
            first: 1,
            until: 41,
            text: "event # publish 1 1 0 c\n",
        },
        Span {
            first: 0,
            until: 1,
            text: "end\n",
        },
    ],
};

// Sixteen pages: the root with a second page in its chain, and a leaf for each of fourteen first codes.
const FOURTEEN: Load = Load {
    file: FIFTEEN,
    script: "load fifteen.sdf\n",
    words: &["run", "s.txt", "--loaders=1", "--pages=16"],
    events: 14,
    report: &[
        Span {
            first: 0,
            until: 1,
            text: "htss 1 loaders 1 searchers 2 pages 16 room 4194304 log 1048576 chain 65535 budget 10000000000\n",
        },
        Span {
            first: 0,
            until: 1,
            text: "load 1 fifteen.sdf\n",
        },
        Span {
            first: 1,
            until: 15,
            text: "published # x\n",
        },
        Span {
            first: 0,
            until: 1,
            text: "unpublished 15 NoPage\nloaded 14\nlog 14\n",
        },
        Span {
            first: 1,
            until: 15,
            text: "event # publish 1 1 0 x\n",
        },
        Span {
            first: 0,
            until: 1,
            text: "end\n",
        },
    ],
};

fn report_of(alloc: Global, spans: &[Span]) -> Result<String, Fail> {
    let mut report = String::new(alloc);
    for span in spans {
        for number in span.first..span.until {
            let number = format!(in alloc; "{number}")?;
            push_numbered(&mut report, span.text, &number)?;
        }
    }
    Ok(report)
}

fn is_loaded<R: Threads + Wait + Sync + Abort>(
    rt: &R,
    alloc: Global,
    load: &Load,
) -> Result<(), Fail> {
    let mut files = files_with(rt, alloc, load.script)?;
    add(rt, &mut files, file(alloc, &load.file)?)?;
    let answer = Answer {
        words: load.words,
        failing: 0,
        room: 10000,
        status: 0,
        events: Some(load.events),
    };
    let report = report_of(alloc, load.report)?;
    is_answered(rt, alloc, files, &answer, report.as_bytes())
}

#[test]
fn forty_copies(rt: HostRuntime) -> Result<(), Fail> {
    is_loaded(&rt, rt.alloc(), &ALL_FORTY)?;
    is_loaded(&rt, rt.alloc(), &TWENTY_EIGHT)
}

#[test]
fn enough_pages(rt: HostRuntime) -> Result<(), Fail> {
    is_loaded(&rt, rt.alloc(), &FIFTEEN_IN_ENOUGH_PAGES)?;
    is_loaded(&rt, rt.alloc(), &FORTY_IN_SHORT_CHAINS)
}

#[test]
fn board_refusals(rt: HostRuntime) -> Result<(), Fail> {
    is_loaded(&rt, rt.alloc(), &FOURTEEN)
}
