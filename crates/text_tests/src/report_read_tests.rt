// Reports that are read back, and texts that leave off to be one.
use htss_defs::OutOfMemory;
use report_read::read_report;
use report_text::write_report;
use std::alloc::Global;

// The most bytes of a text of these tests.
const MOST_BYTES: usize = 100_000;

// What is read, written again, or the number of the line where the bytes leave off to be a report, or 0 where they are
// too many.
#[tactic(auto, using(report_read::proofs::Cuts::few_cut))]
fn told(alloc: Global, bytes: &[u8]) -> Result<Result<Vec<u8>, u64>, OutOfMemory> {
    if bytes.len() > MOST_BYTES {
        return Ok(Err(0));
    }
    match read_report(alloc, bytes)? {
        Err(refusal) => Ok(Err(refusal.line)),
        Ok(report) => {
            let mut text = Vec::new(alloc);
            write_report(&report, &mut text)?;
            Ok(Ok(text))
        }
    }
}

// The header and these lines.
fn with_header(alloc: Global, lines: &str) -> Result<Vec<u8>, OutOfMemory> {
    let mut text = Vec::from_slice(alloc, HEADER)?;
    text.extend_from_slice(lines.as_bytes())?;
    Ok(text)
}

const HEADER: &[u8] =
    b"htss 1 loaders 1 searchers 1 pages 16 room 100 log 8 chain 65535 budget 100\n";

// What may come after the header.
const REPORTS: &[&str] = &[
    "load 1 a.sdf\npublished 1 ethanol\npublished 2 ether\nloaded 2\nsearch 3 co.mol front 2\nhit 1 2,3 ethanol\nhit 2 1,2 ether\nhits 2 rows 4 records 2\nwithdraw 5 1 at 3\nwithdraw 6 1 Gone 3\nwithdraw 7 0 Unknown 3\nwithdraw 8 3 Unknown 3\nsearch 10 co.mol front 3\nhit 2 1,2 ether\nhits 1 rows 4 records 1\nlog 3\nevent 1 publish 1 3 2 ethanol\nevent 2 publish 1 3 2 ether\nevent 3 withdraw 1 1\nend\n",
    "log 0\nend\n",
    "load 1 x\nloaded 0\nlog 0\nend\n",
    "load 4294967295 x\nrefused 1 18446744073709551615 22 Topology\npublished 1\nunpublished 3 DataFull 5 24\nunpublished 4 NoPage\nunpublished 5 ChainFull 2\nunpublished 6 LogFull 8\nloaded 1\nlog 0\nend\n",
    "search 1 q front 0\nhits 0 rows 0 records 0\nlog 0\nend\n",
    "search 1 q front 2\noverbudget 18446744073709551615\nlog 0\nend\n",
    "search 1 q refused 4 14 Empty\nwithdraw 2 1 LogFull 8\nlog 0\nend\n",
    "log 1\nevent 1 withdraw 255 4294967295\nend\n",
    "log 1\nevent 1 publish 0 65535 0 a b\nend\n",
];

#[test]
fn reports_are_read_and_written_again(rt: HostRuntime) -> Result<(), OutOfMemory> {
    for lines in REPORTS {
        let text = with_header(rt.alloc(), lines)?;
        let again = told(rt.alloc(), text.as_slice())?;
        assert!(rt;
            again.is_ok_and(|again| again.as_slice() == text.as_slice()),
            "{lines}"
        );
    }
    Ok(())
}

// What comes after the header, and the number of the line at fault, where the header is the first.
const FAULTS: &[(&str, u64)] = &[
    // it ends too early
    ("", 2),
    ("log 0\n", 3),
    ("load 1 x\npublished 1 a\n", 4),
    ("search 1 q front 0\n", 3),
    // a last line without LF
    ("log 0\nend", 3),
    ("log 0", 2),
    ("log 0\nend\nx", 4),
    // bytes and numbers
    ("log 00\nend\n", 2),
    ("log 0\r\nend\n", 2),
    ("log 0\nend\r\n", 3),
    ("log  0\nend\n", 2),
    ("\nlog 0\nend\n", 2),
    ("load 4294967296 x\n", 2),
    ("search 1 q refused 4 19 Empty\n", 2),
    ("search 1 q refused 4 14 List\n", 2),
    // counts of loads and searches
    ("load 1 x\npublished 1 a\nloaded 2\nlog 0\nend\n", 4),
    ("load 1 x\npublished 1 a\nloaded 0\nlog 0\nend\n", 4),
    ("load 1 x\nrefused 1 4 12 NoEnd\nloaded 1\nlog 0\nend\n", 4),
    (
        "search 1 q front 2\nhit 1 1 a\nhits 2 rows 0 records 1\nlog 0\nend\n",
        4,
    ),
    (
        "search 1 q front 2\nhits 1 rows 0 records 1\nlog 0\nend\n",
        3,
    ),
    (
        "search 1 q front 2\nhit 1 1 a\noverbudget 5\nlog 0\nend\n",
        4,
    ),
    // lines out of their places
    (
        "htss 1 loaders 1 searchers 1 pages 16 room 100 log 8 chain 65535 budget 100\nlog 0\nend\n",
        2,
    ),
    ("published 1 a\n", 2),
    ("load 1 x\nhit 1 1 a\n", 3),
    ("load 1 x\nload 2 x\n", 3),
    ("load 1 x\nlog 0\n", 3),
    ("search 1 q front 2\npublished 1 a\n", 3),
    ("end\n", 2),
    ("event 1 withdraw 1 0\n", 2),
    // the log
    ("log 2\nevent 1 withdraw 1 0\nend\n", 4),
    (
        "log 1\nevent 1 withdraw 1 0\nevent 2 withdraw 1 0\nend\n",
        4,
    ),
    ("log 0\nevent 1 withdraw 1 0\nend\n", 3),
    ("log 1\nevent 0 withdraw 1 0\nend\n", 3),
    ("log 1\nevent 2 withdraw 1 0\nend\n", 3),
    (
        "log 2\nevent 1 withdraw 1 0\nevent 1 withdraw 1 0\nend\n",
        4,
    ),
    ("log 1\nlog 1\n", 3),
    // text after the end
    ("log 0\nend\nend\n", 4),
    ("log 0\nend\n\n", 4),
];

#[test]
fn faults_are_told_by_their_lines(rt: HostRuntime) -> Result<(), OutOfMemory> {
    for (lines, want) in FAULTS {
        let text = with_header(rt.alloc(), lines)?;
        assert!(rt; told(rt.alloc(), text.as_slice())? == Err(*want), "{lines}");
    }
    Ok(())
}

// Texts that begin with no header.
const HEADLESS: &[&str] = &[
    "",
    "\n",
    "log 0\nend\n",
    "htss 2 loaders 1 searchers 1 pages 16 room 100 log 8 chain 65535 budget 100\nlog 0\nend\n",
    "htss 1 loaders 01 searchers 1 pages 16 room 100 log 8 chain 65535 budget 100\nlog 0\nend\n",
    "htss 1 loaders 256 searchers 1 pages 16 room 100 log 8 chain 65535 budget 100\nlog 0\nend\n",
    "htss 1 loaders 1 searchers 1 pages 16 room 100 log 8 chain 65535 budget 100",
];

#[test]
fn the_header_is_first(rt: HostRuntime) -> Result<(), OutOfMemory> {
    for text in HEADLESS {
        assert!(rt; told(rt.alloc(), text.as_bytes())? == Err(1), "{text}");
    }
    Ok(())
}
