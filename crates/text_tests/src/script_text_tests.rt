// Scripts as they are read, the files of their jobs, and the records that are made.
ghost use Rattle.std.specs.Prelude.{◌≡◌, ℕ, ◌==◌, ◌≤◌, Some, OnOk, if◌then◌else◌, length};
ghost use Rattle.outside.specs.Files.{file_limit};
ghost use Rattle.script_text.specs.FilesByLine.{bytes_at};

use crate::made::padded;
use htss_defs::OutOfMemory;
use outside::MemSink;
use script_text::{Files, Group, Job, MakeStop, Order, Script, make_file, read_script};
use std::alloc::Global;

// A job: its line, its word, its file and its number.
type Told<'a> = (u32, &'a str, &'a str, Option<u64>);

fn told(job: &Job) -> Told<'_> {
    match &job.order {
        Order::Load { file } => (job.line, "load", file.text(), None),
        Order::Withdraw { number } => (job.line, "withdraw", "", Some(u64::from(*number))),
        Order::Search { file, budget } => (job.line, "search", file.text(), *budget),
    }
}

// Whether these are the jobs of the group.
fn has_jobs(group: &Group, want: &[Told<'_>]) -> bool {
    let jobs = group.jobs.as_slice();
    for (job, want) in jobs.iter().zip(want) {
        if told(job) != *want {
            return false;
        }
    }
    jobs.len() == want.len()
}

// Whether these are the groups of the script.
fn has_groups(script: &Script, want: &[&[Told<'_>]]) -> bool {
    let groups = script.groups.as_slice();
    for (group, want) in groups.iter().zip(want) {
        if !has_jobs(group, want) {
            return false;
        }
    }
    groups.len() == want.len()
}

// What a script holds: its groups, or else its first line at fault.
enum Want {
    Groups(&'static [&'static [Told<'static>]]),
    Fault(u64),
}

// Whether a script, of at most 10,000 bytes, is read so.
fn is_read(alloc: Global, script: &[u8], want: &Want) -> Result<bool, OutOfMemory> {
    if script.len() > 10_000 {
        return Ok(false);
    }
    match (read_script(alloc, script)?, want) {
        (Ok(script), Want::Groups(groups)) => Ok(has_groups(&script, groups)),
        (Err(fault), Want::Fault(line)) => Ok(fault.line == *line),
        _ => Ok(false),
    }
}

const SCRIPTS: &[(&str, Want)] = &[
    ("", Want::Groups(&[&[]])),
    ("\n", Want::Groups(&[&[]])),
    ("settle", Want::Groups(&[&[], &[]])),
    ("settle\n", Want::Groups(&[&[], &[]])),
    (
        "load a.sdf\nsettle\nsearch co.mol\n",
        Want::Groups(&[
            &[(1, "load", "a.sdf", None)],
            &[(3, "search", "co.mol", None)],
        ]),
    ),
    (
        "# a\n\n   \nload a.sdf\r\nsearch co.mol 18",
        Want::Groups(&[&[
            (4, "load", "a.sdf", None),
            (5, "search", "co.mol", Some(18)),
        ]]),
    ),
    (
        "settle\nsettle\nload x",
        Want::Groups(&[&[], &[], &[(3, "load", "x", None)]]),
    ),
    (
        "  load   a#b  ",
        Want::Groups(&[&[(1, "load", "a#b", None)]]),
    ),
    (
        "load load\nload settle",
        Want::Groups(&[&[(1, "load", "load", None), (2, "load", "settle", None)]]),
    ),
    (
        "withdraw 0\nwithdraw 0000000000\nwithdraw 0000000007",
        Want::Groups(&[&[
            (1, "withdraw", "", Some(0)),
            (2, "withdraw", "", Some(0)),
            (3, "withdraw", "", Some(7)),
        ]]),
    ),
    (
        "withdraw 4294967295",
        Want::Groups(&[&[(1, "withdraw", "", Some(4294967295))]]),
    ),
    (
        "search q 0\nsearch q 00000000000000000018",
        Want::Groups(&[&[(1, "search", "q", Some(0)), (2, "search", "q", Some(18))]]),
    ),
    (
        "search q 18446744073709551615",
        Want::Groups(&[&[(1, "search", "q", Some(18446744073709551615))]]),
    ),
    ("load a\r", Want::Groups(&[&[(1, "load", "a", None)]])),
    ("\r", Want::Groups(&[&[]])),
    (
        "#\t\x7f\n#\r\nload ~!",
        Want::Groups(&[&[(3, "load", "~!", None)]]),
    ),
    ("load a.sdf\nserch co.mol\n", Want::Fault(2)),
    ("load a.sdf\n\n# b\nserch co.mol\nserch", Want::Fault(4)),
    ("load", Want::Fault(1)),
    ("load a b", Want::Fault(1)),
    ("Load a", Want::Fault(1)),
    ("settle now", Want::Fault(1)),
    ("withdraw", Want::Fault(1)),
    ("withdraw 1 2", Want::Fault(1)),
    ("withdraw +1", Want::Fault(1)),
    ("withdraw -0", Want::Fault(1)),
    ("withdraw 00000000001", Want::Fault(1)),
    ("withdraw 4294967296", Want::Fault(1)),
    ("search", Want::Fault(1)),
    ("search q x", Want::Fault(1)),
    ("search q 1 2", Want::Fault(1)),
    ("search q 000000000000000000018", Want::Fault(1)),
    ("search q 18446744073709551616", Want::Fault(1)),
    (" # a", Want::Fault(1)),
    ("load\ta", Want::Fault(1)),
    ("load a\x7f", Want::Fault(1)),
    ("load a\n\t\n", Want::Fault(2)),
    ("load a\r\r\n", Want::Fault(1)),
    ("load a\r\r", Want::Fault(1)),
    ("load a\rb\n", Want::Fault(1)),
];

#[test]
fn scripts_are_read(rt: HostRuntime) -> Result<(), OutOfMemory> {
    for (script, want) in SCRIPTS {
        assert!(rt; is_read(rt.alloc(), script.as_bytes(), want)?, "{script}");
    }
    Ok(())
}

// Fronts of scripts, the byte that comes after each, how often, and what the whole holds.
const LONG_LINES: &[(&str, u8, usize, Want)] = &[
    ("#", b'x', 5000, Want::Groups(&[&[]])),
    ("#", 200, 5000, Want::Groups(&[&[]])),
    ("", b' ', 5000, Want::Groups(&[&[]])),
    ("settle", b' ', 4090, Want::Groups(&[&[], &[]])),
    ("settle", b' ', 4091, Want::Fault(1)),
    ("load a\nload b", b'c', 4091, Want::Fault(2)),
    ("load a\nload ", 195, 2, Want::Fault(2)),
];

#[test]
fn long_lines_are_read(rt: HostRuntime) -> Result<(), OutOfMemory> {
    for (front, byte, count, want) in LONG_LINES {
        let script = padded(rt.alloc(), front.as_bytes(), &[*byte], *count)?;
        assert!(rt; is_read(rt.alloc(), script.as_slice(), want)?, "{front}");
    }
    Ok(())
}

// Puts this text in place of what the line had.
fn put(alloc: Global, files: &mut Files, line: u32, text: &str) -> Result<(), OutOfMemory>
    requires { length text.now ≤ file_limit }
    ensures { OnOk result ((asked : ℕ) → bytes_at files.new asked
        ≡ (if asked == line then Some text.now else bytes_at files.old asked)) }
{
    let bytes = Vec::from_slice(alloc, text.as_bytes())?;
    files.put(line, bytes)
}

#[test]
fn files_are_kept_by_line(rt: HostRuntime) -> Result<(), OutOfMemory> {
    let alloc = rt.alloc();
    let mut files = Files::new(alloc);
    put(alloc, &mut files, 7, "seven")?;
    put(alloc, &mut files, 4294967295, "last")?;
    put(alloc, &mut files, 1, "")?;
    put(alloc, &mut files, 7, "other")?;
    assert_eq!(rt; files.at(7), b"other".as_slice());
    assert_eq!(rt; files.at(1), b"".as_slice());
    assert_eq!(rt; files.at(4294967295), b"last".as_slice());
    Ok(())
}

// The record that is drawn from the seed 0, as the rules of the generator give it: the first draw is 167951807, an
// oxygen.
const RECORD: &[u8] =
    b"made 1\n\n\n 25 25  0  0  0  0  0  0  0  0999 V2000\n    0.0000    0.0000    0.0000 C   0  0\n    0.0000    0.0000    0.0000 C   0  0\n    0.0000    0.0000    0.0000 C   0  0\n    0.0000    0.0000    0.0000 C   0  0\n    0.0000    0.0000    0.0000 C   0  0\n    0.0000    0.0000    0.0000 C   0  0\n    0.0000    0.0000    0.0000 O   0  0\n    0.0000    0.0000    0.0000 C   0  0\n    0.0000    0.0000    0.0000 O   0  0\n    0.0000    0.0000    0.0000 C   0  0\n    0.0000    0.0000    0.0000 C   0  0\n    0.0000    0.0000    0.0000 C   0  0\n    0.0000    0.0000    0.0000 C   0  0\n    0.0000    0.0000    0.0000 C   0  0\n    0.0000    0.0000    0.0000 C   0  0\n    0.0000    0.0000    0.0000 C   0  0\n    0.0000    0.0000    0.0000 C   0  0\n    0.0000    0.0000    0.0000 C   0  0\n    0.0000    0.0000    0.0000 O   0  0\n    0.0000    0.0000    0.0000 C   0  0\n    0.0000    0.0000    0.0000 C   0  0\n    0.0000    0.0000    0.0000 C   0  0\n    0.0000    0.0000    0.0000 O   0  0\n    0.0000    0.0000    0.0000 C   0  0\n    0.0000    0.0000    0.0000 F   0  0\n  1  2  1  0\n  2  3  2  0\n  3  4  1  0\n  4  5  2  0\n  5  6  1  0\n  6  1  2  0\n  6  7  1  0\n  7  8  1  0\n  8  9  1  0\n  8 10  1  0\n  9 11  1  0\n 10 12  1  0\n 12 13  1  0\n 12 14  1  0\n 14 15  1  0\n 15 16  1  0\n 15 17  1  0\n 16 18  1  0\n 18 19  1  0\n 18 20  1  0\n 19 21  1  0\n 21 22  1  0\n 22 23  1  0\n 23 24  1  0\n 23 25  1  0\nM  END\n$$$$\n";

#[test]
fn records_are_made(rt: HostRuntime) -> Result<(), OutOfMemory> {
    let alloc = rt.alloc();
    let mut out = MemSink::new(alloc, 10_000, 100, Vec::new(alloc), Vec::new(alloc))?;
    assert_eq!(rt; make_file(alloc, 0, 0, &mut out), Ok(()));
    assert_eq!(rt; out.bytes(), b"".as_slice());
    assert_eq!(rt; make_file(alloc, 1, 0, &mut out), Ok(()));
    assert_eq!(rt; out.bytes(), RECORD);
    Ok(())
}

// The write that fails, the write that takes nothing, the room of the sink, and how many bytes it then has.
const WRITE_FAULTS: &[(u64, u64, usize, usize)] = &[
    (1, 9, 10_000, 0),
    (9, 1, 10_000, 0),
    (2, 9, 10_000, 5),
    (9, 9, 7, 7),
];

#[test]
fn faults_of_writing_are_told(rt: HostRuntime) -> Result<(), OutOfMemory> {
    for (failing, zero, room, count) in WRITE_FAULTS {
        let failing = Vec::from_slice(rt.alloc(), &[*failing])?;
        let zero = Vec::from_slice(rt.alloc(), &[*zero])?;
        let mut out = MemSink::new(rt.alloc(), *room, 5, failing, zero)?;
        assert!(rt; make_file(rt.alloc(), 2, 0, &mut out) == Err(MakeStop::WriteFault));
        assert!(rt; out.bytes().len() == *count && RECORD.starts_with(out.bytes()));
    }
    Ok(())
}
