// Files in memory, and what a command line does over them.
ghost use Rattle.std.specs.Prelude.{OnOk, IfOk};
ghost use Rattle.outside.specs.Memory.{HaveOwnNames};

use htss_defs::{Bytes, Text};
use htss_top::htss;
use outside::{MemShelf, MemSink, NamedBytes};
use std::alloc::Global;
use std::process::Abort;
use std::sync::Wait;
use std::test::Fail;
use std::thread::Threads;

// A file, whose text is given in parts.
#[derive(Clone, Copy, Drop)]
pub(crate) struct Given<'a> {
    pub(crate) name: &'a str,
    pub(crate) parts: &'a [&'a str],
}

pub(crate) const CARBON: &str =
    "c\n\n\n  1  0  0  0  0  0  0  0  0  0999 V2000\n    0.0000    0.0000    0.0000 C   0  0\nM  END\n$$$$\n";

pub(crate) const ETHANOL: &str =
    "ethanol\n\n\n  3  2  0  0  0  0  0  0  0  0999 V2000\n    0.0000    0.0000    0.0000 C   0  0\n    0.0000    0.0000    0.0000 C   0  0\n    0.0000    0.0000    0.0000 O   0  0\n  1  2  1  0\n  2  3  1  0\nM  END\n$$$$\n";

const ETHER: &str =
    "ether\n\n\n  3  2  0  0  0  0  0  0  0  0999 V2000\n    0.0000    0.0000    0.0000 C   0  0\n    0.0000    0.0000    0.0000 O   0  0\n    0.0000    0.0000    0.0000 C   0  0\n  1  2  1  0\n  2  3  1  0\nM  END\n$$$$\n";

const CO: &str =
    "co\n\n\n  2  1  0  0  0  0  0  0  0  0999 V2000\n    0.0000    0.0000    0.0000 C   0  0\n    0.0000    0.0000    0.0000 O   0  0\n  1  2  1  0\nM  END\n";

// Files of the cases.
pub(crate) const FILES: [Given<'static>; 8] = [
    Given {
        name: "c.sdf",
        parts: &[CARBON],
    },
    Given {
        name: "c.mol",
        parts: &[CARBON],
    },
    Given {
        name: "two.sdf",
        parts: &[CARBON, CARBON],
    },
    Given {
        name: "ethanol.sdf",
        parts: &[ETHANOL],
    },
    Given {
        name: "a.sdf",
        parts: &[ETHANOL, ETHER],
    },
    Given {
        name: "co.mol",
        parts: &[CO],
    },
    Given {
        name: "fifteen.txt",
        parts: &["load fifteen.sdf\n"],
    },
    Given {
        name: "blank.mol",
        parts: &["\n\n"],
    },
];

pub(crate) fn words(alloc: Global, list: &[&str]) -> Result<Vec<String>, Fail> {
    let mut words = Vec::new(alloc);
    for word in list {
        words.push(String::from_str(alloc, word)?)?;
    }
    Ok(words)
}

fn file(alloc: Global, given: &Given<'_>) -> Result<NamedBytes, Fail> {
    let mut bytes = Vec::new(alloc);
    for part in given.parts {
        bytes.extend_from_slice(part.as_bytes())?;
    }
    Ok(NamedBytes {
        name: Text::new(String::from_str(alloc, given.name)?),
        bytes: Bytes::new(bytes),
    })
}

// Adds a file, which has a name of its own.
pub(crate) fn add(
    rt: &impl Abort,
    files: &mut Vec<NamedBytes>,
    file: NamedBytes,
) -> Result<(), Fail>
    requires { HaveOwnNames files.old.items }
    ensures { OnOk result (HaveOwnNames files.new.items) }
{
    let name = file.name.as_str();
    assert!(rt; files.iter().all(|other| other.name.as_str() != name));
    files.push(file)?;
    Ok(())
}

fn all_files(rt: &impl Abort, alloc: Global, given: &[Given<'_>]) -> Result<Vec<NamedBytes>, Fail>
    ensures { IfOk result (λ files. HaveOwnNames files.items) }
{
    let mut files = Vec::new(alloc);
    for one in given {
        add(rt, &mut files, file(alloc, one)?)?;
    }
    Ok(files)
}

// A shelf of the files of the cases, and of one more, of which this call fails, or none.
pub(crate) fn shelf(
    rt: &impl Abort,
    alloc: Global,
    more: &Given<'_>,
    failing: u64,
) -> Result<MemShelf, Fail> {
    let mut files = all_files(rt, alloc, &FILES)?;
    add(rt, &mut files, file(alloc, more)?)?;
    Ok(MemShelf::new(files, vec![in alloc; failing]?))
}

// Does what the words say over the files of the cases and one more: the status.
pub(crate) fn done<R: Threads + Wait + Sync + Abort>(
    rt: &R,
    alloc: Global,
    more: &Given<'_>,
    failing: u64,
    list: &[&str],
    out: &mut MemSink,
) -> Result<u8, Fail> {
    let words = words(alloc, list)?;
    let mut shelf = shelf(rt, alloc, more, failing)?;
    let ended = htss(rt, alloc, &words, &mut shelf, out);
    Ok(ended.status)
}

// Asserts that a command line ends with this status and this text.
pub(crate) fn is_right<R: Threads + Wait + Sync + Abort>(
    rt: &R,
    alloc: Global,
    more: &Given<'_>,
    list: &[&str],
    wanted: (u8, &str),
) -> Result<(), Fail> {
    let mut out = MemSink::new(alloc, 4000, 4000, vec![in alloc]?, vec![in alloc]?)?;
    let status = done(rt, alloc, more, 0, list, &mut out)?;
    assert_eq!(rt; (status, str::from_utf8(out.bytes())?), wanted, "{list:?}");
    Ok(())
}
