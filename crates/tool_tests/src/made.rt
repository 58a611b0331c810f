// Files in memory, and what a command line must answer over them.
ghost use Rattle.std.specs.Prelude.{OnOk};
ghost use Rattle.outside.specs.Memory.{HaveOwnNames};

use htss_defs::{Bytes, Text};
use outside::{MemShelf, MemSink, NamedBytes};
use std::alloc::Global;
use std::process::Abort;
use std::test::Fail;
use tool_commands::htss_tool;

// A file, whose text is given in parts.
#[derive(Clone, Copy, Drop)]
pub struct Given<'a> {
    pub name: &'a str,
    pub parts: &'a [&'a str],
}

// A command line, and what it must answer.
#[derive(Clone, Copy, Drop)]
pub struct Case<'a> {
    pub words: &'a [&'a str],
    // the call of the shelf that fails, 0 for none
    pub failing: u64,
    // the call of the sink that takes nothing, 0 for none
    pub zero: u64,
    pub status: u8,
    pub text: &'a str,
}

/// The words of a command line.
pub fn words(alloc: Global, list: &[&str]) -> Result<Vec<String>, Fail> {
    let mut words = Vec::new(alloc);
    for word in list {
        words.push(String::from_str(alloc, word)?)?;
    }
    Ok(words)
}

fn file(alloc: Global, given: &Given<'_>) -> Result<NamedBytes, Fail> {
    let mut bytes = Vec::new(alloc);
    for part in given.parts {
        bytes.extend_from_slice(part.as_bytes())?;
    }
    Ok(NamedBytes {
        name: Text::new(String::from_str(alloc, given.name)?),
        bytes: Bytes::new(bytes),
    })
}

// Adds a file, which has a name of its own.
fn add(rt: &impl Abort, files: &mut Vec<NamedBytes>, file: NamedBytes) -> Result<(), Fail>
    requires { HaveOwnNames files.old.items }
    ensures { OnOk result (HaveOwnNames files.new.items) }
{
    let name = file.name.as_str();
    assert!(rt; files.iter().all(|other| other.name.as_str() != name));
    files.push(file)?;
    Ok(())
}

/// A shelf of these files, of which one call fails, or none.
pub fn shelf(
    rt: &impl Abort,
    alloc: Global,
    list: &[Given<'_>],
    failing: u64,
) -> Result<MemShelf, Fail> {
    let mut files = Vec::new(alloc);
    for given in list {
        add(rt, &mut files, file(alloc, given)?)?;
    }
    Ok(MemShelf::new(files, vec![in alloc; failing]?))
}

/// Does what the words say over these files: the status.
pub fn done(
    rt: &impl Abort,
    alloc: Global,
    files: &[Given<'_>],
    failing: u64,
    list: &[&str],
    out: &mut MemSink,
) -> Result<u8, Fail> {
    let words = words(alloc, list)?;
    let mut shelf = shelf(rt, alloc, files, failing)?;
    Ok(htss_tool(alloc, &words, &mut shelf, out))
}

/// Asserts that a command line answers what it must.
pub fn is_right(
    rt: &impl Abort,
    alloc: Global,
    files: &[Given<'_>],
    case: &Case<'_>,
) -> Result<(), Fail> {
    let mut out = MemSink::new(alloc, 1000, 7, vec![in alloc]?, vec![in alloc; case.zero]?)?;
    let status = done(rt, alloc, files, case.failing, case.words, &mut out)?;
    let text = str::from_utf8(out.bytes())?;
    assert_eq!(rt;
        (status, text),
        (case.status, case.text),
        "{:?}",
        case.words
    );
    Ok(())
}
