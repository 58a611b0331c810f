// Scripts that are drawn, with several jobs in a group and several callers, and what a command answers over their
// files.
ghost use Rattle.std.specs.Prelude.{IfOk, OnOk};
ghost use Rattle.outside.specs.Memory.{HaveOwnNames};

use crate::differences::file;
use crate::drawn::{drawn, drawn_query, drawn_record};
use crate::made::{add, words};
use htss_top::htss;
use outside::{MemShelf, MemSink, NamedBytes};
use rand_pcg::Pcg32;
use std::alloc::Global;
use std::process::Abort;
use std::sync::Wait;
use std::test::Fail;
use std::thread::Threads;

// A script, its files, and how many searches it has.
#[derive(Drop)]
pub(crate) struct Drawn {
    pub(crate) script: String,
    pub(crate) files: Vec<NamedBytes>,
    pub(crate) searches: u32,
}

// A file of up to three records, some of which are refused.
fn records(alloc: Global, draws: &mut Pcg32, job: u32) -> Result<String, Fail> {
    let mut whole = String::new(alloc);
    for place in 0..drawn(draws, 4) {
        if drawn(draws, 6) == 0 {
            whole.push_str("x\n$$$$\n")?;
        } else {
            let name = format!(in alloc; "r{job}.{place}")?;
            whole.push_str(&drawn_record(alloc, draws, &name)?)?;
        }
    }
    Ok(whole)
}

// A query, or one that is refused.
fn query(alloc: Global, draws: &mut Pcg32) -> Result<String, Fail> {
    if drawn(draws, 8) == 0 {
        return Ok(String::from_str(alloc, "\n\n")?);
    }
    drawn_query(alloc, draws)
}

// The line of a search, every third time with a budget that may be too small.
fn search_line(alloc: Global, draws: &mut Pcg32, name: &str) -> Result<String, Fail> {
    if drawn(draws, 3) == 0 {
        let budget = drawn(draws, 30);
        return Ok(format!(in alloc; "search {name} {budget}\n")?);
    }
    Ok(format!(in alloc; "search {name}\n")?)
}

// One job more.
fn tell(
    rt: &impl Abort,
    alloc: Global,
    draws: &mut Pcg32,
    told: &mut Drawn,
    job: u32,
) -> Result<(), Fail>
    requires { HaveOwnNames told.old.files.items }
    ensures { OnOk result (HaveOwnNames told.new.files.items) }
{
    match drawn(draws, 5) {
        0 => {
            let number = drawn(draws, 30);
            told.script
                .push_str(&format!(in alloc; "withdraw {number}\n")?)?;
            Ok(())
        }
        1 | 2 => {
            let name = format!(in alloc; "{job}.sdf")?;
            told.script.push_str(&format!(in alloc; "load {name}\n")?)?;
            let text = records(alloc, draws, job)?;
            add(rt, &mut told.files, file(alloc, &name, &text)?)
        }
        _ => {
            let name = format!(in alloc; "{job}.mol")?;
            told.script.push_str(&search_line(alloc, draws, &name)?)?;
            told.searches = told.searches.saturating_add(1);
            let text = query(alloc, draws)?;
            add(rt, &mut told.files, file(alloc, &name, &text)?)
        }
    }
}

// A script of so many jobs, with a group for three of them or so.
fn drawn_script(rt: &impl Abort, alloc: Global, draws: &mut Pcg32, jobs: u32) -> Result<Drawn, Fail>
    ensures { IfOk result (λ told. HaveOwnNames told.files.items) }
{
    let mut told = Drawn {
        script: String::new(alloc),
        files: Vec::new(alloc),
        searches: 0,
    };
    for job in 0..jobs {
        tell(rt, alloc, draws, &mut told, job)?;
        if drawn(draws, 3) == 0 {
            told.script.push_str("settle\n")?;
        }
    }
    Ok(told)
}

// The drawn script of this seed, which stands among its files.
pub(crate) fn script_of(rt: &impl Abort, alloc: Global, seed: u64, jobs: u32) -> Result<Drawn, Fail>
    ensures { IfOk result (λ told. HaveOwnNames told.files.items) }
{
    let mut draws = Pcg32::new(seed, 56);
    let mut told = drawn_script(rt, alloc, &mut draws, jobs)?;
    let script = file(alloc, "s.txt", &told.script)?;
    add(rt, &mut told.files, script)?;
    Ok(told)
}

// What the words answer over a shelf: the status and the text.
pub(crate) fn answered<R: Threads + Wait + Sync>(
    rt: &R,
    alloc: Global,
    list: &[&str],
    shelf: &mut MemShelf,
) -> Result<(u8, String), Fail> {
    let words = words(alloc, list)?;
    let mut out = MemSink::new(alloc, 100_000, 100_000, vec![in alloc]?, vec![in alloc]?)?;
    let ended = htss(rt, alloc, &words, shelf, &mut out);
    let text = String::from_str(alloc, str::from_utf8(out.bytes())?)?;
    Ok((ended.status, text))
}

const WIDE: &[&str] = &[
    "run",
    "s.txt",
    "--loaders=3",
    "--searchers=2",
    "--pages=4000",
    "--room=20000",
    "--log=1000",
];

// Too little room for all records of a loader, and a log that is full before the end.
const NARROW: &[&str] = &[
    "run",
    "s.txt",
    "--loaders=3",
    "--searchers=2",
    "--pages=4000",
    "--room=150",
    "--log=9",
    "--budget=40",
];

// The report of the script of this seed.
pub(crate) fn report_of<R: Threads + Wait + Sync + Abort>(
    rt: &R,
    alloc: Global,
    seed: u64,
    jobs: u32,
) -> Result<String, Fail> {
    let told = script_of(rt, alloc, seed, jobs)?;
    let list = if seed % 2 == 0 { WIDE } else { NARROW };
    let mut shelf = MemShelf::new(told.files, vec![in alloc]?);
    let (status, report) = answered(rt, alloc, list, &mut shelf)?;
    assert_eq!(rt; status, 0, "seed {seed}");
    Ok(report)
}
