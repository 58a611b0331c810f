// Searches beside loads and withdrawals, all in threads of their own. The log of the report is done again by the plain
// registry, and each answer is what that gives at the front of the answer: the live records into which the query
// embeds, in order, each with its least embedding.
ghost use Rattle.std.specs.Prelude.{IfOk, OnOk};
ghost use Rattle.outside.specs.Memory.{HaveOwnNames};
ghost use Rattle.reg_model.specs.Registries.{AreMarked};

use crate::differences::{file, push_hits, query_of, record_of, without_rows};
use crate::drawn::{drawn_query, drawn_record};
use crate::made::{add, words};
use htss_defs::HitList;
use htss_top::htss;
use outside::{MemShelf, MemSink, NamedBytes};
use rand_pcg::Pcg32;
use reg_model::PlainRegistry;
use std::alloc::Global;
use std::process::Abort;
use std::sync::Wait;
use std::test::Fail;
use std::thread::Threads;

// How many records are loaded before the others, and withdrawn beside them.
const FIRST: u32 = 40;

// How many queries there are.
const QUERIES: u32 = 8;

// The jobs that are done beside each other: so many files of so many records, and so many searches.
#[derive(Clone, Copy, Drop)]
struct Size {
    files: u32,
    records: u32,
    searches: u32,
}

// A script, its files, and all records by their order. The record of place 17 is called 17.
#[derive(Drop)]
struct Plan {
    script: String,
    files: Vec<NamedBytes>,
    records: Vec<String>,
    queries: Vec<String>,
}

// One file more, of so many drawn records.
fn add_records(
    rt: &impl Abort,
    alloc: Global,
    draws: &mut Pcg32,
    plan: &mut Plan,
    name: &str,
    count: u32,
) -> Result<(), Fail>
    requires { HaveOwnNames plan.old.files.items }
    ensures { OnOk result (HaveOwnNames plan.new.files.items) }
{
    let mut whole = String::new(alloc);
    for _record in 0..count {
        let called = format!(in alloc; "{}", plan.records.len())?;
        let text = drawn_record(alloc, draws, &called)?;
        whole.push_str(&text)?;
        plan.records.push(text)?;
    }
    add(rt, &mut plan.files, file(alloc, name, &whole)?)
}

// The queries, each in a file of its own.
fn add_queries(
    rt: &impl Abort,
    alloc: Global,
    draws: &mut Pcg32,
    plan: &mut Plan,
) -> Result<(), Fail>
    requires { HaveOwnNames plan.old.files.items }
    ensures { OnOk result (HaveOwnNames plan.new.files.items) }
{
    for place in 0..QUERIES {
        let text = drawn_query(alloc, draws)?;
        let name = format!(in alloc; "{place}.mol")?;
        add(rt, &mut plan.files, file(alloc, &name, &text)?)?;
        plan.queries.push(text)?;
    }
    Ok(())
}

// The files that are loaded beside each other.
fn add_loads(
    rt: &impl Abort,
    alloc: Global,
    draws: &mut Pcg32,
    plan: &mut Plan,
    size: Size,
) -> Result<(), Fail>
    requires { HaveOwnNames plan.old.files.items }
    ensures { OnOk result (HaveOwnNames plan.new.files.items) }
{
    for place in 0..size.files {
        let name = format!(in alloc; "{place}.sdf")?;
        add_records(rt, alloc, draws, plan, &name, size.records)?;
        plan.script.push_str(&format!(in alloc; "load {name}\n")?)?;
    }
    Ok(())
}

fn add_withdrawals(alloc: Global, script: &mut String) -> Result<(), Fail> {
    for number in 0..FIRST {
        script.push_str(&format!(in alloc; "withdraw {}\n", number.saturating_add(1))?)?;
    }
    Ok(())
}

fn add_searches(alloc: Global, script: &mut String, searches: u32) -> Result<(), Fail> {
    for place in 0..searches {
        script.push_str(&format!(in alloc; "search {}.mol\n", place % QUERIES)?)?;
    }
    Ok(())
}

// The whole plan: some records are loaded, then all else is done in one group.
fn plan_of(rt: &impl Abort, alloc: Global, draws: &mut Pcg32, size: Size) -> Result<Plan, Fail>
    ensures { IfOk result (λ plan. HaveOwnNames plan.files.items) }
{
    let mut plan = Plan {
        script: String::from_str(alloc, "load first.sdf\nsettle\n")?,
        files: Vec::new(alloc),
        records: Vec::new(alloc),
        queries: Vec::new(alloc),
    };
    add_records(rt, alloc, draws, &mut plan, "first.sdf", FIRST)?;
    add_queries(rt, alloc, draws, &mut plan)?;
    add_loads(rt, alloc, draws, &mut plan, size)?;
    add_withdrawals(alloc, &mut plan.script)?;
    add_searches(alloc, &mut plan.script, size.searches)?;
    let script = file(alloc, "s.txt", &plan.script)?;
    add(rt, &mut plan.files, script)?;
    Ok(plan)
}

const WORDS: [&str; 7] = [
    "run",
    "s.txt",
    "--loaders=8",
    "--searchers=1",
    "--pages=40000",
    "--room=40000",
    "--log=4000",
];

// What eight loaders and a searcher print.
fn report_of<R: Threads + Wait + Sync + Abort>(
    rt: &R,
    alloc: Global,
    files: Vec<NamedBytes>,
) -> Result<String, Fail>
    requires { HaveOwnNames files.items }
{
    let mut shelf = MemShelf::new(files, vec![in alloc]?);
    let mut out = MemSink::new(
        alloc,
        8_000_000,
        8_000_000,
        vec![in alloc]?,
        vec![in alloc]?,
    )?;
    let ended = htss(rt, alloc, &words(alloc, &WORDS)?, &mut shelf, &mut out);
    assert_eq!(rt; ended.status, 0);
    Ok(String::from_str(alloc, str::from_utf8(out.bytes())?)?)
}

// The number that a word of a line begins with.
fn number_at(line: &str, place: usize) -> Result<u32, Fail> {
    let word = line
        .split(' ')
        .nth(place)
        .ok_or("a line that is too short")?;
    let digits = word.split('.').next().ok_or("no word")?;
    match digits.parse::<u32>() {
        Ok(number) => Ok(number),
        Err(_) => Err("a word that is no number".into()),
    }
}

// A record is published again.
fn publish_again(
    alloc: Global,
    registry: &mut PlainRegistry,
    line: &str,
    records: &[String],
) -> Result<u32, Fail>
    requires { AreMarked registry.old.events }
    ensures { OnOk result (AreMarked registry.new.events) }
{
    let caller = number_at(line, 3)?.min(255) as u8;
    let place = number_at(line, 6)? as usize;
    let text = records.get(place).ok_or("a record of another name")?;
    let (name, mol) = record_of(alloc, text)?;
    match registry.publish(caller, name, mol) {
        Ok(number) => Ok(number),
        Err(_) => Err("a registry that is full".into()),
    }
}

// A record is withdrawn again.
fn withdraw_again(registry: &mut PlainRegistry, line: &str) -> Result<u32, Fail>
    requires { AreMarked registry.old.events }
    ensures { OnOk result (AreMarked registry.new.events) }
{
    let caller = number_at(line, 3)?.min(255) as u8;
    let gone = number_at(line, 4)?;
    match registry.withdraw(caller, gone) {
        Ok(number) => Ok(number),
        Err(_) => Err("a withdrawal that no history has".into()),
    }
}

// An event of the log is done again. Answers its number.
fn do_again(
    alloc: Global,
    registry: &mut PlainRegistry,
    line: &str,
    records: &[String],
) -> Result<u32, Fail>
    requires { AreMarked registry.old.events }
    ensures { OnOk result (AreMarked registry.new.events) }
{
    if line.contains(" publish ") {
        publish_again(alloc, registry, line, records)
    } else {
        withdraw_again(registry, line)
    }
}

// The history of the report, done again.
fn registry_of(
    rt: &impl Abort,
    alloc: Global,
    report: &str,
    records: &[String],
) -> Result<PlainRegistry, Fail>
    ensures { IfOk result (λ registry. AreMarked registry.events) }
{
    let mut registry = PlainRegistry::new(alloc, 4000);
    for line in report.lines() {
        if line.starts_with("event ") {
            let number = do_again(alloc, &mut registry, line, records)?;
            assert_eq!(rt; number_at(line, 1)?, number);
        }
    }
    Ok(registry)
}

// What the block of a search has to be, by its first line.
fn push_block(
    rt: &impl Abort,
    alloc: Global,
    registry: &PlainRegistry,
    queries: &[String],
    line: &str,
    text: &mut String,
) -> Result<(), Fail>
    requires { AreMarked registry.now.events }
{
    let text_of_query = queries
        .get(number_at(line, 2)? as usize)
        .ok_or("a query of another name")?;
    let query = query_of(alloc, text_of_query)?;
    let front = number_at(line, 4)?;
    let events = registry.events().len();
    assert!(rt; front as usize <= events);
    let mut hits = HitList::new(alloc);
    if registry
        .search_at(front, &query, u64::MAX, &mut hits)
        .is_err()
    {
        return Err("a search without an answer".into());
    }
    text.push_str(&format!(in alloc; "{line}\n")?)?;
    push_hits(text, alloc, &hits)?;
    let (count, records) = (hits.hits().len(), hits.records());
    text.push_str(&format!(in alloc; "hits {count} records {records}\n")?)?;
    Ok(())
}

// The blocks of all searches, as they have to be. Their fronts never go back.
fn wanted_blocks(
    rt: &impl Abort,
    alloc: Global,
    registry: &PlainRegistry,
    queries: &[String],
    report: &str,
) -> Result<String, Fail>
    requires { AreMarked registry.now.events }
{
    let mut text = String::new(alloc);
    let mut seen = 0;
    for line in report.lines() {
        if line.starts_with("search ") {
            push_block(rt, alloc, registry, queries, line, &mut text)?;
            let front = number_at(line, 4)?;
            assert!(rt; seen <= front);
            seen = front;
        }
    }
    Ok(text)
}

// The blocks of all searches, as they are, without the numbers of rows.
fn given_blocks(alloc: Global, report: &str) -> Result<String, Fail> {
    let mut text = String::new(alloc);
    for line in report.lines() {
        if line.starts_with("search ") || line.starts_with("hit") {
            text.push_str(&format!(in alloc; "{line}\n")?)?;
        }
    }
    without_rows(alloc, &text)
}

// Everything is loaded and withdrawn, and each answer is that of its front.
fn each_answer_is_of_its_front<R: Threads + Wait + Sync + Abort>(
    rt: &R,
    alloc: Global,
    seed: u64,
    size: Size,
) -> Result<(), Fail> {
    let mut draws = Pcg32::new(seed, 56);
    let Plan {
        files,
        records,
        queries,
        ..
    } = plan_of(rt, alloc, &mut draws, size)?;
    let report = report_of(rt, alloc, files)?;
    let registry = registry_of(rt, alloc, &report, records.as_slice())?;
    let events = records.len().saturating_add(FIRST as usize);
    assert_eq!(rt; registry.events().len(), events, "seed {seed}");
    let wanted = wanted_blocks(rt, alloc, &registry, queries.as_slice(), &report)?;
    let given = given_blocks(alloc, &report)?;
    assert_eq!(rt; given, wanted, "seed {seed}");
    Ok(())
}

// Few records and many searches, then more records, in a file for each loader and in three.
const SIZES: [Size; 3] = [
    Size {
        files: 8,
        records: 10,
        searches: 100,
    },
    Size {
        files: 8,
        records: 20,
        searches: 60,
    },
    Size {
        files: 24,
        records: 5,
        searches: 60,
    },
];

#[test]
fn each_answer_beside_eight_loaders_is_that_of_its_front(rt: HostRuntime) -> Result<(), Fail> {
    let alloc = rt.alloc();
    let mut seed = 0;
    for size in SIZES {
        each_answer_is_of_its_front(&rt, alloc, seed, size)?;
        seed = seed.wrapping_add(1);
    }
    Ok(())
}
