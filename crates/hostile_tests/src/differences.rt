// Random differences: what the program answers over drawn records beside what is computed in another way. A board
// answers as the plain registry does, and `find`, which screens, as a search of each record does.
ghost use Rattle.std.specs.Prelude.{IfOk, OnOk};
ghost use Rattle.htss_defs.specs.Marked.{IsMarked};
ghost use Rattle.outside.specs.Memory.{HaveOwnNames};
ghost use Rattle.reg_model.specs.Registries.{AreMarked};

use crate::drawn::{drawn, drawn_query, drawn_record};
use crate::made::add;
use arrayvec::ArrayVec;
use ctfile::read_molfile;
use embed::first_map;
use htss_defs::{Bytes, Hit, HitList, Mol, Name, Query, Text};
use htss_top::htss;
use outside::{MemShelf, MemSink, NamedBytes};
use query_mol::read_query;
use rand_pcg::Pcg32;
use reg_model::{PlainError, PlainRegistry};
use ring_bonds::mark_rings;
use std::alloc::Global;
use std::process::Abort;
use std::sync::Wait;
use std::test::Fail;
use std::thread::Threads;

// How many scripts are drawn, and how many jobs each has.
const SCRIPTS: u64 = 30;

const JOBS: u32 = 24;

// The name and the molecule of a record.
pub(crate) fn record_of(alloc: Global, text: &str) -> Result<(Name, Mol), Fail>
    ensures { IfOk result (λ r. IsMarked r.1) }
{
    match read_molfile(alloc, text.as_bytes())? {
        Ok((name, mut mol)) => {
            mark_rings(&mut mol);
            Ok((name, mol))
        }
        Err(_) => Err("a drawn record that is refused".into()),
    }
}

pub(crate) fn query_of(alloc: Global, text: &str) -> Result<Query, Fail> {
    match read_query(alloc, text.as_bytes())? {
        Ok(query) => Ok(query),
        Err(_) => Err("a drawn query that is refused".into()),
    }
}

// A map and a name, as they are printed.
fn push_hit(
    text: &mut String,
    alloc: Global,
    number: u32,
    map: &[u16],
    name: &Name,
) -> Result<(), Fail> {
    text.push_str(&format!(in alloc; "hit {number} ")?)?;
    for (index, place) in map.iter().enumerate() {
        if index > 0 {
            text.push(',')?;
        }
        text.push_str(&format!(in alloc; "{place}")?)?;
    }
    text.push_str(&format!(in alloc; " {}\n", str::from_utf8(name.bytes())?)?)?;
    Ok(())
}

// What is drawn of a script: its lines, its files, and the blocks and the log that a plain registry gives.
#[derive(Drop)]
struct Story {
    registry: PlainRegistry,
    script: String,
    files: Vec<NamedBytes>,
    blocks: String,
    log: String,
}

pub(crate) fn file(alloc: Global, name: &str, text: &str) -> Result<NamedBytes, Fail> {
    Ok(NamedBytes {
        name: Text::new(String::from_str(alloc, name)?),
        bytes: Bytes::new(Vec::from_slice(alloc, text.as_bytes())?),
    })
}

// What the registry answers to a withdrawal.
fn withdrawn(registry: &mut PlainRegistry, number: u32) -> Result<u32, PlainError>
    requires { AreMarked registry.old.events }
    ensures { AreMarked registry.new.events }
{
    registry.withdraw(1, number)
}

// The answer as it is printed.
fn told(alloc: Global, answer: Result<u32, PlainError>) -> Result<String, Fail> {
    Ok(match answer {
        Ok(event) => format!(in alloc; "at {event}")?,
        Err(PlainError::Unknown { front }) => format!(in alloc; "Unknown {front}")?,
        Err(PlainError::Gone { at }) => format!(in alloc; "Gone {at}")?,
        Err(_) => return Err("a registry that is full".into()),
    })
}

// The line of the log, where there is an event.
fn logged(alloc: Global, answer: &Result<u32, PlainError>, number: u32) -> Result<String, Fail> {
    match answer {
        Ok(event) => Ok(format!(in alloc; "event {event} withdraw 1 {number}\n")?),
        Err(_) => Ok(String::new(alloc)),
    }
}

// A number is withdrawn.
fn withdraw(alloc: Global, story: &mut Story, line: u32, number: u32) -> Result<(), Fail>
    requires marked { AreMarked story.old.registry.events }
    requires names { HaveOwnNames story.old.files.items }
    ensures marked { OnOk result (AreMarked story.new.registry.events) }
    ensures names { OnOk result (HaveOwnNames story.new.files.items) }
{
    let answer = withdrawn(&mut story.registry, number);
    let logged = logged(alloc, &answer, number)?;
    let block = format!(in alloc; "withdraw {line} {number} {}\n", told(alloc, answer)?)?;
    let job = format!(in alloc; "withdraw {number}\nsettle\n")?;
    story.script.push_str(&job)?;
    story.log.push_str(&logged)?;
    story.blocks.push_str(&block)?;
    Ok(())
}

// One record is published.
fn publish(alloc: Global, story: &mut Story, text: &str) -> Result<(), Fail>
    requires marked { AreMarked story.old.registry.events }
    requires names { HaveOwnNames story.old.files.items }
    ensures marked { OnOk result (AreMarked story.new.registry.events) }
    ensures names { OnOk result (HaveOwnNames story.new.files.items) }
{
    let (name, mol) = record_of(alloc, text)?;
    let printed = String::from_str(alloc, str::from_utf8(name.bytes())?)?;
    let (atoms, bonds) = (mol.atoms().len(), mol.bonds().len());
    match story.registry.publish(1, name, mol) {
        Ok(number) => {
            story
                .blocks
                .push_str(&format!(in alloc; "published {number} {printed}\n")?)?;
            story.log.push_str(&format!(in alloc;
                "event {number} publish 1 {atoms} {bonds} {printed}\n"
            )?)?;
            Ok(())
        }
        Err(_) => Err("a registry that is full".into()),
    }
}

// A file of up to four records is loaded.
fn load(
    rt: &impl Abort,
    alloc: Global,
    draws: &mut Pcg32,
    story: &mut Story,
    line: u32,
) -> Result<(), Fail>
    requires marked { AreMarked story.old.registry.events }
    requires names { HaveOwnNames story.old.files.items }
    ensures marked { OnOk result (AreMarked story.new.registry.events) }
    ensures names { OnOk result (HaveOwnNames story.new.files.items) }
{
    let name = format!(in alloc; "{line}.sdf")?;
    story
        .script
        .push_str(&format!(in alloc; "load {name}\nsettle\n")?)?;
    story
        .blocks
        .push_str(&format!(in alloc; "load {line} {name}\n")?)?;
    let mut whole = String::new(alloc);
    let count = drawn(draws, 5);
    for place in 0..count {
        let called = format!(in alloc; "r{line}.{place}")?;
        let text = drawn_record(alloc, draws, &called)?;
        publish(alloc, story, &text)?;
        whole.push_str(&text)?;
    }
    story
        .blocks
        .push_str(&format!(in alloc; "loaded {count}\n")?)?;
    add(rt, &mut story.files, file(alloc, &name, &whole)?)
}

pub(crate) fn push_hits(text: &mut String, alloc: Global, hits: &HitList) -> Result<(), Fail> {
    for hit in hits.hits() {
        let Hit { number, name, map } = hit;
        push_hit(text, alloc, *number, map.as_slice(), name)?;
    }
    Ok(())
}

// A query is searched for.
fn search(
    rt: &impl Abort,
    alloc: Global,
    draws: &mut Pcg32,
    story: &mut Story,
    line: u32,
) -> Result<(), Fail>
    requires marked { AreMarked story.old.registry.events }
    requires names { HaveOwnNames story.old.files.items }
    ensures marked { OnOk result (AreMarked story.new.registry.events) }
    ensures names { OnOk result (HaveOwnNames story.new.files.items) }
{
    let name = format!(in alloc; "{line}.mol")?;
    story
        .script
        .push_str(&format!(in alloc; "search {name}\nsettle\n")?)?;
    let text = drawn_query(alloc, draws)?;
    let query = query_of(alloc, &text)?;
    let events = story.registry.events().len();
    if events > 1000 {
        return Err("a registry that is full".into());
    }
    let front = events as u32;
    let mut hits = HitList::new(alloc);
    if story
        .registry
        .search_at(front, &query, u64::MAX, &mut hits)
        .is_err()
    {
        return Err("a search without an answer".into());
    }
    story.blocks.push_str(&format!(in alloc; "search {line} {name} front {front}\n")?)?;
    push_hits(&mut story.blocks, alloc, &hits)?;
    let (count, records) = (hits.hits().len(), hits.records());
    story
        .blocks
        .push_str(&format!(in alloc; "hits {count} records {records}\n")?)?;
    add(rt, &mut story.files, file(alloc, &name, &text)?)
}

// One job more.
fn tell(
    rt: &impl Abort,
    alloc: Global,
    draws: &mut Pcg32,
    story: &mut Story,
    line: u32,
) -> Result<(), Fail>
    requires marked { AreMarked story.old.registry.events }
    requires names { HaveOwnNames story.old.files.items }
    ensures marked { OnOk result (AreMarked story.new.registry.events) }
    ensures names { OnOk result (HaveOwnNames story.new.files.items) }
{
    match drawn(draws, 5) {
        0 => {
            let number = drawn(draws, 40) as u32;
            withdraw(alloc, story, line, number)
        }
        1 | 2 => load(rt, alloc, draws, story, line),
        _ => search(rt, alloc, draws, story, line),
    }
}

// A whole script, each of whose groups has one job.
fn story_of(rt: &impl Abort, alloc: Global, draws: &mut Pcg32) -> Result<Story, Fail>
    ensures { IfOk result (λ story. HaveOwnNames story.files.items) }
{
    let mut story = Story {
        registry: PlainRegistry::new(alloc, 1000),
        script: String::new(alloc),
        files: Vec::new(alloc),
        blocks: String::new(alloc),
        log: String::new(alloc),
    };
    for job in 0..JOBS {
        tell(rt, alloc, draws, &mut story, 2 * job + 1)?;
    }
    Ok(story)
}

// The report without the numbers of rows, which no plain registry has.
pub(crate) fn without_rows(alloc: Global, report: &str) -> Result<String, Fail> {
    let mut text = String::new(alloc);
    for line in report.lines() {
        let mut skips = false;
        for (index, word) in line.split(' ').enumerate() {
            if index == 2 && word == "rows" && line.starts_with("hits ") {
                skips = true;
            } else if skips {
                skips = false;
            } else {
                if index > 0 {
                    text.push(' ')?;
                }
                text.push_str(word)?;
            }
        }
        text.push('\n')?;
    }
    Ok(text)
}

const WORDS: [&str; 7] = [
    "run",
    "s.txt",
    "--loaders=1",
    "--searchers=1",
    "--pages=4000",
    "--room=20000",
    "--log=1000",
];

const HEADER: &str =
    "htss 1 loaders 1 searchers 1 pages 4000 room 20000 log 1000 chain 65535 budget 10000000000\n";

// The board answers the script as the plain registry does.
fn board_answers<R: Threads + Wait + Sync + Abort>(
    rt: &R,
    alloc: Global,
    seed: u64,
) -> Result<(), Fail> {
    let mut draws = Pcg32::new(seed, 54);
    let story = story_of(rt, alloc, &mut draws)?;
    let events = story.registry.events().len();
    let wanted = format!(in alloc; "{HEADER}{}log {events}\n{}end\n", story.blocks, story.log)?;
    let Story {
        script,
        mut files,
        ..
    } = story;
    add(rt, &mut files, file(alloc, "s.txt", &script)?)?;
    let mut words = Vec::new(alloc);
    for word in WORDS {
        words.push(String::from_str(alloc, word)?)?;
    }
    let mut shelf = MemShelf::new(files, vec![in alloc]?);
    let mut out = MemSink::new(alloc, 100_000, 100_000, vec![in alloc]?, vec![in alloc]?)?;
    let ended = htss(rt, alloc, &words, &mut shelf, &mut out);
    assert_eq!(rt; ended.status, 0, "seed {seed}");
    let report = without_rows(alloc, str::from_utf8(out.bytes())?)?;
    assert_eq!(rt; report, wanted, "seed {seed}");
    Ok(())
}

#[test]
fn a_board_answers_as_a_plain_registry(rt: HostRuntime) -> Result<(), Fail> {
    for seed in 0..SCRIPTS {
        board_answers(&rt, rt.alloc(), seed)?;
    }
    Ok(())
}

// The hits of a query in records that are searched one by one.
fn hits_of(alloc: Global, records: &[String], query: &Query) -> Result<String, Fail> {
    let mut text = String::new(alloc);
    let mut count = 0u32;
    let mut number = 0u32;
    let mut map = ArrayVec::new();
    for record in records {
        number = number.wrapping_add(1);
        let (name, mol) = record_of(alloc, record)?;
        if first_map(query, &mol, &mut map) {
            count = count.wrapping_add(1);
            push_hit(&mut text, alloc, number, map.as_slice(), &name)?;
        }
    }
    text.push_str(&format!(in alloc; "hits {count}\n")?)?;
    Ok(text)
}

// `find` over forty drawn records, with a drawn query.
fn find_answers<R: Threads + Wait + Sync + Abort>(
    rt: &R,
    alloc: Global,
    seed: u64,
) -> Result<(), Fail> {
    let mut draws = Pcg32::new(seed, 55);
    let mut records = Vec::new(alloc);
    let mut whole = String::new(alloc);
    for place in 0..40u32 {
        let name = format!(in alloc; "r{place}")?;
        let record = drawn_record(alloc, &mut draws, &name)?;
        whole.push_str(&record)?;
        records.push(record)?;
    }
    let asked = drawn_query(alloc, &mut draws)?;
    let wanted = hits_of(alloc, records.as_slice(), &query_of(alloc, &asked)?)?;
    let mut files = Vec::new(alloc);
    add(rt, &mut files, file(alloc, "all.sdf", &whole)?)?;
    add(rt, &mut files, file(alloc, "q.mol", &asked)?)?;
    let mut words = Vec::new(alloc);
    for word in ["find", "all.sdf", "q.mol"] {
        words.push(String::from_str(alloc, word)?)?;
    }
    let mut shelf = MemShelf::new(files, vec![in alloc]?);
    let mut out = MemSink::new(alloc, 100_000, 100_000, vec![in alloc]?, vec![in alloc]?)?;
    let ended = htss(rt, alloc, &words, &mut shelf, &mut out);
    assert_eq!(rt;
        (ended.status, str::from_utf8(out.bytes())?),
        (0, &*wanted),
        "seed {seed}"
    );
    Ok(())
}

#[test]
fn find_answers_as_a_search_of_each_record(rt: HostRuntime) -> Result<(), Fail> {
    for seed in 0..60 {
        find_answers(&rt, rt.alloc(), seed)?;
    }
    Ok(())
}
