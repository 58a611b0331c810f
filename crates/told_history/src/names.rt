// Which record each event is named by.
ghost use Rattle.std.specs.Prelude.{◌≡◌, ◌≢◌, ◌↔◌, ℕ, ◌<◌, ◌≤◌, ◌++◌, ◌∷◌, [], List};
ghost use Rattle.std.specs.Prelude.{IsTrue, IfOk, length, map, drop, take, option_map, unwrap_or, slice_get};
ghost use Rattle.std.specs.Prelude.{slice_index_or};
ghost use Rattle.std.specs.List.{AllZip};
ghost use Rattle.htss_defs.specs.Molecule.{Molecule};
ghost use Rattle.htss_defs.specs.declared.shape.Shape.{Shape};
ghost use Rattle.report_rules.specs.Dealing.{Dealt};
ghost use Rattle.report_rules.specs.Faults.{AreNamed, IsBlockFor, first_molecule, naming, namings, no_molecule};
ghost use Rattle.told_history.specs.LaidJobs.{dealt_by};
ghost use Rattle.told_history.specs.Named.{AreLinesFor, IsNamedAt, IsTable, IsWith, records_in};
ghost use Rattle.told_history.specs.Reads.{IsReadFor, IsReadOf, outcome_of};
ghost use Rattle.script_text.specs.FilesByLine.{bytes_at};

use crate::jobs::LaidJob;
use crate::reads::JobRead;
use crate::records::RecordRead;
use htss_defs::{Mol, OutOfMemory};
use report_text::{Block, LoadLine};
use script_text::{Job, Order};
use std::alloc::Global;

/// Which line names an event first: none, one at whose place no record was accepted, or that of a record with this
/// molecule.
#[derive(Clone, Copy)]
pub enum Namer<'a> {
    Nobody,
    NoRecord,
    Record(&'a Mol),
}

/// The namer of each event of a log of so many: what the blocks that stand at the places of the jobs name.
pub fn name_events<'a>(
    alloc: Global,
    jobs: &[LaidJob<'_>],
    reads: &'a [JobRead],
    blocks: &[Block],
    count: usize,
) -> Result<Vec<Namer<'a>>, OutOfMemory>
    ensures named { IfOk result (λ table. (files : List (ℕ × List ℕ)) (shape : Shape)
        → AllZip (IsReadOf files) jobs.now reads.now
        → (named : List (ℕ × Molecule)) × AreNamed files (map (dealt_by shape) jobs.now) blocks.now named
        × IsTable named table.items) }
    ensures long { IfOk result (λ table. length table.items ≡ count) }
{
    let mut table = vec![in alloc; Namer::Nobody; count]?;
    for (index, laid) in jobs.iter().enumerate() {
        name_job(&mut table, laid.job, reads, blocks, index);
    }
    Ok(table)
}

// Notes the events that the block at the place of a job names, if one stands there.
fn name_job<'a>(
    table: &mut [Namer<'a>],
    job: &Job,
    reads: &'a [JobRead],
    blocks: &[Block],
    index: usize,
)
    ensures { (files : List (ℕ × List ℕ)) (one : Dealt) → one.job ≡ job.now
        → ((d : JobRead) → IsReadFor (bytes_at files job.now.line) job.now.order (slice_index_or reads.now index d))
        → index < length reads.now → (named : List (ℕ × Molecule)) → IsTable named table.old
        → (here : List (ℕ × Molecule)) × IsNamedAt files one (slice_get blocks.now index) here
        × IsTable (named ++ here) table.new }
{
    if index < reads.len() && index < blocks.len() {
        let lines = lines_for(job, &blocks[index]);
        name_lines(table, records_of(&reads[index]), lines);
    }
}

// The lines of the block, where it is a load's and the job's.
fn lines_for<'a>(job: &Job, block: &'a Block) -> &'a [LoadLine]
    ensures { AreLinesFor job.now.line job.now.order block.now result.now }
{
    if !is_block_for(job, block) {
        return &[];
    }
    match block {
        Block::Load { answers, .. } => answers.as_slice(),
        Block::Withdraw { .. } | Block::Search { .. } => &[],
    }
}

/// Whether the block is the job's: of its kind, with its line and its file or number.
pub fn is_block_for(job: &Job, block: &Block) -> bool
    ensures { IsTrue result ↔ IsBlockFor job.now.line job.now.order block.now }
{
    match (&job.order, block) {
        (
            Order::Load { file },
            Block::Load {
                line,
                file: named,
                ..
            },
        ) => { *line == job.line && named.text() == file.text() }
        (
            Order::Withdraw { number },
            Block::Withdraw {
                line,
                number: named,
                ..
            },
        ) => { *line == job.line && named == number }
        (
            Order::Search { file, .. },
            Block::Search {
                line,
                file: named,
                ..
            },
        ) => { *line == job.line && named.text() == file.text() }
        _ => false,
    }
}

/// The records that a file was read as.
pub fn records_of(read: &JobRead) -> &[RecordRead]
    ensures { result.now ≡ records_in read.now }
{
    match read {
        JobRead::Records(records) => records.as_slice(),
        JobRead::Asked(_) | JobRead::Nothing => &[],
    }
}

// Notes the events that the lines of a load name, each with the record at its place.
fn name_lines<'a>(table: &mut [Namer<'a>], records: &'a [RecordRead], lines: &[LoadLine])
    ensures { (named : List (ℕ × Molecule)) → IsTable named table.old
        → IsTable (named ++ namings (map outcome_of records.now) lines.now) table.new }
{
    for (index, line) in lines.iter().enumerate() {
        name_line(table, records, index, line);
    }
}

// Notes the event that a line names, with the record at this index.
fn name_line<'a>(table: &mut [Namer<'a>], records: &'a [RecordRead], index: usize, line: &LoadLine)
    ensures { (named : List (ℕ × Molecule)) → IsTable named table.old
        → IsTable (named ++ naming (first_molecule (drop index (map outcome_of records.now))) line.now) table.new }
{
    if let LoadLine::Published { number, .. } = line {
        name_event(table, *number, molecule_at(records, index));
    }
}

// Notes that a line names the event, where none before does.
fn name_event<'a>(table: &mut [Namer<'a>], number: u32, mol: Option<&'a Mol>)
    ensures { (named : List (ℕ × Molecule)) → IsTable named table.old
        → IsTable (named ++ (number, unwrap_or (option_map (λ m. m.now) mol.entry) no_molecule) ∷ []) table.new }
{
    if number == 0 {
        return;
    }
    if number as usize > table.len() {
        return;
    }
    let index = number as usize - 1;
    if let Namer::Nobody = table[index] {
        table[index] = namer_with(mol);
    }
}

// The namer with this molecule.
fn namer_with<'a>(mol: Option<&'a Mol>) -> Namer<'a>
    ensures { IsWith (unwrap_or (option_map (λ m. m.now) mol.entry) no_molecule) result }
{
    match mol {
        Some(mol) => Namer::Record(mol),
        None => Namer::NoRecord,
    }
}

// The molecule of the record at this index.
fn molecule_at(records: &[RecordRead], index: usize) -> Option<&Mol>
    ensures { unwrap_or (option_map (λ m. m.now) result) no_molecule
        ≡ first_molecule (drop index (map outcome_of records.now)) }
{
    if index < records.len() {
        molecule_of(&records[index])
    } else {
        None
    }
}

// The molecule of the record, where it is accepted.
fn molecule_of(one: &RecordRead) -> Option<&Mol>
    ensures { unwrap_or (option_map (λ m. m.now) result) no_molecule ≡ first_molecule (outcome_of one.now ∷ []) }
{
    match one {
        RecordRead::Accepted { mol, .. } => Some(mol),
        RecordRead::Refused { .. } => None,
    }
}
