// What the walk of a closed board must find, by the records alone: their codes are those of the molecules, and their
// blocks stand in their loaders' regions one after the other.
ghost use Rattle.htss_defs.specs.Marked.{IsMarked};

use crate::boards::Done;
use crate::loads::{Outcome, Try};
use crate::pages::Page;
use crate::sketches::{Sketch, molecule_of, name_of};
use crate::walks::{Entry, Path, Walk};
use board::Final;
use env_code::codes_of;
use htss_defs::{Event, Mol, Shape};
use loader::StageError;
use std::alloc::Global;
use std::test::Fail;

// The place of the first word of a loader's region. Loaders count from 0.
fn region_of(shape: &Shape, loader: usize) -> u64 {
    let before = 3 + shape.loaders as u64 + shape.searchers as u64 + 17 * shape.pages as u64;
    let regions = before.saturating_add(shape.log as u64);
    regions.saturating_add((loader as u64).saturating_mul(shape.room as u64))
}

// Whether the codes begin with the path.
fn is_below(path: &Path, codes: &[u64; 5]) -> bool {
    for place in 0..5usize {
        if place < path.depth && path.codes[place] != codes[place] {
            return false;
        }
    }
    true
}

// How often this word stands in a leaf. Each time the leaf must be on the path of the codes.
fn times(entries: &[Entry], word: u64, codes: &[u64; 5]) -> Result<usize, Fail> {
    let mut count = 0usize;
    for entry in entries {
        if entry.word == word {
            if !is_below(&entry.path, codes) {
                return Err("a row below another path".into());
            }
            count = count.saturating_add(1);
        }
    }
    Ok(count)
}

// How many of the rows of a block are found, each once. They must be the first ones.
fn first_rows(entries: &[Entry], block: u64, mol: &Mol) -> Result<usize, Fail>
    requires { IsMarked mol.now }
{
    let mut found = 0usize;
    let mut missing = false;
    for index in 0..mol.atoms().len() {
        let atom = index as u16 + 1;
        let word = block.saturating_mul(1024).saturating_add(atom as u64);
        match (times(entries, word, &codes_of(mol, atom).words)?, missing) {
            (0, _) => missing = true,
            (1, false) => found = found.saturating_add(1),
            (1, true) => return Err("a row behind one that is missing".into()),
            _ => return Err("a row twice".into()),
        }
    }
    Ok(found)
}

// The rows of one record. All of them are found if it was staged. If it was refused a page or room in a chain, the one
// that was refused is not found, nor are those behind it. Answers how many are found.
fn rows_of_try(
    alloc: Global,
    entries: &[Entry],
    region: u64,
    sketch: &Sketch,
    tried: &Try,
) -> Result<usize, Fail> {
    let mol = molecule_of(alloc, sketch).ok_or("no molecule")?;
    let found = first_rows(entries, region.saturating_add(tried.used as u64), &mol)?;
    let whole = found == mol.atoms().len();
    match tried.outcome {
        Outcome::Published(_) | Outcome::LogFull if whole => Ok(found),
        Outcome::Refused(StageError::NoPage | StageError::ChainFull { .. }) if !whole => Ok(found),
        Outcome::Published(_) | Outcome::LogFull => Err("a row that is missing".into()),
        _ => Err("a refusal that is none".into()),
    }
}

// The event that published the record shows its name and its molecule, and the loader.
fn is_shown(
    alloc: Global,
    events: &[Event],
    number: u32,
    loader: usize,
    sketch: &Sketch,
) -> Result<(), Fail> {
    let index = number.checked_sub(1).ok_or("number 0")? as usize;
    match events.get(index) {
        Some(Event::Publish { caller, name, mol })
            if *caller as usize == loader.saturating_add(1) => {
            let wanted = molecule_of(alloc, sketch).ok_or("no molecule")?;
            if name.bytes() == name_of(alloc, sketch).ok_or("no name")?.bytes()
                && mol.atoms() == wanted.atoms()
                && mol.bonds() == wanted.bonds()
            {
                Ok(())
            } else {
                Err("an event of another record".into())
            }
        }
        _ => Err("a number of no such event".into()),
    }
}

// What was published, and how many rows were found.
#[derive(Clone, Copy, Debug, PartialEq, Eq, Drop)]
pub(crate) struct Tally {
    pub(crate) published: usize,
    pub(crate) refused: usize,
    pub(crate) rows: usize,
}

// Everything that one loader has tried.
fn tally_of(
    alloc: Global,
    last: &Final,
    walk: &Walk,
    loader: usize,
    done: &Done,
    sketches: &[Sketch],
    tally: &mut Tally,
) -> Result<(), Fail> {
    if done.failed {
        return Err("out of memory".into());
    }
    let events = last.history(alloc)?;
    let region = region_of(&last.shape(), loader);
    for tried in &done.tries {
        let sketch = sketches.get(tried.sketch).ok_or("no sketch")?;
        let rows = rows_of_try(alloc, walk.entries.as_slice(), region, sketch, tried)?;
        tally.rows = tally.rows.saturating_add(rows);
        match tried.outcome {
            Outcome::Published(number) => {
                is_shown(alloc, events.as_slice(), number, loader, sketch)?;
                tally.published = tally.published.saturating_add(1);
            }
            _ => tally.refused = tally.refused.saturating_add(1),
        }
    }
    Ok(())
}

// No code stands twice in the chains of one path.
fn branches_differ(branches: &[Path]) -> Result<(), Fail> {
    for (index, path) in branches.iter().enumerate() {
        if branches
            .iter()
            .skip(index.saturating_add(1))
            .any(|other| other == path)
        {
            return Err("a code twice".into());
        }
    }
    Ok(())
}

// Each published row is found once, under its codes, and there are no other rows than those that were tried. Each event
// is named by one record.
pub(crate) fn check_rows(
    alloc: Global,
    last: &Final,
    walk: &Walk,
    done: &[Done],
    sketches: &[Sketch],
) -> Result<Tally, Fail> {
    let mut tally = Tally {
        published: 0,
        refused: 0,
        rows: 0,
    };
    for (loader, one) in done.iter().enumerate() {
        tally_of(alloc, last, walk, loader, one, sketches, &mut tally)?;
    }
    if tally.rows != walk.entries.len() {
        return Err("a row of no record".into());
    }
    if tally.published != last.history(alloc)?.len() {
        return Err("an event of no record".into());
    }
    branches_differ(walk.branches.as_slice())?;
    Ok(tally)
}

// After each loader has taken what it could, each page is either of the tree or was taken by one of them, once, or no
// loader's. The last comes only where each loader was given 32, as many as it may have, and then the page is not busy.
pub(crate) fn check_pages(pages: &[Page], walk: &Walk, done: &[Done]) -> Result<(), Fail> {
    let all_sated = done.iter().all(|one| one.taken.len() == 32);
    for (index, page) in pages.iter().enumerate() {
        let linked = walk.visited.get(index).ok_or("no such page")?;
        let number = index.saturating_add(1);
        let mut taken = 0usize;
        for one in done {
            let own = one
                .taken
                .iter()
                .filter(|page| **page as usize == number)
                .count();
            taken = taken.saturating_add(own);
        }
        match (*linked, taken) {
            (true, 0) | (false, 1) => {}
            (true, _) => return Err("a linked page that was taken".into()),
            (false, 0) if all_sated && page.state != 1 => {}
            (false, 0) => return Err("a page that is given no more".into()),
            _ => return Err("a page that was taken twice".into()),
        }
    }
    Ok(())
}
