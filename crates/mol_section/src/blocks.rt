// The walk over the lines of a section, whatever is made of them.
ghost use Rattle.std.specs.Prelude.{◌≡◌, ℕ, ◌+◌, ◌<◌, ◌≤◌, ◌^◌, [], false, length, OnOk, IfOk, IfErr};
ghost use Rattle.htss_defs.specs.Graph.{Graph};
ghost use Rattle.mol_section.specs.Lines.{lines_of};
ghost use Rattle.mol_section.specs.SectionLines.{passes_next};
ghost use Rattle.mol_section.specs.Walk.{AtBlocks, AtProperties, IsRead, IsPart, IsStopOf};

use crate::counts::{Counts, counts_of};
use crate::cursor::Cursor;
use crate::draft::{Draft, Part, Stop};
use htss_defs::Adjacency;
use std::alloc::Global;

/// Reads the lines of a section up to the end mark. The graph becomes that of the bonds, whatever it was.
pub fn read_draft<D: Draft>(alloc: Global, bytes: &[u8], graph: &mut Adjacency) -> Result<D, Stop>
    ensures read { IfOk result (λ draft.
        IsRead D.refusals (lines_of bytes.now) graph.new (D.holds draft)) }
    ensures stop { IfErr result (IsStopOf D.refusals (lines_of bytes.now)) }
{
    let mut lines = Cursor {
        rest: bytes,
        passed: 0,
    };
    let (mut draft, sizes) = read_counts::<D>(alloc, bytes, &mut lines)?;
    graph.restart(sizes.atoms);
    read_blocks(bytes, &mut lines, sizes, &mut draft, graph)?;
    read_properties(bytes, &mut lines, &mut draft, graph)?;
    Ok(draft)
}

// Reads the header and the counts line.
fn read_counts<D: Draft>(
    alloc: Global,
    bytes: &[u8],
    lines: &mut Cursor<'_>,
) -> Result<(D, Counts), Stop>
    requires rest { lines.old.rest.now ≡ bytes.now }
    requires passed { lines.old.passed ≡ 0 }
    ensures at { IfOk result (λ x. (graph : Graph) → graph ≡ record { atoms = x.1.atoms; bonds = [] }
        → AtBlocks D.refusals (lines_of bytes.now) x.1 0 lines.new.passed (lines_of lines.new.rest.now)
        graph (D.holds x.0)) }
    ensures few { IfOk result (λ x. x.1.atoms ≤ 999) }
    ensures stop { IfErr result (IsStopOf D.refusals (lines_of bytes.now)) }
{
    for _ in 0..3u64 {
        lines.next()?;
    }
    let line = lines.next()?;
    let sizes = match counts_of(line) {
        Ok(sizes) => sizes,
        Err(code) => return Err(Stop::Refused { line: 3, code }),
    };
    let draft = D::start(alloc, sizes, 3)?;
    Ok((draft, sizes))
}

// Reads the lines of atoms, of bonds and of atom lists.
fn read_blocks<D: Draft>(
    bytes: &[u8],
    lines: &mut Cursor<'_>,
    sizes: Counts,
    draft: &mut D,
    graph: &mut Adjacency,
) -> Result<(), Stop>
    requires at { AtBlocks D.refusals (lines_of bytes.now) sizes 0 lines.old.passed
        (lines_of lines.old.rest.now) graph.old (D.holds draft.old) }
    ensures at { OnOk result (AtProperties D.refusals (lines_of bytes.now) lines.new.passed false
        (lines_of lines.new.rest.now) graph.new (D.holds draft.new)) }
    ensures stop { IfErr result (IsStopOf D.refusals (lines_of bytes.now)) }
{
    for i in 0..sizes.atoms as u32 + sizes.bonds as u32 + sizes.lists as u32 {
        let at = lines.passed;
        let line = lines.next()?;
        draft.take(part_at(sizes, i), line, at, graph)?;
    }
    Ok(())
}

// What line i after the counts line is.
fn part_at(sizes: Counts, i: u32) -> Part
    requires { i < sizes.atoms + sizes.bonds + sizes.lists }
    ensures { IsPart sizes i result }
{
    if i < sizes.atoms as u32 {
        Part::Atom
    } else if i < sizes.atoms as u32 + sizes.bonds as u32 {
        Part::Bond
    } else {
        Part::List
    }
}

// Reads the lines after the blocks, up to the end mark.
fn read_properties<D: Draft>(
    bytes: &[u8],
    lines: &mut Cursor<'_>,
    draft: &mut D,
    graph: &mut Adjacency,
) -> Result<(), Stop>
    requires at { AtProperties D.refusals (lines_of bytes.now) lines.old.passed false
        (lines_of lines.old.rest.now) graph.old (D.holds draft.old) }
    ensures read { OnOk result
        (IsRead D.refusals (lines_of bytes.now) graph.new (D.holds draft.new)) }
    ensures stop { IfErr result (IsStopOf D.refusals (lines_of bytes.now)) }
{
    let mut passing = false;
    loop {
        let at = lines.passed;
        let line = lines.next()?;
        if passing {
            passing = false;
        } else if line.starts_with(b"M  END") {
            return draft.take(Part::End, line, at, graph);
        } else if passes_next(line) {
            passing = true;
        } else {
            draft.take(Part::Property, line, at, graph)?;
        }
    }
}

// Whether the line after this one is passed over.
fn passes_next(line: &[u8]) -> bool
    ensures { result ≡ passes_next line.now }
{
    line.starts_with(b"A  ") || line.starts_with(b"G  ")
}
