// The record of a section.
ghost use Rattle.std.specs.Prelude.{◌≡◌, ℕ, ◌+◌, ◌^◌, ◌<◌, ◌≤◌, length, take, slice_get};
ghost use Rattle.std.specs.Prelude.{Some, IsSome, IfOk, IfErr};
ghost use Rattle.mol_section.specs.Lines.{lines_of};
ghost use Rattle.mol_section.specs.SectionRecord.{IsOutcome, outcome_of, name_of};
ghost use Rattle.mol_section.specs.Unmarked.{IfMarked, HasGraph};
ghost use Rattle.mol_section.specs.Names.{visible};

use crate::SectionOutcome;
use crate::blocks::read_draft;
use crate::draft::Stop;
use crate::fields::trim;
use crate::lines::next_line;
use crate::record::Record;
use arrayvec::ArrayVec;
use htss_defs::{Adjacency, Mol, Name, OutOfMemory};
use ring_bonds::mark_linked;
use std::alloc::Global;

/// The outcome of the section with these bytes, whose first line has this number: its record,
/// with its ring bonds marked, or the first line that is refused, by the number of that line, with
/// the code of the refusal.
pub fn read_section(alloc: Global, bytes: &[u8], first: u64) -> Result<SectionOutcome, OutOfMemory>
    requires { first + length bytes.now < 2 ^ 64 }
    ensures { IfOk result (λ outcome. IsOutcome first (lines_of bytes.now) (outcome_of outcome)) }
{
    let mut graph = Adjacency::new();
    match read_unmarked(alloc, bytes, first, &mut graph)? {
        SectionOutcome::Accepted { name, mut mol } => {
            mark_linked(&mut mol, &graph);
            Ok(SectionOutcome::Accepted { name, mol })
        }
        SectionOutcome::Refused { line, code } => Ok(SectionOutcome::Refused { line, code }),
    }
}

/// The same, with all bonds left unmarked. The graph, whatever it was, becomes that of the molecule,
/// so that its ring bonds can be marked afterwards.
pub fn read_unmarked(
    alloc: Global,
    bytes: &[u8],
    first: u64,
    graph: &mut Adjacency,
) -> Result<SectionOutcome, OutOfMemory>
    requires { first + length bytes.now < 2 ^ 64 }
    ensures told { IfOk result (λ outcome.
        IfMarked (IsOutcome first (lines_of bytes.now)) (outcome_of outcome)) }
    ensures graph { IfOk result (λ outcome. HasGraph graph.new (outcome_of outcome)) }
{
    match read_draft::<Record>(alloc, bytes, graph) {
        Err(Stop::Memory) => Err(OutOfMemory),
        Err(Stop::Refused { line, code }) => Ok(SectionOutcome::Refused {
            line: first + line,
            code,
        }),
        Ok(draft) => Ok(SectionOutcome::Accepted {
            name: name_of(first_line(bytes)),
            mol: Mol::of_valid(draft.atoms, draft.bonds),
        }),
    }
}

// The first line.
fn first_line(bytes: &[u8]) -> &[u8]
    requires { IsSome (slice_get (lines_of bytes.now) 0) }
    ensures { slice_get (lines_of bytes.now) 0 ≡ Some result.now }
{
    match next_line(bytes) {
        None => &[],
        Some((line, _)) => line,
    }
}

// The name that a header line gives.
fn name_of(line: &[u8]) -> Name
    ensures { result ≡ name_of line.now }
{
    let text = visible(line);
    Name::new(trim(text.as_slice())).unwrap()
}

// The first 80 bytes, those that are not printable as `?`.
fn visible(line: &[u8]) -> ArrayVec<u8, 80>
    ensures { result.items ≡ visible line.now }
{
    let mut text = ArrayVec::new();
    for byte in front(line) {
        text.push(if 32 <= *byte && *byte <= 126 {
            *byte
        } else {
            b'?'
        });
    }
    text
}

// The first 80 bytes, or all if there are fewer.
fn front(line: &[u8]) -> &[u8]
    ensures front { result.now ≡ take 80 line.now }
    ensures short { length result.now ≤ 80 }
{
    if line.len() < 80 { line } else { &line[..80] }
}
