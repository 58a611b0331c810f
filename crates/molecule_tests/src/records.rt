// The records of streams, however they are cut, and of molfiles.
ghost use Rattle.std.specs.Prelude.{◌≡◌, ◌<◌, ◌≤◌, ◌^◌, length};

use ctfile::{Next, RecordReader, read_molfile};
use htss_defs::{Mol, Name, OutOfMemory};
use std::alloc::Global;
use std::test::Fail;

const CARBON: &str =
    "c\n\n\n  1  0  0  0  0  0  0  0  0  0999 V2000\n    0.0000    0.0000    0.0000 C   0  0\nM  END\n$$$$\n";

// The same without the line that ends it.
const OPEN: &str =
    "c\n\n\n  1  0  0  0  0  0  0  0  0  0999 V2000\n    0.0000    0.0000    0.0000 C   0  0\nM  END\n";

const WITH_CR: &str =
    "c\r\n\r\n\r\n  1  0  0  0  0  0  0  0  0  0999 V2000\r\n    0.0000    0.0000    0.0000 C   0  0\r\nM  END\r\n$$$$\r\n";

// Four carbons, three of them in a ring.
const TAILED_RING: &str =
    "r\n\n\n  4  4  0  0  0  0  0  0  0  0999 V2000\n    0.0000    0.0000    0.0000 C   0  0\n    1.0000    0.0000    0.0000 C   0  0\n    0.5000    0.8660    0.0000 C   0  0\n    0.5000    1.8660    0.0000 C   0  0\n  1  2  1  0\n  2  3  1  0\n  1  3  1  0\n  3  4  1  0\nM  END\n$$$$\n";

// What is read of a section: its name and molecule, or the line and the code of its refusal.
type Read = Result<(Name, Mol), (u64, u8)>;

// What is wanted: the name, the number of atoms and the flags of the bonds, or the line and the code.
type Wanted = Result<(&'static str, usize, &'static [bool]), (u64, u8)>;

const A_CARBON: Wanted = Ok(("c", 1, &[]));

const A_RING: Wanted = Ok(("r", 4, &[true, true, true, false]));

fn is_wanted(read: &Read, wanted: &Wanted) -> bool {
    match (read, wanted) {
        (Ok((name, mol)), Ok((text, atoms, rings))) => {
            name.bytes() == text.as_bytes()
                && mol.atoms().len() == *atoms
                && mol
                    .bonds()
                    .iter()
                    .map(|bond| bond.ring)
                    .eq(rings.iter().copied())
        }
        (Err(refusal), Err(want)) => refusal == want,
        _ => false,
    }
}

// Adds each record that the reader answers now, with its place, and tells whether the stream is over.
fn tell(reader: &mut RecordReader, told: &mut Vec<(u32, Read)>) -> Result<bool, OutOfMemory>
    ensures fed { reader.new.fed ≡ reader.old.fed }
    ensures finished { reader.new.finished ≡ reader.old.finished }
{
    loop {
        let row = match reader.next_record()? {
            Next::NeedMore => return Ok(false),
            Next::End => return Ok(true),
            Next::Refused { place, line, code } => (place, Err((line, code))),
            Next::Accepted { place, name, mol } => (place, Ok((name, mol))),
        };
        told.push(row)?;
    }
}

fn are_wanted(told: &[(u32, Read)], wanted: &[(u32, Wanted)]) -> bool {
    told.len() == wanted.len()
        && told.iter().zip(wanted).all(|(row, want)| row.0 == want.0 && is_wanted(&row.1, &want.1))
}

// Whether these are the records of a stream that comes in two pieces, the first of this length.
fn are_told(
    alloc: Global,
    text: &[u8],
    cut: usize,
    wanted: &[(u32, Wanted)],
) -> Result<bool, OutOfMemory>
    requires cut { cut ≤ length text.now }
    requires small { length text.now < 2 ^ 32 }
{
    let mut told = Vec::new(alloc);
    let mut reader = RecordReader::new(alloc)?;
    let (front, rest) = text.split_at(cut);
    reader.feed(front)?;
    let early = tell(&mut reader, &mut told)?;
    reader.feed(rest)?;
    let soon = tell(&mut reader, &mut told)?;
    reader.finish();
    let over = tell(&mut reader, &mut told)?;
    Ok(!early && !soon && over && are_wanted(&told, wanted))
}

// Whether these are the records of a stream that comes byte by byte.
fn are_told_by_bytes(
    alloc: Global,
    text: &[u8],
    wanted: &[(u32, Wanted)],
) -> Result<bool, OutOfMemory>
    requires { length text.now < 2 ^ 32 }
{
    let mut told = Vec::new(alloc);
    let mut reader = RecordReader::new(alloc)?;
    for i in 0..text.len() {
        reader.feed(&text[i..i + 1])?;
        tell(&mut reader, &mut told)?;
    }
    reader.finish();
    tell(&mut reader, &mut told)?;
    Ok(are_wanted(&told, wanted))
}

// Whether these are the records of the stream, however it is cut in two, and byte by byte.
fn are_records(alloc: Global, text: &[u8], wanted: &[(u32, Wanted)]) -> Result<bool, OutOfMemory> {
    if text.len() >= 1000 {
        return Ok(false);
    }
    for cut in 0..text.len() + 1 {
        if !are_told(alloc, text, cut, wanted)? {
            return Ok(false);
        }
    }
    are_told_by_bytes(alloc, text, wanted)
}

// The parts of a stream, and its records with their places.
const STREAMS: &[(&[&str], &[(u32, Wanted)])] = &[
    (&[""], &[]),
    (&["\n \n\r\n  "], &[]),
    (&[CARBON], &[(1, A_CARBON)]),
    (&[CARBON, CARBON], &[(1, A_CARBON), (2, A_CARBON)]),
    (&[CARBON, OPEN], &[(1, A_CARBON), (2, A_CARBON)]),
    (&[CARBON, OPEN, "$$$$"], &[(1, A_CARBON), (2, A_CARBON)]),
    (&[WITH_CR, WITH_CR], &[(1, A_CARBON), (2, A_CARBON)]),
    (&[CARBON, "\n  \r\n \n "], &[(1, A_CARBON)]),
    (
        &[CARBON, "$$$$\n", CARBON],
        &[(1, A_CARBON), (2, Err((8, 12))), (3, A_CARBON)],
    ),
    (
        &["\n \n$$$$ x\n", CARBON],
        &[(1, Err((3, 12))), (2, A_CARBON)],
    ),
    (&[CARBON, "\nx"], &[(1, A_CARBON), (2, Err((10, 12)))]),
    (
        &[OPEN, "> <X>\na$$$$\n $$$$\n\r$$$$\n$$$\n\n$$$$\n", CARBON],
        &[(1, A_CARBON), (2, A_CARBON)],
    ),
    (
        &[OPEN, "> <X>\n$\n$$\n$$$\n$$$$\nx\n"],
        &[(1, A_CARBON), (2, Err((13, 12)))],
    ),
    (
        &[CARBON, TAILED_RING, TAILED_RING],
        &[(1, A_CARBON), (2, A_RING), (3, A_RING)],
    ),
];

#[test]
fn reads_streams_cut_anywhere(rt: HostRuntime) -> Result<(), Fail> {
    for (parts, wanted) in STREAMS {
        let text = parts.concat(rt.alloc())?;
        assert!(rt; are_records(rt.alloc(), text.as_bytes(), wanted)?, "{text}");
    }
    Ok(())
}

// A molfile, and what is read of it.
const MOLFILES: &[(&str, Wanted)] = &[
    (CARBON, A_CARBON),
    (OPEN, A_CARBON),
    (TAILED_RING, A_RING),
    ("", Err((1, 12))),
    ("$$$$\nc\n", Err((1, 12))),
    ("c\n\n", Err((3, 12))),
];

#[test]
fn reads_molfiles(rt: HostRuntime) -> Result<(), Fail> {
    for (text, wanted) in MOLFILES {
        let read = read_molfile(rt.alloc(), text.as_bytes())?;
        assert!(rt; is_wanted(&read, wanted), "{text}");
    }
    Ok(())
}
