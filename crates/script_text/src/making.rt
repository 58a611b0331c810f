// The generated file of records, written record by record.
ghost use Rattle.std.specs.Prelude.{◌≡◌, ◌≤◌, ◌<◌, ◌++◌, ◌+◌, OnOk, OnErr, IfOk, IsErrOf, codes, decimal};
ghost use Rattle.std.specs.List.{flat_map};
ghost use Rattle.std.specs.Io.KnownBytes.{append_known};
ghost use Rattle.outside.specs.Causes.{Rose};
ghost use Rattle.outside.specs.Written.{GrewByFront};
ghost use Rattle.script_text.specs.declared.making.MakeStop.TheVariants.{WriteFault, OutOfMemory as NoMemory};
ghost use Rattle.script_text.specs.Generator.{atom_line, bond_line, made_file, padded, record_text, ring_atoms};
ghost use Rattle.script_text.specs.Generator.{ring_bonds, tree_of, after_tree};

use crate::growing::{Grown, grow_tree};
use htss_defs::OutOfMemory;
use itoa::Buffer;
use outside::{Failed, Sink, write_whole};
use std::alloc::Global;

const RING_ATOMS: &[u8] =
    b"    0.0000    0.0000    0.0000 C   0  0\n    0.0000    0.0000    0.0000 C   0  0\n    0.0000    0.0000    0.0000 C   0  0\n    0.0000    0.0000    0.0000 C   0  0\n    0.0000    0.0000    0.0000 C   0  0\n    0.0000    0.0000    0.0000 C   0  0\n";

const RING_BONDS: &[u8] =
    b"  1  2  1  0\n  2  3  2  0\n  3  4  1  0\n  4  5  2  0\n  5  6  1  0\n  6  1  2  0\n";

/// Why a generated file was not written to its end.
#[derive(Clone, Copy, Debug, PartialEq, Eq)]
pub enum MakeStop {
    /// A write failed, or took nothing.
    WriteFault,
    /// Memory ran out.
    OutOfMemory,
}

impl From<Failed> for MakeStop {
    ghost from_gives = { λ _ e. e ≡ WriteFault };

    fn from(_: Failed) -> Self {
        MakeStop::WriteFault
    }
}

impl From<OutOfMemory> for MakeStop {
    ghost from_gives = { λ _ e. e ≡ NoMemory };

    fn from(_: OutOfMemory) -> Self {
        MakeStop::OutOfMemory
    }
}

/// Writes the file of so many records that are drawn from this seed. After an `Err` a front of it is written.
pub fn make_file<K: Sink>(alloc: Global, count: u32, seed: u64, out: &mut K) -> Result<(), MakeStop>
    ensures ok { OnOk result
        (K.written out.new ≡ append_known (K.written out.old) (made_file count seed)) }
    ensures err { OnErr result
        (GrewByFront (K.written out.old) (K.written out.new) (made_file count seed)) }
    ensures fault { IsErrOf result MakeStop.WriteFault →
        Rose (K.faults out.old) (K.faults out.new) }
    ensures later { K.faults out.old ≤ K.faults out.new }
{
    let mut text = Vec::new(alloc);
    let mut state = seed;
    for place in 0..count {
        text.clear();
        state = append_record(&mut text, place + 1, state)?;
        write_whole(out, text.as_slice())?;
    }
    Ok(())
}

// Appends the record with this number that is drawn from this state: the state after it.
fn append_record(text: &mut Vec<u8>, number: u32, state: u64) -> Result<u64, OutOfMemory>
    ensures text { OnOk result
        (text.new.items ≡ text.old.items ++ record_text number (tree_of state)) }
    ensures state { IfOk result (λ after. after ≡ after_tree state) }
{
    let (tree, after) = grow_tree(state);
    append_lines(text, number, tree.as_slice())?;
    Ok(after)
}

// Appends the lines of the record with this number, whose ring has this tree.
#[tactic(auto, unfolding(crate::specs::Generator::record_text))]
fn append_lines(text: &mut Vec<u8>, number: u32, tree: &[Grown]) -> Result<(), OutOfMemory>
    ensures { OnOk result (text.new.items ≡ text.old.items ++ record_text number tree.now) }
{
    append_bytes(text, b"made ")?;
    append_number(text, number)?;
    append_bytes(text, b"\n\n\n 25 25  0  0  0  0  0  0  0  0999 V2000\n")?;
    append_bytes(text, RING_ATOMS)?;
    append_atoms(text, tree)?;
    append_bytes(text, RING_BONDS)?;
    append_bonds(text, tree)?;
    append_bytes(text, b"M  END\n$$$$\n")
}

fn append_atoms(text: &mut Vec<u8>, tree: &[Grown]) -> Result<(), OutOfMemory>
    ensures { OnOk result (text.new.items ≡ text.old.items ++ flat_map atom_line tree.now) }
{
    for atom in tree {
        append_atom(text, atom)?;
    }
    Ok(())
}

fn append_bonds(text: &mut Vec<u8>, tree: &[Grown]) -> Result<(), OutOfMemory>
    ensures { OnOk result (text.new.items ≡ text.old.items ++ flat_map bond_line tree.now) }
{
    for atom in tree {
        append_bond(text, atom)?;
    }
    Ok(())
}

#[tactic(auto, unfolding(crate::specs::Generator::atom_line))]
fn append_atom(text: &mut Vec<u8>, atom: &Grown) -> Result<(), OutOfMemory>
    ensures { OnOk result (text.new.items ≡ text.old.items ++ atom_line atom.now) }
{
    append_bytes(text, b"    0.0000    0.0000    0.0000 ")?;
    text.push(atom.letter)?;
    append_bytes(text, b"   0  0\n")
}

#[tactic(auto, unfolding(crate::specs::Generator::bond_line))]
fn append_bond(text: &mut Vec<u8>, atom: &Grown) -> Result<(), OutOfMemory>
    ensures { OnOk result (text.new.items ≡ text.old.items ++ bond_line atom.now) }
{
    append_padded(text, atom.parent)?;
    append_padded(text, atom.number)?;
    append_bytes(text, b"  1  0\n")
}

// Appends a number of one or two digits in three columns.
#[tactic(auto, unfolding(crate::specs::Generator::padded))]
fn append_padded(text: &mut Vec<u8>, number: u8) -> Result<(), OutOfMemory>
    ensures { OnOk result (text.new.items ≡ text.old.items ++ padded number) }
{
    if number < 10 {
        append_bytes(text, b"  ")?;
    } else {
        append_bytes(text, b" ")?;
    }
    append_number(text, u32::from(number))
}

fn append_number(text: &mut Vec<u8>, number: u32) -> Result<(), OutOfMemory>
    ensures { OnOk result (text.new.items ≡ text.old.items ++ decimal number) }
{
    let mut digits = Buffer::new();
    append_bytes(text, digits.format(number).as_bytes())
}

fn append_bytes(text: &mut Vec<u8>, bytes: &[u8]) -> Result<(), OutOfMemory>
    ensures { OnOk result (text.new.items ≡ text.old.items ++ bytes.now) }
{
    text.extend_from_slice(bytes)?;
    Ok(())
}
