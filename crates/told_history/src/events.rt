// What the told history has.
ghost use Rattle.std.specs.Prelude.{◌≡◌, ◌↔◌, ℕ, ◌+◌, ◌<◌, ◌≤◌, List, Some, IsTrue, true, false, length, take};
ghost use Rattle.htss_defs.specs.declared.history.Event.{Event};
ghost use Rattle.htss_defs.specs.declared.history.Event.TheVariants.{Publish, Withdraw};
ghost use Rattle.htss_defs.specs.History.{HasEvent, Withdraws};
ghost use Rattle.htss_defs.specs.Molecule.{Molecule};
ghost use Rattle.reg_model.specs.Registries.{HasRecord, IsWithdrawn};
ghost use Rattle.report_text.specs.declared.report.LogLine.TheVariants as log;
ghost use Rattle.report_rules.specs.Faults.{IsAsLogged, molecule_named};
ghost use Rattle.told_history.specs.Logs.{IsEndOf, IsPublication};
ghost use Rattle.told_history.specs.Named.{IsNamer};
ghost use Rattle.told_history.specs.Telling.{IsWhole, Tells};

use crate::names::Namer;
use crate::told::Told;
use htss_defs::{Atom, Bond, Mol, Name};
use report_text::LogLine;

/// Whether event `number` is the publication of this record by this loader, as its line of the log tells it.
pub fn is_publication(told: &Told<'_>, number: u32, loader: u8, name: &Name, mol: &Mol) -> bool
    requires { IsWhole told.now }
    ensures is { result ≡ true → (history : List Event) → Tells told.now history
        → HasEvent history number (Publish loader name.now mol.now) × IsAsLogged told.now.lines.now history number }
    ensures other { result ≡ false → (history : List Event) → Tells told.now history
        → HasEvent history number (Publish loader name.now mol.now) → IsAsLogged told.now.lines.now history number → ⊥ }
{
    if number == 0 {
        return false;
    }
    let index = number as usize - 1;
    if index >= told.lines.len() {
        return false;
    }
    is_line_of(&told.lines[index], loader, name, mol) && is_named_by(told.table[index], mol)
}

// Whether the line tells the publication of this record by this loader.
fn is_line_of(line: &LogLine, loader: u8, name: &Name, mol: &Mol) -> bool
    ensures { IsTrue result ↔ (line.now ≡ log.Publish loader (length mol.now.atoms) (length mol.now.bonds) name.now) }
{
    match line {
        LogLine::Publish {
            loader: by,
            atoms,
            bonds,
            name: named,
        } => {
            *by == loader
                && *atoms as usize == mol.atoms().len()
                && *bonds as usize == mol.bonds().len()
                && named.bytes() == name.bytes()
        }
        LogLine::Withdraw { .. } => false,
    }
}

// Whether the event is named with this molecule.
fn is_named_by(namer: Namer<'_>, mol: &Mol) -> bool
    ensures is { result ≡ true → (named : List (ℕ × Molecule)) (number : ℕ) → IsNamer named number namer.entry
        → molecule_named named number ≡ mol.now }
    ensures other { result ≡ false → (named : List (ℕ × Molecule)) (number : ℕ) → IsNamer named number namer.entry
        → molecule_named named number ≡ mol.now → ⊥ }
{
    match namer {
        Namer::Record(one) => is_same_molecule(one, mol),
        // a record has an atom
        Namer::NoRecord | Namer::Nobody => mol.atoms().is_empty(),
    }
}

fn is_same_molecule(one: &Mol, other: &Mol) -> bool
    ensures is { result ≡ true → one.now ≡ other.now }
    ensures other { result ≡ false → one.now ≡ other.now → ⊥ }
{
    if !are_same_atoms(one.atoms(), other.atoms()) {
        return false;
    }
    are_same_bonds(one.bonds(), other.bonds())
}

fn are_same_atoms(one: &[Atom], other: &[Atom]) -> bool
    ensures is { result ≡ true → one.now ≡ other.now }
    ensures other { result ≡ false → one.now ≡ other.now → ⊥ }
{
    if one.len() != other.len() {
        return false;
    }
    for (index, atom) in one.iter().enumerate() {
        if !is_same_atom(atom, &other[index]) {
            return false;
        }
    }
    true
}

fn is_same_atom(one: &Atom, other: &Atom) -> bool
    ensures is { result ≡ true → one.now ≡ other.now }
    ensures other { result ≡ false → one.now ≡ other.now → ⊥ }
{
    one.element == other.element && one.charge == other.charge && one.mass == other.mass
}

fn are_same_bonds(one: &[Bond], other: &[Bond]) -> bool
    ensures is { result ≡ true → one.now ≡ other.now }
    ensures other { result ≡ false → one.now ≡ other.now → ⊥ }
{
    if one.len() != other.len() {
        return false;
    }
    for (index, bond) in one.iter().enumerate() {
        if !is_same_bond(bond, &other[index]) {
            return false;
        }
    }
    true
}

fn is_same_bond(one: &Bond, other: &Bond) -> bool
    ensures is { result ≡ true → one.now ≡ other.now }
    ensures other { result ≡ false → one.now ≡ other.now → ⊥ }
{
    one.first == other.first
        && one.second == other.second
        && one.kind == other.kind
        && one.ring == other.ring
}

/// Whether event `number` is the withdrawal of the target by this loader.
pub fn is_withdrawal(told: &Told<'_>, number: u32, loader: u8, target: u32) -> bool
    ensures is { result ≡ true → (history : List Event) → Tells told.now history
        → HasEvent history number (Withdraw loader target) × IsAsLogged told.now.lines.now history number }
    ensures other { result ≡ false → (history : List Event) → Tells told.now history
        → HasEvent history number (Withdraw loader target) → ⊥ }
{
    if number == 0 {
        return false;
    }
    let index = number as usize - 1;
    if index >= told.lines.len() {
        return false;
    }
    is_withdrawal_by(&told.lines[index], loader, target)
}

// Whether the line tells the withdrawal of the target by this loader.
fn is_withdrawal_by(line: &LogLine, loader: u8, target: u32) -> bool
    ensures { IsTrue result ↔ (line.now ≡ log.Withdraw loader target) }
{
    match line {
        LogLine::Withdraw { loader: by, number } => *by == loader && *number == target,
        LogLine::Publish { .. } => false,
    }
}

/// Whether event `number` withdraws the target.
pub fn is_withdrawn_by(told: &Told<'_>, number: u32, target: u32) -> bool
    ensures is { result ≡ true → (history : List Event) → Tells told.now history → Withdraws history number target }
    ensures other { result ≡ false → (history : List Event) → Tells told.now history → Withdraws history number target
        → ⊥ }
{
    if number == 0 {
        return false;
    }
    let index = number as usize - 1;
    if index >= told.lines.len() {
        return false;
    }
    is_end_of(&told.lines[index], target)
}

// Whether the line tells a withdrawal of the target.
fn is_end_of(line: &LogLine, target: u32) -> bool
    ensures { IsTrue result ↔ IsEndOf line.now target }
{
    match line {
        LogLine::Withdraw { number, .. } => *number == target,
        LogLine::Publish { .. } => false,
    }
}

/// Whether the number is that of a publication among the first `front` events.
pub fn is_published(told: &Told<'_>, front: u32, number: u32) -> bool
    requires { front ≤ length told.now.lines.now }
    ensures within { result ≡ true → (1 ≤ number) × (number ≤ front) }
    ensures is { result ≡ true → (history : List Event) → Tells told.now history
        → HasRecord (take front history) number }
    ensures other { result ≡ false → (history : List Event) → Tells told.now history
        → HasRecord (take front history) number → ⊥ }
{
    if number == 0 {
        return false;
    }
    if number > front {
        return false;
    }
    is_publication_line(&told.lines[number as usize - 1])
}

fn is_publication_line(line: &LogLine) -> bool
    ensures { IsTrue result ↔ IsPublication (Some line.now) }
{
    matches!(line, LogLine::Publish { .. })
}

/// Whether one of the first `front` events withdraws the record of this number.
pub fn is_withdrawn(told: &Told<'_>, front: u32, number: u32) -> bool
    requires whole { IsWhole told.now }
    requires front { front ≤ length told.now.lines.now }
    requires some { 1 ≤ number }
    requires within { number ≤ front }
    ensures is { result ≡ true → (history : List Event) → Tells told.now history
        → IsWithdrawn (take front history) number }
    ensures other { result ≡ false → (history : List Event) → Tells told.now history
        → IsWithdrawn (take front history) number → ⊥ }
{
    let at = told.withdrawals[number as usize - 1];
    1 <= at && at <= front
}
