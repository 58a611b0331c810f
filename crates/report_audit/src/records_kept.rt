// Whether the line of a record keeps its rule.
ghost use Rattle.std.specs.Prelude.{◌≡◌, ◌↔◌, ◌<◌, ◌≤◌, List, IsTrue, true, false, length};
ghost use Rattle.report_text.specs.declared.report.LoadLine.TheVariants as load;
ghost use Rattle.report_rules.specs.Answers.{RecordAnswer, fate_line, outcome_of, published, record_line, taken};
ghost use Rattle.report_rules.specs.Dealing.{Dealt};
ghost use Rattle.report_rules.specs.Faults.{Setting, answer_line, keeps};
ghost use Rattle.report_rules.specs.Rules.{Line, block_words};
ghost use Rattle.report_audit.specs.Callers.{caller_of};
ghost use Rattle.report_audit.specs.LineChecks.{IsNextOf, answer_to, fate_of};
ghost use Rattle.told_history.specs.Reads as reads;
ghost use Rattle.report_audit.specs.Tallied.{IsCaller};
ghost use Rattle.told_history.specs.Telling.{IsWhole};

use crate::so_far::SoFar;
use crate::tally::Caller;
use htss_defs::{Mol, Name, Shape};
use report_text::LoadLine;
use told_history::{RecordRead, Told, is_publication};

/// Whether the line is one of the record at this place that keeps its rule, as the caller's next.
pub fn keeps_record(
    told: &Told<'_>,
    so_far: &SoFar,
    shape: Shape,
    caller: Caller,
    read: &RecordRead,
    line: &LoadLine,
    place: usize,
) -> bool
    requires whole { IsWhole told.now }
    requires caller { IsCaller (caller_of caller) }
    ensures kept { result ≡ true → (s : Setting) (earlier : List Line) (one : Dealt) → s.shape ≡ shape
        → IsNextOf told.now so_far.now caller s earlier one
        → (record_line place (answer_to read.now line.now) ≡ line.now)
        × keeps s earlier (answer_line one (answer_to read.now line.now)) }
    ensures fault { result ≡ false → (s : Setting) (earlier : List Line) (one : Dealt) → s.shape ≡ shape
        → IsNextOf told.now so_far.now caller s earlier one
        → (answer : RecordAnswer) → outcome_of answer ≡ reads.outcome_of read.now → record_line place answer ≡ line.now
        → keeps s earlier (answer_line one answer) → ⊥ }
{
    match read {
        RecordRead::Refused { line: at, code } => is_refused_line(line, place, *at, *code),
        RecordRead::Accepted { name, mol } => {
            is_line_at(line, name, place)
                && keeps_fate(told, so_far, shape, caller, name, mol, line)
        }
    }
}

// Whether the line tells at this place that the record is refused so.
fn is_refused_line(line: &LoadLine, place: usize, at: u64, code: u8) -> bool
    ensures { IsTrue result ↔ (load.Refused place at code ≡ line.now) }
{
    match line {
        LoadLine::Refused {
            place: here,
            line: told,
            code: word,
        } => { *here as usize == place && *told == at && *word == code }
        _ => false,
    }
}

// Whether the line has this place or, where it has none, this name, and is not that of a refused record.
fn is_line_at(line: &LoadLine, name: &Name, place: usize) -> bool
    ensures { IsTrue result ↔ (fate_line place name.now (fate_of line.now) ≡ line.now) }
{
    match line {
        LoadLine::Published { name: named, .. } => named.bytes() == name.bytes(),
        LoadLine::Refused { .. } => false,
        LoadLine::DataFull { place: here, .. }
        | LoadLine::NoPage { place: here }
        | LoadLine::ChainFull { place: here, .. }
        | LoadLine::LogFull { place: here, .. } => *here as usize == place,
    }
}

// Whether what the line says of this record keeps its rule.
fn keeps_fate(
    told: &Told<'_>,
    so_far: &SoFar,
    shape: Shape,
    caller: Caller,
    name: &Name,
    mol: &Mol,
    line: &LoadLine,
) -> bool
    requires whole { IsWhole told.now }
    requires caller { IsCaller (caller_of caller) }
    ensures kept { result ≡ true → (s : Setting) (earlier : List Line) (one : Dealt) → s.shape ≡ shape
        → IsNextOf told.now so_far.now caller s earlier one
        → keeps s earlier (answer_line one (taken (record { name = name.now; mol = mol.now }) (fate_of line.now))) }
    ensures fault { result ≡ false → (s : Setting) (earlier : List Line) (one : Dealt) → s.shape ≡ shape
        → IsNextOf told.now so_far.now caller s earlier one
        → keeps s earlier (answer_line one (taken (record { name = name.now; mol = mol.now }) (fate_of line.now))) → ⊥ }
{
    match line {
        LoadLine::Published { number, .. } => keeps_published(
            told, so_far, caller, name, mol, *number,
        ),
        LoadLine::Refused { .. } | LoadLine::NoPage { .. } => true,
        LoadLine::DataFull { left, need, .. } => {
            is_need(name, mol, *left, *need) && so_far.tally.is_room_left(shape, caller, *left)
        }
        LoadLine::ChainFull { pages, .. } => *pages == shape.chain,
        LoadLine::LogFull { front, .. } => {
            is_full_front(told, shape, *front) && so_far.tally.is_refusing_front(caller, *front)
        }
    }
}

// Whether the event is this record's publication, and new.
fn keeps_published(
    told: &Told<'_>,
    so_far: &SoFar,
    caller: Caller,
    name: &Name,
    mol: &Mol,
    number: u32,
) -> bool
    requires whole { IsWhole told.now }
    requires caller { IsCaller (caller_of caller) }
    ensures kept { result ≡ true → (s : Setting) (earlier : List Line) (one : Dealt)
        → IsNextOf told.now so_far.now caller s earlier one
        → keeps s earlier (answer_line one (taken (record { name = name.now; mol = mol.now }) (published number))) }
    ensures fault { result ≡ false → (s : Setting) (earlier : List Line) (one : Dealt)
        → IsNextOf told.now so_far.now caller s earlier one
        → keeps s earlier (answer_line one (taken (record { name = name.now; mol = mol.now }) (published number))) → ⊥ }
{
    if !is_publication(told, number, caller.number, name, mol) {
        return false;
    }
    so_far.is_new(caller, number)
}

// Whether the need is that of the record, and more than what is left.
fn is_need(name: &Name, mol: &Mol, left: u32, need: u32) -> bool
    ensures { IsTrue result ↔ ((need ≡ block_words (record { name = name.now; mol = mol.now })) × (left < need)) }
{
    need == words_of(name, mol) && left < need
}

/// The words of the block of a record.
pub fn words_of(name: &Name, mol: &Mol) -> u32
    ensures { result ≡ block_words (record { name = name.now; mol = mol.now }) }
{
    let name_words = (name.bytes().len() as u32 + 7) / 8;
    3 + name_words + 6 * mol.atoms().len() as u32 + mol.bonds().len() as u32
}

// Whether the front is that of a full log, and within this one.
fn is_full_front(told: &Told<'_>, shape: Shape, front: u32) -> bool
    ensures { IsTrue result ↔ ((front ≡ shape.log) × (front ≤ length told.now.lines.now)) }
{
    front == shape.log && front as usize <= told.lines.len()
}
