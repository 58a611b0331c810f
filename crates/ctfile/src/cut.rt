// The bytes of a stream that are pending, and where their first section ends.
ghost use Rattle.std.specs.Prelude.{◌≡◌, ◌≢◌, ℕ, ◌+◌, ◌<◌, ◌≤◌, ◌++◌, ◌∷◌, length, take, drop, All, IfSome, IfNone};
ghost use Rattle.std.specs.Prelude.{OnOk, OnErr};
ghost use Rattle.std.specs.Prelude.{List, [], Bool, true, false};
ghost use Rattle.mol_section.specs.Lines.{lines_of, without_cr};
ghost use Rattle.mol_section.specs.Fields.{is_blank};
ghost use Rattle.ctfile.specs.Cut.{HasPassed, IsLooked, IsSection, NoSection, TakesLines, has_text};
ghost use Rattle.ctfile.specs.Cut.{IsFirstSection};

use memchr::memchr;
use std::alloc::{AllocError, Global};
use std::marker::Model;

/// What is pending of a stream. Contracts see its bytes.
// It begins at the start. What was looked at counts from there.
#[derive(Debug, Drop)]
pub struct Pending {
    bytes: Vec<u8>,
    start: usize,
    looked: Looked,
}

impl Model for Pending {
    ghost Value = { List ℕ };

    ghost view = { λ p. drop p.start p.bytes.items };

    ghost invariant = { λ p. (p.start ≤ length p.bytes.items)
        × IsLooked (drop p.start p.bytes.items) p.looked.at p.looked.lines p.looked.searched };
}

/// What the next record takes: the bytes of its section, those that leave with them, and their lines.
#[derive(Clone, Copy, Debug)]
pub struct Taken {
    pub section: usize,
    pub bytes: usize,
    pub lines: u64,
}

// The lines at the front that were looked at, and that end no section; so many bytes after them have no LF.
#[derive(Clone, Copy, Debug)]
struct Looked {
    at: usize,
    lines: u64,
    searched: usize,
}

const NOTHING: Looked = Looked {
    at: 0,
    lines: 0,
    searched: 0,
};

// What was looked at up to a line that ends a section, and the place after that line.
#[derive(Clone, Copy, Debug)]
struct Found {
    looked: Looked,
    end: Option<usize>,
}

impl Pending {
    /// Nothing is pending.
    pub fn new(alloc: Global) -> Pending
        ensures { result ≡ [] }
    {
        Pending {
            bytes: Vec::new(alloc),
            start: 0,
            looked: NOTHING,
        }
    }

    /// The bytes.
    pub fn bytes(&self) -> &[u8]
        ensures { result.now ≡ self.now }
    {
        &self.bytes[self.start..]
    }

    /// More bytes come. An `Err` changes nothing.
    pub fn feed(&mut self, piece: &[u8]) -> Result<(), AllocError>
        ensures ok { OnOk result (self.new ≡ self.old ++ piece.now) }
        ensures err { OnErr result (self.new ≡ self.old) }
    {
        self.make_room();
        self.bytes.extend_from_slice(piece)?;
        Ok(())
    }

    // Drops the bytes before the start where they are at least half of all: so each byte is moved a few times, however
    // it came.
    fn make_room(&mut self)
        ensures { self.new ≡ self.old }
    {
        if self.start > 0 && self.start >= self.bytes.len() - self.start {
            to_front(&mut self.bytes, self.start);
            self.start = 0;
        }
    }

    /// The first bytes leave.
    pub fn pass(&mut self, count: usize)
        requires { count ≤ length self.old }
        ensures { self.new ≡ drop count self.old }
    {
        self.start += count;
        self.looked = NOTHING;
    }

    /// What the next record takes. What was looked at is not looked at again.
    pub fn next_taken(&mut self, finished: bool) -> Option<Taken>
        ensures same { self.new ≡ self.old }
        ensures within { IfSome result (λ t. (t.section ≤ t.bytes) × (t.bytes ≤ length self.old)) }
        ensures taken { IfSome result (λ t. TakesLines finished self.old
            (take t.section self.old) (drop t.bytes self.old) t.lines) }
        ensures needs_more { IfNone result (finished ≡ false → NoSection self.old) }
        ensures ended { IfNone result (finished ≡ true → has_text (lines_of self.old) ≡ false) }
    {
        let found = look(&self.bytes[self.start..], self.looked);
        self.looked = found.looked;
        match found.end {
            Some(bytes) => Some(Taken {
                section: found.looked.at,
                bytes,
                lines: found.looked.lines + 1,
            }),
            None if finished => last_taken(&self.bytes[self.start..], found.looked),
            None => None,
        }
    }
}

// Goes on from what was looked at, up to the first line that ends a section.
fn look(bytes: &[u8], looked: Looked) -> Found
    requires { IsLooked bytes.now looked.at looked.lines looked.searched }
    ensures looked { IsLooked bytes.now
        result.looked.at result.looked.lines result.looked.searched }
    ensures within { IfSome result.end (λ end.
        (result.looked.at < end) × (end ≤ length bytes.now)) }
    ensures end { IfSome result.end (λ end. (finished : Bool)
        → IsSection finished bytes.now (take result.looked.at bytes.now) (drop end bytes.now)) }
    ensures none { IfNone result.end (All (λ b. b ≢ 10) (drop result.looked.at bytes.now)) }
{
    let mut looked = looked;
    let mut rest = &bytes[looked.at..];
    while let Some((line, after)) = first_line(rest, looked.searched) {
        let next = looked.at + line.len() + 1;
        if line.starts_with(b"$$$$") {
            looked.searched = line.len();
            return Found {
                looked,
                end: Some(next),
            };
        }
        looked = Looked {
            at: next,
            lines: looked.lines + 1,
            searched: 0,
        };
        rest = after;
    }
    looked.searched = rest.len();
    Found { looked, end: None }
}

// What the last record takes of a stream that is over: the bytes that were not looked at are its last line.
fn last_taken(bytes: &[u8], looked: Looked) -> Option<Taken>
    requires passed { HasPassed bytes.now looked.at looked.lines }
    requires last { All (λ b. b ≢ 10) (drop looked.at bytes.now) }
    ensures within { IfSome result (λ t. (t.section ≤ t.bytes) × (t.bytes ≤ length bytes.now)) }
    ensures taken { IfSome result (λ t. TakesLines true bytes.now
        (take t.section bytes.now) (drop t.bytes bytes.now) t.lines) }
    ensures ended { IfNone result (has_text (lines_of bytes.now) ≡ false) }
{
    let last = &bytes[looked.at..];
    if last.starts_with(b"$$$$") {
        return Some(Taken {
            section: looked.at,
            bytes: bytes.len(),
            lines: looked.lines + 1,
        });
    }
    if !has_text(bytes) {
        return None;
    }
    let lines = if last.is_empty() {
        looked.lines
    } else {
        looked.lines + 1
    };
    Some(Taken {
        section: bytes.len(),
        bytes: bytes.len(),
        lines,
    })
}

/// The first section of bytes that are a whole stream, an empty one too.
pub fn first_section(bytes: &[u8]) -> &[u8]
    ensures { IsFirstSection (lines_of bytes.now) (lines_of result.now) }
{
    let found = look(bytes, NOTHING);
    let front = &bytes[..found.looked.at];
    if let Some(_) = found.end {
        return front;
    }
    if bytes[found.looked.at..].starts_with(b"$$$$") {
        front
    } else {
        bytes
    }
}

// Whether a line is not blank.
fn has_text(bytes: &[u8]) -> bool
    ensures { result ≡ has_text (lines_of bytes.now) }
{
    let mut rest = bytes;
    while let Some((line, after)) = first_line(rest, 0) {
        if !is_blank(line) {
            return true;
        }
        rest = after;
    }
    !is_blank(rest)
}

// Whether a line, which may end with a CR, is spaces alone.
fn is_blank(line: &[u8]) -> bool
    ensures { result ≡ is_blank (without_cr line.now) }
{
    without_cr(line).iter().all(|b| *b == 32)
}

// The line without a CR at its end.
fn without_cr(line: &[u8]) -> &[u8]
    ensures { result.now ≡ without_cr line.now }
{
    let len = line.len();
    if len > 0 && line[len - 1] == 13 {
        &line[..len - 1]
    } else {
        line
    }
}

// The first line that has its LF, and what stands after it. No LF stands before the searched place.
fn first_line(bytes: &[u8], searched: usize) -> Option<(&[u8], &[u8])>
    requires within { searched ≤ length bytes.now }
    requires searched { All (λ b. b ≢ 10) (take searched bytes.now) }
    ensures line { IfSome result (λ x. All (λ b. b ≢ 10) x.0.now) }
    ensures parts { IfSome result (λ x. bytes.now ≡ x.0.now ++ 10 ∷ x.1.now) }
    ensures none { IfNone result (All (λ b. b ≢ 10) bytes.now) }
{
    let place = searched + memchr(10, &bytes[searched..])?;
    Some((&bytes[..place], &bytes[place + 1..]))
}

// The bytes from the start on are all that stays.
fn to_front(bytes: &mut Vec<u8>, start: usize)
    requires { start ≤ length bytes.old.items }
    ensures { bytes.new.items ≡ drop start bytes.old.items }
{
    let len = bytes.len();
    bytes.copy_within(start.., 0);
    bytes.truncate(len - start);
}
