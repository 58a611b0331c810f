// The lines of a section, one after the other.
ghost use Rattle.std.specs.Prelude.{◌≡◌, ◌+◌, ◌^◌, ◌<◌, ◌≤◌, ◌∷◌, length, IfOk, IfErr};
ghost use Rattle.mol_section.specs.Lines.{lines_of};
ghost use Rattle.mol_section.specs.Walk.{IsFaultAt};

use crate::draft::Stop;
use crate::lines::line_at;

/// The bytes that are left of a section, after so many lines.
#[derive(Drop)]
pub struct Cursor<'a> {
    pub rest: &'a [u8],
    pub passed: u64,
    pub ghost fits: { passed + length rest.now < 2 ^ 64 },
}

impl<'a> Cursor<'a> {
    /// The next line, which is passed.
    pub fn next(&mut self) -> Result<&'a [u8], Stop>
        ensures line { IfOk result (λ line.
            lines_of self.old.rest.now ≡ line.now ∷ lines_of self.new.rest.now) }
        ensures short { IfOk result (λ line. length line.now ≤ 4096) }
        ensures passed { IfOk result (λ _. self.new.passed ≡ self.old.passed + 1) }
        ensures shorter { IfOk result (λ _. length self.new.rest.now < length self.old.rest.now) }
        ensures fault { IfErr result (IsFaultAt (lines_of self.old.rest.now) self.old.passed) }
    {
        let line = self.passed;
        let (text, rest) = match line_at(self.rest) {
            Ok(taken) => taken,
            Err(code) => return Err(Stop::Refused { line, code }),
        };
        self.rest = rest;
        self.passed += 1;
        Ok(text)
    }
}
