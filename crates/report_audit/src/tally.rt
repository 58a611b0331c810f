// What the lines so far carry, as a few numbers for each caller.
ghost use Rattle.std.specs.Prelude.{◌≡◌, ℕ, ◌<◌, ◌≤◌, ◌++◌, ◌∷◌, [], List, true, false};
ghost use Rattle.report_rules.specs.Dealing.{Caller as ScriptCaller};
ghost use Rattle.report_rules.specs.Rules.{IsNew, IsRefusingFront, IsRoomLeft, IsSearchFront, Line};
ghost use Rattle.report_audit.specs.Tallied.{IsCaller, IsCarried, IsNext, IsOnce, IsTallyOf, place_of};
ghost use Rattle.report_audit.specs.Callers.{caller_of};

use htss_defs::Shape;

/// A loader or a searcher, by its number from 1 on.
#[derive(Clone, Copy, Debug, PartialEq, Eq)]
pub struct Caller {
    pub loads: bool,
    pub number: u8,
}

/// What a line carries: its greatest mark, front and own event number, 0 where it has none, and the words that it has
/// used.
#[derive(Clone, Copy, Debug, PartialEq, Eq)]
pub struct Carried {
    pub mark: u32,
    pub front: u32,
    pub own: u32,
    pub words: u64,
}

/// The greatest marks and fronts of each caller's lines and the words that they have used; the greatest mark and own
/// event number of all lines, and of those of groups before the last.
#[derive(Clone, Copy)]
pub struct Tally {
    pub marks: [u32; 32],
    pub fronts: [u32; 32],
    pub words: [u64; 32],
    pub all: u32,
    pub own: u32,
    pub before: u32,
    pub own_before: u32,
    pub group: usize,
}

impl Tally {
    /// No line, in the first group.
    pub fn new() -> Tally
        ensures tally { IsTallyOf [] result }
        ensures group { result.group ≡ 1 }
    {
        Tally {
            marks: [0; 32],
            fronts: [0; 32],
            words: [0; 32],
            all: 0,
            own: 0,
            before: 0,
            own_before: 0,
            group: 1,
        }
    }

    /// The lines that follow are of this group, which is no earlier one.
    pub fn enter(&mut self, group: usize)
        requires { self.old.group ≤ group }
        ensures tally { (lines : List Line) → IsTallyOf lines self.old → IsTallyOf lines self.new }
        ensures group { self.new.group ≡ group }
    {
        if self.group < group {
            self.before = self.all;
            self.own_before = self.own;
            self.group = group;
        }
    }

    /// One more line of the last group, by this caller.
    pub fn note(&mut self, caller: Caller, carried: Carried)
        requires { IsCaller (caller_of caller) }
        ensures tally { (lines : List Line) (line : Line) → line.caller ≡ caller_of caller → line.group ≡ self.old.group
            → IsCarried line carried
            → IsTallyOf lines self.old → IsTallyOf (lines ++ line ∷ []) self.new }
        ensures group { self.new.group ≡ self.old.group }
    {
        let place = place(caller);
        self.marks[place] = self.marks[place].max(carried.mark);
        self.fronts[place] = self.fronts[place].max(carried.front);
        self.words[place] = self.words[place].saturating_add(carried.words);
        self.all = self.all.max(carried.mark);
        self.own = self.own.max(carried.own);
    }

    /// Whether an event number that no line has is new on the caller's next line.
    pub fn is_new(&self, caller: Caller, number: u32) -> bool
        requires caller { IsCaller (caller_of caller) }
        requires some { 1 ≤ number }
        ensures new { result ≡ true → (lines : List Line) (line : Line) → IsNext self.now (caller_of caller) line
            → IsTallyOf lines self.now
            → IsOnce lines number → IsNew lines line number }
        ensures old { result ≡ false → (lines : List Line) (line : Line) → IsNext self.now (caller_of caller) line
            → IsTallyOf lines self.now
            → IsNew lines line number → ⊥ }
    {
        self.marks[place(caller)] < number && self.before < number
    }

    /// Whether the front may refuse on the caller's next line.
    pub fn is_refusing_front(&self, caller: Caller, front: u32) -> bool
        requires { IsCaller (caller_of caller) }
        ensures front { result ≡ true → (lines : List Line) (line : Line) → IsNext self.now (caller_of caller) line
            → IsTallyOf lines self.now
            → IsRefusingFront lines line front }
        ensures short { result ≡ false → (lines : List Line) (line : Line) → IsNext self.now (caller_of caller) line
            → IsTallyOf lines self.now
            → IsRefusingFront lines line front → ⊥ }
    {
        self.marks[place(caller)] <= front && self.own_before <= front
    }

    /// Whether the front may be a search's on the caller's next line.
    pub fn is_search_front(&self, caller: Caller, front: u32) -> bool
        requires { IsCaller (caller_of caller) }
        ensures front { result ≡ true → (lines : List Line) (line : Line) → IsNext self.now (caller_of caller) line
            → IsTallyOf lines self.now
            → IsSearchFront lines line front }
        ensures short { result ≡ false → (lines : List Line) (line : Line) → IsNext self.now (caller_of caller) line
            → IsTallyOf lines self.now
            → IsSearchFront lines line front → ⊥ }
    {
        self.fronts[place(caller)] <= front && self.before <= front
    }

    /// Whether the caller has so many words of its region left at its next line.
    pub fn is_room_left(&self, shape: Shape, caller: Caller, left: u32) -> bool
        requires { IsCaller (caller_of caller) }
        ensures left { result ≡ true → (lines : List Line) (line : Line) → IsNext self.now (caller_of caller) line
            → IsTallyOf lines self.now
            → IsRoomLeft shape lines line left }
        ensures other { result ≡ false → (lines : List Line) (line : Line) → IsNext self.now (caller_of caller) line
            → IsTallyOf lines self.now
            → IsRoomLeft shape lines line left → ⊥ }
    {
        left <= shape.room && self.words[place(caller)] == u64::from(shape.room - left)
    }
}

// The place of a caller: loaders first, then searchers.
fn place(caller: Caller) -> usize
    requires { IsCaller (caller_of caller) }
    ensures at { result ≡ place_of (caller_of caller) }
    ensures within { result < 32 }
{
    let place = caller.number as usize - 1;
    if caller.loads { place } else { 16 + place }
}
