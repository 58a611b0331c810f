// How large a board is.
ghost use Rattle.std.specs.Prelude.{◌≡◌, ◌↔◌, IfSome, IfNone};
ghost use Rattle.htss_defs.specs.Shapes.{IsFirstOutside, IsShape};

/// How large a board is: 1 to 16 loaders and searchers each, 16 to 4,194,304 pages, 10 to 16,777,216 words of room for
/// each loader, 1 to 1,048,576 log entries, and 2 to 65,535 pages of one chain.
#[derive(Clone, Copy, Debug, PartialEq, Eq)]
pub struct Shape {
    pub loaders: u8,
    pub searchers: u8,
    pub pages: u32,
    pub room: u32,
    pub log: u32,
    pub chain: u32,
}

/// A part of a shape.
#[derive(Clone, Copy, Debug, PartialEq, Eq)]
pub enum Field {
    Loaders,
    Searchers,
    Pages,
    Room,
    Log,
    Chain,
}

impl Shape {
    /// The first part, in their order, that is out of its limits, or `None` exactly where there is none.
    pub fn first_outside(self) -> Option<Field>
        ensures outside { IfSome result (λ field. IsFirstOutside self field) }
        ensures within { IfNone result (IsShape self) }
    {
        if self.loaders < 1 || self.loaders > 16 {
            Some(Field::Loaders)
        } else if self.searchers < 1 || self.searchers > 16 {
            Some(Field::Searchers)
        } else if self.pages < 16 || self.pages > 4194304 {
            Some(Field::Pages)
        } else if self.room < 10 || self.room > 16777216 {
            Some(Field::Room)
        } else if self.log < 1 || self.log > 1048576 {
            Some(Field::Log)
        } else if self.chain < 2 || self.chain > 65535 {
            Some(Field::Chain)
        } else {
            None
        }
    }
}
