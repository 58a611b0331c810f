// The own pages that a caller keeps for later, and where its next look for a page begins. Neither is a step.
ghost use Rattle.std.specs.Prelude.{◌≡◌, ◌<◌, ◌++◌, [], ◌∷◌, IfSome, IfNone, length};
ghost use Rattle.board_core.specs.Loaded.{IsPage, HasOwn};
ghost use Rattle.board_core.specs.MarkRule.{IsAmong};
ghost use Rattle.board.specs.Seated.{with_stock, with_next};

use crate::{Caller, STOCK};

impl Caller {
    /// Keeps an own page for later.
    pub fn keep_page(&mut self, page: u32)
        requires page { IsPage self.old.shape page }
        requires own { HasOwn self.old.account page }
        requires apart { ¬ (IsAmong self.old.stock page) }
        requires room { length self.old.stock < 32 }
        ensures { self.new ≡ with_stock self.old (self.old.stock ++ page ∷ []) }
    {
        self.stock.push(page);
    }

    /// An own page that was kept, if there is one: it is kept no more.
    pub fn kept_page(&mut self) -> Option<u32>
        ensures some { IfSome result
            (λ page. (self.new ≡ with_stock self.old self.new.stock) × (self.old.stock ≡ self.new.stock ++ page ∷ [])
            × IsPage self.old.shape page × HasOwn self.old.account page × ¬ (IsAmong self.new.stock page)) }
        ensures none { IfNone result ((self.new ≡ self.old) × (self.old.stock ≡ [])) }
    {
        self.stock.pop()
    }

    /// How many own pages it keeps.
    pub fn stocked(&self) -> usize
        ensures { result ≡ length self.now.stock }
    {
        self.stock.len()
    }

    /// The page at which its next look for a page begins.
    pub fn next_page(&self) -> u32
        ensures value { result ≡ self.now.next }
        ensures page { IsPage self.now.shape result }
    {
        self.next
    }

    /// The next look for a page begins here.
    pub fn begin_at(&mut self, page: u32)
        requires { IsPage self.old.shape page }
        ensures { self.new ≡ with_next self.old page }
    {
        self.next = page;
    }
}
