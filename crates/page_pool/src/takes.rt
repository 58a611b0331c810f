// A page is taken for the caller's own, or kept for later.
ghost use Rattle.std.specs.Prelude.{◌≡◌, ◌<◌, ◌≤◌, ◌++◌, [], ◌∷◌, IfOk, IfErr, IfSome, IfNone, length};
ghost use Rattle.board_core.specs.CountRule.{most_own};
ghost use Rattle.board_core.specs.Loaded.{IsPage, HasOwn};
ghost use Rattle.board_core.specs.MarkRule.{IsAmong};
ghost use Rattle.board.specs.Seated.{IsOf, IsLoader, with_stock};
ghost use Rattle.page_pool.specs.Taking.{HasFound, IsGiven, IsRefused, page_before};

use crate::scans::{look_round, scan_callers};
use board::{Answers, Board, Caller, note_answers};
use htss_defs::Shape;

/// The caller keeps no page, and none was free or retired below the least announced epoch.
#[derive(Clone, Copy, Debug, PartialEq, Eq, Drop)]
pub struct NoPage;

// A call that found no page.
struct Refused;

impl Answers for Refused {
    ghost use Rattle.std.specs.Prelude.{[], ◌∷◌};
    ghost use Rattle.board_core.specs.declared.entry.Entry.TheVariants.{NoPage};

    ghost entries = { NoPage ∷ [] };
}

// The page at which a look at all pages ends that begins here.
fn end_of_round(shape: Shape, page: u32) -> u32
    requires { IsPage shape page }
    ensures before { result ≡ page_before shape.pages page }
    ensures page { IsPage shape result }
{
    if page == 1 { shape.pages } else { page - 1 }
}

// All pages are looked at, from the one where the last look ended.
fn find_page(board: &Board, caller: &mut Caller) -> Option<u32>
    requires fits { IsOf board.now caller.old }
    requires loader { IsLoader caller.old }
    requires few { length caller.old.account.pool.own < most_own }
    ensures some { IfSome result
        (λ page. IsPage board.now.shape page × HasFound board.now.shape caller.old caller.new page) }
    ensures none { IfNone result (IsRefused board.now.shape caller.old caller.new) }
{
    let low = scan_callers(board, caller);
    let next = caller.next_page();
    match look_round(board, caller, next, low) {
        Some(page) => {
            caller.begin_at(page);
            Some(page)
        }
        None => {
            note_answers::<Refused>(board, caller);
            caller.begin_at(end_of_round(board.shape(), next));
            None
        }
    }
}

/// A page for the caller's own: one that it keeps, else one that was free or retired below the least announced epoch.
pub fn take(board: &Board, caller: &mut Caller) -> Result<u32, NoPage>
    requires fits { IsOf board.now caller.old }
    requires loader { IsLoader caller.old }
    requires few { length caller.old.account.pool.own < most_own }
    ensures of { IsOf board.now caller.new }
    ensures loader { IsLoader caller.new }
    ensures ok { IfOk result (λ page. IsPage board.now.shape page
        × IsGiven board.now.shape caller.old caller.new page) }
    ensures none { IfErr result (λ e. (caller.old.stock ≡ []) × IsRefused board.now.shape caller.old caller.new) }
{
    if let Some(page) = caller.kept_page() {
        return Ok(page);
    }
    match find_page(board, caller) {
        Some(page) => Ok(page),
        None => Err(NoPage),
    }
}

/// Keeps an own page for later. It is no step.
pub fn keep(caller: &mut Caller, page: u32)
    requires page { IsPage caller.old.shape page }
    requires own { HasOwn caller.old.account page }
    requires apart { ¬ (IsAmong caller.old.stock page) }
    requires room { length caller.old.stock < 32 }
    ensures { caller.new ≡ with_stock caller.old (caller.old.stock ++ page ∷ []) }
{
    caller.keep_page(page);
}
