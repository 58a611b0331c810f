// The exchange of the link to a full leaf for own pages that have its rows: one atomic step, which takes no memory.
ghost use Rattle.std.specs.Prelude.{◌≡◌, ◌≢◌, ◌+◌, ◌*◌, ◌<◌, ℕ, [], false};
ghost use Rattle.board_core.specs.Each.{Each};
ghost use Rattle.board_core.specs.MarkRule.{IsAmong};
ghost use Rattle.board_core.specs.Loaded.{IsPage};
ghost use Rattle.board_core.specs.Steps.{Exchange, MayExchangeLeaf};
ghost use Rattle.board_core.specs.After.{visited, after_link, after_split};
ghost use Rattle.board.specs.Seated.{IsOf, with_account};

use crate::places::page_place;
use crate::plays::ExchangeLeaf;
use crate::{Board, Caller};
use std::marker::Brand;

// Which exchange it is. The call that makes the step picks it.
pub(crate) trait Replaces {
    ghost exchange: { Exchange };
}

impl Replaces for Brand {
    ghost exchange = { record { inner = 0; index = 0; code = 0; leaf = 0; numbers = []; first = 0 } };
}

// The code and the numbers are there for the call that picks which exchange it is.
fn exchange_leaf_of<X: Replaces>(
    board: &Board,
    caller: &mut Caller,
    page: u32,
    number: u64,
    index: u8,
    code: u64,
    leaf: u32,
    leaf_number: u64,
    first: u32,
    numbers: &[u32],
) -> u64
    requires fits { IsOf board.now caller.old }
    requires may { MayExchangeLeaf board.now.shape caller.old.account number index code leaf_number numbers.now first }
    requires page { (visited caller.old.account.tree.reached number).page ≡ page }
    requires leaf { (visited caller.old.account.tree.reached leaf_number).page ≡ leaf }
    requires small { index < 7 }
    requires free { Each (λ n. ¬ (IsAmong caller.old.stock n)) numbers.now }
    requires is { X.exchange
        ≡ record { inner = number; index = index; code = code; leaf = leaf; numbers = numbers.now; first = first } }
    ensures won { result ≡ leaf
        → caller.new ≡ with_account caller.old
        (after_link (after_split caller.old.account numbers.now leaf) number index code first false) }
    ensures lost { result ≢ leaf
        → caller.new ≡ with_account caller.old (after_link caller.old.account number index code result false) }
    ensures page { IsPage board.now.shape result }
{
    let at = page_place(board.shape, page, 3 + 2 * index);
    let shared = &board.table.shared;
    shared.compare_exchange::<ExchangeLeaf<X>>(&mut caller.seat, at, leaf as u64, first as u64)
}

/// Exchanges the link to a full leaf that was reached for the first of own pages that have the leaf's rows. The answer
/// is the word that it found. Where that is the leaf, the pages are in the tree, the leaf is unlinked and has no stamp
/// yet, and the first page is reached. Else another caller was faster, and the inner page that it put there is reached.
pub fn exchange_leaf(
    board: &Board,
    caller: &mut Caller,
    page: u32,
    number: u64,
    index: u8,
    code: u64,
    leaf: u32,
    leaf_number: u64,
    first: u32,
    numbers: &[u32],
) -> u64
    requires fits { IsOf board.now caller.old }
    requires may { MayExchangeLeaf board.now.shape caller.old.account number index code leaf_number numbers.now first }
    requires page { (visited caller.old.account.tree.reached number).page ≡ page }
    requires leaf { (visited caller.old.account.tree.reached leaf_number).page ≡ leaf }
    requires small { index < 7 }
    requires free { Each (λ n. ¬ (IsAmong caller.old.stock n)) numbers.now }
    ensures won { result ≡ leaf
        → caller.new ≡ with_account caller.old
        (after_link (after_split caller.old.account numbers.now leaf) number index code first false) }
    ensures lost { result ≢ leaf
        → caller.new ≡ with_account caller.old (after_link caller.old.account number index code result false) }
    ensures page { IsPage board.now.shape result }
{
    exchange_leaf_of::<Brand>(
        board,
        caller,
        page,
        number,
        index,
        code,
        leaf,
        leaf_number,
        first,
        numbers,
    )
}
