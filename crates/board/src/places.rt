// Where the words of a board stand.
ghost use Rattle.std.specs.Prelude.{◌≡◌, ◌+◌, ◌-◌, ◌<◌, ◌≤◌, ◌^◌};
ghost use Rattle.htss_defs.specs.Shapes.{IsShape};
ghost use Rattle.board_core.specs.declared.account.Who.TheVariants.{Loader};
ghost use Rattle.board_core.specs.Words.{log_at, states_at};
ghost use Rattle.board_core.specs.Accounts.{seat_of};
ghost use Rattle.board_core.specs.SeatRule.{WhoFits};
ghost use Rattle.board_core.specs.Loaded.{IsPage, page_word};
ghost use Rattle.board.specs.Seated.{who_of};
ghost use Rattle.board_core.specs.Blocks.{atoms_in, block_size};
ghost use Rattle.board_core.specs.Records.{code_word_at};
ghost use Rattle.board_core.specs.RoomRule.{region_of};

use htss_defs::Shape;

// The place of the first log word.
pub(crate) fn log_place(shape: Shape) -> usize
    requires { IsShape shape }
    ensures { result ≡ log_at shape }
{
    3 + shape.loaders as usize
        + shape.searchers as usize
        + shape.pages as usize
        + 16 * shape.pages as usize
}

// The place of the first word of a loader's region.
pub(crate) fn region_place(shape: Shape, loader: u8) -> usize
    requires limits { IsShape shape }
    requires loader { (0 < loader) × (loader ≤ shape.loaders) }
    ensures { result ≡ region_of shape (Loader loader) }
{
    log_place(shape) + shape.log as usize + (loader as usize - 1) * shape.room as usize
}

// The place of a code word of an atom of a block with this first word. Atoms count from 1.
pub(crate) fn code_place(block: u64, head: u64, atom: u16, code: u8) -> usize
    requires block { block < 2 ^ 40 }
    requires atom { (0 < atom) × (atom ≤ atoms_in head) }
    requires code { code < 5 }
    ensures { result ≡ block + code_word_at head (atom - 1) code }
{
    let bytes = (head >> 20) as usize % 128;
    let atoms = head as usize % 1024;
    let codes = 3 + (bytes + 7) / 8 + atoms;
    block as usize + codes + (5 * (atom as usize - 1) + code as usize)
}

// How many words a block with this first word has.
pub(crate) fn words_in(head: u64) -> usize
    ensures { result ≡ block_size head }
{
    let atoms = head as usize % 1024;
    let bonds = (head >> 10) as usize % 1024;
    let bytes = (head >> 20) as usize % 128;
    3 + (bytes + 7) / 8 + atoms + 5 * atoms + bonds
}

// The place of a caller's announcement.
pub(crate) fn announcement_place(shape: Shape, loader: bool, number: u8) -> usize
    requires limits { IsShape shape }
    requires who { WhoFits shape (who_of loader number) }
    ensures { result ≡ 2 + seat_of shape (who_of loader number) }
{
    if loader {
        2 + number as usize
    } else {
        2 + shape.loaders as usize + number as usize
    }
}

// The place of the state of a page.
pub(crate) fn state_place(shape: Shape, page: u32) -> usize
    requires limits { IsShape shape }
    requires page { IsPage shape page }
    ensures { result ≡ states_at shape + (page - 1) }
{
    3 + shape.loaders as usize + shape.searchers as usize + (page as usize - 1)
}

// The place of a word of a page.
pub(crate) fn page_place(shape: Shape, page: u32, word: u8) -> usize
    requires limits { IsShape shape }
    requires page { IsPage shape page }
    requires word { word < 16 }
    ensures { result ≡ page_word shape page word }
{
    3 + shape.loaders as usize
        + shape.searchers as usize
        + shape.pages as usize
        + (16 * (page as usize - 1) + word as usize)
}
