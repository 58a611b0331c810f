ghost use Rattle.std.specs.Prelude.{◌≡◌, ◌≢◌, ◌+◌, ◌-◌, ◌<◌, ◌≤◌, ℕ, [], ◌∷◌, length, IfOk, IfErr};
ghost use Rattle.htss_defs.specs.Marked.{IsMarked};
ghost use Rattle.board_core.specs.declared.entry.Entry.TheVariants.{DataFull};
ghost use Rattle.board_core.specs.Blocks.{first_of};
ghost use Rattle.board_core.specs.Boards.{SomeBoard};
ghost use Rattle.board_core.specs.Each.{Each};
ghost use Rattle.board_core.specs.RoomRule.{IsSealed};
ghost use Rattle.board_core.specs.Steps.{AreTrue, IsKnownRoom};
ghost use Rattle.board_core.specs.After.{after_answer};
ghost use Rattle.block_words.specs.Writing.{size_of, written};
ghost use Rattle.board.specs.Seated.{IsOf, IsLoader, with_account};
ghost use Rattle.board.specs.Staging.{Staging, IsWritten, IsStaged, StayStaged};
ghost use Rattle.class_tree.specs.Inserting.{IsStocked};
ghost use Rattle.loader.specs.Stages.{next_block, left_in, staging, after_words, after_block, HasStaged, HasRoomBut};
ghost use Rattle.loader.specs.Stages.{IsRefused, stage_error};

use crate::rows::insert_rows;
use block_words::BlockWriter;
use board::{Answers, Board, Caller, Staged, next_place, note_answers, seal_block, store_word};
use class_tree::InsertError;
use env_code::Coder;
use htss_defs::{Mol, Name};
use std::marker::Brand;

/// Why a record is not staged.
#[derive(Clone, Copy, Debug, PartialEq, Eq, Drop)]
pub enum StageError {
    /// The words of the region that are left, and the words that the block needs.
    DataFull { left: u32, need: u32 },
    /// A page was wanted, the caller kept none, and the pool had none.
    NoPage,
    /// The pages of a chain on the walk of one of the record's rows: as many as the board's shape allows, each full.
    ChainFull { pages: u32 },
}

impl From<InsertError> for StageError {
    fn from(refused: InsertError) -> StageError
        ensures { result ≡ stage_error refused }
    {
        match refused {
            InsertError::NoPage => StageError::NoPage,
            InsertError::ChainFull { pages } => StageError::ChainFull { pages },
        }
    }
}

/// Stages a record with marked rings: writes its block into the loader's region, past what it has stored, and inserts
/// its rows in the order of its atoms. It takes no memory, and waits for nobody.
///
/// `DataFull` comes exactly where fewer words are left than the block needs; then nothing is stored. The other two come
/// from the row whose insertion was refused. The block's words are then used up, and the rows before it stay placed; no
/// event shows them.
pub fn stage(
    board: &Board,
    caller: &mut Caller,
    mol: &Mol,
    name: &Name,
) -> Result<Staged, StageError>
    requires fits { IsOf board.now caller.old }
    requires loader { IsLoader caller.old }
    requires unpinned { caller.old.account.pool.announced ≡ 0 }
    requires stocked { IsStocked caller.old }
    requires marked { IsMarked mol.now }
    ensures of { IsOf board.now caller.new }
    ensures still { IsLoader caller.new }
    ensures stocked { IsStocked caller.new }
    ensures staged { IfOk result (λ s. s ≡ staging board.now.shape caller.old.account name.now mol.now) }
    ensures fresh { IfOk result (λ s. IsStaged board.now.shape caller.new.account s) }
    ensures added { IfOk result (λ s. HasStaged caller.old.account caller.new.account s) }
    ensures room { IfOk result (λ s. length caller.old.account.room.used + size_of name.now mol.now
        ≤ board.now.shape.room) }
    ensures refused { IfErr result (λ e. IsRefused board.now.shape caller.old caller.new
        (staging board.now.shape caller.old.account name.now mol.now) e) }
    ensures had_room { IfErr result (λ e. HasRoomBut board.now.shape caller.old.account
        (staging board.now.shape caller.old.account name.now mol.now) e) }
    ensures others { StayStaged board.now.shape caller.old.account caller.new.account }
    ensures apart { (s : Staging) → IsStaged board.now.shape caller.old.account s
        → s.block ≢ next_block board.now.shape caller.old.account }
{
    let mut coder = Coder::new();
    stage_with(board, caller, &mut coder, mol, name)
}

/// As `stage`, with a coder to work with, whatever that was: it serves for one record after the other.
pub fn stage_with(
    board: &Board,
    caller: &mut Caller,
    coder: &mut Coder,
    mol: &Mol,
    name: &Name,
) -> Result<Staged, StageError>
    requires fits { IsOf board.now caller.old }
    requires loader { IsLoader caller.old }
    requires unpinned { caller.old.account.pool.announced ≡ 0 }
    requires stocked { IsStocked caller.old }
    requires marked { IsMarked mol.now }
    ensures of { IsOf board.now caller.new }
    ensures still { IsLoader caller.new }
    ensures stocked { IsStocked caller.new }
    ensures staged { IfOk result (λ s. s ≡ staging board.now.shape caller.old.account name.now mol.now) }
    ensures fresh { IfOk result (λ s. IsStaged board.now.shape caller.new.account s) }
    ensures added { IfOk result (λ s. HasStaged caller.old.account caller.new.account s) }
    ensures room { IfOk result (λ s. length caller.old.account.room.used + size_of name.now mol.now
        ≤ board.now.shape.room) }
    ensures refused { IfErr result (λ e. IsRefused board.now.shape caller.old caller.new
        (staging board.now.shape caller.old.account name.now mol.now) e) }
    ensures had_room { IfErr result (λ e. HasRoomBut board.now.shape caller.old.account
        (staging board.now.shape caller.old.account name.now mol.now) e) }
    ensures others { StayStaged board.now.shape caller.old.account caller.new.account }
    ensures apart { (s : Staging) → IsStaged board.now.shape caller.old.account s
        → s.block ≢ next_block board.now.shape caller.old.account }
{
    coder.load(mol);
    let mut writer = BlockWriter::new(coder, name, mol);
    let need = writer.size();
    let left = board.shape().room.saturating_sub(caller.used());
    if left < need {
        note_full(board, caller, left, need);
        return Err(StageError::DataFull { left, need });
    }
    let block = store_block(board, caller, &mut writer);
    let atoms = mol.atoms().len() as u16;
    match insert_rows(board, caller, block, atoms) {
        Ok(()) => Ok(Staged::new(block, name, mol)),
        Err(refused) => Err(StageError::from(refused)),
    }
}

// The answers of `E` may speak of these numbers.
fn note_with<E: Answers>(board: &Board, caller: &mut Caller, _left: u32, _need: u32)
    requires fits { IsOf board.now caller.old }
    requires answers { AreTrue board.now.shape caller.old.account E.entries }
    ensures after { caller.new ≡ with_account caller.old (after_answer caller.old.account E.entries) }
    ensures before { SomeBoard board.now.shape caller.old.account }
{
    note_answers::<E>(board, caller);
}

// The account gains the refusal.
fn note_full(board: &Board, caller: &mut Caller, left: u32, need: u32)
    requires fits { IsOf board.now caller.old }
    requires left { left ≡ left_in board.now.shape caller.old.account }
    requires less { left < need }
    requires loader { IsLoader caller.old }
    ensures after { caller.new ≡ with_account caller.old (after_answer caller.old.account (DataFull left need ∷ [])) }
    ensures within { length caller.old.account.room.used ≤ board.now.shape.room }
    ensures of { IsOf board.now caller.new }
    ensures still { IsLoader caller.new }
{
    note_with::<Brand>(board, caller, left, need);
}

// Stores the block. Answers its place.
fn store_block(board: &Board, caller: &mut Caller, writer: &mut BlockWriter) -> u64
    requires fits { IsOf board.now caller.old }
    requires loader { IsLoader caller.old }
    requires room { length caller.old.account.room.used + size_of writer.old.name writer.old.mol
        ≤ board.now.shape.room }
    ensures place { result ≡ next_block board.now.shape caller.old.account }
    ensures after { caller.new ≡ with_account caller.old
        (after_block caller.old.account (staging board.now.shape caller.old.account writer.old.name writer.old.mol)) }
    ensures of { IsOf board.now caller.new }
    ensures still { IsLoader caller.new }
    ensures rows { Each (λ r. IsSealed caller.old.account.room.sealed r.block) caller.old.account.tree.placed }
    ensures before { Each (λ t. t.place
        < next_block board.now.shape caller.old.account) caller.old.account.room.sealed }
    ensures written { IsWritten board.now.shape caller.new.account
        (staging board.now.shape caller.old.account writer.old.name writer.old.mol) }
{
    let size = writer.size();
    let place = next_place(board, caller);
    store_front(board, caller, writer, size - 1);
    let last = writer.word(size - 1);
    seal_block(board, caller, last, place, size as u64);
    place
}

// Stores the first words of the block, which do not complete it.
fn store_front(board: &Board, caller: &mut Caller, writer: &mut BlockWriter, count: u32)
    requires fits { IsOf board.now caller.old }
    requires loader { IsLoader caller.old }
    requires some { 0 < count }
    requires within { count < size_of writer.old.name writer.old.mol }
    requires room { length caller.old.account.room.used + count ≤ board.now.shape.room }
    ensures after { caller.new ≡ with_account caller.old
        (after_words caller.old.account (first_of (written writer.old.name writer.old.mol) count)) }
    ensures room { IsKnownRoom board.now.shape caller.old.account }
    ensures same { writer.new ≡ writer.old }
{
    let word = writer.word(0);
    store_word(board, caller, word);
    for index in 1..count {
        let word = writer.word(index);
        store_word(board, caller, word);
    }
}
