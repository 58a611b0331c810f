// What a seat knows.
use crate::entry::Noted;
use crate::loads::Loads;
use crate::log::LogAccount;
use crate::pool::PoolAccount;
use crate::room::RoomAccount;
use crate::tree::{Counts, TreeAccount};
use htss_defs::Shape;
use std::collections::LinkedList;

/// Whose an account is. The opener has made so many callers. A note tells a front. A seat that was joined into another
/// is gone.
pub enum Who {
    Opener(u64),
    Loader(u8),
    Searcher(u8),
    Note,
    Gone,
}

/// What a caller knows, by group.
pub struct Account {
    pub who: Who,
    pub log: LogAccount,
    pub room: RoomAccount,
    pub pool: PoolAccount,
    pub tree: TreeAccount,
    pub counts: Counts,
    pub loads: Loads,
    pub entries: LinkedList<Noted>,
}

/// What a seat knows: the board's shape, its own account, and the accounts of the callers that it gathered.
pub struct View {
    pub shape: Shape,
    pub me: Account,
    pub kept: LinkedList<Account>,
}
