// What happens to a registry, and what a search of it answers.
use crate::{Mol, Name, Places};

/// An event of a history. A caller is a loader's number, from 1.
#[derive(Debug, Drop)]
pub enum Event {
    Publish { caller: u8, name: Name, mol: Mol },
    Withdraw { caller: u8, number: u32 },
}

/// A record into which a query embeds: its number, its name and the least embedding.
#[derive(Debug, Drop)]
pub struct Hit {
    pub number: u32,
    pub name: Name,
    pub map: Places,
}

/// Why a search has no hits: its work exceeds the budget at this front, or memory ran out.
#[derive(Clone, Copy, Debug, PartialEq, Eq)]
pub enum SearchError {
    OverBudget { front: u32 },
    OutOfMemory,
}
