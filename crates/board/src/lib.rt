//! One call for each kind of step on a board, and the callers that make them.
#![tactic(auto)]

mod blocks;
mod close;
mod epochs;
mod exchange;
mod met;
mod notes;
mod open;
mod pages;
mod passing;
mod places;
mod plays;
mod recall;
mod regions;
mod seats;
mod staged;
mod steps;
mod stock;
mod swept;
mod tree;

pub use blocks::{load_code, load_fact, load_head, load_mark, load_shown};
pub use close::{Final, gather};
pub use epochs::{
    LAST_EPOCH, advance_epoch, clear_announcement, load_announcement, load_epoch,
    store_announcement,
};
pub use exchange::exchange_leaf;
pub use met::{load_met_code, load_met_entry, load_met_head};
pub use notes::{hear, note};
pub use open::{OpenError, open_board};
pub use pages::{exchange_state, load_state, store_retired};
pub use passing::pass_leaf;
pub use recall::{Leaf, keep_leaves, reach_again, recall_leaf};
pub use regions::{next_place, seal_block, store_ended, store_shown, store_word};
pub use seats::{Board, Caller, Note, STOCK};
pub use staged::Staged;
pub use steps::{
    Answers, Shown, advance_front, exchange_lock, free_lock, load_front, load_log_word,
    note_answers, store_log_word,
};
pub use swept::{Sweeps, note_swept};
pub use tree::{
    begin_row, begin_walk, claim_code, claim_entry, link_leaf, link_next_inner, link_next_leaf,
    load_header, load_link, load_more, load_own_code, load_own_head, load_slot, store_own_word,
};
