//! The history that a report tells: its log, and what the files of its jobs name.
#![tactic(auto)]

mod events;
mod hits;
mod jobs;
mod live;
mod log;
mod names;
mod over;
mod reads;
mod records;
#[cfg(test)]
mod tests;
mod told;

pub use events::{is_publication, is_published, is_withdrawal, is_withdrawn, is_withdrawn_by};
pub use hits::check_hits;
pub use jobs::{LaidJob, lay_out};
pub use live::{LiveRecord, live_record};
pub use log::{BrokenEvent, first_broken};
pub use names::{Namer, is_block_for, name_events, records_of};
pub use over::check_over;
pub use reads::{JobRead, read_jobs};
pub use records::{RecordRead, read_records};
pub use told::Told;
