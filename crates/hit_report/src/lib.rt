//! The lines of hits, records and refusals, as the commands and the report of a registry print them.
#![tactic(auto)]

mod append;
mod codes_lines;
mod hit_lines;
mod record_lines;

pub use append::{append_bytes, append_name, append_spaced, kept_or_cut};
pub use codes_lines::push_codes;
pub use hit_lines::{push_count, push_hit, push_overbudget};
pub use record_lines::{
    code_word, push_ok, push_query_refused, push_records, push_refusal, push_refused,
};
