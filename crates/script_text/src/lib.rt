//! Scripts: their text, the files that they name, and the file of records that `make` writes.
#![tactic(auto)]

mod files;
mod growing;
mod making;
mod numbers;
mod reader;
mod saying;
mod script;

pub use files::Files;
pub use making::{MakeStop, make_file};
pub use numbers::whole_number;
pub use reader::read_script;
pub use script::{Group, Groups, Job, Jobs, Order, Script, ScriptFault};
