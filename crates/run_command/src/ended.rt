// How a call of the program ended.
use board::Final;

/// The status that the program ends with, and the board that a run closed: there is one exactly where `run` ended at
/// status 0.
#[derive(Drop)]
pub struct Ended {
    pub status: u8,
    pub last: Option<Final>,
}
