// Scripts, as they are read.
use htss_defs::FileName;
use items::Items;

/// What a job asks for.
#[derive(Debug, Drop)]
pub enum Order {
    /// To load the records of the file.
    Load { file: FileName },
    /// To withdraw the record with this number.
    Withdraw { number: u32 },
    /// To search for the query of the file, under the job's own budget if it has one.
    Search { file: FileName, budget: Option<u64> },
}

/// A job.
#[derive(Debug, Drop)]
pub struct Job {
    /// The number of the job's line in the script, from 1 on.
    pub line: u32,
    /// What it asks for.
    pub order: Order,
}

/// The jobs of a group, in the order of their lines.
pub type Jobs = Items<Job>;

/// The jobs that stand between two lines `settle`.
#[derive(Debug, Drop)]
pub struct Group {
    /// The jobs, in the order of their lines.
    pub jobs: Jobs,
}

/// The groups of a script, in their order.
pub type Groups = Items<Group>;

/// A script.
#[derive(Debug, Drop)]
pub struct Script {
    /// Its groups: one more than it has lines `settle`.
    pub groups: Groups,
}

/// Bytes that are no script.
#[derive(Clone, Copy, Debug, PartialEq, Eq)]
pub struct ScriptFault {
    /// The number of the first line at fault, from 1 on.
    pub line: u64,
}
