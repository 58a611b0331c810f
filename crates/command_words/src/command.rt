// What a command line asks for.
use htss_defs::Shape;

/// What the words of a command line ask for. The texts are names of files.
#[derive(Clone, Copy, Debug)]
pub enum Command<'a> {
    /// Finds the records of the SDfile into which the query embeds, in as many steps as the budget allows.
    Find {
        sdf: &'a str,
        query: &'a str,
        budget: u64,
    },
    /// Checks the records of the SDfile.
    Check {
        sdf: &'a str,
    },
    /// Tells the codes of the atoms of the molfile.
    Codes {
        mol: &'a str,
    },
    /// Makes an SDfile of 1 to 100,000 records from the seed, or reads it back and prints one line about it.
    Make {
        count: u32,
        seed: u64,
        summary: bool,
    },
    /// Runs the script on a registry of this shape. A search has the budget unless its line gives another.
    Run {
        script: &'a str,
        shape: Shape,
        budget: u64,
    },
    /// Holds the report against the script and its files.
    Audit {
        script: &'a str,
        report: &'a str,
    },
}
