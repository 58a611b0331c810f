use htss_defs::{Bytes, Text};

/// A file in memory.
#[derive(Debug, Drop)]
pub struct NamedBytes {
    /// The name that the file is asked for by.
    pub name: Text,
    /// All bytes of the file.
    pub bytes: Bytes,
}
