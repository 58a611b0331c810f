// The lists of a report.
use crate::{Block, LoadLine, LogLine};
use htss_defs::Hit;
use items::Items;

/// The blocks of a report, in the order of the script's lines.
pub type Blocks = Items<Block>;

/// What became of the records of a file, in their order.
pub type LoadLines = Items<LoadLine>;

/// The hits of a search, by rising number.
pub type Hits = Items<Hit>;

/// The events of a log, in their order.
pub type LogLines = Items<LogLine>;
