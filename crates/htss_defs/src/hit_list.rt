// The hits of a search, with its two counts.
ghost use Rattle.std.specs.Prelude.{◌≡◌, [], ◌∷◌, ◌++◌, OnOk, OnErr};
ghost use Rattle.htss_defs.specs.HitLists.{no_hits};

use crate::{Hit, OutOfMemory};
use std::alloc::Global;
use std::marker::Model;

/// The hits that a search has answered, and its counts: contracts see all three.
#[derive(Debug, Drop)]
pub struct HitList {
    hits: Vec<Hit>,
    rows: u64,
    records: u32,
}

impl Model for HitList {
    ghost use Rattle.htss_defs.specs.HitLists.{HitsKept};

    ghost Value = { HitsKept };

    ghost view = { λ l. record { hits = l.hits.items; rows = l.rows; records = l.records } };
}

impl HitList {
    /// No hits, and counts of 0. It takes no memory.
    pub fn new(alloc: Global) -> HitList
        ensures { result ≡ no_hits }
    {
        HitList {
            hits: Vec::new(alloc),
            rows: 0,
            records: 0,
        }
    }

    /// The hits, by rising number.
    pub fn hits(&self) -> &[Hit]
        ensures { result.now ≡ self.now.hits }
    {
        &self.hits
    }

    /// How many rows had their codes loaded by the last search.
    pub fn rows(&self) -> u64
        ensures { result ≡ self.now.rows }
    {
        self.rows
    }

    /// How many records the last search screened.
    pub fn records(&self) -> u32
        ensures { result ≡ self.now.records }
    {
        self.records
    }

    /// Empties the list and sets both counts to 0.
    pub fn clear(&mut self)
        ensures { self.new ≡ no_hits }
    {
        self.hits.clear();
        self.rows = 0;
        self.records = 0;
    }

    /// Appends a hit. An `Err` leaves the list as it was.
    pub fn push(&mut self, hit: Hit) -> Result<(), OutOfMemory>
        ensures ok { OnOk result (self.new ≡ record self.old { hits = self.old.hits ++ hit ∷ [] }) }
        ensures err { OnErr result (self.new ≡ self.old) }
    {
        self.hits.push(hit)?;
        Ok(())
    }

    /// Sets the counts.
    pub fn set_counts(&mut self, rows: u64, records: u32)
        ensures { self.new ≡ record self.old { rows = rows; records = records } }
    {
        self.rows = rows;
        self.records = records;
    }
}
