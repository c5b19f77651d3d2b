// Stations enter the table at its end.
ghost use Rattle.std.specs.Prelude.{◌≡◌, ◌≤◌, [], length, Some, IfOk, nat_lt, codes};
ghost use Rattle.location_table.specs.Entries.{entered, entering};

use super::LocationTable;
use crate::entry::Entry;
use std::alloc::{AllocError, Global};
use std::error::Error;
use std::fmt;

// How many stations the table has room for.
pub const STATIONS: usize = 64;

// Why a station was not entered.
#[derive(Clone, Copy, Debug, PartialEq, Eq)]
pub struct TableFull;

impl fmt::Display for TableFull {
    ghost output = { λ _. Some (codes "the location table is full") };

    fn fmt<W: fmt::Write>(&self, f: &mut fmt::Formatter<W>) -> fmt::Result {
        f.write_str("the location table is full")
    }
}

impl Error for TableFull {}

impl LocationTable {
    // A table without a station.
    pub fn new(heap: Global) -> Result<LocationTable, AllocError>
        ensures { IfOk result (λ t. t ≡ []) }
    {
        let entries = Vec::with_capacity(heap, STATIONS)?;
        Ok(LocationTable { entries })
    }

    // The stations, in order of entry.
    pub fn entries(&self) -> &[Entry]
        ensures value { result.now ≡ self.now }
        ensures few { length result.now ≤ 64 }
    {
        self.entries.as_slice()
    }

    // Puts a station last, if there is room for it.
    pub fn enter(&mut self, entry: Entry) -> Result<(), TableFull>
        ensures value { result ≡ entered (nat_lt (length self.old) 64) }
        ensures after { self.new ≡ entering (nat_lt (length self.old) 64) entry self.old }
        ensures few { length self.new ≤ 64 }
    {
        if self.entries.len() == STATIONS {
            return Err(TableFull);
        }
        self.entries.push_reserved(entry);
        Ok(())
    }
}
