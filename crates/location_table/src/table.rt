// Room for 64 stations, reserved when the table is made.
pub mod entering;
pub mod neighbours;

use crate::entry::Entry;
use std::marker::Model;

// In clauses a table is the list of its entries.
#[derive(Drop)]
pub struct LocationTable {
    entries: Vec<Entry>,
}

impl Model for LocationTable {
    ghost use Rattle.std.specs.Prelude.{◌≤◌, List, vec_len, vec_capacity};
    ghost use Rattle.location_table.specs.declared.entry.Entry.{Entry};

    ghost Value = { List Entry };

    ghost view = { λ t. t.entries.items };

    ghost invariant = { λ t. (vec_len t.entries ≤ 64) × (64 ≤ vec_capacity t.entries) };
}
