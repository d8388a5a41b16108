// Reads back the records in a file's share: one at its place, all of them by a cursor, and the one that a read or a look finds.
#![tactic(auto)]

pub mod cursor;
pub mod fetch;
pub mod reading;
