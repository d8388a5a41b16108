// The types of records: "0 data, 1 open, 2 close".
pub const DATA: u16 = 0;

pub const OPEN: u16 = 1;

pub const CLOSE: u16 = 2;
