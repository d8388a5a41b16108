// The nine operation numbers: the first byte of a frame and of its answer.
pub const BUILD: u8 = 1;

pub const OPEN: u8 = 2;

pub const READ: u8 = 3;

pub const WRITE: u8 = 4;

pub const CONTROL: u8 = 5;

pub const COLLECT: u8 = 6;

pub const CLOSE: u8 = 7;

pub const TIME: u8 = 8;

pub const COUNTS: u8 = 9;
