// The statuses of events that are not refused: "0 done, 1 waiting, 2 end of file, 22 timed out."
pub const DONE: u8 = 0;

pub const WAITING: u8 = 1;

pub const END_OF_FILE: u8 = 2;

pub const TIMED_OUT: u8 = 22;
