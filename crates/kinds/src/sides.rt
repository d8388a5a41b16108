// A place's side, as its row has it: no accessor, a reader, a writer.
pub const CLOSED: u16 = 0;

pub const READER: u16 = 1;

pub const WRITER: u16 = 2;
