// The limits of document 01 as the code names them; the rules have them under the same names, in Limits.
// A limit that follows from others is computed from them. Limits used in judging and memory sizes are separate, with names of their own.

// "Eight files, 0 to 7, each with eight accessor places, 0 to 7."
pub const FILES: usize = 8;

pub const PLACES: usize = 8;

// "128 entries of ten 16-bit words"
pub const ENTRIES: u16 = 128;

// Limits used in judging.

pub const MOST_WORDS: u16 = 128;

pub const MOST_FACTOR: u16 = 16;

pub const MOST_RECORDS: u16 = 2000;

pub const MOST_EXTENTS: u16 = 32;

// The most words of D × block size.
pub const MOST_SHARE: u32 = 2048;

// "C ≥ 3"
pub const LEAST_CAPACITY: u32 = 3;

pub const MOST_TYPE: u16 = 2;

// "access, share and multiaccess: 0 to 3"
pub const MOST_MODE: u8 = 3;

// The type and ID words, which a read under control 46 hands out before the data. Then the most that a read hands out, in words and in bytes.
pub const HEADER_WORDS: u16 = 2;

pub const MOST_READ_WORDS: u16 = HEADER_WORDS + MOST_WORDS;

pub const MOST_READ_BYTES: u32 = 2 * MOST_READ_WORDS as u32;

// The bytes of a write's frame before its data, "04 file acc count(2)", and of the longest frame that a line of the event program holds.
pub const WRITE_HEAD: usize = 5;

pub const LINE_BYTES: usize = WRITE_HEAD + 2 * MOST_WORDS as usize;

// The bytes of the longest frame that a line of a sheet holds.
pub const SHEET_LINE_BYTES: usize = WRITE_HEAD + 2 * MOST_WORDS as usize;

// Memory sizes.

// The longest record that the memories have room for.
pub const ROOM_WORDS: u16 = 128;

// A file's share of the blocks.
pub const SHARE_WORDS: u32 = 2048;

pub const SHARE_BYTES: usize = 2 * SHARE_WORDS as usize;

pub const BLOCKS_BYTES: usize = FILES * SHARE_BYTES;

// An accessor place's record buffer: the longest record, and the type and ID words that control 46 hands out before it.
pub const BUFFER_BYTES: usize = 2 * (HEADER_WORDS + ROOM_WORDS) as usize;

pub const BUFFERS_BYTES: usize = FILES * PLACES * BUFFER_BYTES;

// The bytes of an answer before a record's data, "03 00 log(2)", and the memory that is lent for an answer.
pub const ANSWER_HEAD: usize = 4;

pub const ANSWER_ROOM: usize = ANSWER_HEAD + BUFFER_BYTES;

// The memory that is lent for a look's record.
pub const RECORD_ROOM: usize = BUFFER_BYTES;
