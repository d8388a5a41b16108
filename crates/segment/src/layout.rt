// The position of each word of the segment, counted in words and computed from the counts and widths of its parts; specs/Layout.antt has the same.
pub use kinds::limits::ENTRIES;
use kinds::limits::{FILES, PLACES};

// The lists. A queue's number is that of the first queue plus the file's number; a port's number is that of the first port plus the place's.
pub const DESK_PLACES: usize = FILES * PLACES;

pub const FREE_LIST: usize = 0;

pub const READ_QUEUES: usize = FREE_LIST + 1;

pub const WRITE_QUEUES: usize = READ_QUEUES + FILES;

pub const REPLY_PORTS: usize = WRITE_QUEUES + FILES;

pub const TIMER_LIST: usize = REPLY_PORTS + DESK_PLACES;

pub const LISTS: usize = TIMER_LIST + 1;

// The word that is stored at the end of a list. Any word from ENTRIES upward is not an entry's number and ends a list.
pub const NIL: u16 = 65535;

// An entry: its link, then its data.
pub const DATA_WORDS: usize = 9;

pub const ENTRY_WORDS: usize = 1 + DATA_WORDS;

pub const LINKS: usize = LISTS;

pub const DATA: usize = LINKS + 1;

pub const ENTRY_PLACE: usize = 0;

pub const ENTRY_UNIT: usize = 1;

pub const ENTRY_LIMIT: usize = 2;

pub const ENTRY_KEEP: usize = 3;

pub const ENTRY_STATUS: usize = 4;

pub const ENTRY_LOG: usize = 5;

pub const ENTRY_SIZE: usize = 6;

pub const ENTRY_SECONDS: usize = 7;

// The rows: those of the files, then those of the places, each kind with a width of its own.
pub const FILE_ROW_WORDS: usize = 8;

pub const PLACE_FIELDS: usize = 8;

// The number of spare words after a place's fields; they must be zero.
pub const PLACE_SPARE: usize = 0;

pub const PLACE_ROW_WORDS: usize = PLACE_FIELDS + PLACE_SPARE;

pub const FILE_ROWS: usize = LINKS + ENTRY_WORDS * ENTRIES as usize;

pub const PLACE_ROWS: usize = FILE_ROWS + FILE_ROW_WORDS * FILES;

pub const FILE_WORDS: usize = 0;

pub const FILE_FACTOR: usize = 1;

pub const FILE_BLOCKS: usize = 2;

pub const FILE_BLOCK: usize = 3;

pub const FILE_SPENT: usize = 4;

pub const FILE_HELD: usize = 5;

pub const PLACE_SIDE: usize = 0;

pub const PLACE_ID: usize = 1;

pub const PLACE_SHARE: usize = 2;

pub const PLACE_TIMEOUT: usize = 3;

pub const PLACE_EXTENDED: usize = 4;

pub const PLACE_TYPED: usize = 5;

pub const PLACE_KEEP: usize = 6;

pub const PLACE_FIRST: usize = 7;

// The size of the whole segment.
pub const SEGMENT_WORDS: usize = PLACE_ROWS + PLACE_ROW_WORDS * DESK_PLACES;

pub const SEGMENT_BYTES: usize = 2 * SEGMENT_WORDS;
