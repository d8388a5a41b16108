// The marks that a walk leaves: on an entry that it met, and on the place that the entry belongs to.
use segment::layout;

// The number of entries that may be marked.
pub const ENTRY_COUNT: usize = layout::ENTRIES as usize;

// Kept: the marks are numbers, since `walked` and the walks of specs/Walks.antt say of the lists of marks which number stands where.

// An entry that was met.
pub const MET: u8 = 1;

// A place whose request waits, is completed, or waits with a timer.
pub const WAITING: u8 = 1;

pub const COMPLETED: u8 = 2;

pub const TIMED: u8 = 3;
