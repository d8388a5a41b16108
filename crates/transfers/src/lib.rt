// Read, write and collect, when the call is not refused. Read and write first act, which fixes their answer, then the file settles. Collect does not settle.
#![tactic(auto)]

use kinds::Answer;

mod collecting;
mod reading;
mod waiting;
mod writing;

pub use collecting::collect;
pub use reading::read;
pub use writing::write;

// An answer, and the number of data bytes after it: they stand in the answer memory, starting where the answer's own bytes end.
#[derive(Clone, Copy)]
pub struct DataAnswer {
    pub answer: Answer,
    pub size: u16,
}
