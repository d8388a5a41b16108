// "then the file settles: while something can be done, serve the first waiting reader, else the first waiting writer."
// The file is in hand. The settled file is handed back or put into its row. The memories are those of a call in its midst.
#![tactic(auto)]

ghost use Rattle.std.specs.Prelude.{◌≡◌, ◌<◌, ltb};
ghost use Rattle.rules.specs.Limits.{files};
ghost use Rattle.rules.specs.State.{Built};
ghost use Rattle.rules.specs.Settle.{settle};
ghost use Rattle.memory.specs.Memories.{lent, was, left};
ghost use Rattle.accessors.specs.Sides.{count_side};
ghost use Rattle.memory.specs.Fine.{Fine};
ghost use Rattle.midst.specs.File.{RowStands};
ghost use Rattle.midst.specs.Mid.{Start, Mid};
ghost use Rattle.settling.specs.Turns.{Amid, Beside, Counts, Settles};

mod readers;
mod writers;

use accessors::sides::count_side;
use kinds::memories::{Blocks, Buffers};
use kinds::sides::WRITER;
use kinds::statuses;
use midst::{File, put_file, put_ring};
use readers::serve_reader;
use segment::{Segment, layout};
use words::bytes::known;
use writers::serve_writer;

// The status of a request that was served.
// Kept: a status is a word in an entry and a byte in an answer, and the one number serves for both.
const DONE: u16 = statuses::DONE as u16;

// The result of one turn: whether a request was served, and the file after it.
// Kept: the file is handed back in both cases, since records may have gone from it though nobody was served.
#[derive(Clone, Copy)]
pub struct Turn {
    pub moved: bool,
    pub file: File,
}

// Settles the file and hands it back. No turn changes how many writers are open, so they are counted once, before the loop.
pub fn settle(
    segment: &mut Segment,
    blocks: &mut Blocks,
    buffers: &mut Buffers,
    f: usize,
    from: File,
    writers: u16,
) -> File
    requires { Amid f (lent segment.old blocks.old buffers.old) from × Beside writers f segment.old }
    ensures { (o : Start) (b : Built) → Mid Fine f o (was segment.old blocks.old buffers.old) from b → Mid Fine f o (left segment.new blocks.new buffers.new) result (settle b) }
{
    let mut file = from;
    let settled = loop {
        let read = serve_reader(segment, blocks, buffers, f, file);
        file = read.file;
        if read.moved {
            continue;
        }
        let written = serve_writer(segment, blocks, buffers, f, file, writers);
        file = written.file;
        if written.moved {
            continue;
        }
        break file;
    };
    settled
}

// Settles the file and writes it back into its row. A caller that uses this in place of `conclude` has counted the open writers.
pub fn settle_back(
    segment: &mut Segment,
    blocks: &mut Blocks,
    buffers: &mut Buffers,
    f: usize,
    file: File,
    writers: u16,
)
    requires { Amid f (lent segment.old blocks.old buffers.old) file × Beside writers f segment.old }
    ensures { Settles f (was segment.old blocks.old buffers.old) file (left segment.new blocks.new buffers.new) }
{
    let settled = settle(segment, blocks, buffers, f, file, writers);
    put_file(segment, f, settled);
    known(segment);
    known(blocks);
    known(buffers);
}

// Ends a call that has acted: settles the file and writes its row. Most often nobody waits, and the file is written as it is. `settle_back` has several callers so
// that the compiler keeps it out of line: the common path then does not save the settling loop's registers.
// The open writers are counted only if a writer waits: nothing else needs them.
pub fn conclude(
    segment: &mut Segment,
    blocks: &mut Blocks,
    buffers: &mut Buffers,
    f: usize,
    file: File,
)
    requires { Amid f (lent segment.old blocks.old buffers.old) file }
    ensures { Settles f (was segment.old blocks.old buffers.old) file (left segment.new blocks.new buffers.new) }
{
    if segment::get(segment, layout::WRITE_QUEUES + f) < layout::ENTRIES {
        let writers = count_side(segment, f, WRITER);
        settle_back(segment, blocks, buffers, f, file, writers);
        return;
    }
    if segment::get(segment, layout::READ_QUEUES + f) < layout::ENTRIES {
        settle_back(segment, blocks, buffers, f, file, 0);
        return;
    }
    put_file(segment, f, file);
    known(segment);
}

// Ends a read or a write that was served at once, as `conclude` does. The file's row is still as the call found it, so if nobody waits, as most often, only the three
// ring words are written. `conclude` has other callers too, so that the compiler keeps it out of line and inlines this function: its callers then do not save the settling
// loop's registers.
pub fn quick_conclude(
    segment: &mut Segment,
    blocks: &mut Blocks,
    buffers: &mut Buffers,
    f: usize,
    file: File,
)
    requires { Amid f (lent segment.old blocks.old buffers.old) file × RowStands segment.old f file }
    ensures { Settles f (was segment.old blocks.old buffers.old) file (left segment.new blocks.new buffers.new) }
{
    if segment::get(segment, layout::READ_QUEUES + f) >= layout::ENTRIES {
        if segment::get(segment, layout::WRITE_QUEUES + f) >= layout::ENTRIES {
            put_ring(segment, f, file);
            known(segment);
            return;
        }
    }
    conclude(segment, blocks, buffers, f, file);
}

// Whether a writer is open. If one waits, one is; W is then counted by settling.
pub fn has_writer(segment: &Segment, f: usize) -> bool
    requires { (f < files) × Counts f segment.now }
    ensures { result ≡ ltb 0 (count_side segment.now f 2) }
{
    if segment::get(segment, layout::WRITE_QUEUES + f) < layout::ENTRIES {
        return true;
    }
    0 < count_side(segment, f, WRITER)
}
