// A write: its record is put, or it waits, or it ends.
ghost use Rattle.std.specs.Prelude.{◌≡◌, true, false, ◌<◌, length, MatchOption};
ghost use Rattle.rules.specs.Limits.{files};
ghost use Rattle.rules.specs.TransferCounts.{count_bytes};
ghost use Rattle.kinds.specs.declared.Answer.TheVariants.{Status};
ghost use Rattle.rules.specs.Calls as calls;
ghost use Rattle.ring.specs.Ring.{Ranged};
ghost use Rattle.memory.specs.Memories.{lent, was, left};
ghost use Rattle.midst.specs.Outcome.{Sound, Accepted, Does};
ghost use Rattle.accessors.specs.Sides.{count_side};
ghost use Rattle.transfers.specs.Rows.{admits};

use crate::waiting::{begin_write, may_wait, wait_write};
use accessors::sides::count_side;
use blocks::writing::NewRecord;
use kinds::limits::PLACES;
use kinds::memories::{Blocks, Buffers};
use kinds::record_types::DATA;
use kinds::sides::{READER, WRITER};
use kinds::{Answer, operations, statuses};
use midst::{File, take_file};
use segment::{Segment, layout};
use settling::{quick_conclude, settle_back};
use store::{fits, put};
use transfer_counts::{in_words, log_of};

// How many writers are open, if a write is not taken at once: it does not fit, or writers wait ahead of it.
fn held_back(segment: &Segment, f: usize, file: File) -> Option<u16>
    requires { (f < files) × Ranged file.ring }
    ensures { MatchOption result (admits segment.now f file.ring ≡ true) (λ w. (admits segment.now f file.ring ≡ false) × (w ≡ count_side segment.now f 2)) }
{
    if segment::get(segment, layout::WRITE_QUEUES + f) < layout::ENTRIES {
        return Some(count_side(segment, f, WRITER));
    }
    // beside as many writers as a file has places: no need to count them
    if fits(file, PLACES as u16) {
        return None;
    }
    let writers = count_side(segment, f, WRITER);
    if fits(file, writers) {
        return None;
    }
    Some(writers)
}

// The answer to a write that is not taken: it waits, or it ends.
fn untaken(status: u8) -> Answer
    ensures { result ≡ Status 4 status }
{
    Answer::Status {
        operation: operations::WRITE,
        status,
    }
}

// Does a write: it acts, "which fixes" its answer, then the file settles. A write that is taken needs only the ID of its accessor's row.
pub fn write(
    segment: &mut Segment,
    blocks: &mut Blocks,
    buffers: &mut Buffers,
    f: usize,
    acc: usize,
    count: u16,
    data: &[u8],
) -> Answer
    requires sound { Sound (lent segment.old blocks.old buffers.old) × Accepted f (calls.write acc count «data».now) (lent segment.old blocks.old buffers.old) }
    requires data_len { length «data».now ≡ count_bytes count }
    ensures { Does f (calls.write acc count «data».now) (was segment.old blocks.old buffers.old) (left segment.new blocks.new buffers.new) result }
{
    let place = PLACES * f + acc;
    let file = take_file(segment, f);
    let by_words = in_words(count);
    let Some(writers) = held_back(segment, f, file) else {
        let id = segment::place_id(segment, place);
        begin_write(segment, place);
        let record = NewRecord {
            typ: DATA,
            wid: id,
            data,
        };
        let next = put(blocks, f, file, record);
        quick_conclude(segment, blocks, buffers, f, next);
        let log = log_of(by_words, data.len() as u16);
        return Answer::Written { log };
    };
    let row = segment::read_place(segment, place);
    begin_write(segment, place);
    if may_wait(0 < count_side(segment, f, READER), row) {
        wait_write(segment, buffers, f, place, row.timeout, by_words, data);
        settle_back(segment, blocks, buffers, f, file, writers);
        return untaken(statuses::WAITING);
    }
    settle_back(segment, blocks, buffers, f, file, writers);
    untaken(statuses::END_OF_FILE)
}
