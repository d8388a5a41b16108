// Serves the first waiting writer.
ghost use Rattle.std.specs.Prelude.{◌≡◌, ◌≤◌, ◌<◌, length};
ghost use Rattle.segment.specs.Layout.{write_queue, desk_places};
ghost use Rattle.segment.specs.Table.{nth};
ghost use Rattle.rules.specs.Limits.{files, entries, buffer_bytes};
ghost use Rattle.rules.specs.State.{Built};
ghost use Rattle.rules.specs.Requests.{put_rec};
ghost use Rattle.rules.specs.Settle.{serve_writer, at_head};
ghost use Rattle.rules.specs.Memories.{share_at};
ghost use Rattle.requests.specs.Moves.{completed};
ghost use Rattle.blocks.specs.Writing.{rec_of, Ready};
ghost use Rattle.buffers.specs.Buffer.{emptied};
ghost use Rattle.memory.specs.Memories.{lent, was, left};
ghost use Rattle.memory.specs.Fine.{Fine};
ghost use Rattle.midst.specs.Mid.{Start, Mid};
ghost use Rattle.store.specs.Door.{Keeps};
ghost use Rattle.settling.specs.Turns.{Amid, Beside, Served, wrote_words, data_of};

use crate::{DONE, Turn};
use blocks::writing::NewRecord;
use kinds::memories::{Blocks, Buffers};
use kinds::record_types::DATA;
use midst::File;
use segment::forms::completed_request;
use segment::{Entry, Segment, layout};
use store::{fits, put};
use transfer_counts::log_of;

// Makes the data of the waiting write m, the first of its queue, a record of the writer with the ID, and completes the write.
#[tactic(auto, unfolding(crate::specs::Turns::wrote_words, segment::specs::Fields::entry_words))]
fn take(
    segment: &mut Segment,
    blocks: &mut Blocks,
    buffers: &mut Buffers,
    f: usize,
    file: File,
    m: Entry,
    id: u16,
) -> File
    requires f_lt_files { f < files }
    requires place_lt_desk_places { (m.place < desk_places) × (m.size ≤ buffer_bytes) × (nth segment.old (write_queue f) < entries) }
    requires ready { Ready file.words file.ring (share_at f blocks.old) (length (data_of m buffers.old)) }
    ensures put { Keeps f (put_rec (rec_of 0 id (data_of m buffers.old))) blocks.old file blocks.new result }
    ensures buffers { buffers.new ≡ emptied m.place buffers.old }
    ensures segment { segment.new ≡ completed segment.old (write_queue f) m.place (wrote_words m) }
{
    let place = m.place as usize;
    let data = buffers::lies(buffers, place, m.size as usize);
    let record = NewRecord {
        typ: DATA,
        wid: id,
        data,
    };
    let next = put(blocks, f, file, record);
    buffers::clear_at(buffers, place);
    let done = completed_request(m.place, DONE, log_of(m.unit == 1, m.size), 0);
    requests::complete(segment, layout::WRITE_QUEUES + f, done);
    next
}

// Puts the record of the first waiting writer, if it fits beside `writers` open writers.
pub fn serve_writer(
    segment: &mut Segment,
    blocks: &mut Blocks,
    buffers: &mut Buffers,
    f: usize,
    file: File,
    writers: u16,
) -> Turn
    requires { Amid f (lent segment.old blocks.old buffers.old) file × Beside writers f segment.old }
    ensures { (o : Start) (b : Built) → Mid Fine f o (was segment.old blocks.old buffers.old) file b → Served f o (left segment.new blocks.new buffers.new) result (at_head serve_writer b.wq b) }
{
    let e = segment::get(segment, layout::WRITE_QUEUES + f);
    if e >= layout::ENTRIES {
        return Turn { moved: false, file };
    }
    if !fits(file, writers) {
        return Turn { moved: false, file };
    }
    let m = segment::read_entry(segment, e);
    let row = segment::read_place(segment, m.place as usize);
    let next = take(segment, blocks, buffers, f, file, m, row.id);
    Turn {
        moved: true,
        file: next,
    }
}
