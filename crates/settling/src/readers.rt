// Serves the first waiting reader.
ghost use Rattle.std.specs.Prelude.{◌≡◌, ◌*◌, ◌≤◌, ◌<◌, length};
ghost use Rattle.std.proofs.lemmas.List.Edits.{sets};
ghost use Rattle.segment.specs.Layout.{read_queue, desk_places};
ghost use Rattle.segment.specs.Table.{nth};
ghost use Rattle.rules.specs.Limits.{files, entries, buffer_bytes};
ghost use Rattle.rules.specs.State.{Built};
ghost use Rattle.rules.specs.Settle.{handed, serve_reader, at_head};
ghost use Rattle.requests.specs.Moves.{completed};
ghost use Rattle.rules.specs.Buffers.{filled};
ghost use Rattle.memory.specs.Memories.{memories, lent, was};
ghost use Rattle.memory.specs.Fine.{Fine};
ghost use Rattle.midst.specs.Mid.{Start, Mid};
ghost use Rattle.settling.specs.Turns.{Amid, Served, read_words};

use crate::{DONE, Turn};
use blocks::by_file::share;
use kinds::memories::{Blocks, Buffers};
use midst::File;
use records::fetch::handed;
use segment::forms::completed_request;
use segment::{Entry, Segment, layout};
use store::fetch;
use transfer_counts::log_of;

// Hands the bytes to the waiting read m, the first of its queue, and completes it.
#[tactic(auto, unfolding(crate::specs::Turns::read_words, segment::specs::Fields::entry_words))]
fn hand_over(segment: &mut Segment, buffers: &mut Buffers, f: usize, m: Entry, bytes: &[u8])
    requires f_lt_files { f < files }
    requires place_lt_desk_places { (m.place < desk_places) × (length bytes.now ≤ buffer_bytes) × (nth segment.old (read_queue f) < entries) }
    ensures segment { segment.new ≡ completed segment.old (read_queue f) m.place (read_words m (length bytes.now)) }
    ensures buffers { buffers.new ≡ sets buffers.old (buffer_bytes * m.place) (filled bytes.now) }
{
    let n = bytes.len() as u16;
    let done = completed_request(m.place, DONE, log_of(m.unit == 1, n), n);
    buffers::fill_at(buffers, m.place as usize, bytes);
    requests::complete(segment, layout::READ_QUEUES + f, done);
}

// Gives the first waiting reader its record, if there is one for it.
pub fn serve_reader(
    segment: &mut Segment,
    blocks: &Blocks,
    buffers: &mut Buffers,
    f: usize,
    file: File,
) -> Turn
    requires { Amid f (lent segment.old blocks.now buffers.old) file }
    ensures { (o : Start) (b : Built) → Mid Fine f o (was segment.old blocks.now buffers.old) file b → Served f o (memories segment.new blocks.now buffers.new) result (at_head serve_reader b.rq b) }
{
    let e = segment::get(segment, layout::READ_QUEUES + f);
    if e >= layout::ENTRIES {
        return Turn { moved: false, file };
    }
    let m = segment::read_entry(segment, e);
    let row = segment::read_place(segment, m.place as usize);
    let typed = row.typed == 1;
    let found = fetch(blocks, f, file, typed, m.keep == 1);
    let next = found.file;
    if !found.got {
        return Turn {
            moved: false,
            file: next,
        };
    }
    let bytes = handed(share(blocks, f), found.at, typed, m.limit);
    hand_over(segment, buffers, f, m, bytes);
    Turn {
        moved: true,
        file: next,
    }
}
