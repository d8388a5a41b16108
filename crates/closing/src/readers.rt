// "for the last writer, every waiting reader without extended wait, in queue order, completes with status 2"
ghost use Rattle.std.specs.Prelude.{◌≡◌, List, ℕ, ◌-◌, ◌<◌};
ghost use Rattle.rules.specs.Limits.{entries};
ghost use Rattle.rules.specs.State.{Built};
ghost use Rattle.rules.specs.Close.{end_readers, last_gone};
ghost use Rattle.segment.specs.Layout.{file_rows, desk_places};
ghost use Rattle.segment.specs.Table.{nth};
ghost use Rattle.buffers.specs.Buffer.{emptied};
ghost use Rattle.requests.specs.Moves.{completed};
ghost use Rattle.midst.specs.declared.File as hand;
ghost use Rattle.midst.specs.Mid.{Start};
ghost use Rattle.midst.proofs.Walks.{Owed};
ghost use Rattle.closing.specs.Walk.{end_words, Walk};
ghost use Rattle.closing.specs.Leaving.{Gone, Goes, Stops};
ghost use Rattle.memory.specs.Memories.{memories};

use kinds::memories::Buffers;
use kinds::statuses;
use segment::forms::completed_request;
use segment::{Segment, layout};
use settling::has_writer;

// Kept: a status is a word in an entry and a byte in an answer, and the one number serves for both.
const END_OF_FILE: u16 = statuses::END_OF_FILE as u16;

// Ends the waiting read of a place, whose entry is at the slot, and empties the place's buffer.
#[tactic(auto, unfolding(crate::specs::Walk::end_words, segment::specs::Fields::entry_words))]
fn end_read(segment: &mut Segment, buffers: &mut Buffers, slot: usize, place: u16)
    requires { (slot < file_rows) × (place < desk_places) × (nth segment.old slot < entries) }
    ensures segment { segment.new ≡ completed segment.old slot place (end_words place) }
    ensures buffers { buffers.new ≡ emptied place buffers.old }
{
    requests::complete(segment, slot, completed_request(place, END_OF_FILE, 0, 0));
    buffers::clear_at(buffers, place as usize);
}

// Ends the reader whose entry e is at the slot, unless it waits on. Gives the slot of the next reader: the one after e if it waits on, else this slot.
fn pass(segment: &mut Segment, buffers: &mut Buffers, slot: usize, e: u16) -> usize
    requires { Stops segment.old buffers.old slot e }
    ensures { (n f : ℕ) (blocks : List ℕ) (x : hand.File) (o : Start) (b : Built) (left : ℕ) → Walk (Owed n) f o (memories segment.old blocks buffers.old) x b slot left → Walk (Owed n) f o (memories segment.new blocks buffers.new) x b result (left - 1) }
{
    let place = segment::entry_place(segment, e);
    let row = segment::read_place(segment, place as usize);
    if row.extended == 1 {
        return segment::link_at(e);
    }
    end_read(segment, buffers, slot, place);
    slot
}

fn end_readers(segment: &mut Segment, buffers: &mut Buffers, f: usize)
    requires { Gone f segment.old buffers.old }
    ensures { Goes (λ (b : Built). end_readers b.rq b) f segment.old buffers.old segment.new buffers.new }
{
    let mut slot = layout::READ_QUEUES + f;
    for _ in 0..layout::ENTRIES {
        let e = segment::get(segment, slot);
        if layout::ENTRIES <= e {
            return;
        }
        slot = pass(segment, buffers, slot, e);
    }
}

// Ends the waiting readers of file f, if no writer is open any more.
pub fn last_gone(segment: &mut Segment, buffers: &mut Buffers, f: usize)
    requires { Gone f segment.old buffers.old }
    ensures { Goes last_gone f segment.old buffers.old segment.new buffers.new }
{
    if !has_writer(segment, f) {
        end_readers(segment, buffers, f);
    }
}
