// Removes a waiting request, for control 43 and for "a waiting request is cancelled" of a close.
ghost use Rattle.std.specs.Prelude.{◌≡◌, cond, ◌+◌, ◌*◌, ◌<◌};
ghost use Rattle.rules.specs.Limits.{files, places, entries};
ghost use Rattle.segment.specs.Layout.{file_rows, desk_places};
ghost use Rattle.segment.specs.Table.{nth};
ghost use Rattle.buffers.specs.Buffer.{emptied};
ghost use Rattle.requests.specs.Moves.{slot_of, cancelled};
ghost use Rattle.accessors.specs.Outstanding.{queue_of, outstanding_at};
ghost use Rattle.controls.specs.Removed.{is_waiting};

use accessors::outstanding::queue_of;
use kinds::limits::PLACES;
use kinds::memories::Buffers;
use segment::{Segment, layout};

// Removes the request of a place, whose entry is at the slot, and empties the place's buffer.
fn take_away(segment: &mut Segment, buffers: &mut Buffers, slot: usize, place: usize)
    requires { (slot < file_rows) × (place < desk_places) × (nth segment.old slot < entries) }
    ensures segment { segment.new ≡ cancelled segment.old slot place }
    ensures buffers { buffers.new ≡ emptied place buffers.old }
{
    requests::cancel(segment, slot, place as u16);
    buffers::clear_at(buffers, place);
}

// Removes the request of place acc of file f if it waits, and says whether it did. The side is its accessor's. Its entry is searched for once.
pub fn remove(segment: &mut Segment, buffers: &mut Buffers, f: usize, acc: usize, side: u16) -> bool
    requires { (f < files) × (acc < places) }
    ensures waits { result ≡ is_waiting (outstanding_at segment.old f acc side) }
    ensures segment { segment.new ≡ cond (is_waiting (outstanding_at segment.old f acc side)) (cancelled segment.old (slot_of segment.old (queue_of f side) (places * f + acc)) (places * f + acc)) segment.old }
    ensures buffers { buffers.new ≡ cond (is_waiting (outstanding_at segment.old f acc side)) (emptied (places * f + acc) buffers.old) buffers.old }
{
    let place = PLACES * f + acc;
    if segment::get(segment, layout::REPLY_PORTS + place) < layout::ENTRIES {
        return false;
    }
    let slot = ports::seek_place(segment, queue_of(f, side), place as u16);
    if layout::ENTRIES <= segment::get(segment, slot) {
        return false;
    }
    take_away(segment, buffers, slot, place);
    true
}
