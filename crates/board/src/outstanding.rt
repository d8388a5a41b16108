// The request of an accessor, as the lists of the segment show it.
ghost use Rattle.std.specs.Prelude.{◌≡◌, ◌<◌};
ghost use Rattle.rules.specs.Limits.{files, places};
ghost use Rattle.segment.specs.declared.Entry.{Entry};
ghost use Rattle.segment.specs.Layout.{file_rows, desk_places};
ghost use Rattle.board.specs.Found.{left_at, first_at, waiting_at, completed_in, request_at};

use accessors::outstanding::queue_of;
use kinds::limits::PLACES;
use kinds::sides::WRITER;
use notices::Request;
use segment::{Segment, layout};

// What is left of the timeout of the request at a place of the desk, if it has one.
#[tactic(auto, using(std::proofs::lemmas::Bool::Decides::nat_tests), unfolding(crate::specs::Found::left_in))]
fn left_at(segment: &Segment, place: usize) -> Option<u16>
    requires { place < desk_places }
    ensures { result ≡ left_at segment.now place }
{
    let slot = ports::seek_place(segment, layout::TIMER_LIST, place as u16);
    let e = segment::get(segment, slot);
    if layout::ENTRIES <= e {
        return None;
    }
    let seconds = segment::entry_seconds(segment, e);
    Some(seconds)
}

// Whether the first entry of the list belongs to the place.
#[tactic(auto, unfolding(crate::specs::Found::first_in))]
fn first_at(segment: &Segment, list: usize, place: usize) -> bool
    requires { (list < file_rows) × (place < desk_places) }
    ensures { result ≡ first_at segment.now list place }
{
    let e = segment::get(segment, list);
    e < layout::ENTRIES && segment::entry_place(segment, e) as usize == place
}

// The request of the accessor at a place, on that side, if it waits in the queue; else `Idle`.
#[tactic(auto, using(std::proofs::lemmas::Bool::Decides::nat_tests), unfolding(crate::specs::Found::waiting_in))]
fn waiting(segment: &Segment, queue: usize, place: usize, side: u16) -> Request
    requires { (queue < file_rows) × (place < desk_places) }
    ensures { result ≡ waiting_at segment.now queue place side }
{
    let slot = ports::seek_place(segment, queue, place as u16);
    let e = segment::get(segment, slot);
    if layout::ENTRIES <= e {
        return Request::Idle;
    }
    let entry = segment::read_entry(segment, e);
    let left = left_at(segment, place);
    let first = u16::from(first_at(segment, queue, place));
    if side == WRITER {
        let bytes = entry.size;
        return Request::Writes { bytes, left, first };
    }
    let bytes = entry.limit;
    Request::Reads { bytes, left, first }
}

// The completed request that an entry holds, for an accessor on that side.
#[tactic(auto, using(std::proofs::lemmas::Bool::Decides::nat_tests), unfolding(crate::specs::Found::completed_in))]
fn completed(side: u16, entry: segment::Entry) -> Request
    ensures { result ≡ completed_in side entry }
{
    let status = entry.status;
    if side == WRITER {
        return Request::HasWritten { status };
    }
    let bytes = entry.size;
    Request::HasRead { status, bytes }
}

// The request at place p of file f, whose accessor is on that side.
#[tactic(auto, using(std::proofs::lemmas::Bool::Decides::nat_tests), unfolding(crate::specs::Found::request_at))]
pub fn request_at(segment: &Segment, f: usize, p: usize, side: u16) -> Request
    requires { (f < files) × (p < places) }
    ensures { result ≡ request_at segment.now f p side }
{
    let place = PLACES * f + p;
    let e = segment::get(segment, layout::REPLY_PORTS + place);
    if e < layout::ENTRIES {
        let entry = segment::read_entry(segment, e);
        return completed(side, entry);
    }
    let queue = queue_of(f, side);
    waiting(segment, queue, place, side)
}
