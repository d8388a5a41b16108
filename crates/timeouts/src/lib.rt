// The passing of time: every waiting request whose time is up completes with status 22, the smallest timeout first, equals in arming order;
// all other timers lose the seconds.
#![tactic(auto)]

ghost use Rattle.std.specs.Prelude.{◌≡◌, List, ℕ, ◌-◌, ◌<◌};
ghost use Rattle.rules.specs.Limits.{files, entries};
ghost use Rattle.rules.specs.State.{unbuilt};
ghost use Rattle.rules.specs.Desk.{Desk, file_of, desk_time};
ghost use Rattle.rules.specs.Allocation.{Alloc, alloc_time};
ghost use Rattle.segment.specs.Layout.{timer_list, desk_places};
ghost use Rattle.buffers.specs.Buffer.{emptied};
ghost use Rattle.requests.specs.Moves.{entry_of};
ghost use Rattle.memory.specs.Memories.{memories};
ghost use Rattle.memory.specs.Stands.{buffers_at, Stands};
ghost use Rattle.memory.specs.Fine.{StandsFor};
ghost use Rattle.timeouts.specs.Late.{waits_in, late, less, less_all};
ghost use Rattle.timeouts.specs.Stage.{Stage, Quiet};

use accessors::outstanding::queue_of;
use kinds::limits::PLACES;
use kinds::memories::Buffers;
use kinds::statuses;
use segment::forms::{completed_request, running_timer};
use segment::{Segment, layout};
use words::bytes::known;

// "completes with status 22"
// Kept: a status is a word in an entry and a byte in an answer, and the one number serves for both.
const TIMED_OUT: u16 = statuses::TIMED_OUT as u16;

// Completes the waiting request of a place. It brings no data, so the place's buffer is cleared.
fn time_out(segment: &mut Segment, buffers: &mut Buffers, place: u16)
    requires { (place < desk_places) × (entry_of segment.old (waits_in segment.old place) place < entries) }
    ensures { (segment.new ≡ late segment.old place) × (buffers.new ≡ emptied place buffers.old) }
{
    let i = place as usize;
    let queue = queue_of(i / PLACES, segment::place_side(segment, i));
    let p = ports::seek_place(segment, queue, place);
    requests::complete(segment, p, completed_request(place, TIMED_OUT, 0, 0));
    buffers::clear_at(buffers, i);
}

// Completes all requests that are due, from the front of the timer list.
fn run_due(segment: &mut Segment, buffers: &mut Buffers, seconds: u16)
    requires { (d : Desk) × (s : Alloc) × Stage segment.old buffers.old d s }
    ensures { (d : Desk) (s : Alloc) → Stage segment.old buffers.old d s → Quiet seconds buffers.old d s segment.new buffers.new }
{
    for _ in 0..layout::ENTRIES {
        let e = segment::get(segment, layout::TIMER_LIST);
        if layout::ENTRIES <= e {
            return;
        }
        if seconds < segment::entry_seconds(segment, e) {
            return;
        }
        let place = segment::entry_place(segment, e);
        time_out(segment, buffers, place);
    }
}

// Takes the seconds from the timer in entry e.
#[tactic(auto, unfolding(crate::specs::Late::less, segment::specs::Fields::entry_words))]
fn lose(segment: &mut Segment, e: u16, seconds: u16)
    requires { e < entries }
    ensures { segment.new ≡ less segment.old e seconds }
{
    let place = segment::entry_place(segment, e);
    let left = segment::entry_seconds(segment, e).saturating_sub(seconds);
    segment::write_entry(segment, e, running_timer(place, left));
}

// Takes the seconds from all timers.
fn lessen(segment: &mut Segment, seconds: u16)
    ensures { segment.new ≡ less_all segment.old timer_list seconds entries }
{
    let mut p = layout::TIMER_LIST;
    for _ in 0..layout::ENTRIES {
        let e = segment::get(segment, p);
        if layout::ENTRIES <= e {
            return;
        }
        lose(segment, e, seconds);
        p = segment::link_at(e);
    }
}

// Lets the seconds pass.
pub fn pass_time(segment: &mut Segment, buffers: &mut Buffers, seconds: u16)
    requires { (d : Desk) × (s : Alloc) × (blocks : List ℕ) × StandsFor (memories segment.old blocks buffers.old) d s }
    ensures stands { (d : Desk) (s : Alloc) (blocks : List ℕ) → StandsFor (memories segment.old blocks buffers.old) d s → Stands (memories segment.new blocks buffers.new) (desk_time seconds d) (alloc_time seconds s) }
    ensures others { (d : Desk) (s : Alloc) (blocks : List ℕ) → StandsFor (memories segment.old blocks buffers.old) d s → (g : ℕ) → g < files → file_of d g ≡ unbuilt → buffers_at g buffers.new ≡ buffers_at g buffers.old }
{
    run_due(segment, buffers, seconds);
    lessen(segment, seconds);
    known(segment);
    known(buffers);
}
