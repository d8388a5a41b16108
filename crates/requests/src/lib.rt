// Requests in the segment: a request begins to wait, completes, is cancelled or is collected, and its timer goes with it.
// The callers know that there is a free entry to take and that the request is where it is looked for.
#![tactic(auto)]

ghost use Rattle.std.specs.Prelude.{◌≡◌, ◌<◌};
ghost use Rattle.rules.specs.Limits.{entries};
ghost use Rattle.segment.specs.Layout.{list_count, file_rows, free_list, reply_port, desk_places};
ghost use Rattle.segment.specs.Table.{nth};
ghost use Rattle.segment.specs.Fields.{entry_words};
ghost use Rattle.requests.specs.Moves.{entry_of, out, armed, queued, waiting, disarmed, completed, cancelled, collected};

use segment::forms::running_timer;
use segment::{Entry, Segment, layout};

// Arms a timer of these seconds for a place, after all timers that have as little left.
#[tactic(auto, unfolding(crate::specs::Moves::armed))]
fn arm(s: &mut Segment, place: u16, seconds: u16)
    requires { nth s.old free_list < entries }
    ensures { s.new ≡ armed s.old place seconds }
{
    let e = ports::take_entry(s, running_timer(place, seconds));
    let p = ports::seek_over(s, layout::TIMER_LIST, seconds);
    ports::insert_at(s, p, e);
}

// Inserts the request m at the end of list l.
#[tactic(auto, unfolding(crate::specs::Moves::queued))]
fn queue(s: &mut Segment, l: usize, m: Entry)
    requires { (l < list_count) × (nth s.old free_list < entries) }
    ensures { s.new ≡ queued s.old l (entry_words m) }
{
    let e = ports::take_entry(s, m);
    ports::append_to(s, l, e);
}

// Makes the request m wait in list l, with a timer unless `seconds` is 0.
#[tactic(auto, using(std::proofs::lemmas::Bool::Decides::nat_tests), unfolding(crate::specs::Moves::waiting))]
pub fn wait(s: &mut Segment, l: usize, m: Entry, seconds: u16)
    requires { (l < list_count) × (nth s.old free_list < entries) × (nth (queued s.old l (entry_words m)) free_list < entries) }
    ensures { s.new ≡ waiting s.old l (entry_words m) m.place seconds }
{
    let place = m.place;
    queue(s, l, m);
    if seconds != 0 {
        arm(s, place, seconds);
    }
}

// Takes the entry of a place out of list l, and gives its number.
#[tactic(auto, unfolding(crate::specs::Moves::slot_of, crate::specs::Moves::entry_of, crate::specs::Moves::out))]
fn take_out(s: &mut Segment, l: usize, place: u16) -> u16
    requires { l < list_count }
    ensures { (result ≡ entry_of s.old l place) × (s.new ≡ out s.old l place) }
{
    let p = ports::seek_place(s, l, place);
    ports::unlink_at(s, p)
}

// Removes the timer of a place, if there is one.
#[tactic(auto, using(std::proofs::lemmas::Bool::Decides::nat_tests), unfolding(crate::specs::Moves::disarmed))]
fn disarm(s: &mut Segment, place: u16)
    ensures { s.new ≡ disarmed s.old place }
{
    let e = take_out(s, layout::TIMER_LIST, place);
    if e < layout::ENTRIES {
        ports::release_entry(s, e);
    }
}

// Completes the request of m's place, whose entry is at slot p: the entry becomes m, on the place's reply port.
#[tactic(auto, unfolding(crate::specs::Moves::completed))]
pub fn complete(s: &mut Segment, p: usize, m: Entry)
    requires { (p < file_rows) × (m.place < desk_places) × (nth s.old p < entries) }
    ensures { s.new ≡ completed s.old p m.place (entry_words m) }
{
    let place = m.place;
    let e = ports::unlink_at(s, p);
    disarm(s, place);
    segment::write_entry(s, e, m);
    ports::insert_at(s, layout::REPLY_PORTS + place as usize, e);
}

// Removes the request of a place, whose entry is at slot p.
#[tactic(auto, unfolding(crate::specs::Moves::cancelled))]
pub fn cancel(s: &mut Segment, p: usize, place: u16)
    requires { (p < file_rows) × (nth s.old p < entries) }
    ensures { s.new ≡ cancelled s.old p place }
{
    let e = ports::unlink_at(s, p);
    disarm(s, place);
    ports::release_entry(s, e);
}

// Removes the completed request of a place from its reply port.
#[tactic(auto, unfolding(crate::specs::Moves::collected))]
pub fn collect(s: &mut Segment, place: u16)
    requires { (place < desk_places) × (nth s.old (reply_port place) < entries) }
    ensures { s.new ≡ collected s.old place }
{
    let e = ports::unlink_at(s, layout::REPLY_PORTS + place as usize);
    ports::release_entry(s, e);
}
