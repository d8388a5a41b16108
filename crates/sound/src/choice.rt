// Chooses between the fast path and the plain test. Each function here has the name and the contract of the plain test in `rows` or `walks`. It tries the fast
// path of `quick`, and asks the plain test if that cannot tell. Neither of the two uses the other.
ghost use Rattle.std.specs.Prelude.{◌≡◌, ◌+◌, ◌*◌, ◌≤◌, ◌<◌, replicate};
ghost use Rattle.rules.specs.Limits.{files, places, entries};
ghost use Rattle.sound.specs.Rows.{place_ok, places_ok};
ghost use Rattle.sound.specs.Walks.{walked, queue_walks, port_walks, all_walks};

use crate::marks::ENTRY_COUNT;
use crate::quick::heads::{no_queues, no_replies};
use crate::rows::{good_side, place_word, zero_words};
use crate::walks::{free_walk, timer_walk};
use crate::{rows, walks};
use kinds::sides::{READER, WRITER};
use segment::{Segment, layout};
use words::joined::{eight, four};

// The four settings of a place that neither read nor wrote yet, as one number, low byte first: `first`, the last of them, is 1, and the others are 0.
const FIRST_ALONE: u64 = 72057594037927936;

// What `four` gives for a reader's side and ID: 1 and 0.
const A_READER: u64 = 256;

// Whether the row of place i is sound. Its fields are read as two numbers: one of side, ID, share and timeout, one of the settings. `closed-row` and `open_row`
// (proofs/quick/Settings.antt): if the spare words are zero, the plain test of a place that is not open asks that both are 0; of an open place with no setting
// on, or `first` alone, it asks only side and ID, which a reader has in one number.
fn place_ok(s: &Segment, i: usize) -> bool
    requires { i < files * places }
    ensures { result ≡ place_ok s.now i }
{
    let row = layout::PLACE_ROWS + layout::PLACE_ROW_WORDS * i;
    if !zero_words(s, row + layout::PLACE_FIELDS, layout::PLACE_SPARE) {
        return rows::place_ok(s, i);
    }
    let at = 2 * row;
    if eight(s, at) == 0 {
        return eight(s, at + 8) == 0;
    }
    let settings = eight(s, at + 8);
    if settings != 0 && settings != FIRST_ALONE {
        return rows::place_ok(s, i);
    }
    if four(s, at) == A_READER {
        return true;
    }
    let side = place_word(s, i, layout::PLACE_SIDE);
    let id = place_word(s, i, layout::PLACE_ID);
    good_side(side, id)
}

// Whether the rows of the n places from place i upward are sound.
#[tactic(auto, using(crate::proofs::Steps::places_bad, crate::proofs::Steps::places_next, crate::proofs::Steps::places_over))]
pub fn places_ok(s: &Segment, i: usize, n: usize) -> bool
    requires { i + n ≤ files * places }
    ensures { result ≡ places_ok s.now i n }
{
    for k in 0..n {
        if !place_ok(s, i + k) {
            return false;
        }
    }
    true
}

// Walks the queues of all files on one side, unless all are empty.
fn queue_walks(
    s: &Segment,
    side: u16,
    seen: &mut [u8; ENTRY_COUNT],
    busy: &mut [u8; layout::DESK_PLACES],
) -> bool
    ensures { walked result seen.new busy.new ≡ queue_walks s.now side 0 seen.old busy.old files }
{
    if no_queues(s, side) {
        return true;
    }
    walks::queue_walks(s, side, seen, busy)
}

// Walks the ports of all places, unless all are empty.
fn port_walks(
    s: &Segment,
    seen: &mut [u8; ENTRY_COUNT],
    busy: &mut [u8; layout::DESK_PLACES],
) -> bool
    ensures { walked result seen.new busy.new ≡ port_walks s.now 0 seen.old busy.old (files * places) }
{
    if no_replies(s) {
        return true;
    }
    walks::port_walks(s, seen, busy)
}

// Walks all lists, starting with no mark set.
pub fn all_walks(
    s: &Segment,
    seen: &mut [u8; ENTRY_COUNT],
    busy: &mut [u8; layout::DESK_PLACES],
) -> bool
    requires { (seen.old ≡ replicate entries 0) × (busy.old ≡ replicate (files * places) 0) }
    ensures { walked result seen.new busy.new ≡ all_walks s.now }
{
    if !free_walk(s, layout::FREE_LIST, seen) {
        return false;
    }
    if !queue_walks(s, READER, seen, busy) {
        return false;
    }
    if !queue_walks(s, WRITER, seen, busy) {
        return false;
    }
    if !port_walks(s, seen, busy) {
        return false;
    }
    timer_walk(s, layout::TIMER_LIST, seen, busy)
}
