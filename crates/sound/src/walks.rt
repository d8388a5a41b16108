// Walks each list: every entry is met once, and marks the place that it belongs to. A list ends at NIL and nowhere else.
// One turn more than there are entries is enough, since no entry is met twice.
ghost use Rattle.std.specs.Prelude.{◌≡◌, List, ℕ, ◌+◌, ◌*◌, ◌<◌};
ghost use Rattle.rules.specs.Limits.{files, places, entries};
ghost use Rattle.segment.specs.Layout.{file_rows};
ghost use Rattle.sound.specs.Walks.{walked, free_walk, queue_walk, timer_walk, port_walk, queue_walks, port_walks, all_met};

use crate::entries::{free_entry, port_entry, queue_entry, timer_entry};
use crate::marks::{COMPLETED, ENTRY_COUNT, MET, TIMED, WAITING};
use crate::quick::order::in_order;
use accessors::outstanding::queue_of;
use kinds::limits::FILES;
use segment::{Segment, layout};

const TURNS: usize = ENTRY_COUNT + 1;

// Walks the free list. The marks on places stay as they are. An entry's number is one byte, and entries in order are passed at once.
pub fn free_walk(s: &Segment, head: usize, seen: &mut [u8; ENTRY_COUNT]) -> bool
    requires { head < file_rows }
    ensures { (busy : List ℕ) → walked result seen.new busy ≡ free_walk s.now head seen.old busy (entries + 1) }
{
    let mut p = head;
    // Kept: a turn takes as many from `left` as `in_order` passes, so it is no counter of turns.
    let mut left = TURNS;
    let mut e = ENTRY_COUNT;
    while left > 0 {
        if s[2 * p] != 0 {
            return segment::get(s, p) == layout::NIL;
        }
        let v = usize::from(s[2 * p + 1]);
        if v >= ENTRY_COUNT {
            return false;
        }
        left -= 1;
        e = in_order(s, e, v, left, seen);
        left -= e - v;
        if seen[e] != 0 {
            return false;
        }
        if !free_entry(s, e) {
            return false;
        }
        seen[e] = MET;
        p = layout::LINKS + layout::ENTRY_WORDS * e;
    }
    false
}

// Walks the queue of file f on that side.
fn queue_walk(
    s: &Segment,
    side: u16,
    f: usize,
    head: usize,
    seen: &mut [u8; ENTRY_COUNT],
    busy: &mut [u8; layout::DESK_PLACES],
) -> bool
    requires { (f < files) × (head < file_rows) }
    ensures { walked result seen.new busy.new ≡ queue_walk s.now side f head seen.old busy.old (entries + 1) }
{
    let mut p = head;
    for _ in 0..TURNS {
        let v = segment::get(s, p);
        if layout::ENTRIES <= v {
            return v == layout::NIL;
        }
        let e = v as usize;
        if seen[e] != 0 {
            return false;
        }
        if !queue_entry(s, busy, side, f, e) {
            return false;
        }
        let at = layout::DATA + layout::ENTRY_WORDS * e;
        let i = segment::get(s, at + layout::ENTRY_PLACE) as usize;
        seen[e] = MET;
        busy[i] = WAITING;
        p = layout::LINKS + layout::ENTRY_WORDS * e;
    }
    false
}

// Walks the timer list. Each timer has at least one second left.
pub fn timer_walk(
    s: &Segment,
    head: usize,
    seen: &mut [u8; ENTRY_COUNT],
    busy: &mut [u8; layout::DESK_PLACES],
) -> bool
    requires { head < file_rows }
    ensures { walked result seen.new busy.new ≡ timer_walk s.now 1 head seen.old busy.old (entries + 1) }
{
    let mut p = head;
    let mut low: u16 = 1;
    for _ in 0..TURNS {
        let v = segment::get(s, p);
        if layout::ENTRIES <= v {
            return v == layout::NIL;
        }
        let e = v as usize;
        if seen[e] != 0 {
            return false;
        }
        if !timer_entry(s, busy, low, e) {
            return false;
        }
        let at = layout::DATA + layout::ENTRY_WORDS * e;
        let i = segment::get(s, at + layout::ENTRY_PLACE) as usize;
        low = segment::get(s, at + layout::ENTRY_SECONDS);
        seen[e] = MET;
        busy[i] = TIMED;
        p = layout::LINKS + layout::ENTRY_WORDS * e;
    }
    false
}

// Tests the reply port of place i, which has at most one entry.
fn port_walk(
    s: &Segment,
    i: usize,
    seen: &mut [u8; ENTRY_COUNT],
    busy: &mut [u8; layout::DESK_PLACES],
) -> bool
    requires { i < files * places }
    ensures { walked result seen.new busy.new ≡ port_walk s.now i seen.old busy.old }
{
    let v = segment::get(s, layout::REPLY_PORTS + i);
    if layout::ENTRIES <= v {
        return v == layout::NIL;
    }
    let e = v as usize;
    if seen[e] != 0 {
        return false;
    }
    if !port_entry(s, busy, i, e) {
        return false;
    }
    if segment::get(s, layout::LINKS + layout::ENTRY_WORDS * e) != layout::NIL {
        return false;
    }
    seen[e] = MET;
    busy[i] = COMPLETED;
    true
}

// Walks the queues of all files on that side.
#[tactic(auto, using(crate::proofs::Steps::queues_bad, crate::proofs::Steps::queues_next, crate::proofs::Steps::queues_over))]
pub fn queue_walks(
    s: &Segment,
    side: u16,
    seen: &mut [u8; ENTRY_COUNT],
    busy: &mut [u8; layout::DESK_PLACES],
) -> bool
    ensures { walked result seen.new busy.new ≡ queue_walks s.now side 0 seen.old busy.old files }
{
    for f in 0..FILES {
        let head = queue_of(f, side);
        if !queue_walk(s, side, f, head, seen, busy) {
            return false;
        }
    }
    true
}

// Tests the reply ports of all places.
#[tactic(auto, using(crate::proofs::Steps::ports_bad, crate::proofs::Steps::ports_next, crate::proofs::Steps::ports_over))]
pub fn port_walks(
    s: &Segment,
    seen: &mut [u8; ENTRY_COUNT],
    busy: &mut [u8; layout::DESK_PLACES],
) -> bool
    ensures { walked result seen.new busy.new ≡ port_walks s.now 0 seen.old busy.old (files * places) }
{
    for i in 0..layout::DESK_PLACES {
        if !port_walk(s, i, seen, busy) {
            return false;
        }
    }
    true
}

// Whether every entry was met: one `or` of the differences, with no early exit from the loop, as in `words::quiet`.
#[tactic(auto, using(crate::proofs::Ors::met_none, crate::proofs::Ors::met_more))]
pub fn all_met(seen: &[u8; ENTRY_COUNT]) -> bool
    ensures { result ≡ all_met seen.now entries }
{
    let mut all = 0;
    for mark in seen {
        all |= *mark ^ MET;
    }
    all == 0
}
