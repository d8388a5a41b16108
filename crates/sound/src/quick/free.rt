// Fast path over the free list where every other list is empty, as on a desk where nothing waits. No entry is marked: a list that ends after as many steps as there
// are entries has every entry, and none twice. `all-free` (proofs/quick/Enough.antt): the plain walk, which marks, says the same.
ghost use Rattle.std.specs.Prelude.{◌≡◌, true, ◌+◌, ◌-◌, ◌*◌, ◌<◌};
ghost use Rattle.rules.specs.Limits.{entries};
ghost use Rattle.segment.specs.Layout.{free_list, link_at};
ghost use Rattle.sound.specs.quick.Onward.{Linked};
ghost use Rattle.sound.specs.quick.Ends.{free_ends, Along};

use crate::entries::free_entry;
use crate::marks::ENTRY_COUNT;
use crate::quick::order::{ENTRY_BYTES, LAST, farthest, four_linked, linked};
use crate::quick::tables::{by_tables, scattered};
use segment::{Segment, layout};

// Goes from e along the entries in order, at most `most` of them, four at a time, and gives the last.
fn by_fours(s: &Segment, e: usize, most: usize) -> usize
    requires { e < entries }
    ensures { Along s.now e most result }
{
    let end = farthest(e, most);
    // Kept: where the run stops is the result, on each way out, so `last` outlives the loop; a `for` by four would need it beside its own counter.
    let mut last = e;
    let mut at = 2 * (layout::LINKS + layout::ENTRY_WORDS * e);
    while last + 4 <= end {
        if four_linked(s, at, last) != 0 {
            return last;
        }
        last += 4;
        at += 4 * ENTRY_BYTES;
    }
    last
}

// Goes as `by_fours` does if e follows the entry before; else the run is short, and it stays at e.
fn along(s: &Segment, before: usize, e: usize, most: usize) -> usize
    requires { (e < entries) × (before < 256) }
    ensures { Along s.now e most result }
{
    if e == before + 1 {
        return by_fours(s, e, most);
    }
    e
}

// Whether e is free and linked to the next number, such as a request to its timer, with that entry among the `left` that are to come.
fn paired(s: &Segment, e: usize, left: usize) -> bool
    requires { e < entries }
    ensures { result ≡ true → (0 < left) × (e + 1 < entries) × Linked s.now (2 * link_at e) (e + 1) }
{
    if left < 1 {
        return false;
    }
    if e >= LAST {
        return false;
    }
    linked(s, 2 * (layout::LINKS + layout::ENTRY_WORDS * e), e + 1) == 0
}

// Whether the free list has every entry. The two ways to the next slot each test an entry, so that the compiler branches, which is foreseen, and does not choose
// the slot by a value that it waits for.
fn walk(s: &Segment) -> bool
    ensures { result ≡ free_ends s.now free_list entries }
{
    let mut p = layout::FREE_LIST;
    // Kept: a turn takes as many from `left` as `along` passes, and a pair takes two, so it is no counter of turns.
    let mut left = ENTRY_COUNT;
    let mut before = ENTRY_COUNT;
    while left > 0 {
        if s[2 * p] != 0 {
            return false;
        }
        let v = usize::from(s[2 * p + 1]);
        if v >= ENTRY_COUNT {
            return false;
        }
        left -= 1;
        let e = along(s, before, v, left);
        left -= e - v;
        if paired(s, e, left) {
            before = e + 1;
            if !free_entry(s, before) {
                return false;
            }
            left -= 1;
            p = layout::LINKS + layout::ENTRY_WORDS * before;
            continue;
        }
        before = e;
        if !free_entry(s, before) {
            return false;
        }
        p = layout::LINKS + layout::ENTRY_WORDS * before;
    }
    segment::get(s, p) == layout::NIL
}

// Whether the free list has every entry.
pub fn all_free(s: &Segment) -> bool
    ensures { result ≡ free_ends s.now free_list entries }
{
    if scattered(s) {
        return by_tables(s);
    }
    walk(s)
}
