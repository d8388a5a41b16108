// Fast path for a free list in no order, where every other list is empty. A walk waits for each link before it can read the next. Here where each entry leads goes
// into a table, and from it the tables of two steps and of four are made, whose reads wait for nothing: then 34 reads that wait are enough, and not 128.
// `by-strides` (proofs/quick/Strides.antt): the list ends after as many steps as there are entries exactly if the tables lead to its end so.
ghost use Rattle.std.specs.Prelude.{◌≡◌, List, ℕ, ◌+◌, ◌-◌, ◌*◌, ◌≤◌, ◌<◌, eqb, length, get_or};
ghost use Rattle.rules.specs.Limits.{entries};
ghost use Rattle.segment.specs.Layout.{free_list, data_words};
ghost use Rattle.words.specs.Word.{quiet};
ghost use Rattle.sound.specs.quick.Onward.{entry_bytes};
ghost use Rattle.sound.specs.quick.Ends.{free_ends};
ghost use Rattle.sound.specs.quick.Strides.{stops, leads, strides, Table, Closed, bare_from, ends_by};

use crate::marks::ENTRY_COUNT;
use segment::{Segment, layout};
use words::joined::{eight, four};

// The end of a list, and a link to nothing. Both lead to themselves.
const ENDED: u8 = layout::ENTRIES as u8;

const ASTRAY: u8 = ENDED + 1;

const STOPS: usize = ENTRY_COUNT + 2;

// How often the table of four steps is read: with three steps before, all steps from the first entry to the last.
const FOURS: usize = ENTRY_COUNT / 4 - 1;

// What a link leads to.
#[tactic(auto, unfolding(crate::specs::quick::Strides::leads))]
fn lead(link: u16) -> u8
    ensures { result ≡ leads link }
{
    if link < layout::ENTRIES {
        return link as u8;
    }
    if link == layout::NIL {
        return ENDED;
    }
    ASTRAY
}

// A number for the entry at byte `at`: 0 exactly if its data is zero. Three loads for twenty bytes, of which the first two are the link's.
fn contents(s: &[u8], at: usize) -> u64
    requires { at + entry_bytes ≤ length s.now }
    ensures { eqb result 0 ≡ quiet s.now (at + 2) (2 * data_words) }
{
    (eight(s, at) / 65536) | eight(s, at + 8) | four(s, at + 16)
}

// Fills the table of one step. Whether all entries are free: one `or` of their data, with no early exit from the loop.
fn fill(s: &Segment, one: &mut [u8; STOPS]) -> bool
    requires { length one.old ≡ stops }
    ensures { (result ≡ bare_from s.now 0 entries) × Table s.now 1 one.new }
{
    let mut all = 0;
    for e in 0..ENTRY_COUNT {
        let p = layout::LINKS + layout::ENTRY_WORDS * e;
        all |= contents(s, 2 * p);
        one[e] = lead(segment::get(s, p));
    }
    one[ENTRY_COUNT] = ENDED;
    one[ENTRY_COUNT + 1] = ASTRAY;
    all == 0
}

// Fills the table of twice as many steps.
fn twice(from: &[u8; STOPS], to: &mut [u8; STOPS])
    requires { Closed from.now × (length to.old ≡ stops) }
    ensures { (k : ℕ) → k < stops → get_or to.new k 0 ≡ get_or from.now (get_or from.now k 0) 0 }
{
    for k in 0..STOPS {
        to[k] = from[usize::from(from[k])];
    }
}

// Goes n times four steps from k.
#[tactic(auto, using(crate::proofs::quick::Strides::four_on, crate::proofs::quick::Strides::strides_none))]
fn by_fours(fours: &[u8; STOPS], k: usize, n: usize) -> usize
    requires { Closed fours.now × (k < stops) }
    ensures { (result < stops) × ((s : List ℕ) → Table s 4 fours.now → result ≡ strides s (4 * n) k) }
{
    let mut at = k;
    for _ in 0..n {
        at = usize::from(fours[at]);
    }
    at
}

// Whether all steps but one lead from the first entry to an entry, and one more to the end.
fn ends(one: &[u8; STOPS], two: &[u8; STOPS], fours: &[u8; STOPS], head: usize) -> bool
    requires { Closed one.now × Closed two.now × Closed fours.now × (head < entries) }
    ensures { (s : List ℕ) → Table s 1 one.now → Table s 2 two.now → Table s 4 fours.now → result ≡ ends_by s (entries - 1) head }
{
    let second = usize::from(two[head]);
    let third = usize::from(one[second]);
    let last = by_fours(fours, third, FOURS);
    if last >= ENTRY_COUNT {
        return false;
    }
    one[last] == ENDED
}

// Whether the free list has every entry.
pub fn by_tables(s: &Segment) -> bool
    ensures { result ≡ free_ends s.now free_list entries }
{
    let head = segment::get(s, layout::FREE_LIST);
    if head >= layout::ENTRIES {
        return false;
    }
    let mut one = [0u8; STOPS];
    if !fill(s, &mut one) {
        return false;
    }
    let mut two = [0u8; STOPS];
    twice(&one, &mut two);
    let mut fours = [0u8; STOPS];
    twice(&two, &mut fours);
    ends(&one, &two, &fours, head as usize)
}

// Whether entry e is linked to the next number, as far as the low byte of its link says.
fn follows(s: &Segment, e: usize) -> bool
    requires { e < entries }
{
    usize::from(s[2 * (layout::LINKS + layout::ENTRY_WORDS * e) + 1]) == e + 1
}

// Whether none of five links that are looked at is to the next number. It chooses between two ways to the same result, so its contract says nothing.
pub fn scattered(s: &Segment) -> bool {
    for e in (8..ENTRY_COUNT).step_by(25) {
        if follows(s, e) {
            return false;
        }
    }
    true
}
