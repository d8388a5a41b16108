// Fast path over the free list while its entries are in order, as on a fresh desk. The next entry is counted, not read from a link, so that no read waits for
// the one before. The test is an `or` of differences, since the compiler turns `if link == next` into a read that waits. `onto` and `onto-four`
// (proofs/quick/Onward.antt): the plain walk goes the same way.
ghost use Rattle.std.specs.Prelude.{◌≡◌, ◌+◌, ◌-◌, ◌*◌, ◌≤◌, ◌<◌, length, get_or};
ghost use Rattle.rules.specs.Limits.{entries};
ghost use Rattle.sound.specs.quick.Onward.{entry_bytes, Linked, Onward};

use crate::marks::{ENTRY_COUNT, MET};
use segment::{Segment, layout};
use words::joined::{broad, eight, four};

pub const LAST: usize = layout::ENTRIES as usize - 1;

pub const ENTRY_BYTES: usize = 2 * layout::ENTRY_WORDS;

// The last entry that a run from e may reach.
pub fn farthest(e: usize, most: usize) -> usize
    requires { e < entries }
    ensures { (e ≤ result) × (result < entries) × (result ≤ e + most) }
{
    if most < LAST - e { e + most } else { LAST }
}

// The marks of four entries as one number: 0 only if none was met.
fn four_marks(seen: &[u8; ENTRY_COUNT], e: usize) -> u64
    requires { e + 3 < entries }
    ensures { result ≡ 0 → (get_or seen.now e 0 ≡ 0) × (get_or seen.now (e + 1) 0 ≡ 0) × (get_or seen.now (e + 2) 0 ≡ 0) × (get_or seen.now (e + 3) 0 ≡ 0) }
{
    let low = broad(seen[e]) + broad(seen[e + 1]) * 256;
    let high = broad(seen[e + 2]) + broad(seen[e + 3]) * 256;
    low + high * 65536
}

// A number for the entry at byte `at`: 0 only if it is free and linked to entry n.
pub fn linked(s: &[u8], at: usize, n: usize) -> u64
    requires { (at + entry_bytes ≤ length s.now) × (n < 256) }
    ensures { result ≡ 0 → Linked s.now at n }
{
    (eight(s, at) ^ (n as u64 * 256)) | eight(s, at + 8) | four(s, at + 16)
}

// The weights of the low bytes of the first word and of the third, in a number of eight bytes.
const FIRST: u64 = 256;

const THIRD: u64 = 1099511627776;

// A number for two entries at byte `at`: 0 only if each is free, and they are linked to entry n and to the next. Five loads for forty bytes.
fn two_linked(s: &[u8], at: usize, n: usize) -> u64
    requires { (at + 2 * entry_bytes ≤ length s.now) × (n + 1 < 256) }
    ensures { result ≡ 0 → Linked s.now at n × Linked s.now (at + entry_bytes) (n + 1) }
{
    let link = n as u64;
    (eight(s, at) ^ (link * FIRST))
        | eight(s, at + 8)
        | (eight(s, at + 16) ^ ((link + 1) * THIRD))
        | eight(s, at + 24)
        | eight(s, at + 32)
}

// A number for four entries, the first of them e at byte `at`: 0 only if each is free and linked to the next number. Ten loads for eighty bytes.
pub fn four_linked(s: &[u8], at: usize, e: usize) -> u64
    requires { (at + 4 * entry_bytes ≤ length s.now) × (e + 4 < 256) }
    ensures { result ≡ 0 → Linked s.now at (e + 1) × Linked s.now (at + entry_bytes) (e + 2) × Linked s.now (at + 2 * entry_bytes) (e + 3) × Linked s.now (at + 3 * entry_bytes) (e + 4) }
{
    two_linked(s, at, e + 1) | two_linked(s, at + 2 * ENTRY_BYTES, e + 3)
}

// Walks from a slot that holds e along the entries in order, at most `most` of them, four at a time. Marks those that it passes, and gives the last.
fn by_fours(s: &Segment, e: usize, most: usize, seen: &mut [u8; ENTRY_COUNT]) -> usize
    requires { e < entries }
    ensures { Onward s.now e most seen.old result seen.new }
{
    let end = farthest(e, most);
    // Kept: where the run stops is the result, on each way out, so `last` outlives the loop; a `for` by four would need it beside its own counter.
    let mut last = e;
    let mut at = 2 * (layout::LINKS + layout::ENTRY_WORDS * e);
    while last + 4 <= end {
        if four_marks(seen, last) != 0 {
            return last;
        }
        if four_linked(s, at, last) != 0 {
            return last;
        }
        seen[last] = MET;
        seen[last + 1] = MET;
        seen[last + 2] = MET;
        seen[last + 3] = MET;
        last += 4;
        at += 4 * ENTRY_BYTES;
    }
    last
}

// Walks as `by_fours` does, but at most one entry.
fn by_one(s: &Segment, e: usize, most: usize, seen: &mut [u8; ENTRY_COUNT]) -> usize
    requires { e < entries }
    ensures { Onward s.now e most seen.old result seen.new }
{
    if most < 1 {
        return e;
    }
    if e >= LAST {
        return e;
    }
    if seen[e] != 0 {
        return e;
    }
    if linked(s, 2 * (layout::LINKS + layout::ENTRY_WORDS * e), e + 1) != 0 {
        return e;
    }
    seen[e] = MET;
    e + 1
}

// Walks as `by_fours` does: by fours if e itself follows the entry before, else by one, since the run is then short, such as a request and its timer.
pub fn in_order(
    s: &Segment,
    before: usize,
    e: usize,
    most: usize,
    seen: &mut [u8; ENTRY_COUNT],
) -> usize
    requires { (e < entries) × (before < 256) }
    ensures { Onward s.now e most seen.old result seen.new }
{
    if e == before + 1 {
        let last = by_fours(s, e, most, seen);
        return by_one(s, last, most - (last - e), seen);
    }
    by_one(s, e, most, seen)
}
