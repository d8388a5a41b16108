// Tests of an open: who may be open together, and the room for an open record.
ghost use Rattle.std.specs.Prelude.{◌≡◌, ℕ, ◌*◌, ◌≤◌, ◌<◌, true, false, ◌&&◌, ltb, eqb};
ghost use Rattle.rules.specs.Limits.{files, places};
ghost use Rattle.rules.specs.State.{Built};
ghost use Rattle.rules.specs.Store.{used};
ghost use Rattle.rules.specs.Requests as requests;
ghost use Rattle.rules.specs.Open.{crowded, purged, room_to_open};
ghost use Rattle.judges.specs.Sharing.{differs, others_from};
ghost use Rattle.accessors.specs.Sides.{count_side, purges_at};
ghost use Rattle.judges.specs.Verdicts.{forbidden};
ghost use Rattle.accessors.specs.Shown.{Shown};

use accessors::sides::count_side;
use accessors::{SINGLE, sharing_of};
use kinds::limits::PLACES;
use kinds::sides::{CLOSED, READER, WRITER};
use segment::Segment;

// Share 3: many readers and many writers. Share 2 is one reader and many writers.
const MANY: u16 = 3;

// The multiaccess that is always refused.
const NO_MULTI: u8 = 3;

// The access that purges.
const PURGING: u8 = 1;

// The number of closed places of a file that nobody has open.
const ALL_PLACES: u16 = PLACES as u16;

// The records that a new writer needs room for: its open record, and the close record that a place is kept for.
const WRITERS_RECORDS: u32 = 2;

// Whether an accessor with another share is open at place i.
#[tactic(auto, using(std::proofs::lemmas::Bool::Decides::nat_tests), unfolding(crate::specs::Sharing::differs))]
fn differs(segment: &Segment, i: usize, share: u16) -> bool
    requires { i < files * places }
    ensures { result ≡ differs segment.now share i }
{
    let row = segment::read_place(segment, i);
    row.side != CLOSED && row.share != share
}

// Whether an accessor with another share is open at one of the eight places of file f.
fn others(segment: &Segment, f: usize, share: u16) -> bool
    requires { f < files }
    ensures { result ≡ others_from segment.now share (places * f) places }
{
    (0..PLACES).any(|p| differs(segment, PLACES * f + p, share))
}

// W, the open writers, for a writer's open (0 for a reader's). Counted once for all tests of an open.
pub fn writers_for(segment: &Segment, f: usize, access: u8) -> u16
    requires { f < files }
    ensures { (access ≡ 0 → result ≡ 0) × (0 < access → result ≡ count_side segment.now f 2) × (result ≤ places) }
{
    if access == 0 {
        return 0;
    }
    count_side(segment, f, WRITER)
}

// Whether the share forbids another writer beside these.
#[tactic(auto, using(std::proofs::lemmas::Bool::Decides::nat_tests), unfolding(rules::specs::Open::crowded))]
fn crowds_writers(share: u16, writers: u16) -> bool
    ensures { (b : Built) → writers ≡ requests.writers b → result ≡ crowded true share b }
{
    share == SINGLE && 0 < writers
}

// Whether the share forbids another reader beside those of file f.
fn crowds_readers(segment: &Segment, f: usize, share: u16) -> bool
    requires { f < files }
    ensures { (b : Built) → Shown segment.now f b → result ≡ crowded false share b }
{
    share < MANY && 0 < count_side(segment, f, READER)
}

fn crowds(segment: &Segment, f: usize, access: u8, share: u16, writers: u16) -> bool
    requires { (f < files) × (0 < access → writers ≡ count_side segment.now f 2) }
    ensures { (b : Built) → Shown segment.now f b → result ≡ crowded (ltb 0 access) share b }
{
    if 0 < access {
        return crowds_writers(share, writers);
    }
    crowds_readers(segment, f, share)
}

// Whether an open is refused with 40: multiaccess 3, another share, or a second accessor the share forbids.
pub fn forbids(segment: &Segment, f: usize, access: u8, share: u8, multi: u8, writers: u16) -> bool
    requires { (f < files) × (0 < access → writers ≡ count_side segment.now f 2) }
    ensures { (b : Built) → Shown segment.now f b → result ≡ forbidden access share multi b }
{
    if multi == NO_MULTI {
        return true;
    }
    let s = sharing_of(share);
    if others(segment, f, s) {
        return true;
    }
    crowds(segment, f, access, s, writers)
}

// Whether an open of that access purges a file with this number of closed places: access 1 "purges if no accessor is open".
pub fn purging(access: u8, closed: u16) -> bool
    ensures { result ≡ (eqb access 1 && eqb closed places) }
{
    access == PURGING && closed == ALL_PLACES
}

// The records that count as used when an open puts its record: none if it purges.
fn used_after(segment: &Segment, f: usize, purges: bool) -> u32
    requires { f < files }
    ensures value { (b : Built) → Shown segment.now f b → (access : ℕ) → purges ≡ purges_at segment.now f access → result ≡ used (purged access b).store }
    ensures upper_bound { result < 131072 }
{
    if purges {
        return 0;
    }
    let row = segment::read_file(segment, f);
    row.spent as u32 + row.held as u32
}

// "A writer puts an open record and needs used + W + 2 ≤ C, with W before it and after any purge."
pub fn has_room(segment: &Segment, f: usize, purges: bool, writers: u16) -> bool
    requires f_lt_files { (f < files) × (writers ≡ count_side segment.now f 2) × (writers ≤ places) }
    requires by_index { (access : ℕ) × (purges ≡ purges_at segment.now f access) }
    ensures { (b : Built) → Shown segment.now f b → (access : ℕ) → purges ≡ purges_at segment.now f access → result ≡ room_to_open access b }
{
    let used = used_after(segment, f, purges);
    let row = segment::read_file(segment, f);
    used + writers as u32 + WRITERS_RECORDS <= row.factor as u32 * row.blocks as u32
}
