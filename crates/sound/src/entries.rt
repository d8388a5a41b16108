// Tests what an entry holds on each kind of list. The place in an entry may be any word, so it is tested before it is used.
ghost use Rattle.std.specs.Prelude.{◌≡◌, cond, ◌*◌, ◌<◌, eqb};
ghost use Rattle.rules.specs.Limits.{files, places, entries, buffer_bytes};
ghost use Rattle.sound.specs.Parts.{owned};
ghost use Rattle.sound.specs.Walks.{free_entry, read_entry, write_entry, port_entry, timer_entry};

use crate::marks::WAITING;
use crate::quick::bytes::{bare, two_bare};
use crate::rows::{file_word, place_word, zero_words};
use kinds::limits;
use kinds::limits::{FILES, PLACES};
use kinds::refusals::Refusal;
use kinds::sides::{READER, WRITER};
use segment::{Segment, layout};

const BUFFER_SIZE: u16 = limits::BUFFER_BYTES as u16;

// The lowest refusal number. A completed request's status is below it.
const LEAST_REFUSAL: u16 = Refusal::Unsound as u16;

// The number of words of an entry's data that are zero: of a read after its keep, of a write between its unit and its size, of a completed request between its
// place and its status, and of a timer between its place and its seconds. The two words after the size are zero too.
const READ_REST: usize = layout::DATA_WORDS - layout::ENTRY_STATUS;

const WRITE_MIDDLE: usize = layout::ENTRY_SIZE - layout::ENTRY_LIMIT;

const PORT_MIDDLE: usize = layout::ENTRY_STATUS - layout::ENTRY_UNIT;

const TIMER_MIDDLE: usize = layout::ENTRY_SECONDS - layout::ENTRY_UNIT;

const ENTRY_SPARE: usize = layout::ENTRY_SECONDS + 1;

#[tactic(auto, unfolding(crate::specs::Walks::free_entry))]
pub fn free_entry(s: &Segment, e: usize) -> bool
    requires { e < entries }
    ensures { result ≡ free_entry s.now e }
{
    bare(s, layout::DATA + layout::ENTRY_WORDS * e)
}

// Whether entry e belongs to an accessor of file f on that side that is not marked as having a request yet.
#[tactic(auto, unfolding(crate::specs::Parts::owned, crate::specs::Walks::place_in, crate::specs::Walks::entry_word, crate::specs::Rows::side_at))]
fn owned(s: &Segment, busy: &[u8; layout::DESK_PLACES], side: u16, f: usize, e: usize) -> bool
    requires { e < entries }
    ensures { result ≡ owned s.now busy.now side f e }
{
    let at = layout::DATA + layout::ENTRY_WORDS * e;
    let i = segment::get(s, at + layout::ENTRY_PLACE) as usize;
    if i >= FILES * PLACES {
        return false;
    }
    if i / PLACES != f {
        return false;
    }
    if busy[i] != 0 {
        return false;
    }
    place_word(s, i, layout::PLACE_SIDE) == side
}

#[tactic(auto, unfolding(crate::specs::Walks::read_entry, crate::specs::Parts::owned, crate::specs::Walks::entry_word))]
fn read_entry(s: &Segment, busy: &[u8; layout::DESK_PLACES], f: usize, e: usize) -> bool
    requires { e < entries }
    ensures { result ≡ read_entry s.now busy.now f e }
{
    if !owned(s, busy, READER, f, e) {
        return false;
    }
    let at = layout::DATA + layout::ENTRY_WORDS * e;
    if segment::get(s, at + layout::ENTRY_UNIT) > 1 {
        return false;
    }
    if segment::get(s, at + layout::ENTRY_LIMIT) > BUFFER_SIZE {
        return false;
    }
    if segment::get(s, at + layout::ENTRY_KEEP) > 1 {
        return false;
    }
    zero_words(s, at + layout::ENTRY_STATUS, READ_REST)
}

#[tactic(auto, unfolding(crate::specs::Walks::write_entry, crate::specs::Parts::owned, crate::specs::Walks::entry_word, crate::specs::Walks::size_in))]
fn write_entry(s: &Segment, busy: &[u8; layout::DESK_PLACES], f: usize, e: usize) -> bool
    requires { (f < files) × (e < entries) }
    ensures { result ≡ write_entry s.now busy.now f e }
{
    if !owned(s, busy, WRITER, f, e) {
        return false;
    }
    let at = layout::DATA + layout::ENTRY_WORDS * e;
    if segment::get(s, at + layout::ENTRY_UNIT) > 1 {
        return false;
    }
    if !zero_words(s, at + layout::ENTRY_LIMIT, WRITE_MIDDLE) {
        return false;
    }
    let size = segment::get(s, at + layout::ENTRY_SIZE);
    if u32::from(size) > 2 * u32::from(file_word(s, f, layout::FILE_WORDS)) {
        return false;
    }
    two_bare(s, at + layout::ENTRY_SECONDS)
}

// Whether entry e may wait in the queue of file f on that side.
pub fn queue_entry(
    s: &Segment,
    busy: &[u8; layout::DESK_PLACES],
    side: u16,
    f: usize,
    e: usize,
) -> bool
    requires { (f < files) × (e < entries) }
    ensures { result ≡ cond (eqb side 1) (read_entry s.now busy.now f e) (write_entry s.now busy.now f e) }
{
    if side == READER {
        return read_entry(s, busy, f, e);
    }
    write_entry(s, busy, f, e)
}

// The most bytes that a completed request may have in its buffer; none for a write.
fn most_size(side: u16) -> u16
    ensures { result ≡ cond (eqb side 1) buffer_bytes 0 }
{
    if side == READER { BUFFER_SIZE } else { 0 }
}

#[tactic(auto, unfolding(crate::specs::Walks::port_entry, crate::specs::Walks::place_in, crate::specs::Walks::entry_word, crate::specs::Rows::side_at, crate::specs::Walks::size_in))]
pub fn port_entry(s: &Segment, busy: &[u8; layout::DESK_PLACES], i: usize, e: usize) -> bool
    requires { (i < files * places) × (e < entries) }
    ensures { result ≡ port_entry s.now busy.now i e }
{
    let at = layout::DATA + layout::ENTRY_WORDS * e;
    if segment::get(s, at + layout::ENTRY_PLACE) as usize != i {
        return false;
    }
    if busy[i] != 0 {
        return false;
    }
    let side = place_word(s, i, layout::PLACE_SIDE);
    if side < 1 {
        return false;
    }
    if !zero_words(s, at + layout::ENTRY_UNIT, PORT_MIDDLE) {
        return false;
    }
    if segment::get(s, at + layout::ENTRY_STATUS) >= LEAST_REFUSAL {
        return false;
    }
    let size = segment::get(s, at + layout::ENTRY_SIZE);
    if size > most_size(side) {
        return false;
    }
    two_bare(s, at + layout::ENTRY_SECONDS)
}

// Whether entry e may be a timer: it has at least `low` seconds left, as many as the one before it.
#[tactic(auto, unfolding(crate::specs::Walks::timer_entry, crate::specs::Walks::place_in, crate::specs::Walks::entry_word))]
pub fn timer_entry(s: &Segment, busy: &[u8; layout::DESK_PLACES], low: u16, e: usize) -> bool
    requires { e < entries }
    ensures { result ≡ timer_entry s.now busy.now low e }
{
    let at = layout::DATA + layout::ENTRY_WORDS * e;
    let i = segment::get(s, at + layout::ENTRY_PLACE) as usize;
    if i >= FILES * PLACES {
        return false;
    }
    if busy[i] != WAITING {
        return false;
    }
    if !zero_words(s, at + layout::ENTRY_UNIT, TIMER_MIDDLE) {
        return false;
    }
    if segment::get(s, at + layout::ENTRY_SECONDS) < low {
        return false;
    }
    segment::get(s, at + ENTRY_SPARE) == 0
}
