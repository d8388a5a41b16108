// Tests the rows of the segment: those of a file, built or not, and of its places. The rows of places stand after those of all files.
ghost use Rattle.std.specs.Prelude.{◌≡◌, ◌&&◌, ◌||◌, ◌+◌, ◌*◌, ◌≤◌, ◌<◌, leb, eqb};
ghost use Rattle.rules.specs.Limits.{files, places};
ghost use Rattle.segment.specs.Layout.{segment_words, file_width, place_width};
ghost use Rattle.sound.specs.Rows.{file_word, place_word, zero_words, good_geo, good_place, place_ok, unbuilt_ok};

use kinds::limits::{LEAST_CAPACITY, MOST_FACTOR, PLACES, ROOM_WORDS, SHARE_WORDS};
use kinds::sides::{READER, WRITER};
use segment::{Segment, layout};

// Whether n words, starting at word k, are zero: exactly if their bytes are (`zero-bytes`, proofs/Bytes.antt).
pub fn zero_words(s: &Segment, k: usize, n: usize) -> bool
    requires { k + n ≤ segment_words }
    ensures { result ≡ zero_words s.now k n }
{
    words::quiet(s, 2 * k, 2 * n)
}

// Word j of a row: `file_word` of file f's, `place_word` of place i's.

#[tactic(auto, unfolding(crate::specs::Rows::file_word))]
pub fn file_word(s: &Segment, f: usize, j: usize) -> u16
    requires { (f < files) × (j < file_width) }
    ensures { result ≡ file_word s.now f j }
{
    segment::get(s, layout::FILE_ROWS + layout::FILE_ROW_WORDS * f + j)
}

#[tactic(auto, unfolding(crate::specs::Rows::place_word))]
pub fn place_word(s: &Segment, i: usize, j: usize) -> u16
    requires { (i < files * places) × (j < place_width) }
    ensures { result ≡ place_word s.now i j }
{
    segment::get(s, layout::PLACE_ROWS + layout::PLACE_ROW_WORDS * i + j)
}

// Whether R, B and D are those of a sound file. "C = B × D" is computed in 32 bits, since D may still be any word.
#[tactic(auto, unfolding(crate::specs::Rows::good_geo, rules::specs::Geometry::within, rules::specs::Geometry::capacity))]
pub fn good_geometry(words: u16, factor: u16, blocks: u16) -> bool
    ensures { result ≡ good_geo (record { words = words; factor = factor; blocks = blocks }) }
{
    if words < 1 {
        return false;
    }
    if words > ROOM_WORDS {
        return false;
    }
    if factor < 1 {
        return false;
    }
    if factor > MOST_FACTOR {
        return false;
    }
    if u32::from(factor) * u32::from(blocks) < LEAST_CAPACITY {
        return false;
    }
    geometry::fits_within(words, factor as u8, blocks, SHARE_WORDS)
}

// Whether the ID fits the side: a reader's ID is 0, a writer's is at least 1.
pub fn good_side(side: u16, id: u16) -> bool
    ensures { result ≡ (eqb side 1 && eqb id 0 || eqb side 2 && leb 1 id) }
{
    if side == READER {
        return id == 0;
    }
    if side == WRITER {
        return 1 <= id;
    }
    false
}

#[tactic(auto, unfolding(crate::specs::Rows::good_place, crate::specs::Rows::side_at))]
fn good_place(s: &Segment, i: usize) -> bool
    requires { i < files * places }
    ensures { result ≡ good_place s.now i }
{
    let side = place_word(s, i, layout::PLACE_SIDE);
    let id = place_word(s, i, layout::PLACE_ID);
    if !good_side(side, id) {
        return false;
    }
    if place_word(s, i, layout::PLACE_EXTENDED) > 1 {
        return false;
    }
    if place_word(s, i, layout::PLACE_TYPED) > 1 {
        return false;
    }
    if place_word(s, i, layout::PLACE_KEEP) > 1 {
        return false;
    }
    place_word(s, i, layout::PLACE_FIRST) <= 1
}

#[tactic(auto, unfolding(crate::specs::Rows::place_ok, crate::specs::Rows::side_at))]
pub fn place_ok(s: &Segment, i: usize) -> bool
    requires { i < files * places }
    ensures { result ≡ place_ok s.now i }
{
    let at = layout::PLACE_ROWS + layout::PLACE_ROW_WORDS * i;
    if place_word(s, i, layout::PLACE_SIDE) == 0 {
        return zero_words(s, at, layout::PLACE_ROW_WORDS);
    }
    if !good_place(s, i) {
        return false;
    }
    zero_words(s, at + layout::PLACE_FIELDS, layout::PLACE_SPARE)
}

// Whether the rows of file f, which is not built, and of its places are all zero.
#[tactic(auto, unfolding(crate::specs::Rows::unbuilt_ok))]
pub fn unbuilt_ok(s: &Segment, f: usize) -> bool
    requires { f < files }
    ensures { result ≡ unbuilt_ok s.now f }
{
    let row = layout::FILE_ROWS + layout::FILE_ROW_WORDS * f;
    if !zero_words(s, row, layout::FILE_ROW_WORDS) {
        return false;
    }
    let at = layout::PLACE_ROWS + layout::PLACE_ROW_WORDS * (PLACES * f);
    zero_words(s, at, PLACES * layout::PLACE_ROW_WORDS)
}
