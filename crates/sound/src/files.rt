// Tests the files: their rows, those of their places, their room, and the records in their shares.
ghost use Rattle.std.specs.Prelude.{◌≡◌, true, ◌&&◌, ◌+◌, ◌*◌, ◌<◌, eqb};
ghost use Rattle.rules.specs.Limits.{files, places};
ghost use Rattle.rules.specs.Memories.{share_at};
ghost use Rattle.shares.specs.Sound.{sound};
ghost use Rattle.sound.specs.Rows.{file_word, geo_at, good_geo, places_ok};
ghost use Rattle.sound.specs.Sound.{room_ok, built_ok, file_ok, files_ok};

use crate::choice::places_ok;
use crate::quick::room::ample;
use crate::rows::{file_word, good_geometry, unbuilt_ok};
use accessors::sides::count_side;
use blocks::by_file::share;
use blocks::check;
use kinds::limits::{FILES, PLACES};
use kinds::memories::Blocks;
use kinds::sides::WRITER;
use ring::Ring;
use segment::{Segment, layout};

// The first of the two words of a file's row that are not used.
const FILE_SPARE: usize = layout::FILE_HELD + 1;

// Whether the row of a built file and those of its places are sound.
#[tactic(auto, unfolding(crate::specs::Rows::geo_at))]
fn rows_ok(s: &Segment, f: usize) -> bool
    requires { f < files }
    ensures { result ≡ (good_geo (geo_at s.now f) && eqb (file_word s.now f 6) 0 && eqb (file_word s.now f 7) 0 && places_ok s.now (places * f) places) }
{
    let words = file_word(s, f, layout::FILE_WORDS);
    let factor = file_word(s, f, layout::FILE_FACTOR);
    let blocks = file_word(s, f, layout::FILE_BLOCKS);
    if !good_geometry(words, factor, blocks) {
        return false;
    }
    if file_word(s, f, FILE_SPARE) != 0 {
        return false;
    }
    if file_word(s, f, FILE_SPARE + 1) != 0 {
        return false;
    }
    places_ok(s, PLACES * f, PLACES)
}

// Whether there is room: "one place is kept for each close record", and the open writers alone leave room for a record.
#[tactic(auto, unfolding(rules::specs::Geometry::capacity))]
fn room_ok(s: &Segment, f: usize) -> bool
    requires { (f < files) × (good_geo (geo_at s.now f) ≡ true) }
    ensures { result ≡ room_ok s.now f }
{
    let factor = u32::from(file_word(s, f, layout::FILE_FACTOR));
    let blocks = u32::from(file_word(s, f, layout::FILE_BLOCKS));
    let most = factor * blocks;
    let spent = u32::from(file_word(s, f, layout::FILE_SPENT));
    let held = u32::from(file_word(s, f, layout::FILE_HELD));
    if ample(spent + held, most) {
        return true;
    }
    let writers = u32::from(count_side(s, f, WRITER));
    if spent + held + writers > most {
        return false;
    }
    writers + 1 <= most
}

// Whether the share holds the records that the row says.
#[tactic(auto, unfolding(crate::specs::Rows::geo_at))]
fn held_ok(s: &Segment, blocks: &Blocks, f: usize) -> bool
    requires { (f < files) × (good_geo (geo_at s.now f) ≡ true) }
    ensures { result ≡ sound (geo_at s.now f) (share_at f blocks.now) (file_word s.now f 3) (file_word s.now f 4) (file_word s.now f 5) }
{
    let words = file_word(s, f, layout::FILE_WORDS);
    let ring = Ring {
        factor: file_word(s, f, layout::FILE_FACTOR),
        blocks: file_word(s, f, layout::FILE_BLOCKS),
        block: file_word(s, f, layout::FILE_BLOCK),
        spent: file_word(s, f, layout::FILE_SPENT),
        held: file_word(s, f, layout::FILE_HELD),
    };
    check::sound(share(blocks, f), ring, words)
}

#[tactic(auto, unfolding(crate::specs::Sound::built_ok, crate::specs::Rows::geo_at))]
fn built_ok(s: &Segment, blocks: &Blocks, f: usize) -> bool
    requires { f < files }
    ensures { result ≡ built_ok s.now blocks.now f }
{
    if !rows_ok(s, f) {
        return false;
    }
    if !room_ok(s, f) {
        return false;
    }
    held_ok(s, blocks, f)
}

// Whether file f is sound. A file is built exactly if its R is not 0.
#[tactic(auto, unfolding(crate::specs::Sound::file_ok, crate::specs::Rows::built_at))]
fn file_ok(s: &Segment, blocks: &Blocks, f: usize) -> bool
    requires { f < files }
    ensures { result ≡ file_ok s.now blocks.now f }
{
    if 1 <= file_word(s, f, layout::FILE_WORDS) {
        return built_ok(s, blocks, f);
    }
    unbuilt_ok(s, f)
}

#[tactic(auto, using(crate::proofs::Geometries::files_bad, crate::proofs::Geometries::files_next, crate::proofs::Geometries::files_over))]
pub fn files_ok(s: &Segment, blocks: &Blocks) -> bool
    ensures { result ≡ files_ok s.now blocks.now 0 files }
{
    for f in 0..FILES {
        if !file_ok(s, blocks, f) {
            return false;
        }
    }
    true
}
