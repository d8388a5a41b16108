// The file and the accessor that a call names, as the rows and lists of the segment show them.
#![tactic(auto)]

pub mod outstanding;
pub mod sides;

ghost use Rattle.std.specs.Prelude.{◌≡◌, ◌≢◌, unwrap_or, IfSome};
ghost use Rattle.rules.specs.Open.{sharing_of};
ghost use Rattle.accessors.specs.Accessors.{words_at, accessor_at};

use kinds::Outstanding;
use kinds::limits::{FILES, PLACES};
use kinds::refusals::Refusal;
use kinds::sides::CLOSED;
use outstanding::outstanding_at;
use segment::Segment;

// An open accessor that a call names: its file's R, its side, and what it has outstanding.
#[derive(Clone, Copy)]
pub struct Accessor {
    pub words: u16,
    // Kept: the word of the place's row, and no enum, here and as a parameter: `accessor_of` promises what stands in any memory, sound or not.
    pub side: u16,
    pub request: Outstanding,
}

// The R of the file, if it is built.
#[tactic(auto, unfolding(crate::specs::Accessors::words_at))]
pub fn words_of(segment: &Segment, file: usize) -> Option<u16>
    ensures value { unwrap_or result 0 ≡ words_at segment.now file }
    ensures built { IfSome result (λ w. w ≢ 0) }
{
    if FILES <= file {
        return None;
    }
    let words = segment::read_file(segment, file).words;
    (words != 0).then_some(words)
}

// The accessor that a call names, or the refusal of a file that is not built or of an accessor that is not open.
#[tactic(auto, using(std::proofs::lemmas::Bool::Decides::nat_tests), unfolding(crate::specs::Accessors::words_at, crate::specs::Accessors::accessor_at))]
pub fn accessor_of(segment: &Segment, file: usize, acc: usize) -> Result<Accessor, Refusal>
    ensures { result ≡ accessor_at segment.now file acc }
{
    let words = words_of(segment, file).ok_or(Refusal::File)?;
    if PLACES <= acc {
        return Err(Refusal::Accessor);
    }
    let side = segment::place_side(segment, PLACES * file + acc);
    if side == CLOSED {
        return Err(Refusal::Accessor);
    }
    let request = outstanding_at(segment, file, acc, side);
    Ok(Accessor {
        words,
        side,
        request,
    })
}

// Share 1: one reader and one writer.
pub const SINGLE: u16 = 1;

// "Share 0 counts as 1"
#[tactic(auto, unfolding(rules::specs::Open::sharing_of))]
pub fn sharing_of(share: u8) -> u16
    ensures { result ≡ sharing_of share }
{
    if share == 0 { SINGLE } else { u16::from(share) }
}
