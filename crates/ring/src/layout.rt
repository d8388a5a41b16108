// Positions in a block and in a record, in bytes. The lengths of their heads and the size of a block follow from the geometry.
ghost use Rattle.std.specs.Prelude.{◌≡◌, ◌+◌, ◌≤◌, ◌<◌};
ghost use Rattle.rules.specs.Limits.{share_bytes};
ghost use Rattle.ring.specs.Ring.{geo, Fitted, span_of};

use crate::Ring;
pub use geometry::BLOCK_HEAD_WORDS;

// A block's head: word 0 records put, word 1 words used with these two.
pub const USED: usize = 2;

pub const BLOCK_HEAD: usize = 2 * BLOCK_HEAD_WORDS as usize;

// A record: a word with the bytes that follow, its type, the writer's ID, and data.
pub const TYPE: usize = 2;

pub const ID: usize = 4;

pub const RECORD_HEAD_WORDS: usize = geometry::RECORD_HEAD_WORDS as usize;

pub const RECORD_HEAD: usize = 2 * RECORD_HEAD_WORDS;

// The bytes that a record's first word counts before the data: those of type and ID.
pub const FOLLOW: u16 = (RECORD_HEAD - TYPE) as u16;

// A block's bytes in the share: where they begin, and how many there are.
#[derive(Clone, Copy)]
pub struct Span {
    pub at: usize,
    pub size: usize,
}

#[tactic(auto, unfolding(rules::specs::Store::block_bytes))]
pub fn block_span(ring: Ring, words: u16, block: u16) -> Span
    requires { Fitted words ring × (block < ring.blocks) }
    ensures value { result ≡ span_of (geo words ring) block }
    ensures inside { (4 ≤ result.size) × (result.at + result.size ≤ share_bytes) }
{
    let size = 2 * geometry::block_size(words, ring.factor as u8) as usize;
    Span {
        at: block as usize * size,
        size,
    }
}
