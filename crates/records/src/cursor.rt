// The one walk over held records. A cursor is a ring and the place of its oldest record, the record under the cursor. A step leads to the ring without that record.
// `AtRecord` (specs/Cursor.antt) is the invariant: `first` establishes it, `next` keeps it.
ghost use Rattle.std.specs.Prelude.{◌≡◌, ℕ, ◌+◌, ◌*◌, ◌≤◌, ◌<◌, eqb, length};
ghost use Rattle.words.specs.Word.{word_at};
ghost use Rattle.rules.specs.Limits.{share_bytes};
ghost use Rattle.shares.specs.Places.{skip};
ghost use Rattle.ring.specs.Ring.{advanced};
ghost use Rattle.ring.specs.Held.{Held};
ghost use Rattle.records.specs.Cursor.{Behind, AtRecord};

use crate::reading::next;
use ring::Ring;
use ring::layout::{
    BLOCK_HEAD, BLOCK_HEAD_WORDS, RECORD_HEAD, RECORD_HEAD_WORDS, USED, block_span,
};

// A cursor. The records still to go are those that its ring holds; past the last record it holds none.
#[derive(Clone, Copy)]
pub struct Cursor {
    pub ring: Ring,
    pub at: usize,
}

// The place n records after `at`, in a block that ends at some e. The caller knows that these records stand there, so no step tests for one.
fn skip(share: &[u8], at: usize, n: u16) -> usize
    requires { (length share.now ≡ share_bytes) × ((e : ℕ) × (e ≤ share_bytes) × Behind share.now e at n) × (at ≤ share_bytes) }
    ensures { (e : ℕ) → Behind share.now e at n → result ≡ skip share.now e at n }
{
    let mut p = at;
    for _ in 0..n {
        p = next(share, p);
    }
    p
}

// Whether all records put into the block that begins at `at` are of the full size, as its words used show.
fn full(share: &[u8], at: usize, words: u16) -> bool
    requires { (at + 4 ≤ length share.now) × (length share.now ≡ share_bytes) }
    ensures { result ≡ eqb (word_at share.now (at + 2)) (2 + word_at share.now at * (words + 3)) }
{
    let count = words::get(share, at) as u64;
    let used = words::get(share, at + USED) as u64;
    used == BLOCK_HEAD_WORDS as u64 + count * (words as u64 + RECORD_HEAD_WORDS as u64)
}

// The cursor at the ring's oldest record, after the spent records of its block. If all records of the block are of the full size, as most often, the place is
// computed and no record is stepped over (`stands-full`, proofs/cursor/Laws.antt).
pub fn first(share: &[u8], ring: Ring, words: u16) -> Cursor
    requires { Held words ring share.now }
    ensures ring { result.ring ≡ ring }
    ensures stands { AtRecord words share.now result }
{
    let block = block_span(ring, words, ring.block);
    if full(share, block.at, words) {
        let each = RECORD_HEAD + 2 * words as usize;
        return Cursor {
            ring,
            at: block.at + BLOCK_HEAD + ring.spent as usize * each,
        };
    }
    let at = skip(share, block.at + BLOCK_HEAD, ring.spent);
    Cursor { ring, at }
}

impl Cursor {
    // Moves one record on: right after this one, or to the start of the next block.
    pub fn next(self, share: &[u8], words: u16) -> Cursor
        requires { AtRecord words share.now self × (0 < self.ring.held) }
        ensures ring { result.ring ≡ advanced self.ring }
        ensures stands { AtRecord words share.now result }
    {
        let ring = self.ring.advanced();
        if ring.spent == 0 {
            let block = block_span(ring, words, ring.block);
            return Cursor {
                ring,
                at: block.at + BLOCK_HEAD,
            };
        }
        Cursor {
            ring,
            at: next(share, self.at),
        }
    }
}
