// Checks that a share holds a file's records, in one walk over the blocks that hold any. Nothing is changed.
ghost use Rattle.std.specs.Prelude.{◌≡◌, ◌&&◌, ◌||◌, ◌+◌, ◌*◌, ◌≤◌, ◌<◌, ltb, eqb};
ghost use Rattle.words.specs.Word.{word_at};
ghost use Rattle.rules.specs.Limits.{room_words, share_bytes};
ghost use Rattle.shares.specs.Laid.{fair, walk};
ghost use Rattle.shares.specs.Sound.{sweep, sound};
ghost use Rattle.ring.specs.Ring.{geo, Fitted};
ghost use Rattle.blocks.specs.Check.{laid_at};

use crate::quick::{all_whole, bare_first, whole};
use kinds::limits::MOST_TYPE;
use kinds::memories::Share;
use kinds::record_types::DATA;
use records::reading::next;
use ring::layout::{BLOCK_HEAD, FOLLOW, ID, RECORD_HEAD, Span, TYPE, USED, block_span};
use ring::{Ring, wrapped};

// Whether a valid record with at most `words` words of data stands at p and ends at e or before.
#[tactic(auto, unfolding(shares::specs::Laid::fair, shares::specs::Back::next))]
fn fair(share: &Share, words: u16, e: usize, p: usize) -> bool
    requires { (e ≤ share_bytes) × (p ≤ share_bytes) × (words ≤ room_words) }
    ensures { result ≡ fair words share.now e p }
{
    if p + RECORD_HEAD > e {
        return false;
    }
    let follow = words::get(share, p);
    if follow < FOLLOW {
        return false;
    }
    if follow > FOLLOW + 2 * words {
        return false;
    }
    if next(share, p) > e {
        return false;
    }
    let typ = words::get(share, p + TYPE);
    if typ > MOST_TYPE {
        return false;
    }
    if words::get(share, p + ID) < 1 {
        return false;
    }
    if typ != DATA {
        return follow == FOLLOW;
    }
    if follow % 2 == 0 {
        return true;
    }
    share[p + TYPE + follow as usize] == 0
}

// Whether n valid records (`fair`) follow each other from `at`, and the last ends at `end`. No call reads the bytes from there to e, so nothing is asked of them.
fn one_by_one(share: &Share, words: u16, e: usize, end: usize, at: usize, n: usize) -> bool
    requires { (e ≤ share_bytes) × (at ≤ e) × (words ≤ room_words) }
    ensures { result ≡ walk words share.now e end at n }
{
    let mut p = at;
    for _ in 0..n {
        if whole(share, words, e, p) {
            p += RECORD_HEAD + 2 * words as usize;
        } else if fair(share, words, e, p) {
            p = next(share, p);
        } else {
            return false;
        }
    }
    p == end
}

// Answers as `one_by_one` does. Tests all records at once if all can be of the full size. Else it passes the records without data that stand first, such as those of
// writers that opened the file, and tests the rest at once if all of these can be.
fn walk(share: &Share, words: u16, e: usize, end: usize, at: usize, n: usize) -> bool
    requires { (e ≤ share_bytes) × (at + n * (6 + 2 * words) ≤ e) × (words ≤ room_words) }
    ensures { result ≡ walk words share.now e end at n }
{
    let size = RECORD_HEAD + 2 * words as usize;
    if at + n * size == end && all_whole(share, words, at, n) {
        return true;
    }
    let bare = bare_first(share, at, n);
    let from = at + RECORD_HEAD * bare;
    let left = n - bare;
    if from + left * size == end && all_whole(share, words, from, left) {
        return true;
    }
    one_by_one(share, words, e, end, from, left)
}

// Whether the block is laid out as it must be, with `count` records.
#[tactic(auto, unfolding(crate::specs::Check::laid_at))]
fn holds(share: &Share, words: u16, block: Span, count: u16) -> bool
    requires { (4 + count * (6 + 2 * words) ≤ block.size) × (block.at + block.size ≤ share_bytes) × (words ≤ room_words) }
    ensures { result ≡ laid_at words share.now block && eqb (word_at share.now block.at) count }
{
    let at = block.at;
    let n = words::get(share, at);
    if n != count {
        return false;
    }
    let end = at + 2 * words::get(share, at + USED) as usize;
    walk(
        share,
        words,
        at + block.size,
        end,
        at + BLOCK_HEAD,
        count as usize,
    )
}

// Whether the blocks hold the used records, starting at the oldest block, each block full except the last.
fn sweep(share: &Share, ring: Ring, words: u16) -> bool
    requires { Fitted words ring × (ring.block < ring.blocks) }
    ensures { result ≡ sweep (geo words ring) share.now ring.block ring.blocks (ring.spent + ring.held) }
{
    let mut block = ring.block;
    let mut left = ring.spent as u32 + ring.held as u32;
    for _ in 0..ring.blocks {
        if left == 0 {
            return true;
        }
        let count = u32::from(ring.factor).min(left) as u16;
        if !holds(share, words, block_span(ring, words, block), count) {
            return false;
        }
        block = wrapped(ring.blocks, block + 1);
        left -= count as u32;
    }
    left == 0
}

// Whether records of the oldest block are spent only if it still holds others.
fn begun(ring: Ring) -> bool
    ensures { result ≡ eqb ring.spent 0 || (ltb ring.spent ring.factor && ltb 0 ring.held) }
{
    ring.spent == 0 || (ring.spent < ring.factor && 0 < ring.held)
}

// Whether the share holds the records that the ring says, and the ring's numbers are consistent.
#[tactic(auto, unfolding(shares::specs::Sound::sound))]
pub fn sound(share: &Share, ring: Ring, words: u16) -> bool
    requires { Fitted words ring }
    ensures { result ≡ sound (geo words ring) share.now ring.block ring.spent ring.held }
{
    ring.block < ring.blocks && begun(ring) && sweep(share, ring, words)
}
