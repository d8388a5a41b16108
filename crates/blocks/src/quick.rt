// Fast paths over the records of a block. The geometry gives the end of a record of the full size, and a record without data is its head, so the processor can read
// the next record before this one's head arrives; `next` has to wait for it. proofs/quick/Laws.antt: the plain test accepts these records and goes on after them.
ghost use Rattle.std.specs.Prelude.{◌≡◌, true, ℕ, ◌+◌, ◌-◌, ◌*◌, ◌≤◌, ◌<◌, eqb};
ghost use Rattle.words.specs.Word.{word_at};
ghost use Rattle.rules.specs.Limits.{room_words, share_bytes};
ghost use Rattle.shares.specs.Back.{next};
ghost use Rattle.shares.specs.Laid.{fair, walk};
ghost use Rattle.blocks.specs.Check.{turned};

use kinds::limits::MOST_TYPE;
use kinds::memories::Share;
use kinds::record_types::DATA;
use ring::layout::{FOLLOW, ID, RECORD_HEAD, TYPE};

// The factor that puts one word before another, as one number.
const WORD: u32 = 65536;

// Whether a data record of the full size stands at p and ends at e or before.
#[tactic(auto, unfolding(shares::specs::Laid::fair, shares::specs::Back::next))]
pub fn whole(share: &Share, words: u16, e: usize, p: usize) -> bool
    requires { (e ≤ share_bytes) × (p ≤ share_bytes) × (words ≤ room_words) }
    ensures { result ≡ true → (fair words share.now e p ≡ true) × (next share.now p ≡ p + (6 + 2 * words)) × (p + (6 + 2 * words) ≤ e) }
{
    if p + (RECORD_HEAD + 2 * words as usize) > e {
        return false;
    }
    let head = words::get(share, p) as u32 * WORD + words::get(share, p + TYPE) as u32;
    if head != (FOLLOW + 2 * words) as u32 * WORD + DATA as u32 {
        return false;
    }
    1 <= words::get(share, p + ID)
}

// The word at p with its bytes in the other order: the order in which the processor reads them. It has 64 bits, since in narrower numbers LLVM gathers eight records
// at a time, which is slower where a block has few.
fn two(s: &Share, p: usize) -> u64
    requires { p + 2 ≤ share_bytes }
    ensures { (result ≡ turned (word_at s.now p)) × (word_at s.now p < 65536) }
{
    u64::from(u16::from_le_bytes([s[p], s[p + 1]]))
}

// The two words at p, each with its bytes in the other order, as one number: the compiler makes one load of it.
fn four(s: &Share, p: usize) -> u64
    requires { p + 4 ≤ share_bytes }
    ensures value { result ≡ turned (word_at s.now p) + turned (word_at s.now (p + 2)) * 65536 }
    ensures ranges { (word_at s.now p < 65536) × (word_at s.now (p + 2) < 65536) }
{
    u64::from(u32::from_le_bytes([s[p], s[p + 1], s[p + 2], s[p + 3]]))
}

// Whether n data records of the full size follow each other from `at`. The loop has no exit in its middle: it takes the `or` of all differences and the least ID.
pub fn all_whole(share: &Share, words: u16, at: usize, n: usize) -> bool
    requires { (at + n * (6 + 2 * words) ≤ share_bytes) × (words ≤ room_words) }
    ensures { result ≡ true → (e end : ℕ) → at + n * (6 + 2 * words) ≤ e → walk words share.now e end at n ≡ eqb (at + n * (6 + 2 * words)) end }
{
    let head = u64::from((FOLLOW + 2 * words).swap_bytes());
    let size = RECORD_HEAD + 2 * words as usize;
    let mut p = at;
    let mut all: u64 = 0;
    let mut least: u64 = 65535;
    for _ in 0..n {
        all |= four(share, p) ^ head;
        least = least.min(two(share, p + ID));
        p += size;
    }
    all == 0 && least > 0
}

// Whether a record without data stands at p.
#[tactic(auto, unfolding(shares::specs::Laid::fair, shares::specs::Back::next))]
fn bare(share: &Share, p: usize) -> bool
    requires { p + 6 ≤ share_bytes }
    ensures { result ≡ true → (words e : ℕ) → p + 6 ≤ e → (fair words share.now e p ≡ true) × (next share.now p ≡ p + 6) }
{
    if words::get(share, p) != FOLLOW {
        return false;
    }
    if words::get(share, p + TYPE) > MOST_TYPE {
        return false;
    }
    words::get(share, p + ID) > 0
}

// How many of n records, starting at `at`, have no data, up to the first that has some.
pub fn bare_first(share: &Share, at: usize, n: usize) -> usize
    requires { at + 6 * n ≤ share_bytes }
    ensures { (result ≤ n) × ((words e end : ℕ) → at + 6 * n ≤ e → walk words share.now e end at n ≡ walk words share.now e end (at + 6 * result) (n - result)) }
{
    for k in 0..n {
        if !bare(share, at + RECORD_HEAD * k) {
            return k;
        }
    }
    n
}
