// Counts as they stand in a frame, 0 to 65,535: "n ≥ 0 is n words, below 0 it is −n bytes."
#![tactic(auto)]

ghost use Rattle.std.specs.Prelude.{◌≡◌, ◌≤◌};
ghost use Rattle.rules.specs.TransferCounts.{in_words, count_bytes, readable, log_of};

use kinds::limits::{MOST_READ_BYTES, MOST_READ_WORDS};

// The first word that is a count below 0, and the number from which such a word is subtracted to give −n. The difference is taken in 32 bits: −32,768 has no
// 16-bit negative.
const LEAST: u16 = 32768;

const TURN: u32 = 65536;

#[tactic(auto, unfolding(rules::specs::TransferCounts::in_words))]
pub fn in_words(count: u16) -> bool
    ensures { result ≡ in_words count }
{
    count < LEAST
}

// The number of bytes that a count asks for.
#[tactic(auto, unfolding(rules::specs::TransferCounts::in_words, rules::specs::TransferCounts::count_bytes))]
pub fn count_bytes(count: u16) -> u32
    ensures value { result ≡ count_bytes count }
    ensures bound { result ≤ 65534 }
{
    if in_words(count) {
        2 * count as u32
    } else {
        TURN - count as u32
    }
}

// Whether a read may ask for that count.
#[tactic(auto, unfolding(rules::specs::TransferCounts::readable))]
pub fn readable(count: u16) -> bool
    ensures { result ≡ readable count }
{
    if in_words(count) {
        count <= MOST_READ_WORDS
    } else {
        count_bytes(count) <= MOST_READ_BYTES
    }
}

// The log of n bytes in the unit asked: words, rounded up, or bytes.
// Kept: the flag is what `rules.log_of` takes, and an entry's word for the unit.
#[tactic(auto, unfolding(rules::specs::TransferCounts::log_of))]
pub fn log_of(by_words: bool, n: u16) -> u16
    ensures { result ≡ log_of by_words n }
{
    if by_words { n.div_ceil(2) } else { n }
}
