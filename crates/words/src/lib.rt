// Bytes and 16-bit words in lent memory, high byte first. A place is a byte's index.
#![tactic(auto)]

pub mod bytes;
pub mod joined;

ghost use Rattle.std.specs.Prelude.{◌≡◌, ◌+◌, ◌*◌, ◌≤◌, ◌<◌, length};
ghost use Rattle.std.proofs.lemmas.List.Edits.{sets};
ghost use Rattle.words.specs.Word.{word, word_at, zeros, quiet};

use joined::{eight, four};

// Kept: each function takes a whole memory and a place in it, not a part: `sets` and `quiet`, in the contracts above too, speak of places in the whole.

// The word at a place.
pub fn get(s: &[u8], at: usize) -> u16
    requires { at + 2 ≤ length s.now }
    ensures { result ≡ word_at s.now at }
{
    u16::from_be_bytes([s[at], s[at + 1]])
}

// Stores the word w at a place.
pub fn put(s: &mut [u8], at: usize, w: u16)
    requires { at + 2 ≤ length s.old }
    ensures { s.new ≡ sets s.old at (word w) }
{
    let [high, low] = w.to_be_bytes();
    s[at] = high;
    s[at + 1] = low;
}

// Zeroes n bytes, starting at `at`.
pub fn zero(s: &mut [u8], at: usize, n: usize)
    requires { at + n ≤ length s.old }
    ensures { s.new ≡ sets s.old at (zeros n) }
{
    s[at..at + n].fill(0);
}

// The number of bytes that are copied at once, if there are that many.
const RUN: usize = 16;

const HALF: usize = RUN / 2;

const QUARTER: usize = HALF / 2;

// Stores N bytes by way of a local, which no memory overlaps. LLVM then makes one load and one store of them; from memory to memory it first tests for overlap.
fn store_run<const N: usize>(s: &mut [u8], at: usize, from: &[u8])
    requires { (length from.now ≡ N) × (at + N ≤ length s.old) }
    ensures { s.new ≡ sets s.old at from.now }
{
    let mut run = [0u8; N];
    run.copy_from_slice(from);
    s[at..at + N].copy_from_slice(&run);
}

// Stores the first N bytes and the last N, which may overlap.
fn store_ends<const N: usize>(s: &mut [u8], at: usize, from: &[u8])
    requires { (at + length from.now ≤ length s.old) × (N ≤ length from.now) × (length from.now ≤ 2 * N) }
    ensures { s.new ≡ sets s.old at from.now }
{
    let last = from.len() - N;
    store_run::<N>(s, at, &from[..N]);
    store_run::<N>(s, at + last, &from[last..]);
}

// Stores fewer bytes than a run: two halves or two quarters; at most three bytes go one by one.
fn store_short(s: &mut [u8], at: usize, from: &[u8])
    requires { (at + length from.now ≤ length s.old) × (length from.now ≤ 16) }
    ensures { s.new ≡ sets s.old at from.now }
{
    match from.len() {
        HALF.. => store_ends::<HALF>(s, at, from),
        QUARTER.. => store_ends::<QUARTER>(s, at, from),
        _ => {
            // Kept: `copy_from_slice` of so few bytes is a test for overlap and a call of memcpy, which is slower.
            for (k, b) in from.iter().enumerate() {
                s[at + k] = *b;
            }
        }
    }
}

// Stores all of `from`, starting at `at`. The last run is the end of `from`, over some of the bytes before it: none is left to go alone.
pub fn copy(s: &mut [u8], at: usize, from: &[u8])
    requires { at + length from.now ≤ length s.old }
    ensures { s.new ≡ sets s.old at from.now }
{
    // Kept: one `copy_from_slice` of all, a test for overlap and a call of memcpy, takes twice as long for fewer than 32 bytes.
    let n = from.len();
    if n < RUN {
        store_short(s, at, from);
        return;
    }
    let last = n - RUN;
    for i in (0..last).step_by(RUN) {
        store_run::<RUN>(s, at + i, &from[i..i + RUN]);
    }
    store_run::<RUN>(s, at + last, &from[last..]);
}

// Whether n bytes, starting at `at`, are zero, byte by byte.
fn quiet_bytes(s: &[u8], at: usize, n: usize) -> bool
    requires { at + n ≤ length s.now }
    ensures { result ≡ quiet s.now at n }
{
    s[at..at + n].iter().all(|b| *b == 0)
}

// Whether n bytes, starting at `at`, are zero: fewer than eight.
fn quiet_few(s: &[u8], at: usize, n: usize) -> bool
    requires { (at + n ≤ length s.now) × (n < 8) }
    ensures { result ≡ quiet s.now at n }
{
    if n < 4 {
        return quiet_bytes(s, at, n);
    }
    (four(s, at) | four(s, at + (n - 4))) == 0
}

// Whether n bytes, starting at `at`, are zero: one `or` of them all, eight at a time, with no early exit, so that LLVM takes many bytes at a time. The last eight
// bytes come first, and overlap the others, so that no loop is needed for a remainder.
pub fn quiet(s: &[u8], at: usize, n: usize) -> bool
    requires { at + n ≤ length s.now }
    ensures { result ≡ quiet s.now at n }
{
    if n < 8 {
        return quiet_few(s, at, n);
    }
    let mut all = eight(s, at + (n - 8));
    for k in 0..n / 8 {
        all |= eight(s, at + 8 * k);
    }
    all == 0
}
