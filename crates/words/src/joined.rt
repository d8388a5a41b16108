// Two, four and eight bytes as one number, low byte first. The compiler makes one load of a sum of shifted bytes, and not a load and a test for each.
// `join-two`, `join-four` and `join-eight` (proofs/Joins.antt): the number is 0 exactly if all its bytes are. The laws of proofs/Led.antt: if the number is n
// times the weight of one byte, that byte is n and the others are zero. Divided by 65536, it is the number of the bytes after the first two.
// Kept: `from_le_bytes` would list two, four and eight places, and its sum has no halves; each clause here follows from those of the two halves.
ghost use Rattle.std.specs.Prelude.{◌≡◌, ℕ, ◌+◌, ◌*◌, ◌/◌, ◌≤◌, ◌<◌, eqb, length};
ghost use Rattle.words.specs.Word.{quiet};
ghost use Rattle.words.specs.Led.{Led, Lone};

pub fn broad(x: u8) -> u64
    ensures { (result ≡ x) × (result < 256) }
{
    x as u64
}

pub fn two(s: &[u8], p: usize) -> u64
    requires { p + 2 ≤ length s.now }
    ensures { (eqb result 0 ≡ quiet s.now p 2) × (result < 65536) × ((n : ℕ) → result ≡ n * 256 → Led s.now p n 0) }
{
    broad(s[p]) + broad(s[p + 1]) * 256
}

pub fn four(s: &[u8], p: usize) -> u64
    requires { p + 4 ≤ length s.now }
    ensures { (eqb result 0 ≡ quiet s.now p 4) × (result < 4294967296) × ((n : ℕ) → n < 256 → result ≡ n * 256 → Led s.now p n 2) × ((n : ℕ) → result ≡ n * 16777216 → Lone s.now p 2 n 0) × (eqb (result / 65536) 0 ≡ quiet s.now (p + 2) 2) }
{
    two(s, p) + two(s, p + 2) * 65536
}

pub fn eight(s: &[u8], p: usize) -> u64
    requires { p + 8 ≤ length s.now }
    ensures { (eqb result 0 ≡ quiet s.now p 8) × ((n : ℕ) → n < 256 → result ≡ n * 256 → Led s.now p n 6) × ((n : ℕ) → n < 256 → result ≡ n * 1099511627776 → Lone s.now p 4 n 2) × ((n : ℕ) → result ≡ n * 72057594037927936 → Lone s.now p 6 n 0) × (eqb (result / 65536) 0 ≡ quiet s.now (p + 2) 6) }
{
    four(s, p) + four(s, p + 4) * 4294967296
}
