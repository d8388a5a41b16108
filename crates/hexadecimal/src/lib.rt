// Events, "a hexadecimal frame a line": upper-case digits, two to a byte, the most significant first.
#![tactic(auto)]

ghost use Rattle.std.specs.Prelude.{◌≡◌, true, ◌+◌, ◌*◌, ◌/◌, ◌≤◌, ◌<◌, ltb, length, SomeIff};
ghost use Rattle.std.proofs.lemmas.List.Edits.{sets};
ghost use Rattle.rules.specs.Line.{digit_of, value_of, digits_of, all_digits, bytes_of, is_line, frame_in, line_of};

// The byte that ends a line.
pub const LF: u8 = 10;

const BASE: u8 = 16;

// What the digit A stands for.
const TEN: u8 = 10;

// The number that a digit stands for.
#[tactic(auto, unfolding(rules::specs::Line::value_of))]
fn value(b: u8) -> Option<u8>
    ensures { SomeIff result (value_of b < 16) (value_of b) }
{
    match b {
        b'0'..=b'9' => Some(b - b'0'),
        b'A'..=b'F' => Some(b - b'A' + TEN),
        _ => None,
    }
}

// The digit of a number below the base.
#[tactic(auto, unfolding(rules::specs::Line::digit_of))]
fn digit(n: u8) -> u8
    requires { n < 16 }
    ensures { result ≡ digit_of n }
{
    if n < TEN { b'0' + n } else { b'A' - TEN + n }
}

// Whether the byte is a digit.
pub fn is_digit(b: u8) -> bool
    ensures { result ≡ ltb (value_of b) 16 }
{
    value(b).is_some()
}

// Kept: the loop has no exit in its middle, which `all` has: it takes the `and` of all tests, so that LLVM takes many bytes at a time.
#[tactic(auto, using(crate::proofs::Lines::digits_none, crate::proofs::Lines::digits_more))]
fn all_digits(s: &[u8]) -> bool
    ensures { result ≡ all_digits s.now }
{
    let mut all = true;
    for b in s {
        all &= is_digit(*b);
    }
    all
}

// Whether s, a line without its LF, says a frame of at most `most` bytes.
#[tactic(auto, unfolding(rules::specs::Line::is_line))]
pub fn is_line(s: &[u8], most: usize) -> bool
    ensures { result ≡ is_line most s.now }
{
    let n = s.len();
    n % 2 == 0 && n / 2 <= most && all_digits(s)
}

// The byte that two digits say.
// Kept: both are digits, so the 0 is never taken; `unwrap` would be a branch for each digit, where this is a value to choose.
fn pair(a: u8, b: u8) -> u8
    requires { (value_of a < 16) × (value_of b < 16) }
    ensures { result ≡ value_of a * 16 + value_of b }
{
    let high = value(a).unwrap_or(0);
    let low = value(b).unwrap_or(0);
    high * BASE + low
}

// Writes the bytes that s, all digits, says, starting at the first byte of `out`. An odd digit at the end is left out.
fn fill(s: &[u8], out: &mut [u8])
    requires s_value { all_digits s.now ≡ true }
    requires s_in_bounds { length s.now / 2 ≤ length out.old }
    ensures { out.new ≡ sets out.old 0 (bytes_of s.now) }
{
    for i in 0..s.len() / 2 {
        out[i] = pair(s[2 * i], s[2 * i + 1]);
    }
}

// Writes the frame that the line s says, if it has at most `most` bytes, starting at the first byte of `out`, and gives its length. Any other line is an empty frame.
#[tactic(auto, using(crate::proofs::Lines::decoding))]
pub fn decode(s: &[u8], most: usize, out: &mut [u8]) -> usize
    requires { most ≤ length out.old }
    ensures size { result ≡ length (frame_in most s.now) }
    ensures bytes { out.new ≡ sets out.old 0 (frame_in most s.now) }
    ensures bound { result ≤ most }
{
    if is_line(s, most) {
        fill(s, out);
        s.len() / 2
    } else {
        0
    }
}

// Writes the digits of the frame s, starting at the first byte of `out`, and gives their number.
pub fn encode(s: &[u8], out: &mut [u8]) -> usize
    requires { 2 * length s.now ≤ length out.old }
    ensures size { result ≡ 2 * length s.now }
    ensures bytes { out.new ≡ sets out.old 0 (digits_of s.now) }
{
    for (i, x) in s.iter().enumerate() {
        out[2 * i] = digit(*x / BASE);
        out[2 * i + 1] = digit(*x % BASE);
    }
    2 * s.len()
}

// Writes the bytes as a line at `used` of the output, and gives the place after it.
pub fn line(bytes: &[u8], out: &mut [u8], used: usize) -> usize
    requires { used + (2 * length bytes.now + 1) ≤ length out.old }
    ensures end { result ≡ used + (2 * length bytes.now + 1) }
    ensures printed { out.new ≡ sets out.old used (line_of bytes.now) }
{
    let end = used + encode(bytes, &mut out[used..]);
    out[end] = LF;
    end + 1
}
