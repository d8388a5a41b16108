// Puts text into lent memory, piece after piece: each function is given the place to begin at, and gives the place where it ended.
#![tactic(auto)]

ghost use Rattle.std.specs.Prelude.{◌≡◌, cond, [], ◌+◌, ◌≤◌, eqb, length};
ghost use Rattle.texts.specs.Numbers.{most_digits, leading, decimal, one_digit, ending, counted};
ghost use Rattle.texts.specs.Put.{Put};

// Kept: `out` and `at` go from function to function and are no type: `Put`, in the contracts here and above, speaks of both.

// The number of digits of a word, and their base.
const DIGITS: usize = 5;

const TEN: u16 = 10;

pub fn put_text(out: &mut [u8], at: usize, text: &[u8]) -> usize
    requires { at + length text.now ≤ length out.old }
    ensures { Put (length text.now) out.old at text.now out.new result }
{
    words::copy(out, at, text);
    at + text.len()
}

// Puts the text if the word is 1, nothing if it is not.
// Kept: the flag is a word, since a narrower parameter would ask more of callers; they pass a row's word as it stands.
pub fn put_if(out: &mut [u8], at: usize, on: u16, text: &[u8]) -> usize
    requires { at + length text.now ≤ length out.old }
    ensures { Put (length text.now) out.old at (cond (eqb on 1) text.now []) out.new result }
{
    if on == 1 { put_text(out, at, text) } else { at }
}

// The number of leading zeros in a word's five digits.
#[tactic(auto, unfolding(crate::specs::Numbers::leading))]
fn leading_zeros(n: u16) -> usize
    ensures { (result ≡ leading n) × (result ≤ 4) }
{
    match n {
        0..=9 => 4,
        10..=99 => 3,
        100..=999 => 2,
        1000..=9999 => 1,
        _ => 0,
    }
}

// A number from 0 to 9 as a digit.
fn digit(n: u16) -> u8
    requires { n ≤ 9 }
    ensures { result ≡ 48 + n }
{
    b'0' + n as u8
}

// Puts a number without leading zeros.
pub fn put_number(out: &mut [u8], at: usize, n: u16) -> usize
    requires { at + most_digits ≤ length out.old }
    ensures { Put most_digits out.old at (decimal n) out.new result }
{
    // Kept: each digit has a place of its own, as in the definition `five_digits`; the edit `hundreds_for_thousands` turns one of them.
    let digits = [
        digit(n / 10000 % TEN),
        digit(n / 1000 % TEN),
        digit(n / 100 % TEN),
        digit(n / 10 % TEN),
        digit(n % TEN),
    ];
    let zeros = leading_zeros(n);
    put_text(out, at, &digits[zeros..DIGITS])
}

// Puts a number below 10.
#[tactic(auto, unfolding(crate::specs::Numbers::one_digit))]
pub fn put_digit(out: &mut [u8], at: usize, n: u16) -> usize
    requires { (at + 1 ≤ length out.old) × (n ≤ 9) }
    ensures { Put 1 out.old at (one_digit n) out.new result }
{
    let digits = [digit(n)];
    put_text(out, at, &digits)
}

// Puts the plural s of a noun, unless n is 1.
#[tactic(auto, unfolding(crate::specs::Numbers::ending))]
fn put_ending(out: &mut [u8], at: usize, n: u16) -> usize
    requires { at + 1 ≤ length out.old }
    ensures { Put 1 out.old at (ending n) out.new result }
{
    if n == 1 { at } else { put_text(out, at, b"s") }
}

// Puts a number and its noun, `1 record` or `2 records`. The noun is lent with the space before it.
pub fn put_counted(out: &mut [u8], at: usize, n: u16, noun: &[u8]) -> usize
    requires { at + (most_digits + (length noun.now + 1)) ≤ length out.old }
    ensures { Put (most_digits + (length noun.now + 1)) out.old at (counted n noun.now) out.new result }
{
    let a = put_number(out, at, n);
    let b = put_text(out, a, noun);
    put_ending(out, b, n)
}
