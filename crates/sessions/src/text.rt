// Bytes of a text, read and written.
ghost use Rattle.std.specs.Prelude.{◌-◌, ◌≤◌, length};

use lines::Filled;

// One more than the largest word. A number above it is not read further.
pub const WORDS: usize = 65536;

// The text before the first b, and the text after it. If there is no b, these are all of it and nothing.
pub fn split(text: &[u8], b: u8) -> (&[u8], &[u8])
    ensures { length result.1.now ≤ length text.now - 1 }
{
    match text.iter().position(|x| *x == b) {
        Some(i) => (&text[..i], &text[i + 1..]),
        None => (text, &[]),
    }
}

// The text from a place on: nothing if it ends before.
pub fn from(text: &[u8], place: usize) -> &[u8] {
    text.get(place..).unwrap_or(&[])
}

// The number of the digits that the text begins with.
pub fn number(text: &[u8]) -> usize {
    let mut n = 0;
    for b in text {
        if !b.is_ascii_digit() || n > WORDS {
            break;
        }
        n = 10 * n + usize::from(b - b'0');
    }
    n
}

// Writes the two digits of a byte, as far as there is room.
// Kept: the digits are put by `hexadecimal`, and not printed by `write!`, which takes more instructions.
pub fn put_byte<const N: usize>(out: &mut Filled<N>, byte: u8) {
    let mut digits = [0u8; 2];
    hexadecimal::encode(&[byte], &mut digits);
    for digit in digits {
        out.push(digit);
    }
}

// Writes bytes, with `new` for each `old`, as far as there is room.
pub fn put_replaced<const N: usize>(out: &mut Filled<N>, bytes: &[u8], old: u8, new: u8) {
    for b in bytes {
        out.push(if *b == old { new } else { *b });
    }
}
