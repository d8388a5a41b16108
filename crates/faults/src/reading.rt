// Reads a line from its first byte, to the byte that shows that it is no frame.
ghost use Rattle.std.specs.Prelude.{◌≡◌, Some};
ghost use Rattle.faults.specs.Faults.{strange, digits_alone, fault_of};

use hexadecimal::is_digit;
use kinds::limits::LINE_BYTES;

// The most digits of a frame's line.
const MOST_DIGITS: usize = 2 * LINE_BYTES;

// What is wrong with a line: it has no byte; its first byte that is no upper-case digit is a lower-case one, a carriage return, or anything else; it has too many
// digits, or an odd number of them.
#[derive(Clone, Copy)]
pub enum Fault {
    Blank,
    Lower,
    Return,
    Strange,
    Long,
    Odd,
}

// The fault of a line whose first byte that is no digit is b.
#[tactic(auto, unfolding(crate::specs::Faults::strange))]
fn strange_byte(b: u8) -> Option<Fault>
    ensures { result ≡ Some (strange b) }
{
    match b {
        b'\r' => Some(Fault::Return),
        b'a'..=b'f' => Some(Fault::Lower),
        _ => Some(Fault::Strange),
    }
}

// The fault of a line of n digits, if they are not too many.
#[tactic(auto, unfolding(crate::specs::Faults::digits_alone))]
fn of_digits(n: usize) -> Option<Fault>
    ensures { result ≡ digits_alone n }
{
    if n == 0 {
        return Some(Fault::Blank);
    }
    (n % 2 != 0).then_some(Fault::Odd)
}

// The fault of a line, given without its LF. No byte after the first 523 is looked at.
pub fn fault_of(line: &[u8]) -> Option<Fault>
    ensures { result ≡ fault_of line.now }
{
    for (i, b) in line.iter().enumerate() {
        if !is_digit(*b) {
            return strange_byte(*b);
        }
        if i >= MOST_DIGITS {
            return Some(Fault::Long);
        }
    }
    of_digits(line.len())
}
