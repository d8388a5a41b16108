// Puts a number into lent memory in decimal digits, from the last to the first.
ghost use Rattle.std.specs.Prelude.{◌+◌, ◌*◌, ◌≤◌, ◌<◌, length};
ghost use Rattle.texts.specs.Put.{Put};
ghost use Rattle.faults.specs.Decimals.{tens, most_places, decimal};

const TEN: u64 = 10;

// How many digits follow the first one of n.
fn after_first(n: u64) -> usize
    ensures { (result < most_places) × (0 < result → tens result ≤ n) × (n < 10 * tens result) }
{
    n.checked_ilog10().unwrap_or(0) as usize
}

// Puts n in decimal digits at `at`, and gives the place after them.
pub fn put_decimal(out: &mut [u8], at: usize, n: u64) -> usize
    requires { at + most_places ≤ length out.old }
    ensures { Put most_places out.old at (decimal n) out.new result }
{
    let places = after_first(n) + 1;
    let mut rest = n;
    for k in (0..places).rev() {
        out[at + k] = b'0' + (rest % TEN) as u8;
        rest /= TEN;
    }
    at + places
}
