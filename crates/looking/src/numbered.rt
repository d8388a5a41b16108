// What says why a look is refused: a refusal, or the number of one.
ghost use Rattle.std.specs.Prelude.{◌≡◌, ℕ};
ghost use Rattle.kinds.specs.Refusals as refusals;

use kinds::refusals::Refusal;

pub trait Numbered: Copy {
    ghost number: { Self → ℕ };

    // The number, which is the status.
    fn as_number(self) -> u8
        ensures { result ≡ number self };
}

impl Numbered for Refusal {
    ghost number = { refusals.number };

    fn as_number(self) -> u8 {
        Refusal::number(self)
    }
}

impl Numbered for u8 {
    ghost number = { λ n. n };

    fn as_number(self) -> u8 {
        self
    }
}
