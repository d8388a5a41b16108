// Fast path for a file with room for more records than it has places: its writers need not be counted, which saves reading eight rows. `room-ample`
// (proofs/quick/Ample.antt): the plain test then holds, whoever is open.
ghost use Rattle.std.specs.Prelude.{◌≡◌, true, ◌&&◌, List, ℕ, ◌+◌, leb};
ghost use Rattle.accessors.specs.Sides.{count_side};

use kinds::limits::PLACES;

// Room for a close record at each place, and for one more record.
const AMPLE: u32 = PLACES as u32 + 1;

pub fn ample(used: u32, most: u32) -> bool
    ensures { result ≡ true → (s : List ℕ) (f : ℕ) → (leb (used + count_side s f 2) most && leb (count_side s f 2 + 1) most) ≡ true }
{
    if most < AMPLE {
        return false;
    }
    used <= most - AMPLE
}
