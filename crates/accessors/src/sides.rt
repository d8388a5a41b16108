// The places of a file, counted by their side.
ghost use Rattle.std.specs.Prelude.{◌≡◌, ◌<◌, ◌≤◌};
ghost use Rattle.rules.specs.Limits.{files, places};
ghost use Rattle.accessors.specs.Sides.{count_side};

use kinds::limits::PLACES;
use segment::Segment;

// How many of the eight places of file f have that side.
#[tactic(auto, using(crate::proofs::Turns::sides_more, std::proofs::lemmas::Bool::Decides::nat_tests), unfolding(crate::specs::Sides::sides_from))]
pub fn count_side(segment: &Segment, f: usize, side: u16) -> u16
    requires { f < files }
    ensures { (result ≡ count_side segment.now f side) × (result ≤ places) }
{
    let mut found = 0;
    for p in 0..PLACES {
        if segment::place_side(segment, PLACES * f + p) == side {
            found += 1;
        }
    }
    found
}
