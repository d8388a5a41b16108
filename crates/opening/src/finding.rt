// Searches the rows of a file's places for a free place, and for an ID that no open writer holds.
ghost use Rattle.std.specs.Prelude.{◌≡◌, ◌≤◌, ◌<◌};
ghost use Rattle.rules.specs.Limits.{files, places};
ghost use Rattle.opening.specs.Finding.{free_place, row_holds, id_held, next_id};

use kinds::limits::PLACES;
use kinds::sides::{CLOSED, WRITER};
use segment::{PlaceRow, Segment};

// "Accessor: the smallest free place."
pub fn free_place(segment: &Segment, f: usize) -> u8
    requires { f < files }
    ensures { (result ≡ free_place segment.now f) × (result ≤ places) }
{
    for place in 0..PLACES as u8 {
        if segment::place_side(segment, PLACES * f + place as usize) == CLOSED {
            return place;
        }
    }
    PLACES as u8
}

// Whether the row is that of a writer with the ID.
fn row_holds(row: PlaceRow, id: u16) -> bool
    ensures { result ≡ row_holds id row }
{
    row.side == WRITER && row.id == id
}

// Whether an open writer of file f holds the ID.
fn id_held(segment: &Segment, f: usize, id: u16) -> bool
    requires { f < files }
    ensures { result ≡ id_held segment.now f id }
{
    (0..PLACES).any(|p| row_holds(segment::read_place(segment, PLACES * f + p), id))
}

// "Writer ID: the smallest number from 1 that no open writer of the file holds": with eight places eight turns are enough.
pub fn free_id(segment: &Segment, f: usize) -> u16
    requires { f < files }
    ensures { result ≡ next_id segment.now f }
{
    for id in 1..=PLACES as u16 {
        if !id_held(segment, f, id) {
            return id;
        }
    }
    PLACES as u16 + 1
}
