// Control: changes a setting of an accessor, or aborts its request. Nothing settles here, and the file's row stays the same.
#![tactic(auto)]

ghost use Rattle.std.specs.Prelude.{◌≡◌, ℕ, ◌<◌};
ghost use Rattle.std.proofs.Math.Option.{some};
ghost use Rattle.kinds.specs.declared.Control.TheVariants as variant;
ghost use Rattle.rules.specs.Calls as calls;
ghost use Rattle.segment.specs.Layout.{desk_places, place_row_at};
ghost use Rattle.segment.specs.Table.{fill};
ghost use Rattle.segment.specs.Fields.{place_words, place_at};
ghost use Rattle.controls.specs.Changed.{changed_row};
ghost use Rattle.controls.specs.Acts.{Taken, Acts};

pub mod waiting;

use kinds::limits::PLACES;
use kinds::memories::Buffers;
use kinds::{Answer, Control, operations, statuses};
use segment::{PlaceRow, Segment};
use waiting::remove;
use words::bytes::known;

// The row of a place with the control's setting.
#[tactic(auto, unfolding(crate::specs::Changed::changed_row))]
fn changed(row: PlaceRow, asked: Control) -> PlaceRow
    ensures { result ≡ changed_row asked row }
{
    match asked {
        Control::Timeout(v) => PlaceRow { timeout: v, ..row },
        Control::Extended(v) => PlaceRow { extended: v, ..row },
        Control::Typed(v) => PlaceRow { typed: v, ..row },
        Control::Keep(v) => PlaceRow { keep: v, ..row },
        Control::Verify(_) | Control::Abort(_) => row,
    }
}

fn set(segment: &mut Segment, place: usize, asked: Control)
    requires { place < desk_places }
    ensures { segment.new ≡ fill segment.old (place_row_at place) (place_words (changed_row asked (place_at segment.old place))) }
{
    let row = segment::read_place(segment, place);
    segment::write_place(segment, place, changed(row, asked));
}

// "43 removes a waiting request, and nothing is left to collect; on a completed one it answers status 2 and leaves it for collection."
fn abort(segment: &mut Segment, buffers: &mut Buffers, f: usize, acc: usize) -> Answer
    requires { (v : ℕ) × Taken f (calls.control acc (some (variant.Abort v))) segment.old buffers.old }
    ensures { (v : ℕ) → Acts f (calls.control acc (some (variant.Abort v))) segment.old buffers.old segment.new buffers.new result }
{
    let side = segment::place_side(segment, PLACES * f + acc);
    if remove(segment, buffers, f, acc, side) {
        known(segment);
        known(buffers);
        return Answer::Controlled;
    }
    Answer::Status {
        operation: operations::CONTROL,
        status: statuses::END_OF_FILE,
    }
}

pub fn control(
    segment: &mut Segment,
    buffers: &mut Buffers,
    f: usize,
    acc: usize,
    asked: Control,
) -> Answer
    requires { Taken f (calls.control acc (some asked)) segment.old buffers.old }
    ensures { Acts f (calls.control acc (some asked)) segment.old buffers.old segment.new buffers.new result }
{
    if let Control::Abort(_) = asked {
        return abort(segment, buffers, f, acc);
    }
    set(segment, PLACES * f + acc, asked);
    known(segment);
    Answer::Controlled
}
