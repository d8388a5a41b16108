// Lets an accessor enter: a reader, or a writer with its open record.
ghost use Rattle.std.specs.Prelude.{◌≡◌, ℕ, ◌+◌, ◌*◌, ◌<◌};
ghost use Rattle.segment.specs.Layout.{place_row_at};
ghost use Rattle.segment.specs.Table.{fill};
ghost use Rattle.segment.specs.Fields.{place_words, file_at};
ghost use Rattle.rules.specs.Limits.{files, places};
ghost use Rattle.rules.specs.Open.{purged, open_reader, open_writer};
ghost use Rattle.ring.specs.Ring.{Ranged};
ghost use Rattle.accessors.specs.Sides.{purges_at};
ghost use Rattle.memory.specs.Memories.{lent, was, left};
ghost use Rattle.midst.specs.File.{file_of_row};
ghost use Rattle.midst.specs.Outcome.{Sound};
ghost use Rattle.opening.specs.Finding.{new_row};
ghost use Rattle.opening.specs.Opens.{Each, Reads, Enters, OpensBy, Takes};

use crate::finding::{free_id, free_place};
use blocks::writing::NewRecord;
use kinds::Answer;
use kinds::limits::PLACES;
use kinds::memories::{Blocks, Buffers};
use kinds::record_types::OPEN;
use kinds::sides::{READER, WRITER};
use midst::{File, take_file};
use segment::{PlaceRow, Segment};
use settling::conclude;
use store::{purge, put};

// Writes the row of an accessor that enters at place `acc` of file f.
fn enter(segment: &mut Segment, f: usize, acc: u8, side: u16, id: u16, share: u16)
    requires { (f < files) × (acc < places) }
    ensures { segment.new ≡ fill segment.old (place_row_at (places * f + acc)) (place_words (new_row side id share)) }
{
    let row = PlaceRow {
        side,
        id,
        share,
        first: 1,
        ..PlaceRow::default()
    };
    segment::write_place(segment, PLACES * f + acc as usize, row);
}

// Takes file f in hand for a writer: access 1 "purges if no accessor is open, else appends". Judging has found which of the two.
fn take(segment: &Segment, f: usize, purges: bool) -> File
    requires { (f < files) × Ranged (file_of_row (file_at segment.now f)).ring }
    ensures { (access : ℕ) → purges ≡ purges_at segment.now f access → Takes access f segment.now result }
{
    let file = take_file(segment, f);
    if !purges {
        return file;
    }
    purge(file)
}

// Opens a reader with this share.
pub fn open_reader(
    segment: &mut Segment,
    blocks: &mut Blocks,
    buffers: &mut Buffers,
    f: usize,
    share: u16,
) -> Answer
    requires { Sound (lent segment.old blocks.old buffers.old) × Each Reads f (lent segment.old blocks.old buffers.old) }
    ensures { OpensBy (open_reader share) f (was segment.old blocks.old buffers.old) (left segment.new blocks.new buffers.new) result }
{
    let acc = free_place(segment, f);
    let file = take_file(segment, f);
    enter(segment, f, acc, READER, 0, share);
    conclude(segment, blocks, buffers, f, file);
    Answer::Opened { acc, id: 0 }
}

// Opens a writer with this share, of any access that writes: "A writer puts an open record".
pub fn open_writer(
    segment: &mut Segment,
    blocks: &mut Blocks,
    buffers: &mut Buffers,
    f: usize,
    share: u16,
    purges: bool,
) -> Answer
    requires { Sound (lent segment.old blocks.old buffers.old) × ((access : ℕ) × Enters access purges f (lent segment.old blocks.old buffers.old)) }
    ensures { (access : ℕ) → Enters access purges f (was segment.old blocks.old buffers.old) → OpensBy (λ b. open_writer share (purged access b)) f (was segment.old blocks.old buffers.old) (left segment.new blocks.new buffers.new) result }
{
    let acc = free_place(segment, f);
    let id = free_id(segment, f);
    let file = take(segment, f, purges);
    let record = NewRecord {
        typ: OPEN,
        wid: id,
        data: &[],
    };
    let written = put(blocks, f, file, record);
    enter(segment, f, acc, WRITER, id, share);
    conclude(segment, blocks, buffers, f, written);
    Answer::Opened { acc, id }
}
