// Build and open. The call has been judged and is not refused; here it is done.
#![tactic(auto)]

ghost use Rattle.std.specs.Prelude.{◌≡◌};
ghost use Rattle.rules.specs.Calls as calls;
ghost use Rattle.memory.specs.Memories.{lent, was, left};
ghost use Rattle.accessors.specs.Sides.{purges_at};
ghost use Rattle.midst.specs.Outcome.{Sound, Accepted, Does};

mod entering;
mod finding;

use accessors::sharing_of;
use blocks::by_file::clear;
use entering::{open_reader, open_writer};
use geometry::{capacity, data_blocks};
use kinds::Answer;
use kinds::limits::{BUFFER_BYTES, PLACES};
use kinds::memories::{Blocks, Buffers};
use segment::{FileRow, Segment};
use words::bytes::known;

// "Access 0 reads".
const READS: u8 = 0;

// The bytes of a file's record buffers.
pub const FILE_BUFFERS: usize = PLACES * BUFFER_BYTES;

// Builds file f. "Build and load zero the share"; the buffers are zeroed too, since nothing is known of them before.
pub fn build(
    segment: &mut Segment,
    blocks: &mut Blocks,
    buffers: &mut Buffers,
    f: usize,
    words: u16,
    factor: u8,
    records: u16,
    extents: u8,
) -> Answer
    requires { Sound (lent segment.old blocks.old buffers.old) × Accepted f (calls.build words factor records extents) (lent segment.old blocks.old buffers.old) }
    ensures { Does f (calls.build words factor records extents) (was segment.old blocks.old buffers.old) (left segment.new blocks.new buffers.new) result }
{
    let count = data_blocks(records, factor, extents);
    let row = FileRow {
        words,
        factor: factor as u16,
        blocks: count,
        ..FileRow::default()
    };
    clear(blocks, f);
    words::zero(buffers, FILE_BUFFERS * f, FILE_BUFFERS);
    segment::write_file(segment, f, row);
    known(segment);
    known(blocks);
    known(buffers);
    let room = capacity(factor, count) as u16;
    Answer::Built { capacity: room }
}

// Opens an accessor of file f: access 0 reads, any other writes. Judging has found whether it purges. Multiaccess has been judged too, and has no effect here.
pub fn open(
    segment: &mut Segment,
    blocks: &mut Blocks,
    buffers: &mut Buffers,
    f: usize,
    access: u8,
    share: u8,
    multi: u8,
    purges: bool,
) -> Answer
    requires sound { Sound (lent segment.old blocks.old buffers.old) × Accepted f (calls.opens access share multi) (lent segment.old blocks.old buffers.old) }
    requires purges_value { purges ≡ purges_at segment.old f access }
    ensures { Does f (calls.opens access share multi) (was segment.old blocks.old buffers.old) (left segment.new blocks.new buffers.new) result }
{
    let given = sharing_of(share);
    if access == READS {
        return open_reader(segment, blocks, buffers, f, given);
    }
    open_writer(segment, blocks, buffers, f, given, purges)
}
