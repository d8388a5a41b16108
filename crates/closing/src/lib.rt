// Close: "a waiting request is cancelled; for the last writer, every waiting reader without extended wait, in queue order, completes with status 2;
// then a writer's close record is put." The call has been judged and is not refused.
#![tactic(auto)]

ghost use Rattle.std.specs.Prelude.{◌≡◌};
ghost use Rattle.std.proofs.Math.Option.{some};
ghost use Rattle.rules.specs.State.{idle, Acc, Built};
ghost use Rattle.rules.specs.Requests.{acc_at, put_rec};
ghost use Rattle.rules.specs.Close.{close_rec, last_gone, closed};
ghost use Rattle.rules.specs.Calls as calls;
ghost use Rattle.memory.specs.Memories.{lent, was, left};
ghost use Rattle.memory.specs.Fine.{Fine};
ghost use Rattle.midst.specs.Mid.{Start, Mid};
ghost use Rattle.midst.specs.Outcome.{Sound, Accepted, Does};
ghost use Rattle.midst.proofs.Walks.{Owed};

mod readers;

use blocks::writing::NewRecord;
use controls::waiting::remove;
use kinds::Answer;
use kinds::limits::PLACES;
use kinds::memories::{Blocks, Buffers};
use kinds::record_types::CLOSE;
use kinds::sides::WRITER;
use midst::{File, take_file};
use readers::last_gone;
use segment::{PlaceRow, Segment};
use settling::conclude;
use store::put;

// Ends the waiting readers if the writer that has gone was the last, "then a writer's close record is put".
fn part(
    segment: &mut Segment,
    blocks: &mut Blocks,
    buffers: &mut Buffers,
    f: usize,
    file: File,
    id: u16,
) -> File
    requires { (o : Start) × (b : Built) × Mid (Owed id) f o (lent segment.old blocks.old buffers.old) file b }
    ensures { (o : Start) (b : Built) → Mid (Owed id) f o (was segment.old blocks.old buffers.old) file b → Mid Fine f o (left segment.new blocks.new buffers.new) result (put_rec (close_rec id) (last_gone b)) }
{
    last_gone(segment, buffers, f);
    let record = NewRecord {
        typ: CLOSE,
        wid: id,
        data: &[],
    };
    put(blocks, f, file, record)
}

// Removes the accessor at place acc, which has no request.
fn leave(
    segment: &mut Segment,
    blocks: &mut Blocks,
    buffers: &mut Buffers,
    f: usize,
    acc: usize,
    file: File,
) -> File
    requires { (o : Start) × (b : Built) × (a : Acc) × Mid Fine f o (lent segment.old blocks.old buffers.old) file b × (acc_at b acc ≡ some a) × (a.req ≡ idle) }
    ensures { (o : Start) (b : Built) (a : Acc) → Mid Fine f o (was segment.old blocks.old buffers.old) file b → acc_at b acc ≡ some a → a.req ≡ idle → Mid Fine f o (left segment.new blocks.new buffers.new) result (closed acc a b) }
{
    let place = PLACES * f + acc;
    let row = segment::read_place(segment, place);
    segment::write_place(segment, place, PlaceRow::default());
    if row.side != WRITER {
        return file;
    }
    part(segment, blocks, buffers, f, file, row.id)
}

pub fn close(
    segment: &mut Segment,
    blocks: &mut Blocks,
    buffers: &mut Buffers,
    f: usize,
    acc: usize,
) -> Answer
    requires { Sound (lent segment.old blocks.old buffers.old) × Accepted f (calls.close acc) (lent segment.old blocks.old buffers.old) }
    ensures { Does f (calls.close acc) (was segment.old blocks.old buffers.old) (left segment.new blocks.new buffers.new) result }
{
    let side = segment::place_side(segment, PLACES * f + acc);
    let file = take_file(segment, f);
    remove(segment, buffers, f, acc, side);
    let left = leave(segment, blocks, buffers, f, acc, file);
    conclude(segment, blocks, buffers, f, left);
    Answer::Closed
}
