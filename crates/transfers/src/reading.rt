// A read: it is handed a record, or it waits, or it ends. Open and close records at the head go in any case, unless control 46 is on.
ghost use Rattle.std.specs.Prelude.{◌≡◌, ◌≤◌, length};
ghost use Rattle.std.proofs.lemmas.List.Edits.{sets};
ghost use Rattle.rules.specs.Limits.{buffer_bytes, answer_room, answer_head};
ghost use Rattle.kinds.specs.declared.Answer.TheVariants.{Status};
ghost use Rattle.rules.specs.Settle.{handed};
ghost use Rattle.rules.specs.Calls as calls;
ghost use Rattle.shares.specs.Back.{rec_at};
ghost use Rattle.records.specs.Reading.{Readable};
ghost use Rattle.memory.specs.Memories.{lent, was, left};
ghost use Rattle.midst.specs.Outcome.{Sound, Accepted, Gives};

use crate::DataAnswer;
use crate::waiting::{begin_read, may_wait, wait_read};
use blocks::by_file::share;
use kinds::limits::{ANSWER_HEAD, PLACES};
use kinds::memories::{Blocks, Buffers};
use kinds::{Answer, operations, statuses};
use midst::take_file;
use records::fetch::handed;
use segment::Segment;
use settling::{conclude, has_writer, quick_conclude};
use store::fetch;
use transfer_counts::{count_bytes, in_words, log_of};

// Copies what the read is handed of the record at `at` into the answer memory, and gives the number of bytes.
fn give(own: &[u8], answer: &mut [u8], at: usize, typed: bool, limit: u16) -> u16
    requires readable { Readable own.now at × (length answer.old ≡ answer_room) }
    requires at_len_bound { length (handed typed limit (rec_at own.now at)) ≤ buffer_bytes }
    ensures size { result ≡ length (handed typed limit (rec_at own.now at)) }
    ensures answer { answer.new ≡ sets answer.old answer_head (handed typed limit (rec_at own.now at)) }
{
    let bytes = handed(own, at, typed, limit);
    words::copy(answer, ANSWER_HEAD, bytes);
    bytes.len() as u16
}

// The answer to a read that finds nothing: it waits, or it ends.
fn unserved(status: u8) -> DataAnswer
    ensures { result ≡ record { answer = Status 3 status; size = 0 } }
{
    DataAnswer {
        answer: Answer::Status {
            operation: operations::READ,
            status,
        },
        size: 0,
    }
}

// Does a read: it acts, "which fixes" its answer, then the file settles. A read that is served needs only controls 46 and 47 of its accessor's row.
pub fn read(
    segment: &mut Segment,
    blocks: &mut Blocks,
    buffers: &mut Buffers,
    answer: &mut [u8],
    f: usize,
    acc: usize,
    count: u16,
) -> DataAnswer
    requires sound { Sound (lent segment.old blocks.old buffers.old) × Accepted f (calls.read acc count) (lent segment.old blocks.old buffers.old) }
    requires answer_len { length answer.old ≡ answer_room }
    ensures { Gives f (calls.read acc count) (was segment.old blocks.old buffers.old) answer.old (left segment.new blocks.new buffers.new) answer.new result.answer result.size }
{
    let place = PLACES * f + acc;
    let file = take_file(segment, f);
    let typed = segment::place_typed(segment, place) == 1;
    let keep = segment::place_keep(segment, place) == 1;
    let found = fetch(blocks, f, file, typed, keep);
    let by_words = in_words(count);
    let limit = count_bytes(count) as u16;
    if found.got {
        let size = give(share(blocks, f), answer, found.at, typed, limit);
        begin_read(segment, place);
        quick_conclude(segment, blocks, buffers, f, found.file);
        let log = log_of(by_words, size);
        return DataAnswer {
            answer: Answer::Read { log },
            size,
        };
    }
    let row = segment::read_place(segment, place);
    begin_read(segment, place);
    if may_wait(has_writer(segment, f), row) {
        wait_read(
            segment,
            buffers,
            f,
            place,
            row.timeout,
            by_words,
            limit,
            row.keep,
        );
        conclude(segment, blocks, buffers, f, found.file);
        return unserved(statuses::WAITING);
    }
    conclude(segment, blocks, buffers, f, found.file);
    unserved(statuses::END_OF_FILE)
}
