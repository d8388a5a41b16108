// "Collect of a waiting request answers 1; of a completed one its status, and frees it."
ghost use Rattle.std.specs.Prelude.{◌≡◌, List, ℕ, ◌*◌, ◌<◌, length};
ghost use Rattle.words.specs.Word.{Bytes};
ghost use Rattle.segment.specs.Layout.{reply_port, desk_places};
ghost use Rattle.segment.specs.Table.{nth};
ghost use Rattle.rules.specs.Limits.{entries, answer_room};
ghost use Rattle.rules.specs.Calls as calls;
ghost use Rattle.requests.specs.Moves.{collected};
ghost use Rattle.buffers.specs.Buffer.{emptied};
ghost use Rattle.memory.specs.Memories.{memories};
ghost use Rattle.midst.specs.Outcome.{Sound, Accepted};
ghost use Rattle.transfers.specs.Acts.{CollectActs};

use crate::DataAnswer;
use kinds::limits::{ANSWER_HEAD, PLACES};
use kinds::memories::Buffers;
use kinds::{Answer, operations, statuses};
use segment::{Segment, layout};
use words::bytes::known;

// Removes the completed request of a place, and empties the place's buffer.
fn free(segment: &mut Segment, buffers: &mut Buffers, place: usize)
    requires { (place < desk_places) × (nth segment.old (reply_port place) < entries) }
    ensures segment { segment.new ≡ collected segment.old place }
    ensures buffers { buffers.new ≡ emptied place buffers.old }
    ensures bytes { Bytes segment.new × Bytes buffers.new }
{
    buffers::clear_at(buffers, place);
    requests::collect(segment, place as u16);
    known(segment);
    known(buffers);
}

// Collects the request of place acc of file f. The file's row and its share stay as they are.
pub fn collect(
    segment: &mut Segment,
    buffers: &mut Buffers,
    answer: &mut [u8],
    f: usize,
    acc: usize,
) -> DataAnswer
    requires by_index { (blocks : List ℕ) × Sound (memories segment.old blocks buffers.old) × Accepted f (calls.collect acc) (memories segment.old blocks buffers.old) }
    requires answer_len { length answer.old ≡ answer_room }
    ensures { CollectActs f (calls.collect acc) segment.old buffers.old answer.old segment.new buffers.new answer.new result.answer result.size }
{
    let place = PLACES * f + acc;
    let e = segment::get(segment, layout::REPLY_PORTS + place);
    if e >= layout::ENTRIES {
        return DataAnswer {
            answer: Answer::Status {
                operation: operations::COLLECT,
                status: statuses::WAITING,
            },
            size: 0,
        };
    }
    let m = segment::read_entry(segment, e);
    if m.status != 0 {
        free(segment, buffers, place);
        return DataAnswer {
            answer: Answer::Status {
                operation: operations::COLLECT,
                status: m.status as u8,
            },
            size: 0,
        };
    }
    words::copy(
        answer,
        ANSWER_HEAD,
        buffers::lies(buffers, place, m.size as usize),
    );
    free(segment, buffers, place);
    DataAnswer {
        answer: Answer::Collected { log: m.log },
        size: m.size,
    }
}
