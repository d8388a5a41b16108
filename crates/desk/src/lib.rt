// One event: tests the memories, takes the frame apart, judges the call on shared memory, and only then does it.
#![tactic(auto)]

mod acts;
mod refusals;

ghost use Rattle.std.specs.Prelude.{◌≡◌, ◌≤◌, length};
ghost use Rattle.kinds.specs.Refusals.{refusal_number};
ghost use Rattle.midst.specs.Outcome.{Sound};
ghost use Rattle.rules.specs.Limits.{answer_room};
ghost use Rattle.rules.specs.Desk.{Desk};
ghost use Rattle.rules.specs.Desk as rules;
ghost use Rattle.rules.specs.Allocation.{Alloc};
ghost use Rattle.memory.specs.Memories.{lent, was, left};
ghost use Rattle.memory.specs.Fine.{StandsFor};
ghost use Rattle.promises.specs.Promise.{Promise};
ghost use Rattle.promises.specs.Promise as host;
ghost use Rattle.desk.specs.Acted.{EventLent, Unrefused, Responds};
ghost use Rattle.desk.specs.Refusals.{RefusedWith};

use acts::act;
use frames::{decode, encode};
use judges::judge;
use kinds::limits::ANSWER_ROOM;
use kinds::memories::{Blocks, Buffers};
use kinds::refusals::Refusal;
use kinds::{Event, Frame};
use refusals::{judge_frame, refuse, status};
use segment::Segment;
use sound::{standing, stands};

// Does and answers an accepted event. Judging has found whether it purges.
fn serve(
    segment: &mut Segment,
    blocks: &mut Blocks,
    buffers: &mut Buffers,
    answer: &mut [u8],
    event: Event,
    frame: &[u8],
    purges: bool,
) -> usize
    requires event_lent { EventLent (lent segment.old blocks.old buffers.old) answer.old «frame».now «event» purges }
    requires unrefused { Unrefused (lent segment.old blocks.old buffers.old) «frame».now }
    ensures { (d : Desk) (s : Alloc) → StandsFor (was segment.old blocks.old buffers.old) d s → Responds d s (rules.event «frame».now) (was segment.old blocks.old buffers.old) answer.old (left segment.new blocks.new buffers.new) answer.new result }
{
    let given = act(segment, blocks, buffers, answer, event, frame, purges);
    let told = given.answer;
    encode(told, answer) + given.size as usize
}

// Answers a frame, for memories that stand for a desk.
fn answer_frame(
    segment: &mut Segment,
    blocks: &mut Blocks,
    buffers: &mut Buffers,
    answer: &mut [u8],
    frame: &[u8],
) -> usize
    requires { Sound (lent segment.old blocks.old buffers.old) × (length answer.old ≡ answer_room) }
    ensures { (d : Desk) (s : Alloc) → StandsFor (was segment.old blocks.old buffers.old) d s → Responds d s (rules.event «frame».now) (was segment.old blocks.old buffers.old) answer.old (left segment.new blocks.new buffers.new) answer.new result }
{
    let said = decode(frame);
    let Frame::Event(event) = said else {
        return refuse(segment, said, answer);
    };
    match judge(segment, event) {
        Ok(purges) => serve(segment, blocks, buffers, answer, event, frame, purges),
        Err(refusal) => status(frame[0], refusal.number(), answer),
    }
}

// Answers a frame. The answer starts at the first byte of the answer memory, and its length is the result.
pub fn event(
    segment: &mut [u8],
    blocks: &mut [u8],
    buffers: &mut [u8],
    answer: &mut [u8],
    frame: &[u8],
) -> usize
    ensures promise { Promise (was segment.old blocks.old buffers.old) (host.event answer.old «frame».now) (host.answer result answer.new) (left segment.new blocks.new buffers.new) }
    ensures room { result ≤ answer_room }
{
    if answer.len() != ANSWER_ROOM {
        return 0;
    }
    let Some(words) = segment.as_mut_array() else {
        return 0;
    };
    let Some(shares) = blocks.as_mut_array() else {
        return 0;
    };
    let Some(data) = buffers.as_mut_array() else {
        return 0;
    };
    if !stands(words, shares, data) {
        return 0;
    }
    answer_frame(words, shares, data, answer, frame)
}

// Says whether an event call with this frame would be refused, given answer memory of the right length: 29 if the memories are not a desk.
// Nothing changes.
pub fn refusal_of(
    segment: &[u8],
    blocks: &[u8],
    buffers: &[u8],
    frame: &[u8],
) -> Result<(), Refusal>
    ensures { RefusedWith (was segment.now blocks.now buffers.now) (rules.event «frame».now) (refusal_number result) }
{
    let Some(desk) = standing(segment, blocks, buffers) else {
        return Err(Refusal::Unsound);
    };
    judge_frame(desk.segment, decode(frame))
}
