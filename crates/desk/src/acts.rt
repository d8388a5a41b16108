// Does an accepted event. The acting functions cannot refuse.
ghost use Rattle.std.specs.Prelude.{◌≡◌};
ghost use Rattle.rules.specs.Desk as rules;
ghost use Rattle.memory.specs.Memories.{lent, was, left};
ghost use Rattle.desk.specs.Acted.{EventLent, Unrefused, Acting};

use closing::close;
use controls::control;
use file_counts::counts;
use kinds::limits::WRITE_HEAD;
use kinds::memories::{Blocks, Buffers};
use kinds::{Answer, Event};
use opening::{build, open};
use segment::Segment;
use timeouts::pass_time;
use transfers::{DataAnswer, collect, read, write};

// An answer with no data after it.
fn plain(answer: Answer) -> DataAnswer
    ensures { result ≡ record { answer = answer; size = 0 } }
{
    DataAnswer { answer, size: 0 }
}

// Does an accepted event and gives its answer. A record's data, if there are any, go into the answer memory where the answer's own bytes will end.
pub fn act(
    segment: &mut Segment,
    blocks: &mut Blocks,
    buffers: &mut Buffers,
    answer: &mut [u8],
    event: Event,
    frame: &[u8],
    purges: bool,
) -> DataAnswer
    requires event_lent { EventLent (lent segment.old blocks.old buffers.old) answer.old «frame».now «event» purges }
    requires unrefused { Unrefused (lent segment.old blocks.old buffers.old) «frame».now }
    ensures { Acting (rules.event «frame».now) (was segment.old blocks.old buffers.old) answer.old (left segment.new blocks.new buffers.new) answer.new result.answer result.size }
{
    match event {
        Event::Build {
            file,
            words,
            factor,
            records,
            extents,
        } => plain(build(
            segment,
            blocks,
            buffers,
            file as usize,
            words,
            factor,
            records,
            extents,
        )),
        Event::Open {
            file,
            access,
            share,
            multi,
        } => plain(open(
            segment,
            blocks,
            buffers,
            file as usize,
            access,
            share,
            multi,
            purges,
        )),
        Event::Read { file, acc, count } => read(
            segment,
            blocks,
            buffers,
            answer,
            file as usize,
            acc as usize,
            count,
        ),
        Event::Write { file, acc, count } => plain(write(
            segment,
            blocks,
            buffers,
            file as usize,
            acc as usize,
            count,
            &frame[WRITE_HEAD..],
        )),
        Event::Control {
            file,
            acc,
            control: asked,
        } => plain(control(segment, buffers, file as usize, acc as usize, asked)),
        Event::Collect { file, acc } => collect(
            segment,
            buffers,
            answer,
            file as usize,
            acc as usize,
        ),
        Event::Close { file, acc } => plain(close(
            segment,
            blocks,
            buffers,
            file as usize,
            acc as usize,
        )),
        Event::Time { seconds } => {
            pass_time(segment, buffers, seconds);
            plain(Answer::Passed)
        }
        Event::Counts { file } => plain(counts(segment, blocks, file as usize)),
    }
}
