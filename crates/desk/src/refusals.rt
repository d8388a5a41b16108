// Answers a refused call: writes operation and status, and nothing else.
ghost use Rattle.std.specs.Prelude.{List, ℕ, ◌≤◌, length};
ghost use Rattle.rules.specs.Answers.{most_answer};
ghost use Rattle.kinds.specs.Refusals.{refusal_number};
ghost use Rattle.judges.specs.Refused.{Refuses};
ghost use Rattle.rules.specs.Desk.{frame_asks};
ghost use Rattle.midst.specs.Outcome.{SoundSegment};
ghost use Rattle.desk.specs.Refusals.{Twice, Refusal};

use frames::encode;
use judges::control_codes::judge_code;
use judges::judge;
use kinds::{Answer, Frame, operations, refusals};
use segment::Segment;

// The operation in the answer to a frame that is refused with 30: "answer 00 1E"
const NO_EVENT: u8 = 0;

// Writes operation and status. A refused event has its operation repeated.
pub fn status(operation: u8, number: u8, answer: &mut [u8]) -> usize
    requires { most_answer ≤ length answer.old }
    ensures { Twice operation number answer.old answer.new result }
{
    let refusal = Answer::Status {
        operation,
        status: number,
    };
    encode(refusal, answer)
}

// Refuses a frame that is not an event: a control event with an unknown code gets its lowest refusal, any other frame 30.
pub fn refuse(segment: &Segment, said: Frame, answer: &mut [u8]) -> usize
    requires { SoundSegment segment.now × (most_answer ≤ length answer.old) }
    ensures { Refusal segment.now said answer.old answer.new result }
{
    let Frame::Code { file, acc } = said else {
        return status(NO_EVENT, refusals::Refusal::Shape.number(), answer);
    };
    let verdict = judge_code(segment, file, acc);
    status(operations::CONTROL, refusals::status(verdict), answer)
}

// Judges what a frame says. The data of a write do not matter.
pub fn judge_frame(segment: &Segment, said: Frame) -> Result<(), refusals::Refusal>
    requires { SoundSegment segment.now }
    ensures { (t : List ℕ) → Refuses segment.now (frame_asks said t) (refusal_number result) }
{
    match said {
        Frame::Event(event) => {
            judge(segment, event)?;
            Ok(())
        }
        Frame::Code { file, acc } => judge_code(segment, file, acc),
        Frame::Shape => Err(refusals::Refusal::Shape),
    }
}
