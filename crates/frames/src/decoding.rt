// Turns a frame's bytes into what they say.
ghost use Rattle.std.specs.Prelude.{◌≡◌, ◌+◌};
ghost use Rattle.rules.specs.Limits.{write_head};
ghost use Rattle.rules.specs.Frames.{control_frame, of_length, frame_of};
ghost use Rattle.rules.specs.TransferCounts.{count_bytes};

use kinds::limits::WRITE_HEAD;
use kinds::{Control, Event, Frame, operations};
use transfer_counts::count_bytes;

// The codes of the six controls.
const TIMEOUT: u8 = 4;

const VERIFY: u8 = 6;

const ABORT: u8 = 43;

const EXTENDED: u8 = 45;

const TYPED: u8 = 46;

const KEEP: u8 = 47;

#[tactic(auto, unfolding(rules::specs::Frames::control_frame))]
fn control_code(file: u8, acc: u8, code: u8, param: u16) -> Frame
    ensures { result ≡ control_frame file acc code param }
{
    let control = match code {
        TIMEOUT => Control::Timeout(param),
        VERIFY => Control::Verify(param),
        ABORT => Control::Abort(param),
        EXTENDED => Control::Extended(param),
        TYPED => Control::Typed(param),
        KEEP => Control::Keep(param),
        _ => return Frame::Code { file, acc },
    };
    Frame::Event(Event::Control { file, acc, control })
}

// A write, if the frame's data are as long as its count says.
#[tactic(auto, unfolding(rules::specs::Frames::of_length))]
fn write_frame(frame: &[u8], file: u8, acc: u8, count: u16) -> Frame
    ensures { result ≡ of_length (write_head + count_bytes count) frame.now (Frame.Event (Event.Write file acc count)) }
{
    if frame.len() == WRITE_HEAD + count_bytes(count) as usize {
        Frame::Event(Event::Write { file, acc, count })
    } else {
        Frame::Shape
    }
}

// What a frame of any length says. Each pattern is the shape of a kind of frame, as document 01 gives it.
#[tactic(auto, unfolding(rules::specs::Frames::frame_of, rules::specs::Frames::of_length))]
pub fn decode(frame: &[u8]) -> Frame
    ensures { result ≡ frame_of frame.now }
{
    match *frame {
        [operations::BUILD, file, r1, r0, factor, n1, n0, extents] => Frame::Event(Event::Build {
            file,
            words: u16::from_be_bytes([r1, r0]),
            factor,
            records: u16::from_be_bytes([n1, n0]),
            extents,
        }),
        [operations::OPEN, file, access, share, multi] => Frame::Event(Event::Open {
            file,
            access,
            share,
            multi,
        }),
        [operations::READ, file, acc, n1, n0] => Frame::Event(Event::Read {
            file,
            acc,
            count: u16::from_be_bytes([n1, n0]),
        }),
        [operations::WRITE, file, acc, n1, n0, ..] => {
            write_frame(frame, file, acc, u16::from_be_bytes([n1, n0]))
        }
        [operations::CONTROL, file, acc, code, p1, p0] => {
            control_code(file, acc, code, u16::from_be_bytes([p1, p0]))
        }
        [operations::COLLECT, file, acc] => Frame::Event(Event::Collect { file, acc }),
        [operations::CLOSE, file, acc] => Frame::Event(Event::Close { file, acc }),
        [operations::TIME, s1, s0] => Frame::Event(Event::Time {
            seconds: u16::from_be_bytes([s1, s0]),
        }),
        [operations::COUNTS, file] => Frame::Event(Event::Counts { file }),
        _ => Frame::Shape,
    }
}
