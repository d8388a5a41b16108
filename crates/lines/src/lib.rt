// Sends a line of hexadecimal digits to the desk, and writes the answer as a line.
#![tactic(auto)]

mod filling;

ghost use Rattle.std.specs.Prelude.{◌+◌, ◌≤◌, ◌<◌, length};
ghost use Rattle.lines.specs.Asked.{Asked, answer_line};
ghost use Rattle.memory.specs.Memories.{was, left};

pub use filling::Filled;
use kinds::limits::{ANSWER_ROOM, LINE_BYTES};

// The longest line of output: the digits of the longest answer, and LF.
pub const ANSWER_LINE: usize = 2 * ANSWER_ROOM + 1;

// Answers a line, given without its LF: writes the answer as a line at `used` of the output, and gives the place after it.
pub fn answer_line(
    segment: &mut [u8],
    blocks: &mut [u8],
    buffers: &mut [u8],
    line: &[u8],
    out: &mut [u8],
    used: usize,
) -> usize
    requires { used + answer_line ≤ length out.old }
    ensures bound { (used < result) × (result ≤ used + answer_line) }
    ensures asked { Asked (was segment.old blocks.old buffers.old) line.now out.old (left segment.new blocks.new buffers.new) out.new used result }
{
    let mut frame = [0u8; LINE_BYTES];
    let mut answer = [0u8; ANSWER_ROOM];
    let n = hexadecimal::decode(line, LINE_BYTES, &mut frame);
    let size = desk::event(segment, blocks, buffers, &mut answer, &frame[0..n]);
    hexadecimal::line(&answer[0..size], out, used)
}
