// Turns bytes of input into bytes of output: the desk answers each line that ends.
ghost use Rattle.std.specs.Prelude.{◌+◌, ◌≤◌, ◌<◌, length, take};
ghost use Rattle.lines.specs.Asked.{answer_line};
ghost use Rattle.serving.specs.Going.{out_bytes, Going, byte, goes, ends, Printed, At};
ghost use Rattle.serving.specs.Served.{Kept};
ghost use Rattle.memory.specs.Memories.{was, left};

use hexadecimal::LF;
use kinds::limits::LINE_BYTES;
use lines::{ANSWER_LINE, Filled, answer_line};

// The most bytes of a line that are kept: one digit more than the longest valid line has. A line that fills it is invalid whatever follows.
const MOST_HELD: usize = 2 * LINE_BYTES + 1;

// The most bytes of output that are written at once.
const OUT_BYTES: usize = 65536;

// The line that is being read, as far as it is kept.
pub type Line = Filled<MOST_HELD>;

// The answers that are to be written.
pub type Answers = Filled<OUT_BYTES>;

// Takes one byte of the input: keeps it, or answers the line that it ends.
fn feed_byte(
    segment: &mut [u8],
    blocks: &mut [u8],
    buffers: &mut [u8],
    line: &mut Line,
    out: &mut Answers,
    b: u8,
)
    requires { out.old.len + answer_line ≤ out_bytes }
    ensures at { (g : Going) → At g (was segment.old blocks.old buffers.old) line.old.bytes out.old.bytes line.old.len out.old.len → At (byte g b) (left segment.new blocks.new buffers.new) line.new.bytes out.new.bytes line.new.len out.new.len }
    ensures kept { Kept (was segment.old blocks.old buffers.old) (left segment.new blocks.new buffers.new) }
{
    if b == LF {
        out.len = answer_line(
            segment,
            blocks,
            buffers,
            line.as_slice(),
            &mut out.bytes,
            out.len,
        );
        line.len = 0;
    } else {
        line.push(b);
    }
}

// Takes the bytes of a chunk, as many as the output has room for, but at least one. Gives how many were taken.
// Kept out of line: in line in the main of `sheet`, its loop took 1.2 times as long for a line that is too long, and 1.6 times for writes of 256 bytes.
#[inline(never)]
pub fn feed(
    segment: &mut [u8],
    blocks: &mut [u8],
    buffers: &mut [u8],
    line: &mut Line,
    out: &mut Answers,
    chunk: &[u8],
) -> usize
    ensures bound { result ≤ length chunk.now }
    ensures some { 0 < length chunk.now → 0 < result }
    ensures at { (g : Going) → At g (was segment.old blocks.old buffers.old) line.old.bytes out.old.bytes line.old.len 0 → At (goes g (take result chunk.now)) (left segment.new blocks.new buffers.new) line.new.bytes out.new.bytes line.new.len out.new.len }
    ensures kept { Kept (was segment.old blocks.old buffers.old) (left segment.new blocks.new buffers.new) }
{
    out.len = 0;
    for (i, b) in chunk.iter().enumerate() {
        if out.len > OUT_BYTES - ANSWER_LINE {
            return i;
        }
        feed_byte(segment, blocks, buffers, line, out, *b);
    }
    chunk.len()
}

// Answers a last line that lacks its LF.
pub fn finish(
    segment: &mut [u8],
    blocks: &mut [u8],
    buffers: &mut [u8],
    line: &Line,
    out: &mut Answers,
)
    ensures printed { (g : Going) → At g (was segment.old blocks.old buffers.old) line.now.bytes out.old.bytes line.now.len 0 → Printed (ends g) (left segment.new blocks.new buffers.new) out.new.bytes out.new.len }
    ensures kept { Kept (was segment.old blocks.old buffers.old) (left segment.new blocks.new buffers.new) }
{
    out.len = 0;
    if line.len == 0 {
        return;
    }
    out.len = answer_line(segment, blocks, buffers, line.as_slice(), &mut out.bytes, 0);
}
