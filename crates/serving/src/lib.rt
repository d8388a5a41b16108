// Sends the frames of standard input, one hexadecimal line each, to a desk; prints their answers, one line each, as they come.
// The caller lends the streams: standard input, output and error.
#![tactic(auto)]

mod feeding;

ghost use Rattle.std.specs.Prelude.{OnOk};
ghost use Rattle.std.specs.Io.KnownBytes.{Appends};
ghost use Rattle.rules.specs.Desk.{Desk};
ghost use Rattle.rules.specs.Allocation.{Alloc};
ghost use Rattle.serving.specs.Going.{Going, begun, goes, written, At};
ghost use Rattle.serving.specs.Served.{Behind, Served, Kept};
ghost use Rattle.serving.specs.Told.{said, answers, Told};
ghost use Rattle.memory.specs.Memories.{was, left};
ghost use Rattle.memory.specs.Fine.{StandsFor};

use feeding::{Answers, Line, feed, finish};
use std::io;
use std::io::{Read, Write};

// The most bytes of input that are read at once.
const IN_BYTES: usize = 65536;

// Why not all of the input was answered.
#[derive(Clone, Copy, PartialEq, Eq)]
pub enum Unserved {
    // A read has failed.
    Unread,

    // A write has failed: answers are lost.
    Unwritten,
}

// Writes bytes, and sees to it that they are not kept back.
fn write_now<O: Write>(output: &mut O, bytes: &[u8]) -> io::Result<()>
    ensures { OnOk result (Appends (O.contents output.old) (O.contents output.new) bytes.now) }
{
    output.write_all(bytes)?;
    output.flush()
}

// Prints answers if the desk is served aloud. Reports a failure on standard error.
fn print<O: Write, E: Write>(
    output: &mut O,
    errors: &mut E,
    aloud: bool,
    answers: &[u8],
) -> Result<(), Unserved>
    ensures { OnOk result (Appends (O.contents output.old) (O.contents output.new) (said aloud answers.now)) }
{
    if !aloud {
        return Ok(());
    }
    match write_now(output, answers) {
        Ok(()) => Ok(()),
        Err(_) => {
            let _ = errors.write_all(b"standard output cannot be written: answers are lost\n");
            Err(Unserved::Unwritten)
        }
    }
}

// Answers a chunk of the input. Writes the answers whenever the output is full, and at the end of the chunk.
fn answer_chunk<O: Write, E: Write>(
    output: &mut O,
    errors: &mut E,
    segment: &mut [u8],
    blocks: &mut [u8],
    buffers: &mut [u8],
    line: &mut Line,
    out: &mut Answers,
    chunk: &[u8],
    aloud: bool,
) -> Result<(), Unserved>
    ensures at { (g : Going) → At (written g) (was segment.old blocks.old buffers.old) line.old.bytes out.old.bytes line.old.len 0 → OnOk result (At (written (goes g chunk.now)) (left segment.new blocks.new buffers.new) line.new.bytes out.new.bytes line.new.len 0) }
    ensures stands { (g : Going) → At (written g) (was segment.old blocks.old buffers.old) line.old.bytes out.old.bytes line.old.len 0 → Behind g (left segment.new blocks.new buffers.new) }
    ensures printed { (g : Going) → At (written g) (was segment.old blocks.old buffers.old) line.old.bytes out.old.bytes line.old.len 0 → OnOk result (Appends (O.contents output.old) (O.contents output.new) (said aloud (answers g chunk.now))) }
    ensures kept { Kept (was segment.old blocks.old buffers.old) (left segment.new blocks.new buffers.new) }
{
    let mut at = 0;
    while at < chunk.len() {
        at += feed(segment, blocks, buffers, line, out, &chunk[at..]);
        print(output, errors, aloud, out.as_slice())?;
    }
    Ok(())
}

// Sends all frames of standard input to the desk, and prints their answers if it is served aloud. A proved loop ends, so it counts its reads to a number that
// no run uses up.
pub fn serve<I: Read, O: Write, E: Write>(
    input: &mut I,
    output: &mut O,
    errors: &mut E,
    segment: &mut [u8],
    blocks: &mut [u8],
    buffers: &mut [u8],
    aloud: bool,
) -> Result<(), Unserved>
    ensures served { Served (was segment.old blocks.old buffers.old) (left segment.new blocks.new buffers.new) }
    ensures kept { Kept (was segment.old blocks.old buffers.old) (left segment.new blocks.new buffers.new) }
    ensures told { OnOk result ((d : Desk) (s : Alloc) → StandsFor (was segment.old blocks.old buffers.old) d s → Told (I.remaining input.old) (I.remaining input.new) (O.contents output.old) (O.contents output.new) aloud (begun d s) (left segment.new blocks.new buffers.new)) }
{
    let mut line = Line::new();
    let mut out = Answers::new();
    let mut chunk = [0u8; IN_BYTES];
    for _ in 0..u64::MAX {
        let Ok(n) = input.read(&mut chunk) else {
            return Err(Unserved::Unread);
        };
        if n == 0 {
            finish(segment, blocks, buffers, &line, &mut out);
            return print(output, errors, aloud, out.as_slice());
        }
        answer_chunk(
            output,
            errors,
            segment,
            blocks,
            buffers,
            &mut line,
            &mut out,
            &chunk[..n],
            aloud,
        )?;
    }
    Err(Unserved::Unread)
}
