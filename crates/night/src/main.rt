// night < SESSION: sends the frames of standard input, one hexadecimal line each, to a fresh desk, and prints its board.
// night SEGMENT BLOCKS BUFFERS: prints the board of the three memories that a host has dumped into these files.
#![tactic(auto)]

use arguments::{bytes_named, is_given, refused};
use board::BOARD_ROOM;
use kinds::limits::{BLOCKS_BYTES, BUFFERS_BYTES};
use segment::layout::SEGMENT_BYTES;
use serving::serve;
use std::io::Write;

fn print_board<O: Write, E: Write>(
    output: &mut O,
    errors: &mut E,
    segment: &[u8],
    blocks: &[u8],
    buffers: &[u8],
) {
    let mut text = [0u8; BOARD_ROOM];
    match board::board(segment, blocks, buffers, &mut text) {
        Ok(n) => {
            if output.write_all(&text[..n]).is_err() {
                let _ = errors.write_all(b"standard output cannot be written: the board is lost\n");
            }
        }
        Err(refusal) => refused(
            errors,
            b"these are not the memories of a desk",
            refusal.number(),
        ),
    }
}

fn of_session(rt: &HostRuntime) {
    let mut segment = [0u8; SEGMENT_BYTES];
    let mut blocks = [0u8; BLOCKS_BYTES];
    let mut buffers = [0u8; BUFFERS_BYTES];
    let mut output = rt.stdout();
    let mut errors = rt.stderr();
    let _ = fresh::fresh(&mut segment, &mut blocks, &mut buffers);
    let _ = serve(
        &mut rt.stdin(),
        &mut output,
        &mut errors,
        &mut segment,
        &mut blocks,
        &mut buffers,
        false,
    );
    print_board(&mut output, &mut errors, &segment, &blocks, &buffers);
}

// Prints the board of the three named files. Asks for one byte more than each memory has, so that a file that is too long is noticed.
fn of_files(rt: &HostRuntime) {
    let mut segment = [0u8; SEGMENT_BYTES + 1];
    let mut blocks = [0u8; BLOCKS_BYTES + 1];
    let mut buffers = [0u8; BUFFERS_BYTES + 1];
    let mut errors = rt.stderr();
    let Some(a) = bytes_named(rt, &mut errors, 1, &mut segment) else {
        return;
    };
    let Some(b) = bytes_named(rt, &mut errors, 2, &mut blocks) else {
        return;
    };
    let Some(c) = bytes_named(rt, &mut errors, 3, &mut buffers) else {
        return;
    };
    print_board(
        &mut rt.stdout(),
        &mut errors,
        &segment[..a],
        &blocks[..b],
        &buffers[..c],
    );
}

// Whether the command names three files, and nothing more.
fn names_files(rt: &HostRuntime) -> bool {
    is_given(rt, 3) && !is_given(rt, 4)
}

fn main(rt: HostRuntime) {
    if names_files(&rt) {
        of_files(&rt);
    } else {
        of_session(&rt);
    }
}
