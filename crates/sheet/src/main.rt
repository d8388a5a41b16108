// sheet FILE [SHEET] < SESSION: sends the frames of standard input, one hexadecimal line each, to a fresh desk, with FILE loaded from SHEET if one is
// named; then prints the sheet of FILE.
#![tactic(auto)]

use arguments::{Named, TEXT_BYTES, arguments, refused};
use kinds::limits::{BLOCKS_BYTES, BUFFERS_BYTES};
use saving::SHEET_ROOM;
use segment::layout::SEGMENT_BYTES;
use serving::serve;
use std::io::Write;

fn print_sheet<O: Write, E: Write>(
    output: &mut O,
    errors: &mut E,
    segment: &[u8],
    blocks: &[u8],
    buffers: &[u8],
    file: usize,
) {
    let mut sheet = [0u8; SHEET_ROOM];
    match saving::save(segment, blocks, buffers, file, &mut sheet) {
        Ok(n) => {
            if output.write_all(&sheet[..n]).is_err() {
                let _ = errors.write_all(b"standard output cannot be written: the sheet is lost\n");
            }
        }
        Err(refusal) => refused(errors, b"FILE is not built", refusal.number()),
    }
}

fn main(rt: HostRuntime) {
    let mut segment = [0u8; SEGMENT_BYTES];
    let mut blocks = [0u8; BLOCKS_BYTES];
    let mut buffers = [0u8; BUFFERS_BYTES];
    let mut text = [0u8; TEXT_BYTES];
    let mut output = rt.stdout();
    let mut errors = rt.stderr();
    let Some(Named { file, sheet }) = arguments(&rt, &mut errors, &mut text) else {
        return;
    };
    let _ = fresh::fresh(&mut segment, &mut blocks, &mut buffers);
    if let Some(n) = sheet {
        let loaded = loading::load(&mut segment, &mut blocks, &mut buffers, file, &text[..n]);
        if let Err(refusal) = loaded {
            refused(&mut errors, b"SHEET is not a sheet", refusal.number());
            return;
        }
    }
    let _ = serve(
        &mut rt.stdin(),
        &mut output,
        &mut errors,
        &mut segment,
        &mut blocks,
        &mut buffers,
        false,
    );
    print_sheet(&mut output, &mut errors, &segment, &blocks, &buffers, file);
}
