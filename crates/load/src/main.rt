// load FILE SHEET < SESSION: loads FILE of a fresh desk from SHEET, then answers the frames of standard input as the event program does.
#![tactic(auto)]

use arguments::{Named, TEXT_BYTES, arguments, refused};
use kinds::limits::{BLOCKS_BYTES, BUFFERS_BYTES};
use segment::layout::SEGMENT_BYTES;
use serving::serve;
use std::io::Write;

fn main(rt: HostRuntime) {
    let mut segment = [0u8; SEGMENT_BYTES];
    let mut blocks = [0u8; BLOCKS_BYTES];
    let mut buffers = [0u8; BUFFERS_BYTES];
    let mut text = [0u8; TEXT_BYTES];
    let mut errors = rt.stderr();
    let Some(Named { file, sheet }) = arguments(&rt, &mut errors, &mut text) else {
        return;
    };
    let Some(n) = sheet else {
        let _ = errors.write_all(b"load FILE SHEET < SESSION\n");
        return;
    };
    let _ = fresh::fresh(&mut segment, &mut blocks, &mut buffers);
    let loaded = loading::load(&mut segment, &mut blocks, &mut buffers, file, &text[..n]);
    if let Err(refusal) = loaded {
        refused(&mut errors, b"SHEET is not a sheet", refusal.number());
        return;
    }
    let _ = serve(
        &mut rt.stdin(),
        &mut rt.stdout(),
        &mut errors,
        &mut segment,
        &mut blocks,
        &mut buffers,
        true,
    );
}
