// The calls that a host in C makes; include/tendrilhook.h says what they do.
#![tactic(auto)]

ghost use Rattle.promises.specs.Promise.{Promise};
ghost use Rattle.promises.specs.Promise as host;
ghost use Rattle.memory.specs.Memories.{was, left};

use kinds::limits::RECORD_ROOM;
use kinds::refusals;
use kinds::refusals::Refusal;

// Makes one event call and gives the answer's length; 0 if a lent memory has the wrong length or unsound content, and then nothing is written.
#[unsafe(no_mangle)]
pub extern "C" fn tendrilhook_event(
    segment: &mut [u8],
    blocks: &mut [u8],
    buffers: &mut [u8],
    answer: &mut [u8],
    frame: &[u8],
) -> usize
    ensures { Promise (was segment.old blocks.old buffers.old) (host.event answer.old «frame».now) (host.answer result answer.new) (left segment.new blocks.new buffers.new) }
{
    desk::event(segment, blocks, buffers, answer, frame)
}

// Makes a fresh desk and gives the status: 0, or 29 if a length is wrong, and then nothing is written.
#[unsafe(no_mangle)]
pub extern "C" fn tendrilhook_fresh(segment: &mut [u8], blocks: &mut [u8], buffers: &mut [u8]) -> u8
    ensures { Promise (was segment.old blocks.old buffers.old) host.fresh (host.status result) (left segment.new blocks.new buffers.new) }
{
    refusals::status(fresh::fresh(segment, blocks, buffers))
}

// Copies what a reader would get into the record memory; gives the status, and in `length` how many bytes are shown. C is handed no part of a memory.
#[unsafe(no_mangle)]
pub extern "C" fn tendrilhook_look<'a>(
    segment: &[u8],
    blocks: &'a [u8],
    buffers: &'a [u8],
    file: usize,
    reader: usize,
    record: &mut [u8],
    length: &mut usize,
) -> u8
    ensures { Promise (was segment.now blocks.now buffers.now) (host.look file reader «record».old) (host.written result length.new «record».new) (was segment.now blocks.now buffers.now) }
{
    if record.len() != RECORD_ROOM {
        *length = 0;
        return Refusal::Unsound.number();
    }
    let what = looking::shown(segment, blocks, buffers, file, reader);
    let part = looking::part(what, blocks, buffers);
    words::copy(record, 0, part);
    *length = part.len();
    looking::status(what)
}

// Saves a file's sheet; gives the status, and in `length` the sheet's length, 0 if it is refused.
#[unsafe(no_mangle)]
pub extern "C" fn tendrilhook_save(
    segment: &[u8],
    blocks: &[u8],
    buffers: &[u8],
    file: usize,
    output: &mut [u8],
    length: &mut usize,
) -> u8
    ensures { Promise (was segment.now blocks.now buffers.now) (host.save file output.old) (host.written result length.new output.new) (was segment.now blocks.now buffers.now) }
{
    match saving::save(segment, blocks, buffers, file, output) {
        Ok(written) => {
            *length = written;
            0
        }
        Err(refusal) => {
            *length = 0;
            refusal.number()
        }
    }
}

// Builds a file that is not built from a sheet, and gives the status.
#[unsafe(no_mangle)]
pub extern "C" fn tendrilhook_load(
    segment: &mut [u8],
    blocks: &mut [u8],
    buffers: &mut [u8],
    file: usize,
    text: &[u8],
) -> u8
    ensures { Promise (was segment.old blocks.old buffers.old) (host.load file «text».now) (host.status result) (left segment.new blocks.new buffers.new) }
{
    refusals::status(loading::load(segment, blocks, buffers, file, text))
}
