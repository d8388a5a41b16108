// The calls that a line in digits makes on the desk.
use crate::judging::{Session, begin, end, judge, parts};
use crate::text::{from, number, put_byte, put_replaced};
use hexadecimal::LF;
use kinds::limits::{BLOCKS_BYTES, BUFFERS_BYTES, RECORD_ROOM};
use kinds::refusals;
use lines::{ANSWER_LINE, Filled, answer_line};
use loading::load;
use looking::{look, look_status};
use saving::{SHEET_ROOM, save};
use segment::layout::SEGMENT_BYTES;
use std::io::Write;

// Where the number of a file stands in a line, and after it that of a reader, or a sheet.
const FILE: usize = 2;

const READER: usize = 4;

const SHEET: usize = 4;

// The digits of the bytes that look shows.
const SHOWN: usize = 2 * RECORD_ROOM;

// Room for the two digits of a status, a space and a sheet.
const TOLD: usize = 2 + 1 + SHEET_ROOM;

// Judges a call that has no frame: it is told a status, and after a space what is given, lines as words.
fn judge_status<O: Write>(
    output: &mut O,
    line: &[u8],
    status: u8,
    given: &[u8],
    session: Session,
) -> Session {
    let mut told = Filled::<TOLD>::new();
    put_byte(&mut told, status);
    if !given.is_empty() {
        told.push(b' ');
        put_replaced(&mut told, given, LF, b' ');
    }
    judge(output, line, told.as_slice(), session)
}

// Saves, `? FILE`: the frames of the sheet are given.
fn call_save<O: Write>(
    output: &mut O,
    segment: &[u8],
    blocks: &[u8],
    buffers: &[u8],
    line: &[u8],
    session: Session,
) -> Session {
    let mut sheet = [0u8; SHEET_ROOM];
    let saved = save(
        segment,
        blocks,
        buffers,
        number(from(line, FILE)),
        &mut sheet,
    );
    match saved {
        Ok(n) => judge_status(output, line, 0, &sheet[..n.saturating_sub(1)], session),
        Err(refusal) => judge_status(output, line, refusal.number(), &[], session),
    }
}

// Looks, `@ FILE READER`: the bytes shown are given.
fn call_look<O: Write>(
    output: &mut O,
    segment: &[u8],
    blocks: &[u8],
    buffers: &[u8],
    line: &[u8],
    session: Session,
) -> Session {
    let mut shown = [0u8; SHOWN];
    let file = number(from(line, FILE));
    let reader = number(from(line, READER));
    let n = hexadecimal::encode(look(segment, blocks, buffers, file, reader), &mut shown);
    let status = refusals::status(look_status(segment, blocks, buffers, file, reader));
    judge_status(output, line, status, &shown[..n], session)
}

// Loads, `+ FILE FRAME ..`: nothing is given.
fn call_load<O: Write>(
    output: &mut O,
    segment: &mut [u8; SEGMENT_BYTES],
    blocks: &mut [u8; BLOCKS_BYTES],
    buffers: &mut [u8; BUFFERS_BYTES],
    line: &[u8],
    session: Session,
) -> Session {
    let (asked, _) = parts(line);
    let mut sheet = Filled::<SHEET_ROOM>::new();
    put_replaced(&mut sheet, from(asked, SHEET), b' ', LF);
    sheet.push(LF);
    let loaded = load(
        segment,
        blocks,
        buffers,
        number(from(line, FILE)),
        sheet.as_slice(),
    );
    judge_status(output, line, refusals::status(loaded), &[], session)
}

// Asks an event: its answer is told.
fn call_event<O: Write>(
    output: &mut O,
    segment: &mut [u8; SEGMENT_BYTES],
    blocks: &mut [u8; BLOCKS_BYTES],
    buffers: &mut [u8; BUFFERS_BYTES],
    line: &[u8],
    session: Session,
) -> Session {
    let (asked, _) = parts(line);
    let mut answer = [0u8; ANSWER_LINE];
    let end = answer_line(segment, blocks, buffers, asked, &mut answer, 0);
    judge(output, line, &answer[..end - 1], session)
}

// Asks what a line in digits asks, by its first byte.
pub fn call<O: Write>(
    output: &mut O,
    segment: &mut [u8; SEGMENT_BYTES],
    blocks: &mut [u8; BLOCKS_BYTES],
    buffers: &mut [u8; BUFFERS_BYTES],
    line: &[u8],
    session: Session,
) -> Session {
    match line.first() {
        None | Some(0) => end(output, session),
        Some(b'-') => session,
        Some(b'=') => {
            let _ = fresh::fresh(segment, blocks, buffers);
            begin(output, line, session)
        }
        Some(b'?') => call_save(output, segment, blocks, buffers, line, session),
        Some(b'+') => call_load(output, segment, blocks, buffers, line, session),
        Some(b'@') => call_look(output, segment, blocks, buffers, line, session),
        Some(_) => call_event(output, segment, blocks, buffers, line, session),
    }
}
