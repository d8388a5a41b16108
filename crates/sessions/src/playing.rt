// A text of sessions has at its head the frames and answers by name, as `spelling` reads them, up to the first `=`; then lines:
//     = NAME          a session begins, on a fresh desk
//     - TEXT          a remark
//     ASKED => TOLD   an event, and what it has to be answered, in the words of the head
//     FRAME ANSWER    the same in hexadecimal digits: document 01's own session, and frames that are none; a line that begins with the space has an empty one
//     ? FILE=STATUS FRAME ..         save: the status, and the frames of the sheet
//     + FILE FRAME ..=STATUS         load, of a sheet with these frames
//     @ FILE READER=STATUS BYTES     look: the status, and the bytes shown
// and an empty line, which ends the session. FILE and READER are one digit.
use crate::calls::call;
use crate::judging::{Session, end};
use crate::spelling::{Spelt, spell};
use hexadecimal::LF;
use kinds::limits::{BLOCKS_BYTES, BUFFERS_BYTES};
use segment::layout::SEGMENT_BYTES;
use std::io::Write;

// Plays the sessions of a text.
pub fn play<O: Write>(output: &mut O, text: &[u8]) {
    let mut segment = [0u8; SEGMENT_BYTES];
    let mut blocks = [0u8; BLOCKS_BYTES];
    let mut buffers = [0u8; BUFFERS_BYTES];
    let head = text.iter().position(|b| *b == b'=').unwrap_or(text.len());
    let (forms, lines) = text.split_at(head);
    let mut session = Session::Over;
    for line in lines.split(|b| *b == LF) {
        let mut spelt = Spelt::new();
        spell(forms, line, &mut spelt);
        session = call(
            output,
            &mut segment,
            &mut blocks,
            &mut buffers,
            spelt.as_slice(),
            session,
        );
    }
    end(output, session);
}
