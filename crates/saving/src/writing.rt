// A file's sheet: gives its length, and writes its lines into the output.
ghost use Rattle.std.specs.Prelude.{◌≡◌, ◌+◌, ◌≤◌, length};
ghost use Rattle.std.proofs.lemmas.List.Edits.{sets};
ghost use Rattle.rules.specs.Sheet.{head_frame, rec_lines};
ghost use Rattle.ring.specs.Ring.{geo, Fitted};
ghost use Rattle.ring.specs.Held.{Held};
ghost use Rattle.records.specs.Cursor.{held_recs};
ghost use Rattle.saving.specs.Sheets.{sheet_of};

use reader::{HEAD, HEAD_BLOCKS, HEAD_BYTES, HEAD_HELD, HEAD_WORDS};
use records::cursor::first;
use ring::Ring;

// The length of the first line: two digits for each byte of its frame, and LF.
const HEAD_LINE: usize = 2 * HEAD_BYTES + 1;

// The length of the sheet.
pub fn sheet_length(share: &[u8], ring: Ring, words: u16) -> usize
    requires { Held words ring share.now }
    ensures { result ≡ length (sheet_of words ring share.now) }
{
    let mut cursor = first(share, ring, words);
    let mut total = HEAD_LINE;
    while cursor.ring.held > 0 {
        let frame = records::reading::frame(share, cursor.at);
        total += 2 * frame.len() + 1;
        cursor = cursor.next(share, words);
    }
    total
}

// "First frame: 01, R(2), B, D(2), records held(2)".
fn head_frame(ring: Ring, words: u16) -> [u8; HEAD_BYTES]
    requires { Fitted words ring }
    ensures { result ≡ head_frame (geo words ring) ring.held }
{
    let mut frame = [HEAD, 0, 0, ring.factor as u8, 0, 0, 0, 0];
    words::put(&mut frame, HEAD_WORDS, words);
    words::put(&mut frame, HEAD_BLOCKS, ring.blocks);
    words::put(&mut frame, HEAD_HELD, ring.held);
    frame
}

// Writes the records' lines, starting at `from` in the output: "Then one frame a record, oldest first".
fn write_records(share: &[u8], ring: Ring, words: u16, output: &mut [u8], from: usize)
    requires held { Held words ring share.now }
    requires share_in_bounds { from + length (rec_lines (held_recs words ring share.now)) ≤ length output.old }
    ensures { output.new ≡ sets output.old from (rec_lines (held_recs words ring share.now)) }
{
    let mut cursor = first(share, ring, words);
    let mut used = from;
    while cursor.ring.held > 0 {
        let frame = records::reading::frame(share, cursor.at);
        used = hexadecimal::line(frame, output, used);
        cursor = cursor.next(share, words);
    }
}

// Writes the sheet, starting at the first byte of the output.
pub fn write_sheet(share: &[u8], ring: Ring, words: u16, output: &mut [u8])
    requires held { Held words ring share.now }
    requires share_in_bounds { length (sheet_of words ring share.now) ≤ length output.old }
    ensures { output.new ≡ sets output.old 0 (sheet_of words ring share.now) }
{
    let head = head_frame(ring, words);
    let used = hexadecimal::line(&head, output, 0);
    write_records(share, ring, words, output, used);
}
