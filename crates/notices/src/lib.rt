// The lines of the night board, made from numbers that are given, each put after the one before.
// Kept: the output and the place in it are two parameters, as the functions of `texts` take them, and `Put` says them.
#![tactic(auto)]

ghost use Rattle.std.specs.Prelude.{◌++◌, ◌+◌, ◌*◌, ◌≤◌, eqb, length};
ghost use Rattle.rules.specs.Limits.{most_words};
ghost use Rattle.texts.specs.Spell.{spell};
ghost use Rattle.texts.specs.Numbers.{counted};
ghost use Rattle.texts.specs.Put.{Put};
ghost use Rattle.notices.specs.Lines.{line_room, lf, size_text, blocks_text, geometry_line, held_text, room_text, held_line, side_text, timeout_text, who_text, settings_text, left_text, first_text, status_text, read_text, written_text, request_line, row_line};

use kinds::sides::WRITER;
use kinds::statuses::{END_OF_FILE, TIMED_OUT};
use segment::PlaceRow;
use texts::{put_counted, put_digit, put_if, put_number, put_text};

// A request as the board shows it: none; a read that waits for up to `bytes` bytes, or a write that waits with `bytes` bytes, with the seconds left of its
// timeout, if it has one, and with `first` 1 if it is the first in its queue; or a completed read or write, with its status, and the bytes read.
// Kept: the flag is a word, since a narrower field would ask more of callers (`texts::put_if`).
#[derive(Clone, Copy)]
pub enum Request {
    Idle,
    Reads {
        bytes: u16,
        left: Option<u16>,
        first: u16,
    },
    Writes {
        bytes: u16,
        left: Option<u16>,
        first: u16,
    },
    HasRead {
        status: u16,
        bytes: u16,
    },
    HasWritten {
        status: u16,
    },
}

// The statuses that requests complete with, as words of an entry.
// Kept: any word of an entry may come, and `status_text` shows the others by their number.
const ENDED: u16 = END_OF_FILE as u16;

const LATE: u16 = TIMED_OUT as u16;

// Puts the number of a file and its record size, from R. B and D follow.
fn put_size(out: &mut [u8], at: usize, f: u16, words: u16) -> usize
    requires { (at + 38 ≤ length out.old) × (f ≤ 9) × (words ≤ most_words) }
    ensures { Put 38 out.old at (size_text f words) out.new result }
{
    let a = put_text(out, at, b"file ");
    let b = put_digit(out, a, f);
    let c = put_text(out, b, b": records of up to ");
    let d = put_counted(out, c, 2 * words, b" byte");
    put_text(out, d, b", ")
}

fn put_blocks(out: &mut [u8], at: usize, factor: u16, blocks: u16) -> usize
    requires { at + 36 ≤ length out.old }
    ensures { Put 36 out.old at (blocks_text factor blocks) out.new result }
{
    let a = put_counted(out, at, factor, b" record");
    let b = put_text(out, a, b" a block, ");
    let c = put_counted(out, b, blocks, b" block");
    put_text(out, c, b"\n")
}

pub fn put_geometry(
    out: &mut [u8],
    at: usize,
    f: u16,
    words: u16,
    factor: u16,
    blocks: u16,
) -> usize
    requires { (at + line_room ≤ length out.old) × (f ≤ 9) × (words ≤ most_words) }
    ensures { Put line_room out.old at (geometry_line f words factor blocks) out.new result }
{
    let a = put_size(out, at, f, words);
    put_blocks(out, a, factor, blocks)
}

// Puts the number of a file's data records. All its records and the room left follow.
fn put_records(out: &mut [u8], at: usize, records: u16) -> usize
    requires { at + 27 ≤ length out.old }
    ensures { Put 27 out.old at (held_text records) out.new result }
{
    let a = put_text(out, at, b"  ");
    let b = put_counted(out, a, records, b" data record");
    put_text(out, b, b" held, ")
}

fn put_room(out: &mut [u8], at: usize, all: u16, room: u16) -> usize
    requires { at + 42 ≤ length out.old }
    ensures { Put 42 out.old at (room_text all room) out.new result }
{
    let a = put_counted(out, at, all, b" record");
    let b = put_text(out, a, b" in all, room for ");
    let c = put_number(out, b, room);
    put_text(out, c, b" more\n")
}

pub fn put_held(out: &mut [u8], at: usize, records: u16, all: u16, room: u16) -> usize
    requires { at + line_room ≤ length out.old }
    ensures { Put line_room out.old at (held_line records all room) out.new result }
{
    let a = put_records(out, at, records);
    put_room(out, a, all, room)
}

// Puts a writer with its ID, or a reader with the settings that only a reader has.
fn put_side(out: &mut [u8], at: usize, row: PlaceRow) -> usize
    requires { at + 37 ≤ length out.old }
    ensures { Put 37 out.old at (side_text (eqb row.side 2) row.id (eqb row.typed 1) (eqb row.keep 1)) out.new result }
{
    if row.side == WRITER {
        let a = put_text(out, at, b"writer, ID ");
        return put_number(out, a, row.id);
    }
    let a = put_text(out, at, b"reader");
    let b = put_if(out, a, row.typed, b"; types shown");
    put_if(out, b, row.keep, b"; next read copies")
}

fn put_timeout(out: &mut [u8], at: usize, seconds: u16) -> usize
    requires { at + 17 ≤ length out.old }
    ensures { Put 17 out.old at (timeout_text seconds) out.new result }
{
    // Kept: 0 is the word of a place's row for no timeout; the row is `segment::PlaceRow`, and `settings_text` has it.
    if seconds == 0 {
        return at;
    }
    let a = put_text(out, at, b"; timeout ");
    let b = put_number(out, a, seconds);
    put_text(out, b, b" s")
}

// Puts who the accessor at a place is, from its row. The settings that every accessor has follow.
fn put_who(out: &mut [u8], at: usize, p: u16, row: PlaceRow) -> usize
    requires { (at + 48 ≤ length out.old) × (p ≤ 9) }
    ensures { Put 48 out.old at (who_text p (eqb row.side 2) row.id (eqb row.typed 1) (eqb row.keep 1)) out.new result }
{
    let a = put_text(out, at, b"  place ");
    let b = put_digit(out, a, p);
    let c = put_text(out, b, b"  ");
    put_side(out, c, row)
}

fn put_settings(out: &mut [u8], at: usize, row: PlaceRow) -> usize
    requires { at + 33 ≤ length out.old }
    ensures { Put 33 out.old at (settings_text row.timeout (eqb row.extended 1)) out.new result }
{
    let a = put_timeout(out, at, row.timeout);
    let b = put_if(out, a, row.extended, b"; extended wait");
    put_text(out, b, b"\n")
}

pub fn put_accessor(out: &mut [u8], at: usize, p: u16, row: PlaceRow) -> usize
    requires { (at + line_room ≤ length out.old) × (p ≤ 9) }
    ensures { Put line_room out.old at (row_line p row) out.new result }
{
    let a = put_who(out, at, p, row);
    put_settings(out, a, row)
}

fn put_left(out: &mut [u8], at: usize, left: Option<u16>) -> usize
    requires { at + 14 ≤ length out.old }
    ensures { Put 14 out.old at (left_text left) out.new result }
{
    match left {
        None => put_text(out, at, b", no timeout"),
        Some(n) => {
            let a = put_text(out, at, b", ");
            let b = put_number(out, a, n);
            put_text(out, b, b" s left")
        }
    }
}

fn put_waiting(out: &mut [u8], at: usize, bytes: u16, left: Option<u16>, first: u16) -> usize
    requires { at + 41 ≤ length out.old }
    ensures { Put 41 out.old at (counted bytes (spell " byte") ++ (left_text left ++ (first_text first ++ lf))) out.new result }
{
    let a = put_counted(out, at, bytes, b" byte");
    let b = put_left(out, a, left);
    let c = put_if(out, b, first, b", first in line");
    put_text(out, c, b"\n")
}

// Puts the status that a request completed with, which is not 0.
fn put_status(out: &mut [u8], at: usize, status: u16) -> usize
    requires { at + 12 ≤ length out.old }
    ensures { Put 12 out.old at (status_text status) out.new result }
{
    if status == ENDED {
        return put_text(out, at, b"end of file");
    }
    if status == LATE {
        return put_text(out, at, b"timed out");
    }
    let a = put_text(out, at, b"status ");
    put_number(out, a, status)
}

fn put_read(out: &mut [u8], at: usize, status: u16, bytes: u16) -> usize
    requires { at + 19 ≤ length out.old }
    ensures { Put 19 out.old at (read_text status bytes) out.new result }
{
    if status == 0 {
        let a = put_text(out, at, b"read of ");
        return put_counted(out, a, bytes, b" byte");
    }
    put_status(out, at, status)
}

fn put_written(out: &mut [u8], at: usize, status: u16) -> usize
    requires { at + 12 ≤ length out.old }
    ensures { Put 12 out.old at (written_text status) out.new result }
{
    if status == 0 {
        return put_text(out, at, b"write");
    }
    put_status(out, at, status)
}

// Puts what an accessor waits for or has not collected, after the accessor's own line.
pub fn put_request(out: &mut [u8], at: usize, request: Request) -> usize
    requires { at + line_room ≤ length out.old }
    ensures { Put line_room out.old at (request_line request) out.new result }
{
    match request {
        Request::Idle => at,
        Request::Reads { bytes, left, first } => {
            let a = put_text(out, at, b"           waits to read up to ");
            put_waiting(out, a, bytes, left, first)
        }
        Request::Writes { bytes, left, first } => {
            let a = put_text(out, at, b"           waits to write ");
            put_waiting(out, a, bytes, left, first)
        }
        Request::HasRead { status, bytes } => {
            let a = put_text(out, at, b"           completed, not collected: ");
            let b = put_read(out, a, status, bytes);
            put_text(out, b, b"\n")
        }
        Request::HasWritten { status } => {
            let a = put_text(out, at, b"           completed, not collected: ");
            let b = put_written(out, a, status);
            put_text(out, b, b"\n")
        }
    }
}
