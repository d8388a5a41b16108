// "The sheet is read by a reader over the lent text that hands out frame after frame": a text with a cursor, and a struct of the two.
// Also tests whether a text is a sheet.
#![tactic(auto)]

ghost use Rattle.std.specs.Prelude.{◌≡◌, ◌==◌, ◌≤◌, length, position, IfSome};
ghost use Rattle.std.proofs.lemmas.List.Edits.{sets};
ghost use Rattle.rules.specs.Limits.{sheet_line_bytes};
ghost use Rattle.rules.specs.Sheet.{good_rec, read_sheet};
ghost use Rattle.reader.specs.Frames.{frame_at, next_at};
ghost use Rattle.reader.specs.Sheets.{good_numbers, says_head, head_of, most_size, good_from, is_some};

use geometry::{capacity, fits_share, in_range};
use hexadecimal::LF;
use kinds::limits::{LEAST_CAPACITY, MOST_TYPE, SHEET_LINE_BYTES};
use kinds::record_types::DATA;

// "First frame: 01, R(2), B, D(2), records held(2)."
pub const HEAD: u8 = 1;

pub const HEAD_BYTES: usize = 8;

pub const HEAD_WORDS: usize = 1;

const HEAD_FACTOR: usize = 3;

pub const HEAD_BLOCKS: usize = 4;

pub const HEAD_HELD: usize = 6;

// "Then one frame a record, oldest first: type(2), ID(2), data."
pub const TYPE: usize = 0;

pub const ID: usize = 2;

pub const RECORD_HEAD: usize = 4;

// The number of bytes before the first LF, if there is one.
fn line_length(text: &[u8]) -> Option<usize>
    ensures { result ≡ position (λ b. b == 10) text.now }
{
    text.iter().position(|b| *b == LF)
}

// A reader over a text: where the next line begins.
#[derive(Clone, Copy)]
pub struct Reader<'a> {
    pub text: &'a [u8],
    pub at: usize,
    ghost within: { at ≤ length text.now },
}

impl<'a> Reader<'a> {
    // A reader at the text's first line.
    pub fn new(text: &'a [u8]) -> Reader<'a>
        ensures { (result.text ≡ text.entry) × (result.at ≡ 0) }
    {
        Reader { text, at: 0 }
    }

    // Hands out the frame of the next line: writes it, starting at the first byte of `frame`, gives its length, and goes to the line after it.
    // A line that says no frame, or that no LF ends, is an empty frame.
    // Kept: the length is given and no slice of `frame`: behind a slice that is lent on, `bytes` could not say that the rest of it stays.
    #[tactic(auto, using(crate::proofs::Frames::next_ended, crate::proofs::Frames::frame_unended, crate::proofs::Frames::next_unended))]
    pub fn hand_out(&mut self, frame: &mut [u8]) -> usize
        requires { sheet_line_bytes ≤ length frame.old }
        ensures size { result ≡ length (frame_at self.old.text.now self.old.at) }
        ensures bytes { frame.new ≡ sets frame.old 0 (frame_at self.old.text.now self.old.at) }
        ensures text { self.new.text ≡ self.old.text }
        ensures at { self.new.at ≡ next_at self.old.text.now self.old.at }
        ensures bound { result ≤ sheet_line_bytes }
    {
        let rest = &self.text[self.at..];
        let Some(length) = line_length(rest) else {
            self.at = self.text.len();
            return 0;
        };
        self.at += length + 1;
        hexadecimal::decode(&rest[..length], SHEET_LINE_BYTES, frame)
    }
}

// What a sheet's first frame says, and the cursor after it.
#[derive(Clone, Copy)]
pub struct Head {
    pub words: u16,
    pub factor: u8,
    pub blocks: u16,
    pub held: u16,
    pub at: usize,
}

// "R and B in range, C ≥ 3, D × block size ≤ 2,048, records ≤ C". The range test is given one record in one extent, which are in range.
#[tactic(auto, unfolding(crate::specs::Sheets::good_numbers, rules::specs::Geometry::in_range, rules::specs::Geometry::within))]
fn good_numbers(head: Head) -> bool
    ensures { result ≡ good_numbers head.words head.factor head.blocks head.held }
{
    let room = capacity(head.factor, head.blocks);
    in_range(head.words, head.factor, 1, 1)
        && fits_share(head.words, head.factor, head.blocks)
        && LEAST_CAPACITY <= room
        && u32::from(head.held) <= room
}

// What a frame says as the first of a sheet, with the cursor after it.
fn head_of(frame: &[u8], at: usize) -> Option<Head>
    ensures { result ≡ says_head frame.now at }
{
    if frame.len() != HEAD_BYTES || frame[0] != HEAD {
        return None;
    }
    let head = Head {
        words: words::get(frame, HEAD_WORDS),
        factor: frame[HEAD_FACTOR],
        blocks: words::get(frame, HEAD_BLOCKS),
        held: words::get(frame, HEAD_HELD),
        at,
    };
    good_numbers(head).then_some(head)
}

// What the text's first frame says, if it is the first frame of a sheet.
pub fn read_head(text: &[u8]) -> Option<Head>
    ensures value { result ≡ head_of text.now }
    ensures at_in_bounds { IfSome result (λ head. head.at ≤ length text.now) }
{
    let mut frame = [0u8; SHEET_LINE_BYTES];
    let mut reader = Reader::new(text);
    let size = reader.hand_out(&mut frame);
    head_of(&frame[..size], reader.at)
}

// The bytes of the longest frame of a record of that type.
#[tactic(auto, unfolding(crate::specs::Sheets::most_size))]
fn most_size(words: u16, typ: u16) -> usize
    ensures { result ≡ most_size words typ }
{
    if typ == DATA {
        RECORD_HEAD + 2 * words as usize
    } else {
        RECORD_HEAD
    }
}

// "types 0 to 2, IDs ≥ 1, data of at most 2R bytes, none in open and close records"
#[tactic(auto, unfolding(rules::specs::Sheet::good_rec, crate::specs::Sheets::most_size))]
fn good_record(frame: &[u8], words: u16) -> bool
    ensures { result ≡ good_rec words frame.now }
{
    if frame.len() < RECORD_HEAD {
        return false;
    }
    let typ = words::get(frame, TYPE);
    typ <= MOST_TYPE && 1 <= words::get(frame, ID) && frame.len() <= most_size(words, typ)
}

// Whether as many good records as the head says follow it, and nothing after them.
fn good_records(text: &[u8], head: Head) -> bool
    requires { head.at ≤ length text.now }
    ensures { result ≡ good_from head.words text.now head.at head.held }
{
    let mut frame = [0u8; SHEET_LINE_BYTES];
    let mut reader = Reader { text, at: head.at };
    for _ in 0..head.held {
        let size = reader.hand_out(&mut frame);
        if !good_record(&frame[..size], head.words) {
            return false;
        }
    }
    reader.at == text.len()
}

// Whether a text is a sheet, as load asks.
pub fn is_sheet(text: &[u8]) -> bool
    ensures { result ≡ is_some (read_sheet text.now) }
{
    read_head(text).is_some_and(|head| good_records(text, head))
}
