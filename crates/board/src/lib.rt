// The night board: a text that shows what a desk holds, who has its files open, who waits and what is not collected. A last line says if bytes that no call reads
// are not zero.
#![tactic(auto)]

mod outstanding;
mod unread;

ghost use Rattle.std.specs.Prelude.{◌≡◌, List, ℕ, ◌+◌, ◌-◌, ◌*◌, ◌≤◌, ◌<◌, IfOk, length};
ghost use Rattle.rules.specs.Limits.{files, places};
ghost use Rattle.rules.specs.State.{Built, built};
ghost use Rattle.rules.specs.Desk.{Desk, file_of};
ghost use Rattle.rules.specs.Allocation.{Alloc};
ghost use Rattle.memory.specs.Memories.{memories, lent, was};
ghost use Rattle.memory.specs.Fine.{StandsFor};
ghost use Rattle.memory.specs.Swept as memory;
ghost use Rattle.ring.specs.Ring.{Ranged, used};
ghost use Rattle.midst.specs.FileStands.{FileStands};
ghost use Rattle.midst.specs.Outcome.{Sound, SoundBlocks};
ghost use Rattle.kinds.specs.Refusals.{refusal_number, length_of};
ghost use Rattle.promises.specs.Promise.{written};
ghost use Rattle.texts.specs.Put.{Put};
ghost use Rattle.notices.specs.Lines.{line_room};
ghost use Rattle.board.specs.Board.{acc_room, file_room, files_room, board_room, file_text, files_text, swept_text, whole_text};
ghost use Rattle.board.specs.Found.{place_text_at, places_at, accessors_at};
ghost use Rattle.board.specs.Promise.{Ends, Board};

use accessors::sides::count_side;
use accessors::words_of;
use kinds::Answer;
use kinds::limits::{FILES, PLACES};
use kinds::memories::{Blocks, Buffers};
use kinds::refusals::Refusal;
use kinds::sides::CLOSED;
use notices::{put_accessor, put_geometry, put_held, put_request};
use outstanding::request_at;
use ring::Ring;
use segment::Segment;
use sound::standing;
use texts::put_text;
use unread::swept;

// The room of a line: 80 columns and LF. A board has at most two lines for a file, two for an accessor, and a last one.
const LINE_ROOM: usize = 81;

const FILE_ROOM: usize = 2 * LINE_ROOM + PLACES * (2 * LINE_ROOM);

pub const BOARD_ROOM: usize = FILES * FILE_ROOM + LINE_ROOM;

// The number of closed places of a file that nobody has open.
const ALL_PLACES: u16 = PLACES as u16;

// Puts the lines of the accessor at place p of file f, if one is open there.
fn put_place(segment: &Segment, out: &mut [u8], at: usize, f: usize, p: usize) -> usize
    requires { (f < files) × (p < places) × (at + acc_room ≤ length out.old) }
    ensures { Put acc_room out.old at (place_text_at segment.now f p) out.new result }
{
    let row = segment::read_place(segment, PLACES * f + p);
    let side = row.side;
    if side == CLOSED {
        return at;
    }
    let request = request_at(segment, f, p, side);
    let a = put_accessor(out, at, p as u16, row);
    put_request(out, a, request)
}

// Puts the lines of all accessors of file f.
fn put_places(segment: &Segment, out: &mut [u8], at: usize, f: usize) -> usize
    requires { (f < files) × (at + places * acc_room ≤ length out.old) }
    ensures { Put (places * acc_room) out.old at (places_at segment.now f places) out.new result }
{
    let mut end = at;
    for p in 0..PLACES {
        end = put_place(segment, out, end, f, p);
    }
    end
}

// Puts the lines of all accessors of file f, or a line that says that it has none.
fn put_accessors(segment: &Segment, out: &mut [u8], at: usize, f: usize) -> usize
    requires { (f < files) × (at + places * acc_room ≤ length out.old) }
    ensures { Put (places * acc_room) out.old at (accessors_at segment.now f) out.new result }
{
    if count_side(segment, f, CLOSED) == ALL_PLACES {
        return put_text(out, at, b"  nobody has it open\n");
    }
    put_places(segment, out, at, f)
}

// The number of data records that still fit: "one place is kept for each close record".
fn room_left(ring: Ring, writers: u16) -> u16
    requires { Ranged ring × (used ring + writers ≤ ring.factor * ring.blocks) }
    ensures { result ≡ ring.factor * ring.blocks - (used ring + writers) }
{
    let room = ring.factor * ring.blocks;
    let kept = ring.used() + writers;
    room - kept
}

// Puts the lines of file f, which is built.
fn put_file(segment: &Segment, blocks: &Blocks, out: &mut [u8], at: usize, f: usize) -> usize
    requires { FileStands segment.now blocks.now f × (at + file_room ≤ length out.old) }
    ensures { (buffers : List ℕ) (d : Desk) (s : Alloc) (b : Built) → StandsFor (memories segment.now blocks.now buffers) d s → file_of d f ≡ built b → Put file_room out.old at (file_text f (built b)) out.new result }
{
    let file = midst::take_file(segment, f);
    let ring = file.ring;
    let counts = file_counts::counts(segment, blocks, f);
    let Answer::Counted {
        records,
        all,
        writers,
        ..
    } = counts
    else {
        return at;
    };
    let room = room_left(ring, writers);
    let a = put_geometry(out, at, f as u16, file.words, ring.factor, ring.blocks);
    let b = put_held(out, a, records, all, room);
    put_accessors(segment, out, b, f)
}

// Puts the lines of file f, if it is built.
fn put_if_built(segment: &Segment, blocks: &Blocks, out: &mut [u8], at: usize, f: usize) -> usize
    requires { SoundBlocks segment.now blocks.now × (f < files) × (at + file_room ≤ length out.old) }
    ensures bound { result ≤ at + file_room }
    ensures text { (buffers : List ℕ) (d : Desk) (s : Alloc) → StandsFor (memories segment.now blocks.now buffers) d s → Put file_room out.old at (file_text f (file_of d f)) out.new result }
{
    let Some(_) = words_of(segment, f) else {
        return at;
    };
    put_file(segment, blocks, out, at, f)
}

// Puts the lines of all built files.
fn put_files(segment: &Segment, blocks: &Blocks, out: &mut [u8]) -> usize
    requires { SoundBlocks segment.now blocks.now × (files_room ≤ length out.old) }
    ensures { (buffers : List ℕ) (d : Desk) (s : Alloc) → StandsFor (memories segment.now blocks.now buffers) d s → Put files_room out.old 0 (files_text d files) out.new result }
{
    let mut end = 0;
    for f in 0..FILES {
        end = put_if_built(segment, blocks, out, end, f);
    }
    end
}

// Puts a line that says that no file is built, if nothing was put before.
fn put_nothing(out: &mut [u8], at: usize) -> usize
    requires { files_room ≤ length out.old }
    ensures { Ends out.old at out.new result }
{
    if at == 0 {
        return put_text(out, 0, b"no file is built\n");
    }
    at
}

// Puts a last line if bytes that no call reads are not zero.
fn put_swept(
    segment: &Segment,
    blocks: &Blocks,
    buffers: &Buffers,
    out: &mut [u8],
    at: usize,
) -> usize
    requires { Sound (lent segment.now blocks.now buffers.now) × (at + line_room ≤ length out.old) }
    ensures { (d : Desk) (s : Alloc) → StandsFor (was segment.now blocks.now buffers.now) d s → Put line_room out.old at (swept_text (memory.swept d (was segment.now blocks.now buffers.now))) out.new result }
{
    if swept(segment, blocks, buffers) {
        return at;
    }
    put_text(
        out,
        at,
        b"something other than calls wrote here: bytes that no call reads are not zero\n",
    )
}

// Puts the whole board, starting at the first byte of the output.
fn put_board(segment: &Segment, blocks: &Blocks, buffers: &Buffers, out: &mut [u8]) -> usize
    requires { Sound (lent segment.now blocks.now buffers.now) × (board_room ≤ length out.old) }
    ensures { (d : Desk) (s : Alloc) → StandsFor (was segment.now blocks.now buffers.now) d s → Put board_room out.old 0 (whole_text d (was segment.now blocks.now buffers.now)) out.new result }
{
    let n = put_files(segment, blocks, out);
    let end = put_nothing(out, n);
    put_swept(segment, blocks, buffers, out, end)
}

// Writes the board, starting at the first byte of the output, and gives its length. Refused with 29: a memory has the wrong length or is unsound; with 44: the
// output is shorter than BOARD_ROOM. Then nothing is written.
pub fn board(
    segment: &[u8],
    blocks: &[u8],
    buffers: &[u8],
    out: &mut [u8],
) -> Result<usize, Refusal>
    ensures board { Board (was segment.now blocks.now buffers.now) out.old (written (refusal_number result) (length_of result) out.new) }
    ensures fits { IfOk result (λ n. n ≤ length out.old) }
{
    let Some(desk) = standing(segment, blocks, buffers) else {
        return Err(Refusal::Unsound);
    };
    if out.len() < BOARD_ROOM {
        return Err(Refusal::Short);
    }
    Ok(put_board(desk.segment, desk.blocks, desk.buffers, out))
}
