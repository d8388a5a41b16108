// Tests the bytes that no call reads: calls leave them zero. Nothing is changed.
ghost use Rattle.std.specs.Prelude.{◌≡◌, ◌+◌, ◌-◌, ◌*◌, ◌≤◌, ◌<◌};
ghost use Rattle.words.specs.Word.{word_at, quiet};
ghost use Rattle.rules.specs.Limits.{files, places, share_bytes};
ghost use Rattle.rules.specs.State.{unbuilt};
ghost use Rattle.rules.specs.Desk.{Desk};
ghost use Rattle.rules.specs.Allocation.{Alloc};
ghost use Rattle.shares.specs.Tails.{blocks_zero, tails_zero};
ghost use Rattle.ring.specs.Ring.{geo, Fitted};
ghost use Rattle.memory.specs.Memories.{lent, was};
ghost use Rattle.memory.specs.Stands.{buffers_at};
ghost use Rattle.memory.specs.Fine.{StandsFor};
ghost use Rattle.memory.specs.Swept.{file_swept, swept};
ghost use Rattle.midst.specs.Outcome.{Sound};
ghost use Rattle.board.specs.Swept.{size_of, size_at, rest_zero, rests_at, FittedAt, built_zero, file_zero};

use crate::outstanding::request_at;
use accessors::words_of;
use blocks::by_file::share;
use kinds::limits::{BUFFER_BYTES, FILES, PLACES, SHARE_BYTES};
use kinds::memories::{Blocks, Buffers, Share};
use kinds::sides::CLOSED;
use notices::Request;
use ring::Ring;
use ring::layout::{Span, USED, block_span};
use segment::Segment;

// The bytes of a file's eight buffers.
const FILE_BUFFERS: usize = PLACES * BUFFER_BYTES;

// A file's eight buffers.
type FileBuffers = [u8; FILE_BUFFERS];

// The number of bytes of a request that lie in its accessor's buffer.
#[tactic(auto, unfolding(crate::specs::Swept::size_of))]
fn size_of(request: Request) -> u16
    ensures { result ≡ size_of request }
{
    match request {
        Request::Idle | Request::Reads { .. } | Request::HasWritten { .. } => 0,
        Request::Writes { bytes, .. } => bytes,
        Request::HasRead { bytes, .. } => bytes,
    }
}

// The number of bytes that lie in the buffer at place p of file f.
#[tactic(auto, using(std::proofs::lemmas::Bool::Decides::nat_tests), unfolding(crate::specs::Swept::size_on))]
fn size_at(segment: &Segment, f: usize, p: usize) -> u16
    requires { (f < files) × (p < places) }
    ensures { result ≡ size_at segment.now f p }
{
    let side = segment::place_side(segment, PLACES * f + p);
    if side == CLOSED {
        return 0;
    }
    let request = request_at(segment, f, p, side);
    size_of(request)
}

// Whether the buffer of place p, one of a file's eight, is zero after its first n bytes.
#[tactic(auto, unfolding(crate::specs::Swept::rest_zero))]
fn rest_zero(buffers: &FileBuffers, p: usize, n: usize) -> bool
    requires { p < places }
    ensures { result ≡ rest_zero buffers.now p n }
{
    if BUFFER_BYTES <= n {
        return true;
    }
    words::quiet(buffers, BUFFER_BYTES * p + n, BUFFER_BYTES - n)
}

// Whether each of the eight buffers of file f is zero after what lies there.
#[tactic(auto, using(crate::proofs::Swept::every_on, crate::proofs::Swept::every_bad, crate::proofs::Swept::every_end), unfolding(crate::specs::Swept::every, crate::specs::Swept::rests_at))]
fn rests_zero(segment: &Segment, buffers: &FileBuffers, f: usize) -> bool
    requires { f < files }
    ensures { result ≡ rests_at segment.now buffers.now f }
{
    for p in 0..PLACES {
        let n = size_at(segment, f, p);
        if !rest_zero(buffers, p, n as usize) {
            return false;
        }
    }
    true
}

// Whether a block is zero after its last record. The head of a block that holds no record may have any number of words used: from the block's length on, nothing is
// left to look at.
fn tail_zero(share: &Share, block: Span) -> bool
    requires { (4 ≤ block.size) × (block.at + block.size ≤ share_bytes) }
    ensures { result ≡ quiet share.now (block.at + 2 * word_at share.now (block.at + 2)) (block.size - 2 * word_at share.now (block.at + 2)) }
{
    let at = block.at;
    let used = 2 * words::get(share, at + USED) as usize;
    if block.size <= used {
        return true;
    }
    words::quiet(share, at + used, block.size - used)
}

// Whether all blocks of a share are so.
#[tactic(auto, using(crate::proofs::Swept::blocks_on, crate::proofs::Swept::blocks_bad, crate::proofs::Swept::blocks_end), unfolding(shares::specs::Tails::tail_zero))]
fn blocks_zero(share: &Share, ring: Ring, words: u16) -> bool
    requires { Fitted words ring }
    ensures { result ≡ blocks_zero (geo words ring) share.now 0 ring.blocks }
{
    for k in 0..ring.blocks {
        if !tail_zero(share, block_span(ring, words, k)) {
            return false;
        }
    }
    true
}

// Whether all blocks of a share are so, and the share is zero after its last block.
fn tails_zero(share: &Share, ring: Ring, words: u16) -> bool
    requires { Fitted words ring }
    ensures { result ≡ tails_zero (geo words ring) share.now }
{
    if !blocks_zero(share, ring, words) {
        return false;
    }
    let first = block_span(ring, words, 0);
    let end = ring.blocks as usize * first.size;
    words::quiet(share, end, SHARE_BYTES - end)
}

// Whether the share and the buffers of a file that is not built are zero.
#[tactic(auto, unfolding(memory::specs::Swept::file_swept))]
fn blank_zero(share: &Share, buffers: &FileBuffers) -> bool
    ensures { result ≡ file_swept unbuilt share.now buffers.now }
{
    if !words::quiet(share, 0, SHARE_BYTES) {
        return false;
    }
    words::quiet(buffers, 0, FILE_BUFFERS)
}

// Whether the share and the buffers of file f, which is built, are zero where no call reads them.
#[tactic(auto, unfolding(crate::specs::Swept::built_zero))]
fn built_zero(segment: &Segment, share: &Share, buffers: &FileBuffers, f: usize) -> bool
    requires { (f < files) × FittedAt segment.now f }
    ensures { result ≡ built_zero segment.now f share.now buffers.now }
{
    let file = midst::take_file(segment, f);
    if !tails_zero(share, file.ring, file.words) {
        return false;
    }
    rests_zero(segment, buffers, f)
}

// The eight buffers of file f.
fn file_buffers(buffers: &Buffers, f: usize) -> &FileBuffers
    requires { f < files }
    ensures { result.now ≡ buffers_at f buffers.now }
{
    let (each, _) = buffers.as_chunks();
    &each[f]
}

// Whether the bytes of file f that no call reads are zero.
fn file_zero(segment: &Segment, blocks: &Blocks, buffers: &Buffers, f: usize) -> bool
    requires { Sound (lent segment.now blocks.now buffers.now) × (f < files) }
    ensures { result ≡ file_zero (was segment.now blocks.now buffers.now) f }
{
    let own_share = share(blocks, f);
    let own_buffers = file_buffers(buffers, f);
    let Some(_) = words_of(segment, f) else {
        return blank_zero(own_share, own_buffers);
    };
    built_zero(segment, own_share, own_buffers, f)
}

// Whether all bytes that no call reads are zero.
#[tactic(auto, using(crate::proofs::Swept::every_on, crate::proofs::Swept::every_end, crate::proofs::Swept::swept_is), unfolding(crate::specs::Swept::every, crate::specs::Swept::files_zero))]
pub fn swept(segment: &Segment, blocks: &Blocks, buffers: &Buffers) -> bool
    requires { Sound (lent segment.now blocks.now buffers.now) }
    ensures { (d : Desk) (s : Alloc) → StandsFor (was segment.now blocks.now buffers.now) d s → result ≡ swept d (was segment.now blocks.now buffers.now) }
{
    for f in 0..FILES {
        if !file_zero(segment, blocks, buffers, f) {
            return false;
        }
    }
    true
}
