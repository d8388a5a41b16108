// Tests whether the lent memories are sound: the rows and blocks of each file, and one walk of each list.
// Every call except fresh makes this test. Nothing is copied, of files that are not built only rows and list heads are read, and no byte of the record
// buffers is read: only their length is tested.
#![tactic(auto)]

mod choice;
mod entries;
mod files;
mod marks;
mod quick;
mod rows;
mod walks;

ghost use Rattle.std.specs.Prelude.{◌≡◌, is_some, IfSome};
ghost use Rattle.sound.specs.Sound.{lists_ok, soundly};
ghost use Rattle.memory.specs.Memories.{memories};

use choice::all_walks;
use files::files_ok;
use kinds::memories::{Blocks, Buffers};
use marks::ENTRY_COUNT;
use quick::free::all_free;
use quick::heads::no_requests;
use segment::{Segment, layout};
use walks::all_met;

// Whether the lists are in order, with each entry on exactly one. If all but the free list are empty, it must have every entry, which needs no marks.
#[tactic(auto, unfolding(crate::specs::Sound::lists_ok, crate::specs::Walks::walked))]
fn lists_ok(s: &Segment) -> bool
    ensures { result ≡ lists_ok s.now }
{
    if no_requests(s) {
        return all_free(s);
    }
    let mut seen = [0u8; ENTRY_COUNT];
    let mut busy = [0u8; layout::DESK_PLACES];
    if !all_walks(s, &mut seen, &mut busy) {
        return false;
    }
    all_met(&seen)
}

// Whether memories of the right lengths stand for a desk of the rules. No byte of the record buffers is read. The files come first: most of their work is skipped if none is built.
// Kept out of line: where LLVM puts it into a program that calls it once, the walks over blocks have too few registers, and take up to half as long again.
#[inline(never)]
#[tactic(auto, unfolding(crate::specs::Sound::soundly))]
pub fn stands(segment: &Segment, blocks: &Blocks, buffers: &Buffers) -> bool
    ensures { result ≡ soundly (memories segment.now blocks.now buffers.now) }
{
    if !files_ok(segment, blocks) {
        return false;
    }
    lists_ok(segment)
}

// Memories that are lent to be read, and that stand for a desk.
#[derive(Clone, Copy)]
pub struct Desk<'a> {
    pub segment: &'a Segment,
    pub blocks: &'a Blocks,
    pub buffers: &'a Buffers,
}

// The memories, of any lengths, if they stand for a desk of the rules.
#[tactic(auto, using(crate::proofs::Lengths::lengths))]
pub fn standing<'a>(segment: &'a [u8], blocks: &'a [u8], buffers: &'a [u8]) -> Option<Desk<'a>>
    ensures sound { is_some result ≡ soundly (memories segment.now blocks.now buffers.now) }
    ensures same { IfSome result (λ d. (d.segment.now ≡ segment.now) × (d.blocks.now ≡ blocks.now) × (d.buffers.now ≡ buffers.now)) }
{
    let Some(own) = segment.as_array() else {
        return None;
    };
    let Some(shares) = blocks.as_array() else {
        return None;
    };
    let Some(records) = buffers.as_array() else {
        return None;
    };
    if !stands(own, shares, records) {
        return None;
    }
    Some(Desk {
        segment: own,
        blocks: shares,
        buffers: records,
    })
}

// Whether the memories, of any lengths, stand for a desk of the rules.
pub fn sound(s: &[u8], blocks: &[u8], buffers: &[u8]) -> bool
    ensures { result ≡ soundly (memories s.now blocks.now buffers.now) }
{
    standing(s, blocks, buffers).is_some()
}
