// "One call makes a fresh desk: no file built, blocks and buffers zero, the free list in order of entry number".
#![tactic(auto)]

ghost use Rattle.std.specs.Prelude.{◌≡◌, ◌<◌};
ghost use Rattle.kinds.specs.Refusals.{refusal_number};
ghost use Rattle.rules.specs.Limits.{entries};
ghost use Rattle.segment.specs.Layout.{segment_words};
ghost use Rattle.memory.specs.Memories.{was, left};
ghost use Rattle.memory.specs.Fresh.{fresh_link, fresh_word, fresh_segment};
ghost use Rattle.fresh.specs.Made.{made};

use kinds::limits;
use kinds::refusals::Refusal;
use segment::{Segment, layout};

// The link of entry e in a fresh segment: the next entry, or NIL for the last.
fn fresh_link(e: u16) -> u16
    requires { e < entries }
    ensures { result ≡ fresh_link e }
{
    if e + 1 < layout::ENTRIES {
        return e + 1;
    }
    layout::NIL
}

// Word k of a fresh segment.
fn fresh_word(k: usize) -> u16
    requires { k < segment_words }
    ensures { result ≡ fresh_word k }
{
    if k < layout::READ_QUEUES {
        return 0;
    }
    if k < layout::LINKS {
        return layout::NIL;
    }
    if k < layout::FILE_ROWS {
        let i = k - layout::LINKS;
        if i % layout::ENTRY_WORDS == 0 {
            return fresh_link((i / layout::ENTRY_WORDS) as u16);
        }
        return 0;
    }
    0
}

// Makes the segment a fresh one.
fn fresh_segment(s: &mut Segment)
    ensures { s.new ≡ fresh_segment }
{
    for k in 0..layout::SEGMENT_WORDS {
        let w = fresh_word(k);
        segment::put(s, k, w);
    }
}

// Makes the memories those of a fresh desk; writes nothing if a memory has the wrong length.
pub fn fresh(segment: &mut [u8], blocks: &mut [u8], buffers: &mut [u8]) -> Result<(), Refusal>
    ensures { record { status = refusal_number result; memories = left segment.new blocks.new buffers.new } ≡ made (was segment.old blocks.old buffers.old) }
{
    let Some(own) = segment.as_mut_array() else {
        return Err(Refusal::Unsound);
    };
    if blocks.len() != limits::BLOCKS_BYTES {
        return Err(Refusal::Unsound);
    }
    if buffers.len() != limits::BUFFERS_BYTES {
        return Err(Refusal::Unsound);
    }
    fresh_segment(own);
    words::zero(blocks, 0, limits::BLOCKS_BYTES);
    words::zero(buffers, 0, limits::BUFFERS_BYTES);
    Ok(())
}
