// Record buffers. A completed read's record, or a waiting write's data, lies at the start of a buffer, and the rest of the buffer is zero.
// Place i of the desk, 8 × file + accessor, has the i-th buffer of the lent memory.
#![tactic(auto)]

ghost use Rattle.std.specs.Prelude.{◌≡◌, ◌*◌, ◌≤◌, ◌<◌, length, take};
ghost use Rattle.std.proofs.lemmas.List.Edits.{sets};
ghost use Rattle.words.specs.Word.{zeros};
ghost use Rattle.rules.specs.Limits.{buffer_bytes};
ghost use Rattle.rules.specs.Memories.{buffer_at};
ghost use Rattle.rules.specs.Buffers.{filled};
ghost use Rattle.buffers.specs.Buffer.{buffer_count, emptied};

use kinds::limits::BUFFER_BYTES;
use kinds::memories::Buffers;

// Puts the data into the buffer, with zeros after them.
// Kept: the buffer is a slice, here and in `clear`: a part of a memory becomes an array only by a test of its length at each call.
pub fn fill(buffer: &mut [u8], data: &[u8])
    requires { (length buffer.old ≡ buffer_bytes) × (length «data».now ≤ buffer_bytes) }
    ensures { buffer.new ≡ filled «data».now }
{
    let n = data.len();
    words::copy(buffer, 0, data);
    words::zero(buffer, n, BUFFER_BYTES - n);
}

// Empties the buffer: all its bytes become zero.
pub fn clear(buffer: &mut [u8])
    requires { length buffer.old ≡ buffer_bytes }
    ensures { buffer.new ≡ zeros buffer_bytes }
{
    words::zero(buffer, 0, BUFFER_BYTES);
}

// `fill` and `clear` on the whole memory, for the buffer of a place.

pub fn fill_at(buffers: &mut Buffers, place: usize, data: &[u8])
    requires { (place < buffer_count) × (length «data».now ≤ buffer_bytes) }
    ensures { buffers.new ≡ sets buffers.old (buffer_bytes * place) (filled «data».now) }
{
    let at = BUFFER_BYTES * place;
    fill(&mut buffers[at..at + BUFFER_BYTES], data);
}

pub fn clear_at(buffers: &mut Buffers, place: usize)
    requires { place < buffer_count }
    ensures { buffers.new ≡ emptied place buffers.old }
{
    let at = BUFFER_BYTES * place;
    clear(&mut buffers[at..at + BUFFER_BYTES]);
}

// The first `size` bytes in the buffer of a place.
pub fn lies<'a>(buffers: &'a Buffers, place: usize, size: usize) -> &'a [u8]
    requires { (place < buffer_count) × (size ≤ buffer_bytes) }
    ensures { result.now ≡ take size (buffer_at place buffers.now) }
{
    &buffers[BUFFER_BYTES * place..][..size]
}
