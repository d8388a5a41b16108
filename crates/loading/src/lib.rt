// Load: builds a file that is not built from a sheet's text. Judging comes first, on shared memory.
#![tactic(auto)]

ghost use Rattle.std.specs.Prelude.{◌≡◌, ◌<◌};
ghost use Rattle.std.proofs.Math.Option.{Option, some};
ghost use Rattle.rules.specs.Limits.{files};
ghost use Rattle.rules.specs.Sheet.{Sheet, read_sheet, loaded};
ghost use Rattle.rules.specs.Desk as rules;
ghost use Rattle.kinds.specs.Refusals.{refusal_number};
ghost use Rattle.midst.specs.Outcome.{reply_status};
ghost use Rattle.promises.specs.Promise.{status, Standing, Seen, reply_of, Promise};
ghost use Rattle.promises.specs.Promise as host;
ghost use Rattle.loading.specs.LaidOut.{laid_out};
ghost use Rattle.memory.specs.Memories.{was, left};

mod packing;

use accessors::words_of;
use kinds::limits::FILES;
use kinds::memories::{Blocks, Buffers};
use kinds::refusals::Refusal;
use midst::put_file;
use opening::FILE_BUFFERS;
use packing::pack;
use reader::is_sheet;
use segment::Segment;
use sound::standing;

// Judges a load, for memories of any content.
fn judge_load(
    segment: &[u8],
    blocks: &[u8],
    buffers: &[u8],
    file: usize,
    text: &[u8],
) -> Result<(), Refusal>
    ensures { (v : Option Standing) → Seen (was segment.now blocks.now buffers.now) v → refusal_number result ≡ reply_status (reply_of v (rules.load file «text».now)) }
{
    let Some(desk) = standing(segment, blocks, buffers) else {
        return Err(Refusal::Unsound);
    };
    if FILES <= file {
        return Err(Refusal::File);
    }
    if words_of(desk.segment, file).is_some() {
        return Err(Refusal::File);
    }
    if !is_sheet(text) {
        return Err(Refusal::NoSheet);
    }
    Ok(())
}

// Makes file f what the sheet says. "Build and load zero the share"; the buffers are zeroed too, since nothing is known of them before.
fn lay_out(segment: &mut Segment, blocks: &mut Blocks, buffers: &mut Buffers, f: usize, text: &[u8])
    requires f_lt_files { f < files }
    requires text_value { (s : Sheet) × (read_sheet «text».now ≡ some s) }
    ensures { (s : Sheet) → read_sheet «text».now ≡ some s → left segment.new blocks.new buffers.new ≡ laid_out f (loaded s) (was segment.old blocks.old buffers.old) }
{
    let file = pack(blocks, f, text);
    words::zero(buffers, FILE_BUFFERS * f, FILE_BUFFERS);
    put_file(segment, f, file);
}

// Builds a file that is not built from a sheet's text.
pub fn load(
    segment: &mut [u8],
    blocks: &mut [u8],
    buffers: &mut [u8],
    file: usize,
    text: &[u8],
) -> Result<(), Refusal>
    ensures { Promise (was segment.old blocks.old buffers.old) (host.load file «text».now) (status (refusal_number result)) (left segment.new blocks.new buffers.new) }
{
    if let Err(refusal) = judge_load(segment, blocks, buffers, file, text) {
        return Err(refusal);
    }
    let Some(words) = segment.as_mut_array() else {
        return Err(Refusal::Unsound);
    };
    let Some(shares) = blocks.as_mut_array() else {
        return Err(Refusal::Unsound);
    };
    let Some(data) = buffers.as_mut_array() else {
        return Err(Refusal::Unsound);
    };
    lay_out(words, shares, data, file, text);
    Ok(())
}
