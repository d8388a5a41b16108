// Save writes a file's sheet into the output. "Save also gives the length, 0 if refused; output behind it stays."
#![tactic(auto)]

mod writing;

ghost use Rattle.std.specs.Prelude.{◌≤◌, length, IfOk};
ghost use Rattle.memory.specs.Memories.{was};
ghost use Rattle.midst.specs.FileStands.{FileStands};
ghost use Rattle.kinds.specs.Refusals.{refusal_number, length_of};
ghost use Rattle.saving.specs.Sheets.{SavesFile};
ghost use Rattle.promises.specs.Promise.{written, Promise};
ghost use Rattle.promises.specs.Promise as host;

use accessors::words_of;
use kinds::limits::SHARE_BYTES;
use kinds::memories::Blocks;
use kinds::refusals::Refusal;
use segment::Segment;
use sound::standing;
use writing::{sheet_length, write_sheet};

// Output length that is enough for every sheet: two digits for each byte of the share.
pub const SHEET_ROOM: usize = 2 * SHARE_BYTES;

// Saves a file that is built, and gives the length of the sheet, if the output is long enough.
fn save_file(
    segment: &Segment,
    blocks: &Blocks,
    file: usize,
    output: &mut [u8],
) -> Result<usize, Refusal>
    requires { FileStands segment.now blocks.now file }
    ensures saved { SavesFile segment.now blocks.now file output.old (written (refusal_number result) (length_of result) output.new) }
    ensures fits { IfOk result (λ n. n ≤ length output.old) }
{
    let taken = midst::take_file(segment, file);
    let share = blocks::by_file::share(blocks, file);
    let length = sheet_length(share, taken.ring, taken.words);
    if output.len() < length {
        return Err(Refusal::Short);
    }
    write_sheet(share, taken.ring, taken.words, output);
    Ok(length)
}

// Writes a file's sheet, starting at the first byte of the output, and gives its length. Refused with 29: a memory has the wrong length or is unsound; 31: file above 7 or not built;
// 44: output too short. Then nothing is written.
pub fn save(
    segment: &[u8],
    blocks: &[u8],
    buffers: &[u8],
    file: usize,
    output: &mut [u8],
) -> Result<usize, Refusal>
    ensures saved { Promise (was segment.now blocks.now buffers.now) (host.save file output.old) (written (refusal_number result) (length_of result) output.new) (was segment.now blocks.now buffers.now) }
    ensures fits { IfOk result (λ n. n ≤ length output.old) }
{
    let Some(desk) = standing(segment, blocks, buffers) else {
        return Err(Refusal::Unsound);
    };
    let Some(_) = words_of(desk.segment, file) else {
        return Err(Refusal::File);
    };
    save_file(desk.segment, desk.blocks, file, output)
}
