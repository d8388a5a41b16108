// Finds what look shows, as numbers: a refusal, or where the bytes lie and how many there are.
ghost use Rattle.kinds.specs.declared.Outstanding.TheVariants.{Completed};
ghost use Rattle.midst.specs.FileStands.{FileStands};
ghost use Rattle.midst.specs.Outcome.{SoundBlocks};
ghost use Rattle.looking.specs.Shown.{OfFile, OfReader, Finds, Opens, ReaderOpens};

use accessors::accessor_of;
use kinds::Outstanding;
use kinds::limits::{BUFFER_BYTES, PLACES, SHARE_BYTES};
use kinds::memories::Blocks;
use kinds::refusals::Refusal;
use kinds::sides::WRITER;
use ring::layout::RECORD_HEAD;
use segment::{Segment, layout};

// The bytes that look shows: `size` bytes of the blocks, or of the record buffers, starting at `at`.
#[derive(Clone, Copy)]
pub enum Shown {
    Block { at: usize, size: usize },
    Buffer { at: usize, size: usize },
}

// "the data bytes of the file's oldest data record".
fn of_file(segment: &Segment, blocks: &Blocks, f: usize) -> Result<Shown, Refusal>
    requires { FileStands segment.now blocks.now f }
    ensures { Finds (OfFile f) segment.now blocks.now result }
{
    let file = midst::take_file(segment, f);
    let share = blocks::by_file::share(blocks, f);
    let Some(at) = records::fetch::oldest(share, file.ring, file.words) else {
        return Err(Refusal::Nothing);
    };
    let record = records::reading::header(share, at);
    Ok(Shown::Block {
        at: SHARE_BYTES * f + at + RECORD_HEAD,
        size: record.size as usize,
    })
}

// "the record lying in that reader's buffer as it will be answered"; if the read brought none, the file's oldest data record.
fn of_completed(segment: &Segment, blocks: &Blocks, f: usize, acc: usize) -> Result<Shown, Refusal>
    requires { ReaderOpens segment.now blocks.now f acc Completed }
    ensures { Finds (OfReader f acc) segment.now blocks.now result }
{
    let place = PLACES * f + acc;
    let e = segment::get(segment, layout::REPLY_PORTS + place);
    let request = segment::read_entry(segment, e);
    if request.status != 0 {
        return of_file(segment, blocks, f);
    }
    Ok(Shown::Buffer {
        at: BUFFER_BYTES * place,
        size: request.size as usize,
    })
}

// What look shows to an open accessor.
fn of_accessor(
    segment: &Segment,
    blocks: &Blocks,
    f: usize,
    acc: usize,
    side: u16,
    request: Outstanding,
) -> Result<Shown, Refusal>
    requires { Opens segment.now blocks.now f acc side request }
    ensures { Finds (OfReader f acc) segment.now blocks.now result }
{
    if side == WRITER {
        return Err(Refusal::Side);
    }
    match request {
        Outstanding::Nothing => of_file(segment, blocks, f),
        Outstanding::Waiting => of_file(segment, blocks, f),
        Outstanding::Completed => of_completed(segment, blocks, f, acc),
    }
}

// What look shows to the accessor that the call names.
pub fn find(
    segment: &Segment,
    blocks: &Blocks,
    file: usize,
    reader: usize,
) -> Result<Shown, Refusal>
    requires { SoundBlocks segment.now blocks.now }
    ensures { Finds (OfReader file reader) segment.now blocks.now result }
{
    let named = accessor_of(segment, file, reader)?;
    of_accessor(segment, blocks, file, reader, named.side, named.request)
}
