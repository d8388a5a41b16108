// Look: "It shows the record lying in that reader's buffer as it will be answered, else the data bytes of the file's oldest data record, as a part
// of whichever memory holds it. Refused, it shows an empty part; a second call gives its status."
// The lent memories may hold anything, and nothing is changed.
#![tactic(auto)]

mod finding;
mod numbered;

ghost use Rattle.std.specs.Prelude.{◌≡◌, ◌≤◌, length};
ghost use Rattle.std.proofs.Math.Option.{Option};
ghost use Rattle.kinds.specs.Refusals.{refusal_number};
ghost use Rattle.rules.specs.Limits.{buffer_bytes};
ghost use Rattle.rules.specs.Desk.{reply_bytes};
ghost use Rattle.rules.specs.Desk as rules;
ghost use Rattle.midst.specs.Outcome.{reply_status};
ghost use Rattle.promises.specs.Promise.{Standing, Seen, reply_of};
ghost use Rattle.promises.specs.Parts.{bytes_of, part_of};
ghost use Rattle.looking.specs.Shown.{part_shown, status_shown, Inside, Tells};
ghost use Rattle.memory.specs.Memories.{was};

pub use finding::Shown;
use finding::find;
use kinds::refusals::Refusal;
pub use numbered::Numbered;
use sound::standing;

// What look shows, for memories of any content.
pub fn shown(
    segment: &[u8],
    blocks: &[u8],
    buffers: &[u8],
    file: usize,
    reader: usize,
) -> Result<Shown, Refusal>
    ensures inside { Inside (length blocks.now) (length buffers.now) result }
    ensures tells { (v : Option Standing) → Seen (was segment.now blocks.now buffers.now) v → Tells (part_of v file reader) (reply_of v (rules.look file reader)) result }
{
    let Some(desk) = standing(segment, blocks, buffers) else {
        return Err(Refusal::Unsound);
    };
    find(desk.segment, desk.blocks, file, reader)
}

// The part of the blocks or of the record buffers that is shown; empty if the call is refused, whatever it is that says so.
pub fn part<'a, E: Copy>(what: Result<Shown, E>, blocks: &'a [u8], buffers: &'a [u8]) -> &'a [u8]
    requires { Inside (length blocks.now) (length buffers.now) what }
    ensures { result.now ≡ bytes_of (part_shown what) blocks.now buffers.now }
{
    let Ok(found) = what else {
        return &blocks[0..0];
    };
    match found {
        Shown::Block { at, size } => &blocks[at..at + size],
        Shown::Buffer { at, size } => &buffers[at..at + size],
    }
}

// The status of a look: 29, 31, 32, 34, 39, or 0. Of a number that refuses, that number.
#[tactic(auto, unfolding(crate::specs::Shown::status_shown))]
pub fn status<E: Numbered>(what: Result<Shown, E>) -> u8
    ensures { result ≡ status_shown E.number what }
{
    match what {
        Ok(Shown::Block { .. }) => 0,
        Ok(Shown::Buffer { .. }) => 0,
        Err(refusal) => refusal.as_number(),
    }
}

// The part that look shows, without the status.
pub fn look<'a>(
    segment: &[u8],
    blocks: &'a [u8],
    buffers: &'a [u8],
    file: usize,
    reader: usize,
) -> &'a [u8]
    ensures part { (v : Option Standing) → Seen (was segment.now blocks.now buffers.now) v → result.now ≡ bytes_of (part_of v file reader) blocks.now buffers.now }
    ensures shown { (v : Option Standing) → Seen (was segment.now blocks.now buffers.now) v → result.now ≡ reply_bytes (reply_of v (rules.look file reader)) }
    ensures short { length result.now ≤ buffer_bytes }
{
    let what = shown(segment, blocks, buffers, file, reader);
    part(what, blocks, buffers)
}

// Says whether a look is refused, without the part.
pub fn look_status(
    segment: &[u8],
    blocks: &[u8],
    buffers: &[u8],
    file: usize,
    reader: usize,
) -> Result<(), Refusal>
    ensures { (v : Option Standing) → Seen (was segment.now blocks.now buffers.now) v → refusal_number result ≡ reply_status (reply_of v (rules.look file reader)) }
{
    shown(segment, blocks, buffers, file, reader)?;
    Ok(())
}
