// Judges read, write, collect and close.
ghost use Rattle.std.specs.Prelude.{List, ℕ};
ghost use Rattle.kinds.specs.Refusals.{refusal_number};
ghost use Rattle.rules.specs.Calls as calls;
ghost use Rattle.rules.specs.Desk.{on};
ghost use Rattle.midst.specs.Outcome.{SoundSegment};
ghost use Rattle.judges.specs.Refused.{Refuses};

use accessors::accessor_of;
use kinds::refusals::Refusal;
use refusing::{close_refusal, nothing_refusal, read_refusal, write_refusal};
use segment::Segment;

pub fn judge_read(segment: &Segment, file: u8, acc: u8, count: u16) -> Result<(), Refusal>
    requires { SoundSegment segment.now }
    ensures { Refuses segment.now (on file (calls.read acc count)) (refusal_number result) }
{
    let named = accessor_of(segment, file as usize, acc as usize)?;
    read_refusal(named.side, named.request, count)
}

// Judges a write. Its data do not matter.
pub fn judge_write(segment: &Segment, file: u8, acc: u8, count: u16) -> Result<(), Refusal>
    requires { SoundSegment segment.now }
    ensures { (t : List ℕ) → Refuses segment.now (on file (calls.write acc count t)) (refusal_number result) }
{
    let named = accessor_of(segment, file as usize, acc as usize)?;
    write_refusal(named.words, named.side, named.request, count)
}

pub fn judge_collect(segment: &Segment, file: u8, acc: u8) -> Result<(), Refusal>
    requires { SoundSegment segment.now }
    ensures { Refuses segment.now (on file (calls.collect acc)) (refusal_number result) }
{
    let named = accessor_of(segment, file as usize, acc as usize)?;
    nothing_refusal(named.request)
}

pub fn judge_close(segment: &Segment, file: u8, acc: u8) -> Result<(), Refusal>
    requires { SoundSegment segment.now }
    ensures { Refuses segment.now (on file (calls.close acc)) (refusal_number result) }
{
    let named = accessor_of(segment, file as usize, acc as usize)?;
    close_refusal(named.request)
}
