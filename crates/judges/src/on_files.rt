// Judges build, open and counts.
ghost use Rattle.std.specs.Prelude.{◌≡◌, ◌<◌, IfOk};
ghost use Rattle.kinds.specs.Refusals.{refusal_number};
ghost use Rattle.rules.specs.Limits.{files};
ghost use Rattle.rules.specs.State.{Built};
ghost use Rattle.rules.specs.Calls as calls;
ghost use Rattle.rules.specs.Desk.{on};
ghost use Rattle.accessors.specs.Shown.{Shown};
ghost use Rattle.accessors.specs.Sides.{purges_at};
ghost use Rattle.judges.specs.Verdicts.{open_refusal};
ghost use Rattle.midst.specs.Outcome.{SoundSegment};
ghost use Rattle.judges.specs.Refused.{Refuses};

use crate::sharing::{forbids, has_room, purging, writers_for};
use accessors::sides::count_side;
use accessors::words_of;
use kinds::limits::FILES;
use kinds::refusals::Refusal;
use kinds::sides::CLOSED;
use refusing::{build_refusal, modes_in_range};
use segment::Segment;

pub fn judge_build(
    segment: &Segment,
    file: u8,
    words: u16,
    factor: u8,
    records: u16,
    extents: u8,
) -> Result<(), Refusal>
    requires { SoundSegment segment.now }
    ensures { Refuses segment.now (on file (calls.build words factor records extents)) (refusal_number result) }
{
    if FILES <= file as usize {
        return Err(Refusal::File);
    }
    if let Some(_) = words_of(segment, file as usize) {
        return Err(Refusal::File);
    }
    build_refusal(words, factor, records, extents)
}

// Judges an open of file f, which is built. The closed places are counted once, for 41 and for the purge.
fn open_refusal(
    segment: &Segment,
    f: usize,
    access: u8,
    share: u8,
    multi: u8,
) -> Result<bool, Refusal>
    requires { f < files }
    ensures refusal_value { (b : Built) → Shown segment.now f b → refusal_number result ≡ open_refusal access share multi b }
    ensures purges_value { IfOk result (λ p. p ≡ purges_at segment.now f access) }
{
    if !modes_in_range(access, share, multi) {
        return Err(Refusal::Range);
    }
    let writers = writers_for(segment, f, access);
    if forbids(segment, f, access, share, multi, writers) {
        return Err(Refusal::Sharing);
    }
    let closed = count_side(segment, f, CLOSED);
    if closed == 0 {
        return Err(Refusal::Full);
    }
    if access == 0 {
        return Ok(false);
    }
    let purges = purging(access, closed);
    if !has_room(segment, f, purges, writers) {
        return Err(Refusal::Room);
    }
    Ok(purges)
}

pub fn judge_open(
    segment: &Segment,
    file: u8,
    access: u8,
    share: u8,
    multi: u8,
) -> Result<bool, Refusal>
    requires { SoundSegment segment.now }
    ensures refuses { Refuses segment.now (on file (calls.opens access share multi)) (refusal_number result) }
    ensures purges_value { IfOk result (λ p. p ≡ purges_at segment.now file access) }
{
    let Some(_) = words_of(segment, file as usize) else {
        return Err(Refusal::File);
    };
    open_refusal(segment, file as usize, access, share, multi)
}

pub fn judge_counts(segment: &Segment, file: u8) -> Result<(), Refusal>
    requires { SoundSegment segment.now }
    ensures { Refuses segment.now (on file calls.counts) (refusal_number result) }
{
    let Some(_) = words_of(segment, file as usize) else {
        return Err(Refusal::File);
    };
    Ok(())
}
