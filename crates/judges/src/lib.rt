// Judges events on the shared segment, before anything is changed. Of the refusals, "the lowest that applies is given".
#![tactic(auto)]

ghost use Rattle.std.specs.Prelude.{◌≡◌, false, List, ℕ, IfOk};
ghost use Rattle.kinds.specs.Refusals.{refusal_number};
ghost use Rattle.kinds.specs.declared.Frame.TheVariants as frame;
ghost use Rattle.rules.specs.Desk.{frame_asks};
ghost use Rattle.midst.specs.Outcome.{SoundSegment};
ghost use Rattle.judges.specs.Refused.{Refuses, purges_by};

use kinds::Event;
use kinds::refusals::Refusal;
use segment::Segment;

pub mod control_codes;
pub mod on_accessors;
pub mod on_files;
mod sharing;

// The verdict on an event that purges nothing.
fn plain(verdict: Result<(), Refusal>) -> Result<bool, Refusal>
    ensures { (refusal_number result ≡ refusal_number verdict) × IfOk result (λ p. p ≡ false) }
{
    verdict?;
    Ok(false)
}

// Judges an event, and says of an accepted one whether it purges, found here for the acting functions. The data of a write do not matter.
pub fn judge(segment: &Segment, event: Event) -> Result<bool, Refusal>
    requires { SoundSegment segment.now }
    ensures by_index { (t : List ℕ) → Refuses segment.now (frame_asks (frame.Event event) t) (refusal_number result) }
    ensures purges_value { IfOk result (λ p. p ≡ purges_by segment.now event) }
{
    match event {
        Event::Build {
            file,
            words,
            factor,
            records,
            extents,
        } => plain(on_files::judge_build(segment, file, words, factor, records, extents)),
        Event::Open {
            file,
            access,
            share,
            multi,
        } => on_files::judge_open(segment, file, access, share, multi),
        Event::Read { file, acc, count } => plain(on_accessors::judge_read(
            segment, file, acc, count,
        )),
        Event::Write { file, acc, count } => plain(on_accessors::judge_write(
            segment, file, acc, count,
        )),
        Event::Control { file, acc, control } => plain(control_codes::judge_control(
            segment, file, acc, control,
        )),
        Event::Collect { file, acc } => plain(on_accessors::judge_collect(segment, file, acc)),
        Event::Close { file, acc } => plain(on_accessors::judge_close(segment, file, acc)),
        Event::Time { seconds: _ } => Ok(false),
        Event::Counts { file } => plain(on_files::judge_counts(segment, file)),
    }
}
