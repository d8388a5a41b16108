// Judges control: the six controls, and any other code.
ghost use Rattle.std.proofs.Math.Option.{none, some};
ghost use Rattle.kinds.specs.Refusals.{refusal_number};
ghost use Rattle.rules.specs.Calls as calls;
ghost use Rattle.rules.specs.Desk.{on};
ghost use Rattle.midst.specs.Outcome.{SoundSegment};
ghost use Rattle.judges.specs.Refused.{Refuses};

use accessors::accessor_of;
use kinds::Control;
use kinds::refusals::Refusal;
use refusing::{code_refusal, control_refusal};
use segment::Segment;

pub fn judge_control(segment: &Segment, file: u8, acc: u8, control: Control) -> Result<(), Refusal>
    requires { SoundSegment segment.now }
    ensures { Refuses segment.now (on file (calls.control acc (some control))) (refusal_number result) }
{
    let named = accessor_of(segment, file as usize, acc as usize)?;
    control_refusal(named.side, named.request, control)
}

// Judges a control event whose code is none of the six.
pub fn judge_code(segment: &Segment, file: u8, acc: u8) -> Result<(), Refusal>
    requires { SoundSegment segment.now }
    ensures { Refuses segment.now (on file (calls.control acc none)) (refusal_number result) }
{
    let named = accessor_of(segment, file as usize, acc as usize)?;
    code_refusal(named.request)
}
