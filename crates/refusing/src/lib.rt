// Whether an event is refused, and with which number, from numbers alone: the file's R, the accessor's side, what it has outstanding, and the event's own.
// No memory is lent: a desk kept in any form can look these numbers up and ask here. "the lowest that applies is given"
#![tactic(auto)]

ghost use Rattle.std.specs.Prelude.{◌≡◌};
ghost use Rattle.kinds.specs.Refusals.{refusal_number};
ghost use Rattle.refusing.specs.Verdicts.{free, while_free, nothing_refusal, read_refusal, write_refusal, close_refusal, switch_refusal, reader_refusal, control_refusal, code_refusal, build_refusal, modes_in_range};

use kinds::limits::MOST_MODE;
use kinds::refusals::Refusal;
use kinds::sides::WRITER;
use kinds::{Control, Outstanding};

// The largest value of a setting, "with 0 or 1".
const MOST_SETTING: u16 = 1;

fn is_free(request: Outstanding) -> bool
    ensures { result ≡ free request }
{
    match request {
        Outstanding::Nothing => true,
        Outstanding::Waiting => false,
        Outstanding::Completed => false,
    }
}

pub fn read_refusal(side: u16, request: Outstanding, count: u16) -> Result<(), Refusal>
    ensures { refusal_number result ≡ read_refusal count side request }
{
    if !is_free(request) {
        return Err(Refusal::Outstanding);
    }
    if side == WRITER {
        return Err(Refusal::Side);
    }
    if !transfer_counts::readable(count) {
        return Err(Refusal::Range);
    }
    Ok(())
}

// The refusal number of a write, which has at most 2R bytes.
pub fn write_refusal(words: u16, side: u16, request: Outstanding, count: u16) -> Result<(), Refusal>
    ensures { refusal_number result ≡ write_refusal count words side request }
{
    if !is_free(request) {
        return Err(Refusal::Outstanding);
    }
    if side != WRITER {
        return Err(Refusal::Side);
    }
    if 2 * (words as u32) < transfer_counts::count_bytes(count) {
        return Err(Refusal::Range);
    }
    Ok(())
}

// The refusal number of collect, and of control 43.
pub fn nothing_refusal(request: Outstanding) -> Result<(), Refusal>
    ensures { refusal_number result ≡ nothing_refusal request }
{
    if is_free(request) {
        return Err(Refusal::Nothing);
    }
    Ok(())
}

pub fn close_refusal(request: Outstanding) -> Result<(), Refusal>
    ensures { refusal_number result ≡ close_refusal request }
{
    match request {
        Outstanding::Nothing => Ok(()),
        Outstanding::Waiting => Ok(()),
        Outstanding::Completed => Err(Refusal::Outstanding),
    }
}

// The refusal of a control that gets `otherwise` if nothing is outstanding.
fn while_free(request: Outstanding, otherwise: Result<(), Refusal>) -> Result<(), Refusal>
    ensures { refusal_number result ≡ while_free request (refusal_number otherwise) }
{
    if is_free(request) {
        return otherwise;
    }
    Err(Refusal::Outstanding)
}

fn switch_refusal(value: u16) -> Result<(), Refusal>
    ensures { refusal_number result ≡ switch_refusal value }
{
    if value <= MOST_SETTING {
        return Ok(());
    }
    Err(Refusal::Range)
}

fn reader_refusal(side: u16, value: u16) -> Result<(), Refusal>
    ensures { refusal_number result ≡ reader_refusal side value }
{
    if side == WRITER {
        return Err(Refusal::Side);
    }
    switch_refusal(value)
}

pub fn control_refusal(side: u16, request: Outstanding, control: Control) -> Result<(), Refusal>
    ensures { refusal_number result ≡ control_refusal control side request }
{
    match control {
        Control::Timeout(_) => while_free(request, Ok(())),
        Control::Verify(_) => while_free(request, Ok(())),
        Control::Abort(_) => nothing_refusal(request),
        Control::Extended(value) => while_free(request, switch_refusal(value)),
        Control::Typed(value) => while_free(request, reader_refusal(side, value)),
        Control::Keep(value) => while_free(request, reader_refusal(side, value)),
    }
}

// The refusal number of a control event whose code is none of the six.
pub fn code_refusal(request: Outstanding) -> Result<(), Refusal>
    ensures { refusal_number result ≡ code_refusal request }
{
    while_free(request, Err(Refusal::Range))
}

// The refusal number of a build of a file that is not built.
pub fn build_refusal(words: u16, factor: u8, records: u16, extents: u8) -> Result<(), Refusal>
    ensures { refusal_number result ≡ build_refusal words factor records extents }
{
    if !geometry::in_range(words, factor, records, extents) {
        return Err(Refusal::Range);
    }
    let blocks = geometry::data_blocks(records, factor, extents);
    if !geometry::fits_share(words, factor, blocks) {
        return Err(Refusal::Size);
    }
    Ok(())
}

// Whether the numbers of an open are in their ranges.
pub fn modes_in_range(access: u8, share: u8, multi: u8) -> bool
    ensures { result ≡ modes_in_range access share multi }
{
    if MOST_MODE < access {
        return false;
    }
    if MOST_MODE < share {
        return false;
    }
    multi <= MOST_MODE
}
