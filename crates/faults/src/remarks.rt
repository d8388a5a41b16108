// Puts the remark on a line that is no frame into lent memory.
ghost use Rattle.std.specs.Prelude.{◌≡◌, ◌≤◌, length};
ghost use Rattle.texts.specs.Put.{Put};
ghost use Rattle.faults.specs.Remarks.{reason, reason_room, remark_line, remark, remark_room};

use crate::decimals::put_decimal;
use crate::reading::Fault;
use crate::telling::{Heard, is_told, next_line};
use texts::put_text;

// The most bytes of a remark.
pub const REMARK_ROOM: usize = 90;

// Why a line with this fault is no frame.
#[tactic(auto, unfolding(crate::specs::Remarks::reason, texts::specs::Spell::spell))]
fn reason(fault: Fault) -> &'static [u8]
    ensures text { result.now ≡ reason fault }
    ensures short { length result.now ≤ reason_room }
{
    match fault {
        Fault::Blank => b"it is empty",
        Fault::Lower => b"it has lower-case digits",
        Fault::Return => b"it has a carriage return",
        Fault::Strange => b"it has a character that is no digit",
        Fault::Long => b"it has more than 522 digits",
        Fault::Odd => b"it has an odd number of digits",
    }
}

// Puts the remark on line n, whose fault this is.
fn put_line(out: &mut [u8], n: u64, fault: Fault) -> usize
    requires { remark_room ≤ length out.old }
    ensures { Put remark_room out.old 0 (remark_line n fault) out.new result }
{
    let a = put_text(out, 0, b"line ");
    let b = put_decimal(out, a, n);
    let c = put_text(out, b, b" is taken as an empty frame: ");
    let d = put_text(out, c, reason(fault));
    put_text(out, d, b"\n")
}

// Puts the remark on the line that ends and has this fault, or none, and gives its length: 0 if there is none to make.
pub fn put_remark(out: &mut [u8], heard: Heard, fault: Option<Fault>) -> usize
    requires { remark_room ≤ length out.old }
    ensures { Put remark_room out.old 0 (remark heard fault) out.new result }
{
    let Some(fault) = fault else {
        return 0;
    };
    if is_told(heard.told, Some(fault)) {
        return 0;
    }
    put_line(out, next_line(heard.lines), fault)
}
