// Why a line of a session is no frame, and the remark that says so: the first line of each kind of fault is told, with its number.
#![tactic(auto)]

mod decimals;
mod reading;
mod remarks;
mod telling;

pub use reading::{Fault, fault_of};
pub use remarks::{REMARK_ROOM, put_remark};
pub use telling::{Heard, Told, hear, unheard};
