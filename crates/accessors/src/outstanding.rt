// What is outstanding at a place, as the lists of the segment say.
ghost use Rattle.std.specs.Prelude.{◌≡◌, ◌<◌};
ghost use Rattle.rules.specs.Limits.{files, places};
ghost use Rattle.segment.specs.Layout.{reply_ports};
ghost use Rattle.accessors.specs.Outstanding.{queue_of, outstanding_at};

use kinds::Outstanding;
use kinds::limits::PLACES;
use kinds::sides::WRITER;
use segment::{Segment, layout};

// The queue of file f in which the accessors of that side wait.
pub fn queue_of(f: usize, side: u16) -> usize
    requires { f < files }
    ensures { (result ≡ queue_of f side) × (result < reply_ports) }
{
    if side == WRITER {
        layout::WRITE_QUEUES + f
    } else {
        layout::READ_QUEUES + f
    }
}

// What is outstanding at place acc of file f, whose accessor is on that side.
#[tactic(auto, using(ports::proofs::Steps::seek_stop, std::proofs::lemmas::Bool::Decides::nat_tests), unfolding(crate::specs::Outstanding::outstanding_at))]
pub fn outstanding_at(segment: &Segment, f: usize, acc: usize, side: u16) -> Outstanding
    requires { (f < files) × (acc < places) }
    ensures { result ≡ outstanding_at segment.now f acc side }
{
    let place = PLACES * f + acc;
    if segment::get(segment, layout::REPLY_PORTS + place) < layout::ENTRIES {
        return Outstanding::Completed;
    }
    let queue = queue_of(f, side);
    // most often nobody waits: then there is nothing to look for
    if segment::get(segment, queue) >= layout::ENTRIES {
        return Outstanding::Nothing;
    }
    let slot = ports::seek_place(segment, queue, place as u16);
    if segment::get(segment, slot) < layout::ENTRIES {
        return Outstanding::Waiting;
    }
    Outstanding::Nothing
}
