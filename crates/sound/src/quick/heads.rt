// Fast path for lists that are all empty: if all their heads are nil, all bytes of the heads are 255; one `or` shows it, without a walk. `queues-none` and `ports-none`
// (proofs/quick/Nils.antt): the plain walks then meet nothing. `lists-free`: if all lists but the free list are empty, it alone is to be looked at.
ghost use Rattle.std.specs.Prelude.{◌≡◌, true, List, ℕ, ◌+◌, ◌*◌, ◌≤◌, length};
ghost use Rattle.rules.specs.Limits.{files, places, entries};
ghost use Rattle.segment.specs.Layout.{free_list};
ghost use Rattle.sound.specs.quick.Ones.{ones};
ghost use Rattle.sound.specs.quick.Ends.{free_ends};
ghost use Rattle.sound.specs.Sound.{lists_ok};
ghost use Rattle.sound.specs.Walks.{walked, queue_walks, port_walks};

use kinds::limits::{FILES, PLACES};
use kinds::sides::WRITER;
use segment::{Segment, layout};

// The value of each byte of nil.
const NIL_BYTE: u8 = 255;

// The number of lists besides the free list: all after it.
const OTHER_LISTS: usize = layout::LISTS - layout::READ_QUEUES;

// Whether n bytes, starting at `at`, are all bytes of nil.
#[tactic(auto, using(crate::proofs::Ors::ones_none, crate::proofs::Ors::ones_more, crate::proofs::Ors::ones_all))]
fn ones(s: &[u8], at: usize, n: usize) -> bool
    requires { at + n ≤ length s.now }
    ensures { result ≡ ones s.now at n }
{
    let mut all = 0;
    for b in &s[at..at + n] {
        all |= *b ^ NIL_BYTE;
    }
    all == 0
}

// Whether nothing waits on that side in any file.
pub fn no_queues(s: &Segment, side: u16) -> bool
    ensures { result ≡ true → (seen busy : List ℕ) → queue_walks s.now side 0 seen busy files ≡ walked true seen busy }
{
    if side == WRITER {
        return ones(s, 2 * layout::WRITE_QUEUES, 2 * FILES);
    }
    ones(s, 2 * layout::READ_QUEUES, 2 * FILES)
}

// Whether every list but the free list is empty.
pub fn no_requests(s: &Segment) -> bool
    ensures { result ≡ true → lists_ok s.now ≡ free_ends s.now free_list entries }
{
    ones(s, 2 * layout::READ_QUEUES, 2 * OTHER_LISTS)
}

// Whether no request is completed.
pub fn no_replies(s: &Segment) -> bool
    ensures { result ≡ true → (seen busy : List ℕ) → port_walks s.now 0 seen busy (files * places) ≡ walked true seen busy }
{
    ones(s, 2 * layout::REPLY_PORTS, 2 * FILES * PLACES)
}
