// Bytes of an entry: all of its data in three loads. `whole` (proofs/quick/Entry.antt): these are zero exactly if the words are.
ghost use Rattle.std.specs.Prelude.{◌≡◌, ◌+◌, ◌≤◌};
ghost use Rattle.segment.specs.Layout.{data_words, segment_words};
ghost use Rattle.sound.specs.Rows.{zero_words};

use segment::Segment;
use words::joined::{eight, four};

// Whether the nine words of an entry's data, starting at word k, are zero: three loads for eighteen bytes, the last one reading six of them again.
pub fn bare(s: &Segment, k: usize) -> bool
    requires { k + data_words ≤ segment_words }
    ensures { result ≡ zero_words s.now k data_words }
{
    let at = 2 * k;
    if eight(s, at) != 0 {
        return false;
    }
    if eight(s, at + 8) != 0 {
        return false;
    }
    eight(s, at + 10) == 0
}

// Whether the two words at k are zero: one load. LLVM makes eight instructions of `zero_words` for two words.
pub fn two_bare(s: &Segment, k: usize) -> bool
    requires { k + 2 ≤ segment_words }
    ensures { result ≡ zero_words s.now k 2 }
{
    four(s, 2 * k) == 0
}
