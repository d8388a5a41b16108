// Counts: "data records, all records, writers, readers", of a file that is built.
#![tactic(auto)]

ghost use Rattle.std.specs.Prelude.{◌≡◌, cond, List, ℕ, ◌≤◌, eqb};
ghost use Rattle.rules.specs.State.{Built, built};
ghost use Rattle.rules.specs.Reply.{answering};
ghost use Rattle.rules.specs.FileCounts as counting;
ghost use Rattle.rules.specs.Desk.{Desk, file_of};
ghost use Rattle.rules.specs.Allocation.{Alloc};
ghost use Rattle.ring.specs.Held.{Held};
ghost use Rattle.memory.specs.Memories.{memories};
ghost use Rattle.memory.specs.Fine.{StandsFor};
ghost use Rattle.records.specs.Cursor.{held_recs};
ghost use Rattle.midst.specs.FileStands.{FileStands};

use accessors::sides::count_side;
use kinds::Answer;
use kinds::memories::Blocks;
use kinds::record_types::DATA;
use kinds::sides::{READER, WRITER};
use records::cursor::first;
use ring::Ring;
use segment::Segment;

// What a record of that type adds to the count of data records.
fn data_count(typ: u16) -> u16
    ensures { (result ≡ cond (eqb typ 0) 1 0) × (result ≤ 1) }
{
    if typ == DATA {
        return 1;
    }
    0
}

// How many of the records that the ring holds are data records.
fn data_records(share: &[u8], ring: Ring, words: u16) -> u16
    requires { Held words ring share.now }
    ensures { result ≡ counting.data_count (held_recs words ring share.now) }
{
    let mut cursor = first(share, ring, words);
    let mut found: u16 = 0;
    while cursor.ring.held > 0 {
        let record = records::reading::header(share, cursor.at);
        found += data_count(record.typ);
        cursor = cursor.next(share, words);
    }
    found
}

// The counts of file f.
pub fn counts(segment: &Segment, blocks: &Blocks, f: usize) -> Answer
    requires { FileStands segment.now blocks.now f }
    ensures { (buffers : List ℕ) (d : Desk) (s : Alloc) (b : Built) → StandsFor (memories segment.now blocks.now buffers) d s → file_of d f ≡ built b → counting.counts b ≡ answering result b }
{
    let file = midst::take_file(segment, f);
    let ring = file.ring;
    let share = blocks::by_file::share(blocks, f);
    let records = data_records(share, ring, file.words);
    let writers = count_side(segment, f, WRITER);
    let readers = count_side(segment, f, READER);
    Answer::Counted {
        records,
        all: ring.held,
        writers,
        readers,
    }
}
