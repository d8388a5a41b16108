// The midst of a call: the file that the call names is in hand, as numbers by value, and is written back when the call is done.
#![tactic(auto)]

ghost use Rattle.std.specs.Prelude.{◌≡◌, ◌<◌};
ghost use Rattle.rules.specs.Limits.{files};
ghost use Rattle.segment.specs.Layout.{file_row_at};
ghost use Rattle.segment.specs.Table.{fill};
ghost use Rattle.segment.specs.Fields.{file_at};
ghost use Rattle.midst.specs.File.{file_of_row, file_row_words, RowStands};

use ring::Ring;
use segment::{FileRow, Segment, layout};

// A file in hand: R, and the ring of its blocks.
#[derive(Clone, Copy)]
pub struct File {
    pub words: u16,
    pub ring: Ring,
}

// Takes file f in hand, as its row in the segment says.
pub fn take_file(segment: &Segment, f: usize) -> File
    requires { f < files }
    ensures { result ≡ file_of_row (file_at segment.now f) }
{
    let row = segment::read_file(segment, f);
    File {
        words: row.words,
        ring: Ring {
            factor: row.factor,
            blocks: row.blocks,
            block: row.block,
            spent: row.spent,
            held: row.held,
        },
    }
}

// Writes the file in hand back into the row of file f.
pub fn put_file(segment: &mut Segment, f: usize, file: File)
    requires { f < files }
    ensures { segment.new ≡ fill segment.old (file_row_at f) (file_row_words file) }
{
    let ring = file.ring;
    let row = FileRow {
        words: file.words,
        factor: ring.factor,
        blocks: ring.blocks,
        block: ring.block,
        spent: ring.spent,
        held: ring.held,
    };
    segment::write_file(segment, f, row);
}

// Writes only the three ring words back: oldest block, spent and held. The row of file f already holds the rest.
pub fn put_ring(segment: &mut Segment, f: usize, file: File)
    requires f_lt_files { f < files }
    requires row_stands { RowStands segment.old f file }
    ensures { segment.new ≡ fill segment.old (file_row_at f) (file_row_words file) }
{
    let at = layout::FILE_ROWS + layout::FILE_ROW_WORDS * f;
    let ring = file.ring;
    segment::put(segment, at + layout::FILE_BLOCK, ring.block);
    segment::put(segment, at + layout::FILE_SPENT, ring.spent);
    segment::put(segment, at + layout::FILE_HELD, ring.held);
}
