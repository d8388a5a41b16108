// What an accepted read or write does to its accessor's row, and how it begins to wait.
ghost use Rattle.std.specs.Prelude.{◌≡◌, ◌*◌, ◌≤◌, ◌<◌, length};
ghost use Rattle.std.proofs.lemmas.List.Edits.{sets};
ghost use Rattle.segment.specs.Layout.{free_list, read_queue, write_queue, desk_places};
ghost use Rattle.segment.specs.Fields.{place_at};
ghost use Rattle.segment.specs.Table.{nth};
ghost use Rattle.rules.specs.Limits.{files, entries, buffer_bytes};
ghost use Rattle.requests.specs.Moves.{queued, waiting};
ghost use Rattle.rules.specs.Buffers.{filled};
ghost use Rattle.buffers.specs.Buffer.{emptied};
ghost use Rattle.transfers.specs.Rows.{may_wait_row, read_entry, write_entry, begun_segment};

use kinds::memories::Buffers;
use segment::forms::{waiting_read, waiting_write};
use segment::{PlaceRow, Segment, layout};

// Marks the row of an accessor whose read is accepted: later ones are not its first, and control 47 "is spent by that read, whatever its outcome".
pub fn begin_read(segment: &mut Segment, place: usize)
    requires { (place < desk_places) × ((place_at segment.old place).side ≡ 1) }
    ensures { segment.new ≡ begun_segment segment.old place }
{
    let at = layout::PLACE_ROWS + layout::PLACE_ROW_WORDS * place;
    segment::put(segment, at + layout::PLACE_KEEP, 0);
    segment::put(segment, at + layout::PLACE_FIRST, 0);
}

// Marks the row of an accessor whose write is accepted: later ones are not its first. Control 47 stays.
pub fn begin_write(segment: &mut Segment, place: usize)
    requires { (place < desk_places) × ((place_at segment.old place).side ≡ 2) }
    ensures { segment.new ≡ begun_segment segment.old place }
{
    let row = layout::PLACE_ROWS + layout::PLACE_ROW_WORDS * place;
    segment::put(segment, row + layout::PLACE_FIRST, 0);
}

// "waits if the other side has an accessor, or extended wait (45) is on, or it is this accessor's first read or write".
#[tactic(auto, using(std::proofs::lemmas::Bool::Decides::nat_tests), unfolding(crate::specs::Rows::may_wait_row))]
pub fn may_wait(others: bool, row: PlaceRow) -> bool
    ensures { result ≡ may_wait_row others row }
{
    others || row.extended == 1 || row.first == 1
}

// Makes a read of at most `limit` bytes wait, with nothing in its buffer.
pub fn wait_read(
    segment: &mut Segment,
    buffers: &mut Buffers,
    f: usize,
    place: usize,
    seconds: u16,
    by_words: bool,
    limit: u16,
    keep: u16,
)
    requires f_lt_files { (f < files) × (place < desk_places) × (nth segment.old free_list < entries) }
    requires free_list_bound { nth (queued segment.old (read_queue f) (read_entry place by_words limit keep)) free_list < entries }
    ensures segment { segment.new ≡ waiting segment.old (read_queue f) (read_entry place by_words limit keep) place seconds }
    ensures buffers { buffers.new ≡ emptied place buffers.old }
{
    let m = waiting_read(place as u16, u16::from(by_words), limit, keep);
    buffers::clear_at(buffers, place);
    requests::wait(segment, layout::READ_QUEUES + f, m, seconds);
}

// Makes a write wait, with its data in its buffer.
pub fn wait_write(
    segment: &mut Segment,
    buffers: &mut Buffers,
    f: usize,
    place: usize,
    seconds: u16,
    by_words: bool,
    data: &[u8],
)
    requires f_lt_files { (f < files) × (place < desk_places) × (length «data».now ≤ buffer_bytes) × (nth segment.old free_list < entries) }
    requires free_list_bound { nth (queued segment.old (write_queue f) (write_entry place by_words (length «data».now))) free_list < entries }
    ensures segment { segment.new ≡ waiting segment.old (write_queue f) (write_entry place by_words (length «data».now)) place seconds }
    ensures buffers { buffers.new ≡ sets buffers.old (buffer_bytes * place) (filled «data».now) }
{
    let m = waiting_write(place as u16, u16::from(by_words), data.len() as u16);
    buffers::fill_at(buffers, place, data);
    requests::wait(segment, layout::WRITE_QUEUES + f, m, seconds);
}
