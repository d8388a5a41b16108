// The segment, word by word: heads and links, entries, the rows of files and of places. docs/SEGMENT.md has the picture.
// The words may hold anything: a caller with a bad segment reads numbers and stays inside the segment.
// Kept: the bounds of entries, files and places are clauses on numbers: a type for each would ask more of the callers, whose numbers are words and sums.
#![tactic(auto)]

ghost use Rattle.std.specs.Prelude.{◌≡◌, ◌+◌, ◌<◌, ◌≤◌};
ghost use Rattle.rules.specs.Limits.{files, entries};
ghost use Rattle.segment.specs.Layout.{desk_places, link_at, data_at, data_words, file_width, place_width, file_rows, file_row_at, place_row_at, segment_words};
ghost use Rattle.segment.specs.Table.{nth, put_nth, row, fill, put_data};
ghost use Rattle.segment.specs.Fields.{entry_words, file_words, place_words, entry_at, file_at, place_at};

mod conversions;
pub mod forms;
pub mod layout;

// The segment's bytes.
pub type Segment = [u8; layout::SEGMENT_BYTES];

// The data of an entry: of a waiting or completed request, or of a timer, which has only a place and seconds.
// Kept: the fields are words, here and in the rows, and no enums or bools: `read_entry` and its like promise what stands in any memory, sound or not.
#[derive(Clone, Copy, Default)]
pub struct Entry {
    // 8 × file + accessor
    pub place: u16,
    // 1 if the count asked was in words
    pub unit: u16,
    pub limit: u16,
    pub keep: u16,
    pub status: u16,
    pub log: u16,
    pub size: u16,
    pub seconds: u16,
}

// The row of a file: R, B and D; the oldest block, the records spent in it, and the records held.
#[derive(Clone, Copy, Default)]
pub struct FileRow {
    pub words: u16,
    pub factor: u16,
    pub blocks: u16,
    pub block: u16,
    pub spent: u16,
    pub held: u16,
}

// The row of an accessor place.
#[derive(Clone, Copy, Default)]
pub struct PlaceRow {
    // 0 not open, 1 a reader, 2 a writer
    pub side: u16,
    pub id: u16,
    pub share: u16,
    pub timeout: u16,
    pub extended: u16,
    pub typed: u16,
    pub keep: u16,
    pub first: u16,
}

// Word k of the segment.
#[tactic(auto, unfolding(crate::specs::Table::nth))]
pub fn get(s: &Segment, k: usize) -> u16
    requires { k < segment_words }
    ensures { result ≡ nth s.now k }
{
    words::get(s, 2 * k)
}

// Stores v as word k.
#[tactic(auto, unfolding(crate::specs::Table::put_nth))]
pub fn put(s: &mut Segment, k: usize, v: u16)
    requires { k < segment_words }
    ensures { s.new ≡ put_nth s.old k v }
{
    words::put(s, 2 * k, v);
}

// The N words of the segment that begin with word k.
fn get_row<const N: usize>(s: &Segment, k: usize) -> [u16; N]
    requires { k + N ≤ segment_words }
    ensures { result ≡ row s.now k N }
{
    let mut vs = [0; N];
    for (i, v) in vs.iter_mut().enumerate() {
        *v = get(s, k + i);
    }
    vs
}

// Stores the words vs, starting at word k.
fn put_row<const N: usize>(s: &mut Segment, k: usize, vs: [u16; N])
    requires { k + N ≤ segment_words }
    ensures { s.new ≡ fill s.old k vs.entry }
{
    for (i, v) in vs.iter().enumerate() {
        put(s, k + i, *v);
    }
}

// The number of the word that is entry e's link.
pub fn link_at(e: u16) -> usize
    requires { e < entries }
    ensures { (result ≡ link_at e) × (result < file_rows) }
{
    layout::LINKS + layout::ENTRY_WORDS * (e as usize)
}

// The number of the first word of entry e's data.
fn data_at(e: u16) -> usize
    requires { e < entries }
    ensures { (result ≡ data_at e) × (result + data_words ≤ segment_words) }
{
    layout::DATA + layout::ENTRY_WORDS * (e as usize)
}

// The number of the first word of file f's row.
fn file_at(f: usize) -> usize
    requires { f < files }
    ensures { (result ≡ file_row_at f) × (result + file_width ≤ segment_words) }
{
    layout::FILE_ROWS + layout::FILE_ROW_WORDS * f
}

// The number of the first word of place i's row.
fn place_at(i: usize) -> usize
    requires { i < desk_places }
    ensures { (result ≡ place_row_at i) × (result + place_width ≤ segment_words) }
{
    layout::PLACE_ROWS + layout::PLACE_ROW_WORDS * i
}

// Reads entry e's data.
#[tactic(auto, unfolding(crate::specs::Fields::entry_at, crate::specs::Table::data_of))]
pub fn read_entry(s: &Segment, e: u16) -> Entry
    requires { e < entries }
    ensures { result ≡ entry_at s.now e }
{
    Entry::from(get_row(s, data_at(e)))
}

// Makes m the data of entry e.
#[tactic(auto, unfolding(crate::specs::Table::put_data))]
pub fn write_entry(s: &mut Segment, e: u16, m: Entry)
    requires { e < entries }
    ensures { s.new ≡ put_data s.old e (entry_words m) }
{
    put_row(s, data_at(e), m.into());
}

// The place of entry e. The compiler drops the loads of the other words, here and in the functions like it.
pub fn entry_place(s: &Segment, e: u16) -> u16
    requires { e < entries }
    ensures { result ≡ (entry_at s.now e).place }
{
    read_entry(s, e).place
}

// The seconds of entry e.
pub fn entry_seconds(s: &Segment, e: u16) -> u16
    requires { e < entries }
    ensures { result ≡ (entry_at s.now e).seconds }
{
    read_entry(s, e).seconds
}

// Reads the row of file f.
#[tactic(auto, unfolding(crate::specs::Fields::file_at))]
pub fn read_file(s: &Segment, f: usize) -> FileRow
    requires { f < files }
    ensures { result ≡ file_at s.now f }
{
    FileRow::from(get_row(s, file_at(f)))
}

// Makes r the row of file f.
pub fn write_file(s: &mut Segment, f: usize, r: FileRow)
    requires { f < files }
    ensures { s.new ≡ fill s.old (file_row_at f) (file_words r) }
{
    put_row(s, file_at(f), r.into());
}

// Reads the row of place i.
#[tactic(auto, unfolding(crate::specs::Fields::place_at))]
pub fn read_place(s: &Segment, i: usize) -> PlaceRow
    requires { i < desk_places }
    ensures { result ≡ place_at s.now i }
{
    PlaceRow::from(get_row(s, place_at(i)))
}

// The side of place i.
pub fn place_side(s: &Segment, i: usize) -> u16
    requires { i < desk_places }
    ensures { result ≡ (place_at s.now i).side }
{
    read_place(s, i).side
}

// The ID of place i.
pub fn place_id(s: &Segment, i: usize) -> u16
    requires { i < desk_places }
    ensures { result ≡ (place_at s.now i).id }
{
    read_place(s, i).id
}

// Control 46 of place i.
pub fn place_typed(s: &Segment, i: usize) -> u16
    requires { i < desk_places }
    ensures { result ≡ (place_at s.now i).typed }
{
    read_place(s, i).typed
}

// Control 47 of place i.
pub fn place_keep(s: &Segment, i: usize) -> u16
    requires { i < desk_places }
    ensures { result ≡ (place_at s.now i).keep }
{
    read_place(s, i).keep
}

// Makes r the row of place i.
pub fn write_place(s: &mut Segment, i: usize, r: PlaceRow)
    requires { i < desk_places }
    ensures { s.new ≡ fill s.old (place_row_at i) (place_words r) }
{
    put_row(s, place_at(i), r.into());
}
