// The lists of the segment. A slot is the number of a word that holds an entry's number or nil: a list's head, or an entry's link. The first slot of
// a list is its head, whose number is the list's. Slots lie before the rows.
// A word that is not an entry's number ends a walk, and no walk follows more links than there are entries: no memory can lead a walk out of the segment or in circles.
#![tactic(auto)]

ghost use Rattle.std.specs.Prelude.{◌≡◌, ℕ, ◌<◌, Bool, List};
ghost use Rattle.rules.specs.Limits.{entries};
ghost use Rattle.segment.specs.Layout.{free_list, file_rows};
ghost use Rattle.segment.specs.Table.{nth};
ghost use Rattle.segment.specs.Fields.{entry_words};
ghost use Rattle.ports.specs.Slots.{end_slot, seek, has, over, IsTestOf, insert, unlink, append, taken, released};

use segment::{Entry, Segment, layout};

// The first slot of the list at slot l whose entry passes the test, or the slot at the list's end.
fn seek<F: Fn(Entry) -> bool>(s: &Segment, l: usize, passes: F) -> usize
    requires l_lt_file_rows { l < file_rows }
    requires callable { F.IsAlwaysCallable passes }
    ensures found { (t : List ℕ → Bool) → IsTestOf (F.post passes) s.now t → result ≡ seek t s.now l entries }
    ensures slot { result < file_rows }
{
    let mut p = l;
    for _ in 0..layout::ENTRIES {
        let e = segment::get(s, p);
        if layout::ENTRIES <= e || passes(segment::read_entry(s, e)) {
            return p;
        }
        p = segment::link_at(e);
    }
    p
}

// The slot at the end of the list at slot l.
fn end_slot(s: &Segment, l: usize) -> usize
    requires { l < file_rows }
    ensures { (result ≡ end_slot s.now l entries) × (result < file_rows) }
{
    seek(s, l, |_| false)
}

// The first slot of the list at slot l whose entry belongs to the place, or the slot at the list's end.
#[tactic(auto, unfolding(segment::specs::Fields::entry_at, segment::specs::Fields::entry_of))]
pub fn seek_place(s: &Segment, l: usize, place: u16) -> usize
    requires { l < file_rows }
    ensures { (result ≡ seek (has 0 place) s.now l entries) × (result < file_rows) }
{
    seek(s, l, |m| m.place == place)
}

// The first slot of the list at slot l whose entry has more seconds, or the slot at the list's end: a timer of these seconds goes in there, after its equals.
#[tactic(auto, unfolding(segment::specs::Fields::entry_at, segment::specs::Fields::entry_of))]
pub fn seek_over(s: &Segment, l: usize, seconds: u16) -> usize
    requires { l < file_rows }
    ensures { (result ≡ seek (over 7 seconds) s.now l entries) × (result < file_rows) }
{
    seek(s, l, |m| seconds < m.seconds)
}

// Inserts entry e at slot p: at the front of the list if p is its head.
#[tactic(auto, unfolding(crate::specs::Slots::insert))]
pub fn insert_at(s: &mut Segment, p: usize, e: u16)
    requires p_lt_file_rows { p < file_rows }
    requires e_lt_entries { e < entries }
    ensures { s.new ≡ insert s.old p e }
{
    let next = segment::get(s, p);
    segment::put(s, segment::link_at(e), next);
    segment::put(s, p, e);
}

// Takes out what slot p holds, the first entry of the list if p is its head, and hands it back. At the end of a list nothing changes.
// Kept: a number that may be no entry's, here and in `take_entry`: the clause says that it is the very word of the slot, which None would not.
#[tactic(auto, unfolding(crate::specs::Slots::unlink))]
pub fn unlink_at(s: &mut Segment, p: usize) -> u16
    requires { p < file_rows }
    ensures { (result ≡ nth s.old p) × (s.new ≡ unlink s.old p) }
{
    let e = segment::get(s, p);
    if e < layout::ENTRIES {
        let next = segment::get(s, segment::link_at(e));
        segment::put(s, p, next);
    }
    e
}

// Inserts entry e at the end of the list at slot l.
#[tactic(auto, unfolding(crate::specs::Slots::append))]
pub fn append_to(s: &mut Segment, l: usize, e: u16)
    requires l_lt_file_rows { l < file_rows }
    requires e_lt_entries { e < entries }
    ensures { s.new ≡ append s.old l e }
{
    let p = end_slot(s, l);
    insert_at(s, p, e);
}

// Takes the first free entry, fills it and gives its number. If none is free, nothing changes and the result is not an entry's number.
#[tactic(auto, unfolding(crate::specs::Slots::taken, crate::specs::Slots::unlink))]
pub fn take_entry(s: &mut Segment, m: Entry) -> u16
    ensures { (result ≡ nth s.old free_list) × (s.new ≡ taken s.old (entry_words m)) }
{
    let e = unlink_at(s, layout::FREE_LIST);
    if e < layout::ENTRIES {
        segment::write_entry(s, e, m);
    }
    e
}

// Zeroes entry e and puts it at the front of the free list.
#[tactic(auto, unfolding(crate::specs::Slots::released, segment::specs::Fields::entry_words))]
pub fn release_entry(s: &mut Segment, e: u16)
    requires { e < entries }
    ensures { s.new ≡ released s.old e }
{
    segment::write_entry(s, e, Entry::default());
    insert_at(s, layout::FREE_LIST, e);
}
