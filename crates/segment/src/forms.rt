// The four forms of an entry. Each sets the words that it names, and the others are 0.
ghost use Rattle.std.specs.Prelude.{◌≡◌};
ghost use Rattle.segment.specs.Fields.{waiting_read, waiting_write, completed_request, running_timer};

use crate::Entry;

// A waiting read: the unit of its count, the most bytes that it takes, and whether it leaves the record (control 47).
pub fn waiting_read(place: u16, unit: u16, limit: u16, keep: u16) -> Entry
    ensures { result ≡ waiting_read place unit limit keep }
{
    Entry {
        place,
        unit,
        limit,
        keep,
        ..Entry::default()
    }
}

// A waiting write: the unit of its count, and the size of its data, which lie in the record buffer.
pub fn waiting_write(place: u16, unit: u16, size: u16) -> Entry
    ensures { result ≡ waiting_write place unit size }
{
    Entry {
        place,
        unit,
        size,
        ..Entry::default()
    }
}

// A completed request: its status, its log, and the size of the record that a read brought to the record buffer.
pub fn completed_request(place: u16, status: u16, log: u16, size: u16) -> Entry
    ensures { result ≡ completed_request place status log size }
{
    Entry {
        place,
        status,
        log,
        size,
        ..Entry::default()
    }
}

// A running timer: the seconds that are left.
pub fn running_timer(place: u16, seconds: u16) -> Entry
    ensures { result ≡ running_timer place seconds }
{
    Entry {
        place,
        seconds,
        ..Entry::default()
    }
}
