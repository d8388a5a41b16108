// What a read or a look finds in a file's share. Open and close records at the head go first, unless control 46 is on. A read is handed as much of the head
// record as its count asks for.
ghost use Rattle.std.specs.Prelude.{◌≡◌, false, cond, ◌≤◌, IfSome};
ghost use Rattle.rules.specs.State.{Store};
ghost use Rattle.rules.specs.Settle.{handed};
ghost use Rattle.shares.specs.Back.{rec_at};
ghost use Rattle.ring.specs.Ring.{geo, ring_of};
ghost use Rattle.ring.specs.Held.{Held};
ghost use Rattle.records.specs.Reading.{Readable};
ghost use Rattle.records.specs.Cursor.{AtRecord};
ghost use Rattle.records.specs.Fetch.{Stores, ahead, oldest_of, shown};

use crate::cursor::{Cursor, first};
use kinds::limits::HEADER_WORDS;
use kinds::record_types::DATA;
use ring::Ring;
use ring::layout::TYPE;

// The bytes of the type and ID words.
const HEADER: u16 = 2 * HEADER_WORDS;

// Moves the cursor to the oldest data record, or past the last record if there is none.
fn discarded(share: &[u8], from: Cursor, words: u16) -> Cursor
    requires { AtRecord words share.now «from» }
    ensures ring { (s : Store) → Stores words «from».ring share.now s → result.ring ≡ ring_of (geo words «from».ring) (ahead (geo words «from».ring) false s) }
    ensures stands { AtRecord words share.now result }
    ensures oldest { oldest_of (geo words «from».ring) share.now «from».ring.block «from».ring.spent «from».ring.held ≡ shown result }
{
    let mut cursor = from;
    while cursor.ring.held > 0 {
        if words::get(share, cursor.at + TYPE) == DATA {
            return cursor;
        }
        cursor = cursor.next(share, words);
    }
    cursor
}

// The cursor at the record that a read takes: with control 46, the oldest of any type. The cursor's ring is the file's ring after the discards.
#[tactic(auto, unfolding(crate::specs::Fetch::ahead))]
pub fn found(share: &[u8], ring: Ring, words: u16, typed: bool) -> Cursor
    requires { Held words ring share.now }
    ensures ring { (s : Store) → Stores words ring share.now s → result.ring ≡ ring_of (geo words ring) (ahead (geo words ring) typed s) }
    ensures stands { AtRecord words share.now result }
{
    let head = first(share, ring, words);
    if typed {
        return head;
    }
    discarded(share, head, words)
}

// The place of the oldest data record that the ring holds, if there is one.
#[tactic(auto, unfolding(crate::specs::Fetch::shown))]
pub fn oldest(share: &[u8], ring: Ring, words: u16) -> Option<usize>
    requires { Held words ring share.now }
    ensures place { result ≡ oldest_of (geo words ring) share.now ring.block ring.spent ring.held }
    ensures readable { IfSome result (Readable share.now) }
{
    let cursor = discarded(share, first(share, ring, words), words);
    (cursor.ring.held > 0).then_some(cursor.at)
}

fn header_bytes(typed: bool) -> u16
    ensures { (result ≡ cond typed 0 4) × (result ≤ 4) }
{
    if typed { 0 } else { HEADER }
}

// The part of the share that a read is handed of the record at `at`: type and ID words with control 46, and its data, cut to the limit.
pub fn handed(share: &[u8], at: usize, typed: bool, limit: u16) -> &[u8]
    requires { Readable share.now at }
    ensures { result.now ≡ handed typed limit (rec_at share.now at) }
{
    let follow = words::get(share, at);
    let before = header_bytes(typed);
    let n = (follow - before).min(limit);
    let a = at + TYPE + before as usize;
    let e = a + n as usize;
    &share[a..e]
}
