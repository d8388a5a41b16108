// The one door for records: every record that is put, goes or is purged passes here, with the file in hand by value. What must change beside share and ring when a
// record comes or goes is written here once. `Keeps` (specs/Door.antt) says that the memories in the midst of a call then stand for the rules' next file.
#![tactic(auto)]

ghost use Rattle.std.specs.Prelude.{◌≡◌, true, List, ℕ, ◌*◌, ◌≤◌, ◌<◌, length};
ghost use Rattle.std.proofs.lemmas.List.Edits.{sets};
ghost use Rattle.rules.specs.Limits.{files, places, share_bytes};
ghost use Rattle.rules.specs.State.{Store};
ghost use Rattle.rules.specs.Requests.{put_rec};
ghost use Rattle.rules.specs.Memories.{share_at};
ghost use Rattle.ring.specs.Ring.{Ranged};
ghost use Rattle.ring.specs.Held.{Held};
ghost use Rattle.records.specs.Reading.{Readable};
ghost use Rattle.records.specs.Fetch.{Stores};
ghost use Rattle.blocks.specs.Writing.{record_of, Ready, inscribed};
ghost use Rattle.store.specs.Door.{put_in, taken_ring, fetched_of, purged_of, fits_ring, Keeps, fetching, Gets, emptied};

use blocks::by_file::{put_at, share};
use blocks::writing::NewRecord;
use kinds::memories::Blocks;
use midst::File;
use records::fetch::found;
use ring::Ring;

// What a read finds: whether there is a record for it, where it stands in the file's share, and the file after the read.
#[derive(Clone, Copy)]
pub struct Fetched {
    pub got: bool,
    pub at: usize,
    pub file: File,
}

// Puts a record after the others of file f.
pub fn put(blocks: &mut Blocks, f: usize, file: File, new: NewRecord) -> File
    requires f_lt_files { f < files }
    requires ready { Ready file.words file.ring (share_at f blocks.old) (length new.data.now) }
    ensures file { result ≡ put_in file }
    ensures blocks { blocks.new ≡ sets blocks.old (share_bytes * f) (inscribed file.words file.ring (record_of new.entry) (share_at f blocks.old)) }
    ensures keeps { Keeps f (put_rec (record_of new.entry)) blocks.old file blocks.new result }
{
    let next = put_at(blocks, f, file.ring, file.words, new);
    File {
        words: file.words,
        ring: next,
    }
}

// "Control 47 on: the next accepted read leaves its record at the head"
fn taken(ring: Ring, keep: bool) -> Ring
    requires { Ranged ring }
    ensures { result ≡ taken_ring keep ring }
{
    if keep { ring } else { ring.advanced() }
}

// Fetches what a read finds in file f. Open and close records at the head go, unless the read is typed (46); the record that it gets goes too, unless it is kept (47).
pub fn fetch(blocks: &Blocks, f: usize, file: File, typed: bool, keep: bool) -> Fetched
    requires f_lt_files { f < files }
    requires held { Held file.words file.ring (share_at f blocks.now) }
    ensures is { (s : Store) → Stores file.words file.ring (share_at f blocks.now) s → result ≡ fetched_of file typed keep s }
    ensures readable { result.got ≡ true → Readable (share_at f blocks.now) result.at }
    ensures keeps { (p : ℕ) → Keeps f (fetching p typed keep) blocks.now file blocks.now result.file }
    ensures gets { Gets f typed keep blocks.now file result }
{
    let cursor = found(share(blocks, f), file.ring, file.words, typed);
    let ring = cursor.ring;
    if ring.held == 0 {
        return Fetched {
            got: false,
            at: cursor.at,
            file: File {
                words: file.words,
                ring,
            },
        };
    }
    Fetched {
        got: true,
        at: cursor.at,
        file: File {
            words: file.words,
            ring: taken(ring, keep),
        },
    }
}

// Removes all records of the file.
pub fn purge(file: File) -> File
    requires { Ranged file.ring }
    ensures file { result ≡ purged_of file }
    ensures keeps { (f : ℕ) (blocks : List ℕ) → Keeps f emptied blocks file blocks result }
{
    let ring = file.ring;
    let empty = ring.purged();
    File {
        words: file.words,
        ring: empty,
    }
}

// "a data record fits exactly when used + W + 1 ≤ C: one place is kept for each close record."
pub fn fits(file: File, writers: u16) -> bool
    requires { Ranged file.ring × (writers ≤ places) }
    ensures { result ≡ fits_ring file.ring writers }
{
    let ring = file.ring;
    ring.used() + writers + 1 <= ring.factor * ring.blocks
}
