// Puts a record: begins its block if the record is the first there, and lends the rest of the block on to the record's writer.
ghost use Rattle.std.specs.Prelude.{◌≡◌, ◌+◌, ◌*◌, ◌%◌, ◌≤◌, length};
ghost use Rattle.std.proofs.lemmas.List.Edits.{sets};
ghost use Rattle.rules.specs.Limits.{share_bytes};
ghost use Rattle.rules.specs.Store.{pad, record_bytes, added};
ghost use Rattle.ring.specs.Ring as spec;
ghost use Rattle.blocks.specs.Writing.{record_of, record_size, begun, Roomy, Ready, inscribed};

use ring::Ring;
use ring::layout::{
    BLOCK_HEAD, BLOCK_HEAD_WORDS, FOLLOW, ID, RECORD_HEAD, RECORD_HEAD_WORDS, Span, TYPE, USED,
    block_span,
};

// A record to be put: its type, the writer's ID, and its data.
#[derive(Clone, Copy)]
pub struct NewRecord<'a> {
    pub typ: u16,
    pub wid: u16,
    pub data: &'a [u8],
}

// "padded with one zero byte if odd"
#[tactic(auto, unfolding(rules::specs::Store::pad))]
fn pad_record(room: &mut [u8], at: usize, n: usize)
    requires { at + n % 2 ≤ length room.old }
    ensures { room.new ≡ sets room.old at (pad n) }
{
    if n % 2 == 0 {
        return;
    }
    room[at] = 0;
}

// Writes a record at the start of the lent room.
fn write_record(room: &mut [u8], new: NewRecord)
    requires { (record_size (length new.data.now) ≤ length room.old) × (length new.data.now ≤ share_bytes) }
    ensures { room.new ≡ sets room.old 0 (record_bytes (record_of new.entry)) }
{
    let n = new.data.len();
    words::put(room, 0, FOLLOW + n as u16);
    words::put(room, TYPE, new.typ);
    words::put(room, ID, new.wid);
    words::copy(room, RECORD_HEAD, new.data);
    pad_record(room, RECORD_HEAD + n, n);
}

// Begins the block, if no record stands in it yet: zeroes it and writes its head.
#[tactic(auto, unfolding(crate::specs::Writing::begun, rules::specs::Store::zeroed))]
fn begin(share: &mut [u8], block: Span, index: u16)
    requires { (4 ≤ block.size) × (block.at + block.size ≤ length share.old) }
    ensures { share.new ≡ begun block.size share.old block.at index }
{
    if index != 0 {
        return;
    }
    words::put(share, block.at, 0);
    words::put(share, block.at + USED, BLOCK_HEAD_WORDS);
    words::zero(share, block.at + BLOCK_HEAD, block.size - BLOCK_HEAD);
}

// Adds a record to the block, right after the one before.
#[tactic(auto, using(crate::proofs::writing::Laws::rest_back), unfolding(rules::specs::Store::added, rules::specs::Store::record_words))]
fn add(share: &mut [u8], block: Span, new: NewRecord)
    requires size_in_bounds { (block.at + block.size ≤ length share.old) × (4 ≤ block.size) × (block.size ≤ share_bytes) }
    requires roomy { Roomy block.size share.old block.at (length new.data.now) }
    ensures { share.new ≡ added share.old block.at (record_of new.entry) }
{
    let at = block.at;
    let count = words::get(share, at);
    let used = words::get(share, at + USED);
    let a = at + 2 * used as usize;
    let e = at + block.size;
    let taken = RECORD_HEAD_WORDS + (new.data.len() + 1) / 2;
    write_record(&mut share[a..e], new);
    words::put(share, at, count + 1);
    words::put(share, at + USED, used + taken as u16);
}

// Puts a record after those of the ring, and gives the ring with it.
#[tactic(auto, unfolding(crate::specs::Writing::inscribed, crate::specs::Writing::begun, shares::specs::Inscribed::inscribed_at))]
pub fn put(share: &mut [u8], ring: Ring, words: u16, new: NewRecord) -> Ring
    requires share_len { length share.old ≡ share_bytes }
    requires ready { Ready words ring share.old (length new.data.now) }
    ensures ring { result ≡ spec.put ring }
    ensures share { share.new ≡ inscribed words ring (record_of new.entry) share.old }
{
    let to = ring.tail();
    let block = block_span(ring, words, to.block);
    begin(share, block, to.index);
    add(share, block, new);
    ring.put()
}
