// Reads back a record at its place in the share: what its head says, and its bytes as a part of the share.
ghost use Rattle.std.specs.Prelude.{◌≡◌, ◌+◌, ◌≤◌, length};
ghost use Rattle.rules.specs.Sheet.{rec_frame};
ghost use Rattle.shares.specs.Back.{rec_at, next};
ghost use Rattle.records.specs.Reading.{Readable, header_of};

use ring::layout::{FOLLOW, ID, TYPE};

// A record except for its data: its type, the writer's ID, and how many bytes of data it has.
#[derive(Clone, Copy)]
pub struct Record {
    pub typ: u16,
    pub wid: u16,
    pub size: u16,
}

// The place right after the record at `at`.
#[tactic(auto, unfolding(shares::specs::Back::next))]
pub fn next(share: &[u8], at: usize) -> usize
    requires { at + 2 ≤ length share.now }
    ensures value { result ≡ next share.now at }
    ensures bound { result ≤ at + 65538 }
{
    let follow = words::get(share, at) as usize;
    at + TYPE + (follow + 1) / 2 * 2
}

// What the head of the record at `at` says.
#[tactic(auto, unfolding(shares::specs::Back::rec_at))]
pub fn header(share: &[u8], at: usize) -> Record
    requires { Readable share.now at }
    ensures { result ≡ header_of (rec_at share.now at) }
{
    Record {
        typ: words::get(share, at + TYPE),
        wid: words::get(share, at + ID),
        size: words::get(share, at) - FOLLOW,
    }
}

// The frame of the record at `at` in a sheet: type, ID and data, as they follow its first word.
pub fn frame(share: &[u8], at: usize) -> &[u8]
    requires { Readable share.now at }
    ensures { result.now ≡ rec_frame (rec_at share.now at) }
{
    let a = at + TYPE;
    let e = at + TYPE + words::get(share, at) as usize;
    &share[a..e]
}
