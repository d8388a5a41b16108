// Build's numbers (document 000, "Creating Message Files" and FGETINFO): ranges, data blocks, block size, capacity, the share.
#![tactic(auto)]

ghost use Rattle.std.specs.Prelude.{◌≡◌, leb, ◌+◌, ◌*◌, ◌≤◌};
ghost use Rattle.rules.specs.Limits.{most_factor, most_records, most_extents, room_words};
ghost use Rattle.rules.specs.Geometry.{data_blocks, capacity, block_size, within, in_range, fits_share};

use kinds::limits::{MOST_EXTENTS, MOST_FACTOR, MOST_RECORDS, MOST_SHARE, MOST_WORDS};

// The words before a block's first record, and before a record's data.
pub const BLOCK_HEAD_WORDS: u16 = 2;

pub const RECORD_HEAD_WORDS: u16 = 3;

// Whether build's four numbers are in their ranges.
#[tactic(auto, unfolding(rules::specs::Geometry::in_range, rules::specs::Geometry::within))]
pub fn in_range(words: u16, factor: u8, records: u16, extents: u8) -> bool
    ensures { result ≡ in_range words factor records extents }
{
    (1..=MOST_WORDS).contains(&words)
        && (1..=MOST_FACTOR).contains(&u16::from(factor))
        && (1..=MOST_RECORDS).contains(&records)
        && (1..=MOST_EXTENTS).contains(&u16::from(extents))
}

// D, the data blocks of a file of N records, B to a block, in X extents.
#[tactic(auto, using(crate::proofs::Sizes::div_ceil_is), unfolding(rules::specs::Geometry::data_blocks))]
pub fn data_blocks(records: u16, factor: u8, extents: u8) -> u16
    requires le_records { (1 ≤ records) × (records ≤ most_records) }
    requires le_factor { (1 ≤ factor) × (factor ≤ most_factor) }
    requires le_extents { (1 ≤ extents) × (extents ≤ most_extents) }
    ensures value { result ≡ data_blocks records factor extents }
    ensures lower_bound { (1 ≤ result) × (result ≤ most_records + most_factor + most_extents) }
{
    let x = u16::from(extents);
    let blocks = (records + 2).div_ceil(u16::from(factor));
    (blocks + 1).div_ceil(x) * x - 1
}

// The number of words in a block.
#[tactic(auto, using(crate::proofs::Sizes::records_most), unfolding(rules::specs::Geometry::block_size))]
pub fn block_size(words: u16, factor: u8) -> u16
    requires { (words ≤ room_words) × (factor ≤ most_factor) }
    ensures value { result ≡ block_size words factor }
    ensures upper_bound { result ≤ (room_words + 3) * most_factor + 2 }
{
    (words + RECORD_HEAD_WORDS) * factor as u16 + BLOCK_HEAD_WORDS
}

// The number of records that fit in the blocks, computed in 32 bits: the product does not wrap, whatever the number of blocks.
#[tactic(auto, unfolding(rules::specs::Geometry::capacity))]
pub fn capacity(factor: u8, blocks: u16) -> u32
    ensures { result ≡ capacity factor blocks }
{
    factor as u32 * blocks as u32
}

// Whether the blocks, of any number, fit into `most` words.
pub fn fits_within(words: u16, factor: u8, blocks: u16, most: u32) -> bool
    requires { (words ≤ room_words) × (factor ≤ most_factor) }
    ensures { result ≡ leb (blocks * block_size words factor) most }
{
    let size = block_size(words, factor);
    blocks as u32 * size as u32 <= most
}

// Whether the blocks fit into MOST_SHARE words, the limit used in judging.
#[tactic(auto, unfolding(rules::specs::Geometry::fits_share))]
pub fn fits_share(words: u16, factor: u8, blocks: u16) -> bool
    requires { (words ≤ room_words) × (factor ≤ most_factor) }
    ensures { result ≡ fits_share words factor blocks }
{
    fits_within(words, factor, blocks, MOST_SHARE)
}
