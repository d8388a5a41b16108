// The lent memories beside the segment, by their sizes.
use crate::limits::{BLOCKS_BYTES, BUFFERS_BYTES, SHARE_BYTES};

// Every file's share.
pub type Blocks = [u8; BLOCKS_BYTES];

// The record buffers of all places.
pub type Buffers = [u8; BUFFERS_BYTES];

// A file's share of the blocks.
pub type Share = [u8; SHARE_BYTES];
