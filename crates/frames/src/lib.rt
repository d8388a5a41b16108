// The bytes of events and answers: decodes a frame, encodes an answer.
#![tactic(auto)]

mod answers;
mod decoding;

pub use answers::encode;
pub use decoding::decode;
