// The blocks of a file's share: puts a record, clears a share, and checks the held blocks.
#![tactic(auto)]

pub mod by_file;
pub mod check;
mod quick;
pub mod writing;
