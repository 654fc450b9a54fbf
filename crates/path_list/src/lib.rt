//! Plain lists of paths, each ended by a newline or by a zero byte: read one path after another, and written.
#![tactic(auto)]

mod laws;
mod mark;
mod reader;
mod stream;
#[cfg(test)]
mod tests;
mod writer;

pub use laws::{ending_is_first_fault, front_is_longest, paths_are_spelled, written_is_read_back};
pub use mark::Mark;
pub use reader::ReaderList;
pub use writer::put_path;
