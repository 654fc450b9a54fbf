//! LOCATE02 databases, as locatedb(5) describes them: their paths, read one after another and written.
#![tactic(auto)]

mod change;
mod laws;
mod reader;
mod stream;
#[cfg(test)]
mod tests;
mod writer;

pub use laws::{ending_is_first_fault, front_is_longest, paths_are_spelled, written_is_read_back};
pub use reader::Reader02;
pub use writer::Writer02;
