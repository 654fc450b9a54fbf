//! Databases of mlocate, as mlocate.db(5) describes them: their items, read one after another and written.
#![tactic(auto)]

mod db_reader;
mod item;
mod laws;
mod put;
mod reading;
mod stream;
#[cfg(test)]
mod tests;

pub use db_reader::{DbReader, Step};
pub use laws::{ending_is_first_fault, front_is_longest, written_is_read_back};
pub use put::{put_directory, put_end, put_entry, put_header};
