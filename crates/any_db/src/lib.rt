//! The paths of a database of any of the three formats, which is known from the bytes that it begins with.
#![tactic(auto)]

mod any_reader;
mod format;
mod laws;
#[cfg(test)]
mod tests;

pub use any_reader::AnyReader;
pub use format::DatabaseFormat;
pub use laws::{
    first_bytes_decide_the_format, heads_rise, no_format_is_no_database, one_directory_a_block,
    written_is_of_its_format,
};
