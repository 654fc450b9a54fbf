//! Conversions between the formats: which paths a format can hold, what is written for a list of paths, and what is read
//! back; the reading of a file into a list of paths, and the writing of a list.
#![tactic(auto)]

mod admission;
mod bigram;
mod converting;
mod entries;
mod entry;
mod fault;
mod format;
mod gathers;
mod laws;
mod list;
mod locate02;
mod mlocate;
mod order;
mod paths;
mod reading;
mod seek;
#[cfg(test)]
mod tests;
mod writing;

pub use admission::{first_refused, is_admitted};
pub use bigram::{put_bigram, table_for};
pub use converting::convert;
pub use fault::{ConvertFault, ListFault};
pub use format::{AdmitCause, Format};
pub use laws::{example_is_written, written_is_read_back};
pub use list::put_list;
pub use locate02::put_locate02;
pub use paths::Paths;
pub use reading::read_paths;
