//! Bigram databases, as BSD's locate has them: their paths, read one after another, and written with a table of the pairs
//! of bytes that come most.
#![tactic(auto)]

mod counts;
mod laws;
mod reader;
mod stream;
mod table;
#[cfg(test)]
mod tests;
mod unit;
mod word;
mod writer;

pub use counts::PairCounts;
pub use laws::{
    counts_choose_table, ending_is_first_fault, front_is_longest, paths_are_spelled,
    table_is_most_frequent, written_is_read_back,
};
pub use reader::ReaderBigram;
pub use table::PairTable;
pub use writer::WriterBigram;
