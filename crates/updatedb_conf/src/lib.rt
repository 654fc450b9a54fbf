//! The configuration of `updatedb`, as updatedb.conf(5) describes it: how its file is read, what changes make of it,
//! what it prunes, and how it stands in an mlocate database.
#![tactic(auto)]

mod block;
mod changes;
mod conf;
mod fault;
mod given;
mod laws;
mod line;
#[cfg(test)]
mod tests;
mod value;
mod word_set;
mod words;

pub use block::conf_block;
pub use changes::Changes;
pub use conf::{Conf, apply, read_conf};
pub use fault::{ConfCause, ConfFault};
pub use laws::{block_is_short, words_of_sets};
pub use value::{flag_word, margin_word};
pub use words::Words;
