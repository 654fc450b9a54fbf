//! The search of a database: which of its paths are wanted, which of them may be shown, and how they are printed; and the
//! statistics of a database.
#![tactic(auto)]

mod asking;
mod counting;
mod files;
mod glob_matcher;
mod globs;
mod matcher;
mod next;
mod outcome;
mod paths;
mod query;
mod spots;
#[cfg(test)]
mod statistics_tests;
#[cfg(test)]
mod tests;
#[cfg(test)]
mod wanted_tests;

pub use any_db::AnyReader;
pub use counting::{Stats, statistics};
pub use files::{search, search_by};
pub use glob_matcher::{GlobMatcher, wanted_is_matched};
pub use globs::Globs;
pub use matcher::Matcher;
pub use outcome::Outcome;
pub use paths::Tally;
pub use query::Query;
