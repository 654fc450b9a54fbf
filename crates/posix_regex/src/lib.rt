//! Regular expressions over bytes, after POSIX.
#![tactic(auto)]

mod bracket;
mod fault;
mod first;
mod fragment;
mod interval;
pub mod laws;
mod leaving;
mod lex;
mod literal;
mod pattern;
mod reader;
mod regex;
mod row;
mod search;
mod state_set;
mod states;
mod table;
#[cfg(test)]
mod tests;
mod token;

pub use byte_class::Steps;
pub use fault::{RegexCause, RegexFault};
pub use regex::Regex;
