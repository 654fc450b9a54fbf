//! Patterns of the shell over bytes, and a bound on the steps of matching.
#![tactic(auto)]

mod bracket;
pub mod glob;
pub mod items;
mod matching;
mod needle;
#[cfg(test)]
mod next_tests;
mod reading;
pub mod spot;
#[cfg(test)]
mod tests;

pub use byte_class::Steps;
pub use glob::Glob;
pub use items::Items;
pub use spot::Spot;
