//! Updates one after the other, each over the database that the one before has made.
#![tactic(auto)]

mod exercising;
mod laws;
mod list;
mod outcome;
mod silence;
mod single;
#[cfg(test)]
mod tests;

pub use exercising::{Exercised, exercise};
pub use laws::{sample_is_kept, scan_is_of_mlocate, scan_stays_honest};
pub use list::update_list;
pub use outcome::{ListFault, ListResult};
pub use sample_trees::SampleStep as UpdateStep;
