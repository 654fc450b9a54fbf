//! Trees that change from round to round, drawn by a number, and their laws: what an update may rely on in them.
#![tactic(auto)]

mod first_tree;
mod laws;
mod naming;
mod numbers;
mod rounds;
mod step;
mod steps;
#[cfg(test)]
mod tests;

pub use laws::{no_directory_is_hidden, same_where_times_agree, samples_are_small};
pub use step::SampleStep;
pub use steps::sample_steps;
