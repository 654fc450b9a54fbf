//! The machine that the program runs on. This folder is the whole edge: nothing else here touches a file, a directory or
//! a stream of the host, and what these calls answer is trusted.

mod aside;
mod files;
mod gate;
mod output;
#[cfg(test)]
mod output_tests;
mod standard_output;
mod tree;

pub use files::{HostErr, HostFiles};
pub use gate::HostGate;
pub use output::HostOutput;
pub use standard_output::HostOut;
pub use tree::HostTree;
