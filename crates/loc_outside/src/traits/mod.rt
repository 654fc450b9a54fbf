//! The traits of the outside, and the plain values that their calls answer.

mod bytes;
mod gate;
mod tree;

pub use bytes::{BufferedSink, Failed, Opened, Output, Reader, Sink, Source};
pub use gate::Gate;
pub use tree::{Listing, Times, Tree};
