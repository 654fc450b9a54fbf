//! The outside: traits for what is read and written, and their forms in memory, over lent bytes and of the host.
#![tactic(auto)]

mod gathering;
mod host;
mod memory;
mod put;
mod traits;

pub use host::{HostErr, HostFiles, HostGate, HostOut, HostOutput, HostTree};
pub use memory::{ByteByByte, MemFiles, MemGate, MemOutput, MemSink, MemTree, SliceSource};
pub use put::put_all;
pub use traits::{
    BufferedSink, Failed, Gate, Listing, Opened, Output, Reader, Sink, Source, Times, Tree,
};
