//! The outside in memory: what tests and proofs run over.

mod byte_by_byte;
mod dir_map;
mod failing;
mod files;
mod gate;
mod keyed;
mod name_map;
mod output;
mod path_set;
mod sink;
mod slice;
mod stored;
mod tree;

pub use byte_by_byte::ByteByByte;
pub use files::MemFiles;
pub use gate::MemGate;
pub use output::MemOutput;
pub use sink::MemSink;
pub use slice::SliceSource;
pub use tree::MemTree;
