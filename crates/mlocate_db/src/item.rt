//! The parts of items.

use path_order::Kind;

/// What a database begins with: a zero byte, and `mlocate`.
pub const MAGIC: [u8; 8] = *b"\0mlocate";

/// The first 16 bytes of a header, without the magic number.
#[derive(Clone, Copy, Debug, PartialEq, Eq)]
pub struct Fixed {
    /// The length of the configuration block in bytes.
    pub size: u32,
    pub version: u8,
    /// Whether paths are shown only to those who may list their directories.
    pub flag: bool,
    pub padding: u16,
}

/// The first 16 bytes of a directory's head.
#[derive(Clone, Copy, Debug, PartialEq, Eq)]
pub struct Numbers {
    /// The directory's time, in seconds.
    pub seconds: u64,
    /// The nanoseconds besides, fewer than a second.
    pub nanos: u32,
    /// The directory's device in version 1, padding in version 0.
    pub device: u32,
}

/// What stands behind a head: an entry, whose name is put into a path, or the end of the directory.
#[derive(Clone, Copy, Debug, PartialEq, Eq)]
pub enum Listed {
    Entry(Kind),
    End,
}
