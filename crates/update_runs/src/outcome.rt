//! How a list of updates can end.

use byte_feed::Bytes;
use thiserror::Error;

/// The last database, how many directories were reached in the last update (0 where there is none), and how many were opened in
/// all updates.
#[derive(Drop)]
pub struct ListResult {
    pub bytes: Bytes,
    pub directories: u64,
    pub openings: u64,
}

/// Why a list of updates has ended early: its first step that was refused, or memory ran out, at any time.
#[derive(Clone, Copy, Debug, PartialEq, Eq, Error)]
pub enum ListFault {
    /// The root is not there.
    #[error("RootMissing")]
    RootMissing,
    /// A directory that is listed has more than 16,777,216 names.
    #[error("TooManyNames")]
    TooManyNames,
    /// More than 4,294,967,295 directories are tried.
    #[error("TooManyDirectories")]
    TooManyDirectories,
    /// No memory was left.
    #[error("OutOfMemory")]
    OutOfMemory,
}
