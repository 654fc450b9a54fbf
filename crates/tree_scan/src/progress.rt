//! How far a walk has come.
ghost use Rattle.std.specs.Prelude.{◌≡◌, []};

use crate::pending::Pending;
use crate::rules::Counts;
use std::alloc::Global;

/// The directories that are pending, the number of those that were tried, and what was written.
#[derive(Drop)]
pub(crate) struct Progress {
    pub(crate) pending: Pending,
    pub(crate) tried: u64,
    pub(crate) counts: Counts,
}

impl Progress {
    /// Before the first directory.
    pub(crate) fn new(alloc: Global) -> Progress
        ensures pending { result.pending ≡ [] }
        ensures tried { result.tried ≡ 0 }
        ensures no_blocks { result.counts.directories ≡ 0 }
        ensures no_entries { result.counts.entries ≡ 0 }
    {
        Progress {
            pending: Pending::new(alloc),
            tried: 0,
            counts: Counts {
                directories: 0,
                entries: 0,
            },
        }
    }
}
