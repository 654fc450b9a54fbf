//! Changes to a configuration.

use crate::words::Words;

/// What a command line asks of a configuration. Each of the first five stands in place of what was there before, where it
/// is given; the words of the other three are added afterwards.
#[derive(Drop)]
pub struct Changes {
    /// Whether bind mounts are pruned.
    pub bind: Option<bool>,
    /// The recency margin in seconds, as `margin_word` gives one; a greater number is taken as it is.
    pub margin: Option<u16>,
    /// File system types, in any case.
    pub fs: Option<Words>,
    /// Base names of directories. One with a `/` prunes nothing; `Words::have_slash` tells it.
    pub names: Option<Words>,
    /// Whole paths of directories.
    pub paths: Option<Words>,
    /// More file system types.
    pub add_fs: Words,
    /// More base names.
    pub add_names: Words,
    /// More whole paths.
    pub add_paths: Words,
}
