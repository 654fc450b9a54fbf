//! What a search is asked for.

use crate::globs::Globs;

/// Which paths of a database are asked for, and how they are printed.
#[derive(Drop)]
pub struct Query {
    /// The patterns. A path is wanted where one of them matches.
    pub globs: Globs,
    /// A path is wanted only where every pattern matches, so where there is no pattern every path is.
    pub all: bool,
    /// The patterns are asked of what follows the last `/` of a path, and not of the whole path. That is nothing where
    /// the path ends in `/`, and the whole path where it has none.
    pub base: bool,
    /// Only paths that exist are printed.
    pub existing: bool,
    /// Where existence is asked, a symbolic link exists if what it leads to does; otherwise if it is there itself.
    pub follow: bool,
    /// The byte after each printed path.
    pub separator: u8,
    /// The search ends when so many paths were printed or counted, over all databases of a run.
    pub limit: Option<u64>,
    /// Paths are counted, and not printed.
    pub count_only: bool,
}
