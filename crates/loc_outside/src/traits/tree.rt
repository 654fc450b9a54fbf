//! Trees of directories.
ghost use Rattle.std.specs.Prelude.{◌≡◌, ◌<◌, ◌^◌, List, ℕ, Bool, IsTrue, IfOk, IfSome, if◌then◌else◌};
ghost use Rattle.std.specs.declared.option.Option.{Option};
ghost use Rattle.path_order.specs.NameList.{Listed};
ghost use Rattle.path_order.specs.Names.{is_name};
ghost use Rattle.loc_outside.specs.Causes.{HasCause, raised};

use crate::Failed;
use path_order::{Kind, PathBuf, Stamp};

/// When the names of a directory changed last, and when its record did.
#[derive(Clone, Copy, Debug, PartialEq, Eq)]
pub struct Times {
    pub modified: Stamp,
    pub changed: Stamp,
}

/// Whether a directory is there, and whether its names may be listed.
#[derive(Clone, Copy, Debug, PartialEq, Eq)]
pub enum Listing {
    Shown,
    Hidden,
    Missing,
}

/// Directories by their paths, one of which may be open to be listed. What they hold may be known or not: clauses on it
/// hold where it is known. A path is a whole one, without a final slash but for `/` itself.
pub trait Tree {
    ghost use Rattle.loc_outside.specs.Trees.{Dirs, StatsAs, ListsAs, GivesFirst, opens_listing, goes_on};

    /// The directories, where the tree tells them.
    ghost dirs: { Self → Option Dirs };

    /// The names that the open listing has still to give, where the tree tells them.
    ghost rest: { Self → Option Listed };

    /// Whether a listing is open: the last `open_dir` answered `Shown`, since then `next_name` has given a name each time,
    /// and nothing else has closed it.
    ghost is_listing: { Self → Bool };

    /// How often a directory was opened, up to 2^64 - 1. Every tree tells this.
    ghost openings: { Self → ℕ };

    /// How often a priced path was looked up, up to 2^64 - 1. Every tree tells this.
    ghost stats: { Self → ℕ };

    /// The paths whose look-ups are counted. Every tree tells them.
    ghost priced: { Self → List ℕ → Bool };

    /// How often it has failed, up to 2^64 - 1.
    ghost faults: { Self → ℕ };

    /// What stays the same whatever is called.
    ghost kept: { Self → Self → Type 0 };

    /// The times of the directory, or None where there is none.
    fn stat(&mut self, dir: &[u8]) -> Result<Option<Times>, Failed>
        ensures found { StatsAs (dirs self.old) dir.now result }
        ensures rest { rest self.new ≡ rest self.old }
        ensures listing { is_listing self.new ≡ is_listing self.old }
        ensures openings { openings self.new ≡ openings self.old }
        ensures stats { stats self.new ≡ (if priced self.old dir.now then raised (stats self.old) 1 else stats self.old) }
        ensures cause { HasCause (faults self.old) (faults self.new) result }
        ensures kept { kept self.old self.new };

    /// Opens the directory to be listed, in place of the one that was open.
    /// After `Hidden`, `Missing` or `Failed` none is open.
    fn open_dir(&mut self, dir: &[u8]) -> Result<Listing, Failed>
        ensures found { ListsAs (dirs self.old) dir.now result (rest self.new) }
        ensures listing { is_listing self.new ≡ opens_listing result }
        ensures openings { openings self.new ≡ raised (openings self.old) 1 }
        ensures stats { stats self.new ≡ stats self.old }
        ensures cause { HasCause (faults self.old) (faults self.new) result }
        ensures kept { kept self.old self.new };

    /// Moves the next name of the open directory into `into` and answers its kind, or None after the last name.
    /// A symbolic link is a `File`. After None or `Failed` no directory is open, and what `into` holds is not said.
    fn next_name(&mut self, into: &mut PathBuf) -> Result<Option<Kind>, Failed>
        requires { IsTrue (is_listing self.old) }
        ensures name { IfOk result (λ given. IfSome given (λ kind. IsTrue (is_name into.new))) }
        ensures first { GivesFirst (rest self.old) (rest self.new) result into.new }
        ensures listing { is_listing self.new ≡ goes_on result }
        ensures openings { openings self.new ≡ openings self.old }
        ensures stats { stats self.new ≡ stats self.old }
        ensures cause { HasCause (faults self.old) (faults self.new) result }
        ensures kept { kept self.old self.new };

    /// A tree keeps what it is.
    ghost keeps_itself: { (s : Self) → kept s s };

    /// What two steps keep, both keep together.
    ghost keeps_on: { (s t u : Self) → kept s t → kept t u → kept s u };

    /// No call changes a directory.
    ghost keeps_dirs: { (s t : Self) → kept s t → dirs t ≡ dirs s };

    /// No call changes which look-ups are counted.
    ghost keeps_priced: { (s t : Self) (path : List ℕ) → kept s t → priced t path ≡ priced s path };

    /// The number of openings is below 2^64.
    ghost openings_below: { (s : Self) → openings s < 2 ^ 64 };

    /// The number of look-ups is below 2^64.
    ghost stats_below: { (s : Self) → stats s < 2 ^ 64 };

    /// The count of faults is below 2^64.
    ghost faults_below: { (s : Self) → faults s < 2 ^ 64 };
}
