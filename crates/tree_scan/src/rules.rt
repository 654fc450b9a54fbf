//! What a scan is asked for, and how it can end.
ghost use Rattle.std.specs.Prelude.{◌≡◌, IsTrue, ◌==◌, if◌then◌else◌};
ghost use Rattle.path_order.specs.Path.{is_normal};
ghost use Rattle.tree_scan.specs.Blocks.{device_in, stamped};
ghost use Rattle.tree_scan.specs.Plans.{plan_of, has_pruned_name, has_pruned_type};
ghost use Rattle.tree_scan.specs.Scans.{usual};

use mount_table::Mounts;
use path_order::{PathBuf, Stamp, base_start, is_recent};
use thiserror::Error;
use updatedb_conf::Conf;

/// What is scanned, and how it is written.
#[derive(Drop)]
pub struct Rules {
    /// The directory that is scanned, a normal path.
    pub root: PathBuf,
    /// What is pruned, and the recency margin.
    pub conf: Conf,
    /// The mounts, which tell types and devices.
    pub mounts: Mounts,
    /// Whether paths are shown only to those who may list their directories.
    pub flag: bool,
    /// Whether each path is echoed.
    pub verbose: bool,
    /// The version of the database, 0 or 1; version 1 keeps the device of each directory.
    pub version: u8,
}

impl Rules {
    /// Whether the last component is one of PRUNENAMES.
    fn prunes_name(&self, path: &[u8]) -> bool
        ensures { result ≡ has_pruned_name self.now.conf path.now }
    {
        !matches!(path, [b'/']) && self.conf.prunes_name(&path[base_start(path)..])
    }

    /// Whether the type of the file system that a directory lies in is one of PRUNEFS.
    fn prunes_type(&self, path: &[u8]) -> bool
        requires { IsTrue (is_normal path.now) }
        ensures { result ≡ has_pruned_type self.now.conf self.now.mounts path.now }
    {
        match self.mounts.type_of(path) {
            Some(kind) => self.conf.prunes_type(kind),
            None => false,
        }
    }

    /// Whether a directory is pruned.
    #[tactic(auto, unfolding(crate::specs::Plans::is_pruned))]
    pub(crate) fn prunes(&self, path: &[u8]) -> bool
        requires { IsTrue (is_normal path.now) }
        ensures { result ≡ (plan_of self.now).pruned path.now }
    {
        self.conf.prunes_path(path)
            || self.prunes_name(path)
            || self.prunes_type(path)
            || (self.conf.bind() && self.mounts.is_bind(path))
    }

    /// The device of a directory.
    pub(crate) fn device_of(&self, path: &[u8]) -> u32
        requires { IsTrue (is_normal path.now) }
        ensures { result ≡ (plan_of self.now).device_of path.now }
    {
        self.mounts.device_of(path)
    }

    /// The device that is written: none in version 0.
    pub(crate) fn written_device(&self, device: u32) -> u32
        ensures { result ≡ (if (plan_of self.now).version == 1 then device else 0) }
    {
        if self.version == 1 { device } else { 0 }
    }

    /// The time that is written, which is zero where it is recent.
    pub(crate) fn stamp_at(&self, time: Stamp, now: Stamp) -> Stamp
        ensures { result ≡ stamped (plan_of self.now).margin time now }
    {
        if is_recent(time, now, self.conf.margin()) {
            Stamp::zero()
        } else {
            time
        }
    }
}

/// How much a scan takes on: names in a directory that is listed, and directories that are tried.
#[derive(Clone, Copy, Debug, PartialEq, Eq)]
pub struct Limits {
    pub names: u64,
    pub directories: u64,
}

impl Limits {
    /// The greatest limits, which are those of a usual run.
    pub fn standard() -> Limits
        ensures { result ≡ usual }
    {
        Limits {
            names: 16_777_216,
            directories: 4_294_967_295,
        }
    }
}

/// The number of blocks and of entries that were written.
#[derive(Clone, Copy, Debug, PartialEq, Eq)]
pub struct Counts {
    pub directories: u64,
    pub entries: u64,
}

/// Why a scan has ended early.
#[derive(Clone, Copy, Debug, PartialEq, Eq, Error)]
pub enum ScanFault {
    /// The root is not there.
    #[error("RootMissing")]
    RootMissing,
    /// A call on the tree failed.
    #[error("TreeFault")]
    TreeFault,
    /// A write to the sink, or to the echo, failed.
    #[error("WriteFault")]
    WriteFault,
    /// A directory lists more names than the limit.
    #[error("TooManyNames")]
    TooManyNames,
    /// More directories are tried than the limit.
    #[error("TooManyDirectories")]
    TooManyDirectories,
    /// No memory was left.
    #[error("OutOfMemory")]
    OutOfMemory,
}
