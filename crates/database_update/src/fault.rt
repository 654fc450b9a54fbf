//! Why a database was not updated.
ghost use Rattle.std.specs.Prelude.{◌≡◌};
ghost use Rattle.database_update.specs.Faults.{fault_of};

use crate::settings_file::SettingsFile;
use mount_table::MountCause;
use thiserror::Error;
use tree_scan::ScanFault;
use updatedb_conf::ConfCause;

/// Why an update has ended early. No file was stored then.
#[derive(Clone, Copy, Debug, PartialEq, Eq, Error)]
pub enum UpdateFault {
    /// The configuration file is refused, at this line, counted from 1; a file of more than 1 MiB at line 0.
    #[error("BadConf")]
    BadConf { line: u64, cause: ConfCause },
    /// The mount file is refused, at this line, counted from 1; a file of more than 16 MiB at line 0.
    #[error("BadMount")]
    BadMount { line: u64, cause: MountCause },
    /// A settings file could not be opened or read.
    #[error("ReadFault")]
    ReadFault(SettingsFile),
    /// The root is not there.
    #[error("RootMissing")]
    RootMissing,
    /// A call on the tree failed.
    #[error("TreeFault")]
    TreeFault,
    /// A call on the output, or a write of an echoed path, failed.
    #[error("WriteFault")]
    WriteFault,
    /// A directory lists more than 16,777,216 names.
    #[error("TooManyNames")]
    TooManyNames,
    /// More than 4,294,967,295 directories are tried.
    #[error("TooManyDirectories")]
    TooManyDirectories,
    /// No memory was left.
    #[error("OutOfMemory")]
    OutOfMemory,
}

/// A fault of the scan.
pub(crate) fn fault_of_scan(fault: ScanFault) -> UpdateFault
    ensures { result ≡ fault_of fault }
{
    match fault {
        ScanFault::RootMissing => UpdateFault::RootMissing,
        ScanFault::TreeFault => UpdateFault::TreeFault,
        ScanFault::WriteFault => UpdateFault::WriteFault,
        ScanFault::TooManyNames => UpdateFault::TooManyNames,
        ScanFault::TooManyDirectories => UpdateFault::TooManyDirectories,
        ScanFault::OutOfMemory => UpdateFault::OutOfMemory,
    }
}
