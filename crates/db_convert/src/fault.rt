//! Why a file was not read, and why it was not converted.
ghost use Rattle.std.specs.Prelude.{◌≡◌};
ghost use Rattle.db_convert.specs.Converts.{fault_of_list as fault_by};

use crate::format::AdmitCause;
use byte_feed::{Damage, DbFault};
use thiserror::Error;

/// Why no list of paths was read.
#[derive(Clone, Copy, Debug, PartialEq, Eq)]
pub enum ListFault {
    /// The file does not end whole, or the source failed.
    File(DbFault),
    /// No memory was left.
    OutOfMemory,
}

/// Why a conversion has ended early. No file was stored then.
#[derive(Clone, Copy, Debug, PartialEq, Eq, Error)]
pub enum ConvertFault {
    /// There is no input of the name.
    #[error("Missing")]
    Missing,
    /// The input does not begin as its format does.
    #[error("NotADatabase")]
    NotADatabase,
    /// The input is damaged.
    #[error("Damage")]
    Damage(Damage),
    /// The input could not be opened or read.
    #[error("ReadFault")]
    ReadFault,
    /// The input has 2^40 bytes or more.
    #[error("TooLarge")]
    TooLarge,
    /// The path at this place, counted from 0, has no form in the target.
    #[error("NotAdmitted")]
    NotAdmitted { index: u64, cause: AdmitCause },
    /// A call on the output failed.
    #[error("WriteFault")]
    WriteFault,
    /// No memory was left.
    #[error("OutOfMemory")]
    OutOfMemory,
}

/// A fault of the reading of the input.
pub(crate) fn fault_of_list(fault: ListFault) -> ConvertFault
    ensures { result ≡ fault_by fault }
{
    match fault {
        ListFault::File(DbFault::NotADatabase) => ConvertFault::NotADatabase,
        ListFault::File(DbFault::Damage(damage)) => ConvertFault::Damage(damage),
        ListFault::File(DbFault::ReadFault) => ConvertFault::ReadFault,
        ListFault::File(DbFault::TooLarge) => ConvertFault::TooLarge,
        ListFault::OutOfMemory => ConvertFault::OutOfMemory,
    }
}
