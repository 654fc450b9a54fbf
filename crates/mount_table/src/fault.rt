//! Why a mount table is refused.
ghost use Rattle.std.specs.Prelude.{◌≡◌};
ghost use Rattle.mount_table.specs.declared.fault.MountCause.TheVariants.{OutOfMemory};

use std::alloc::AllocError;

/// The rule that a line of a mount table breaks, the first in this order.
#[derive(Clone, Copy, Debug, PartialEq, Eq)]
pub enum MountCause {
    /// The line has fewer than six fields.
    FewFields,
    /// No `-` stands as a field at the seventh place or later with a field after it.
    NoSeparator,
    /// The third field is not two decimal numbers, without a sign or a leading zero, of at most 4,294,967,295 with one
    /// `:` between.
    BadDevice,
    /// In the root or the mount point a `\` is not followed by three octal digits of a value from 1 to 255.
    BadEscape,
    /// The mount point, its escapes read, does not begin with `/`.
    BadPath,
    /// Memory ran out.
    OutOfMemory,
    /// The text is too long. `read_mounts` never answers this: a caller that limits the text does.
    LongText,
}

impl From<AllocError> for MountCause {
    ghost from_gives = { λ _ cause. cause ≡ OutOfMemory };

    fn from(_error: AllocError) -> MountCause {
        MountCause::OutOfMemory
    }
}

/// Why a mount table is refused, and the number of the line, counted from 1. Empty lines count.
#[derive(Clone, Copy, Debug, PartialEq, Eq)]
pub struct MountFault {
    pub line: u64,
    pub cause: MountCause,
}
