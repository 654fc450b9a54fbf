//! Why a pattern is refused.
ghost use Rattle.std.specs.Prelude.{◌≡◌};

/// What is wrong with a pattern, and which byte the fault points at.
#[derive(Clone, Copy, Debug, PartialEq, Eq)]
pub enum RegexCause {
    /// A bracket expression without its `]`, or with a range whose end is below its start: at its `[`.
    BadBracket,
    /// A character class of an unknown name: at its `[`.
    BadClass,
    /// A suffix with no atom before it, or a malformed interval: at its first byte.
    BadRepeat,
    /// A closing mark without an open group, at that mark; or a group that is never closed, at the mark of the last one
    /// opened.
    BadGroup,
    /// A backslash at the end: at that byte.
    Trailing,
    /// A construct that this syntax does not have: at its first byte.
    Unsupported,
    /// The 65th group open at once: at its mark.
    TooDeep,
    /// The size of the expression passes 4,096. Its place is 0.
    TooBig,
    /// Memory ran out. Its place is 0.
    OutOfMemory,
}

/// The first fault of a pattern, read from left to right, and its place, in bytes from 0.
#[derive(Clone, Copy, Debug, PartialEq, Eq)]
pub struct RegexFault {
    pub place: u64,
    pub cause: RegexCause,
}

impl RegexCause {
    ghost use Rattle.posix_regex.specs.Texts.{text_of};

    /// The cause in words, as a message tells it.
    pub fn text(self) -> &'static [u8]
        ensures { result.now ≡ text_of self }
    {
        match self {
            RegexCause::BadBracket => b"bad bracket",
            RegexCause::BadClass => b"unknown class",
            RegexCause::BadRepeat => b"bad repetition",
            RegexCause::BadGroup => b"bad group",
            RegexCause::Trailing => b"trailing backslash",
            RegexCause::Unsupported => b"unsupported construct",
            RegexCause::TooDeep => b"groups too deep",
            RegexCause::TooBig => b"expression too big",
            RegexCause::OutOfMemory => b"out of memory",
        }
    }
}
