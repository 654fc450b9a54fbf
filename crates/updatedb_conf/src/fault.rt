//! Why a configuration is refused.
ghost use Rattle.std.specs.Prelude.{◌≡◌};

/// The first rule that a line breaks, or why the text was not read at all. The first four are rules of one line, and come
/// in this order; `Unknown` and `Repeated` come next, and then those on the value.
#[derive(Clone, Copy, Debug, PartialEq, Eq)]
pub enum ConfCause {
    /// After the name of the variable stands no `=`.
    NoEquals,
    /// After the `=` stands no `"`.
    NoQuote,
    /// No further `"` stands in the line.
    Unclosed,
    /// After the value stands something other than a comment.
    Trailing,
    /// There is no variable of this name.
    Unknown,
    /// The variable stands in an earlier line.
    Repeated,
    /// The value of `PRUNE_BIND_MOUNTS` is none of `0`, `no`, `1` and `yes`.
    BadFlag,
    /// A word of `PRUNENAMES` has a `/`.
    BadName,
    /// There is no memory for the words.
    OutOfMemory,
    /// The text is longer than allowed. It is the caller who finds this; `read_conf` takes every text.
    LongText,
    /// The value of `RECENT_MARGIN` is not 1 to 4 decimal digits of at most 3,600.
    BadMargin,
}

/// A line, counted from 1, and what is wrong with it. The line is 0 where the cause is no line's: `OutOfMemory`, `LongText`.
#[derive(Clone, Copy, Debug, PartialEq, Eq)]
pub struct ConfFault {
    pub line: u64,
    pub cause: ConfCause,
}

impl ConfCause {
    ghost use Rattle.updatedb_conf.specs.Texts.{text_of};

    /// The cause in words, as a message tells it.
    pub fn text(self) -> &'static [u8]
        ensures { result.now ≡ text_of self }
    {
        match self {
            ConfCause::NoEquals => b"no equals sign",
            ConfCause::NoQuote => b"no opening quote",
            ConfCause::Unclosed => b"no closing quote",
            ConfCause::Trailing => b"text after the value",
            ConfCause::Unknown => b"unknown variable",
            ConfCause::Repeated => b"variable defined twice",
            ConfCause::BadFlag => b"bad flag",
            ConfCause::BadName => b"slash in a name",
            ConfCause::OutOfMemory => b"out of memory",
            ConfCause::LongText => b"file too long",
            ConfCause::BadMargin => b"bad margin",
        }
    }
}
