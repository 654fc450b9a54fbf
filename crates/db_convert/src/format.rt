//! The formats of a conversion.

/// A format that is read and written.
#[derive(Clone, Copy, Debug, PartialEq, Eq)]
pub enum Format {
    /// A database of mlocate.
    Mlocate,
    /// A LOCATE02 database.
    Locate02,
    /// A bigram database.
    Bigram,
    /// Paths that are ended by newlines.
    List,
    /// Paths that are ended by zero bytes.
    List0,
}

/// Why a format can't hold a path.
#[derive(Clone, Copy, Debug, PartialEq, Eq)]
pub enum AdmitCause {
    /// A list of lines can't hold a path with a newline.
    Newline,
    /// A database of mlocate holds normal paths below the root.
    NotNormal,
}
