//! Kinds of names.

/// What a name in a directory stands for. `File` comes before `Directory`.
#[derive(Clone, Copy, Debug, PartialEq, Eq, PartialOrd, Ord)]
pub enum Kind {
    /// All but a directory: a file, a link, a device, a socket.
    File,
    /// A directory.
    Directory,
}

#[cfg(test)]
mod tests {
    use super::*;

    #[test]
    fn a_file_comes_before_a_directory(rt: HostRuntime) {
        assert!(rt; Kind::File < Kind::Directory);
    }
}
