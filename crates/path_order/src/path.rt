//! Texts of at most 4,096 bytes.
ghost use Rattle.std.specs.Prelude.{◌≡◌, ◌+◌, ◌<◌, ◌≤◌, ◌↔◌, List, ℕ, [], ◌∷◌, ◌++◌, length, take, IsOk, OnOk, OnErr};
ghost use Rattle.path_order.specs.Path.{joined};

use std::marker::Model;
use thiserror::Error;

/// The most bytes that a path has.
pub const MAX_PATH: usize = 4096;

/// A text would have more than `MAX_PATH` bytes.
#[derive(Clone, Copy, Debug, PartialEq, Eq, Error)]
#[error("TooLong")]
pub struct TooLong;

/// The text of a path, of at most `MAX_PATH` bytes, which lie in the value itself: it is lent, not moved.
/// A contract sees it as the list of its bytes. What is cut off is not cleared: a path is cut and appended to for each
/// entry of a database.
#[derive(Drop)]
pub struct PathBuf {
    room: [u8; MAX_PATH],
    len: usize,
}

impl Model for PathBuf {
    ghost use Rattle.std.specs.Prelude.{◌≡◌, ◌≤◌, List, ℕ, length, take};

    ghost Value = { List ℕ };

    ghost view = { λ path. take path.len path.room };

    ghost invariant = { λ path. (path.len ≤ 4096) × (length path.room ≡ 4096) };
}

impl PathBuf {
    /// The empty text.
    pub fn new() -> PathBuf
        ensures { result ≡ [] }
    {
        PathBuf {
            room: [0; MAX_PATH],
            len: 0,
        }
    }

    /// The bytes of the text.
    #[inline(always)]
    pub fn bytes(&self) -> &[u8]
        ensures value { result.now ≡ self.now }
        ensures fits { length result.now ≤ 4096 }
    {
        &self.room[..self.len]
    }

    /// Replaces the text by this one.
    pub fn set(&mut self, text: &[u8]) -> Result<(), TooLong>
        ensures variant { IsOk result ↔ (length text.now ≤ 4096) }
        ensures ok { OnOk result (self.new ≡ text.now) }
        ensures err { OnErr result (self.new ≡ self.old) }
    {
        if text.len() > MAX_PATH {
            return Err(TooLong);
        }
        self.cut(0);
        self.append(text)
    }

    /// Appends a byte.
    #[inline(always)]
    pub fn push_byte(&mut self, byte: u8) -> Result<(), TooLong>
        ensures variant { IsOk result ↔ (length self.old + 1 ≤ 4096) }
        ensures ok { OnOk result (self.new ≡ self.old ++ byte ∷ []) }
        ensures err { OnErr result (self.new ≡ self.old) }
    {
        self.append(&[byte])
    }

    /// Appends a text.
    #[inline(always)]
    pub fn append(&mut self, text: &[u8]) -> Result<(), TooLong>
        ensures variant { IsOk result ↔ (length self.old + length text.now ≤ 4096) }
        ensures ok { OnOk result (self.new ≡ self.old ++ text.now) }
        ensures err { OnErr result (self.new ≡ self.old) }
    {
        if MAX_PATH - self.len < text.len() {
            return Err(TooLong);
        }
        write_at(&mut self.room, self.len, text);
        self.len += text.len();
        Ok(())
    }

    /// Keeps the first `len` bytes.
    #[inline(always)]
    pub fn cut(&mut self, len: usize)
        requires { len ≤ length self.old }
        ensures { self.new ≡ take len self.old }
    {
        self.len = len;
    }
}

/// Writes a text over the bytes from a place on.
#[inline(always)]
fn write_at(bytes: &mut [u8], at: usize, text: &[u8])
    requires { at + length text.now ≤ length bytes.old }
    ensures len { length bytes.new ≡ length bytes.old }
    ensures front { take (at + length text.now) bytes.new ≡ take at bytes.old ++ text.now }
{
    bytes[at..at + text.len()].copy_from_slice(text);
}

/// Makes the path of a directory that of the name in it: a `/` is put between them, unless the directory is `/`.
pub fn join(path: &mut PathBuf, name: &[u8]) -> Result<(), TooLong>
    requires { 0 < length path.old }
    ensures variant { IsOk result ↔ (length (joined path.old name.now) ≤ 4096) }
    ensures ok { OnOk result (path.new ≡ joined path.old name.now) }
    ensures err { OnErr result (path.new ≡ path.old) }
{
    let slash = !matches!(path.bytes(), [b'/']);
    let added = name.len() + usize::from(slash);
    if MAX_PATH - path.bytes().len() < added {
        return Err(TooLong);
    }
    if slash {
        path.push_byte(b'/')?;
    }
    path.append(name)
}

#[cfg(test)]
mod tests {
    use super::*;

    #[test]
    fn joins_and_cuts(rt: HostRuntime) {
        let mut path = PathBuf::new();
        assert!(rt; path.set(b"/").is_ok());
        assert!(rt; join(&mut path, b"usr").is_ok());
        assert!(rt; join(&mut path, b"bin").is_ok());
        assert!(rt; path.push_byte(b'/').is_ok());
        assert!(rt; path.append(b"ls").is_ok());
        assert_eq!(rt; path.bytes(), b"/usr/bin/ls".as_slice());
        path.cut(4);
        assert_eq!(rt; path.bytes(), b"/usr".as_slice());
    }
}
