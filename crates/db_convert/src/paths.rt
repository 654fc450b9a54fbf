//! Lists of paths.
ghost use Rattle.std.specs.Prelude.{◌≡◌, ◌<◌, ◌≤◌, ◌-◌, ◌^◌, take, drop, [], ◌∷◌, ◌++◌, length, sum_by, OnOk, OnErr, slice_index_or};
ghost use Rattle.db_convert.specs.Texts.{texts_from};

use std::alloc::{AllocError, Global};
use std::marker::Model;

/// Paths, one after another. The bytes of all lie in one buffer, beside the place where each ends, so a path more takes
/// memory only where one of the two has to grow. A contract sees the list of the paths.
#[derive(Drop)]
pub struct Paths {
    bytes: Vec<u8>,
    ends: Vec<usize>,
}

impl Model for Paths {
    ghost use Rattle.std.specs.Prelude.{ℕ, List, length};
    ghost use Rattle.db_convert.specs.Texts.{texts_from, IsCut};

    ghost Value = { List (List ℕ) };

    ghost view = { λ p. texts_from p.bytes.items 0 p.ends.items };

    ghost invariant = { λ p. IsCut 0 p.ends.items (length p.bytes.items) };
}

impl Paths {
    /// No paths.
    pub fn new(alloc: Global) -> Paths
        ensures { result ≡ [] }
    {
        Paths {
            bytes: Vec::new(alloc),
            ends: Vec::new(alloc),
        }
    }

    /// Appends a path.
    pub fn push(&mut self, path: &[u8]) -> Result<(), AllocError>
        ensures ok { OnOk result (self.new ≡ self.old ++ path.now ∷ []) }
        ensures err { OnErr result (self.new ≡ self.old) }
    {
        let start = self.bytes.len();
        self.bytes.extend_from_slice(path)?;
        let end = self.bytes.len();
        if self.ends.push(end).is_err() {
            self.bytes.truncate(start);
            return Err(AllocError);
        }
        Ok(())
    }

    /// The number of paths.
    pub fn len(&self) -> usize
        ensures { result ≡ length self.now }
    {
        self.ends.len()
    }

    /// The number of bytes of all paths together.
    pub fn size(&self) -> usize
        ensures value { result ≡ sum_by length self.now }
        ensures bound { result < 2 ^ 63 }
    {
        self.bytes.len()
    }

    /// The path at this place.
    pub fn at(&self, at: usize) -> &[u8]
        requires { at < length self.now }
        ensures { result.now ≡ slice_index_or self.now at [] }
    {
        let start = start_of(&self.ends, at);
        let end = self.ends[at];
        text_in(&self.bytes, start, end)
    }
}

impl Paths {
    /// The path at this place, or no byte where there is none.
    #[inline(always)]
    pub(crate) fn get(&self, at: usize) -> &[u8]
        ensures { result.now ≡ slice_index_or self.now at [] }
    {
        if at < self.len() { self.at(at) } else { b"" }
    }
}

/// The bytes from one place to another.
#[inline(always)]
fn text_in(bytes: &[u8], start: usize, end: usize) -> &[u8]
    requires forth { start ≤ end }
    requires within { end ≤ length bytes.now }
    ensures { result.now ≡ take (end - start) (drop start bytes.now) }
{
    &bytes[start..end]
}

/// Where the path at this place begins.
#[inline(always)]
fn start_of(ends: &[usize], at: usize) -> usize
    requires { at < length ends.now }
    ensures { result ≡ slice_index_or (0 ∷ ends.now) at 0 }
{
    if at == 0 { 0 } else { ends[at - 1] }
}
