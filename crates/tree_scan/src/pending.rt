//! Directories that the walk has still to come to.
ghost use Rattle.std.specs.Prelude.{◌≡◌, ◌≤◌, ◌∷◌, [], drop, length, IsTrue, OnOk, OnErr, MatchBool};
ghost use Rattle.path_order.specs.Path.{is_normal};

use path_order::PathBuf;
use std::alloc::{AllocError, Global};
use std::marker::Model;

/// Copies what begins at a place.
fn copy_from(bytes: &[u8], start: usize, into: &mut PathBuf)
    requires there { start ≤ length bytes.now }
    requires fits { length (drop start bytes.now) ≤ 4096 }
    ensures { into.new ≡ drop start bytes.now }
{
    let _ = into.set(&bytes[start..]);
}

/// Normal paths, of which the last one pushed comes first. The bytes of all lie in one buffer, so a path more takes memory
/// only where that has to grow. A contract sees the list of them, the first one at the front.
#[derive(Drop)]
pub(crate) struct Pending {
    bytes: Vec<u8>,
    starts: Vec<usize>,
}

impl Model for Pending {
    ghost use Rattle.std.specs.Prelude.{List, ℕ, reverse};
    ghost use Rattle.tree_scan.specs.Stack.{paths_at, AllNormal};

    ghost Value = { List (List ℕ) };

    ghost view = { λ p. paths_at p.bytes.items (reverse p.starts.items) };

    ghost invariant = { λ p. AllNormal (paths_at p.bytes.items (reverse p.starts.items)) };
}

impl Pending {
    /// No paths.
    pub(crate) fn new(alloc: Global) -> Pending
        ensures { result ≡ [] }
    {
        Pending {
            bytes: Vec::new(alloc),
            starts: Vec::new(alloc),
        }
    }

    /// Puts a path first.
    pub(crate) fn push(&mut self, path: &[u8]) -> Result<(), AllocError>
        requires { IsTrue (is_normal path.now) }
        ensures ok { OnOk result (self.new ≡ path.now ∷ self.old) }
        ensures err { OnErr result (self.new ≡ self.old) }
    {
        let start = self.bytes.len();
        self.bytes.extend_from_slice(path)?;
        let Ok(()) = self.starts.push(start) else {
            self.bytes.truncate(start);
            return Err(AllocError);
        };
        Ok(())
    }

    /// Takes the first path.
    pub(crate) fn pop(&mut self, into: &mut PathBuf) -> bool
        ensures popped { MatchBool result (self.old ≡ into.new ∷ self.new) (self.old ≡ []) }
        ensures normal { IsTrue result → IsTrue (is_normal into.new) }
    {
        let Some(start) = self.starts.pop() else {
            return false;
        };
        copy_from(&self.bytes, start, into);
        self.bytes.truncate(start);
        true
    }
}
