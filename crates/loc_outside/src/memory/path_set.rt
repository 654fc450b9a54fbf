//! Paths that were named.
ghost use Rattle.std.specs.Prelude.{◌≡◌, [], ◌∷◌, ◌++◌, OnOk, OnErr};
ghost use Rattle.loc_outside.specs.Memory.{is_among};

use std::alloc::{AllocError, Global};
use std::marker::Model;

/// Paths, in the order in which they were added. A contract sees their list.
#[derive(Drop)]
pub(crate) struct PathSet {
    alloc: Global,
    paths: Vec<Vec<u8>>,
}

impl Model for PathSet {
    ghost use Rattle.std.specs.Prelude.{List, ℕ};
    ghost use Rattle.loc_outside.specs.Memory.{paths_of};

    ghost Value = { List (List ℕ) };

    ghost view = { λ s. paths_of s.paths.items };
}

impl PathSet {
    pub(crate) fn new(alloc: Global) -> PathSet
        ensures { result ≡ [] }
    {
        PathSet {
            alloc,
            paths: Vec::new(alloc),
        }
    }

    pub(crate) fn add(&mut self, path: &[u8]) -> Result<(), AllocError>
        ensures ok { OnOk result (self.new ≡ self.old ++ path.now ∷ []) }
        ensures err { OnErr result (self.new ≡ self.old) }
    {
        let path = path.to_vec(self.alloc)?;
        self.paths.push(path)?;
        Ok(())
    }

    pub(crate) fn has(&self, path: &[u8]) -> bool
        ensures { result ≡ is_among self.now path.now }
    {
        for known in &self.paths {
            if path == known.as_slice() {
                return true;
            }
        }
        false
    }
}
