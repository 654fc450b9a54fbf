//! Paths are taken in, one after another.
ghost use Rattle.std.specs.Prelude.{◌≡◌, [], ◌∷◌, ◌++◌, List, ℕ, OnOk};
ghost use Rattle.byte_feed.specs.Paths.{IsPath};

use crate::paths::Paths;
use std::alloc::AllocError;

/// Takes in paths, one after another.
pub(crate) trait Gathers {
    /// These are the paths that it has taken in.
    ghost holds: { Self → List (List ℕ) → Type 0 };

    /// Takes in a path. Where it fails, memory has run out, and it is not to be used further.
    fn gather(&mut self, path: &[u8]) -> Result<(), AllocError>
        requires path { IsPath path.now }
        ensures ok { OnOk result ((paths : List (List ℕ)) → holds self.old paths → holds self.new (paths ++ path.now ∷ [])) };
}

impl Gathers for Paths {
    ghost holds = { λ p paths. p ≡ paths };

    #[inline(always)]
    fn gather(&mut self, path: &[u8]) -> Result<(), AllocError> {
        self.push(path)
    }
}
