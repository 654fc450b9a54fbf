//! The patterns of a query.
ghost use Rattle.std.specs.Prelude.{◌≡◌, ◌<◌, ◌==◌, [], ◌∷◌, ◌++◌, length, slice_get, Some, OnOk, OnErr};

use glob_match::Glob;
use std::alloc::{AllocError, Global};
use std::marker::Model;

/// Patterns, in the order in which they were pushed.
#[derive(Drop)]
pub struct Globs {
    globs: Vec<Glob>,
}

impl Model for Globs {
    ghost use Rattle.std.specs.Prelude.{List};
    ghost use Rattle.glob_match.specs.Pattern.{Wanted};

    ghost Value = { List Wanted };

    ghost view = { λ g. g.globs.items };
}

impl Globs {
    /// No pattern.
    pub fn new(alloc: Global) -> Globs
        ensures { result ≡ [] }
    {
        Globs {
            globs: Vec::new(alloc),
        }
    }

    /// Puts a pattern after the others. Where memory is wanting they stay as they were.
    pub fn push(&mut self, glob: Glob) -> Result<(), AllocError>
        ensures ok { OnOk result (self.new ≡ self.old ++ glob ∷ []) }
        ensures err { OnErr result (self.new ≡ self.old) }
    {
        self.globs.push(glob)?;
        Ok(())
    }

    /// How many patterns there are.
    #[inline(always)]
    pub fn len(&self) -> usize
        ensures { result ≡ length self.now }
    {
        self.globs.len()
    }

    /// Whether there is no pattern.
    pub fn is_empty(&self) -> bool
        ensures { result ≡ (length self.now == 0) }
    {
        self.globs.is_empty()
    }

    /// The pattern at a place.
    #[inline(always)]
    pub fn at(&self, at: usize) -> &Glob
        requires { at < length self.now }
        ensures { slice_get self.now at ≡ Some result.now }
    {
        &self.globs[at]
    }
}
