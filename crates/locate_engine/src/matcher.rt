//! What a search looks for.
ghost use Rattle.std.specs.Prelude.{◌≡◌, ◌+◌, ◌≤◌, ℕ, List};
ghost use Rattle.locate_engine.specs.Sought.{Follows, Sought};

use glob_match::Steps;
use std::sync::ledger::Ledger;

/// A test on paths. It may keep what it has learned, but not change its answers.
pub trait Matcher {
    /// Which paths are wanted, and the most steps that it takes to tell.
    ghost sought: { Self → Sought };

    /// What it has learned is true of this path.
    ghost knows: { Self → List ℕ → Type 0 };

    /// Tells whether the path is wanted.
    fn wants<L: Ledger>(&mut self, path: &[u8], steps: &mut Steps<L>) -> bool
        ensures answer { result ≡ (sought self.old).wanted path.now }
        ensures same { sought self.new ≡ sought self.old }
        ensures later { steps.old ≤ steps.new }
        ensures within { steps.new ≤ steps.old + (sought self.old).bound path.now };

    /// Forgets what it has learned of paths, so that any may be asked of next.
    fn begin(&mut self)
        ensures knows { (path : List ℕ) → knows self.new path }
        ensures same { sought self.new ≡ sought self.old };

    /// Tells whether the path is wanted, as `wants` does. Its first `shared` bytes are those of the path that was
    /// asked of before.
    fn wants_next<L: Ledger>(&mut self, path: &[u8], shared: usize, steps: &mut Steps<L>) -> bool
        requires follows { Follows (knows self.old) shared path.now }
        ensures answer { result ≡ (sought self.old).wanted path.now }
        ensures knows { knows self.new path.now }
        ensures same { sought self.new ≡ sought self.old }
        ensures later { steps.old ≤ steps.new }
        ensures within { steps.new ≤ steps.old + (sought self.old).bound path.now };
}
