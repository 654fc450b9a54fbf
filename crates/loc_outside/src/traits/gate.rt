//! Gates: what may be shown, and what is still there.
ghost use Rattle.std.specs.Prelude.{◌≡◌, ◌<◌, ◌^◌, ℕ, IfOk, IfSome};
ghost use Rattle.std.specs.declared.option.Option.{Option};
ghost use Rattle.loc_outside.specs.Causes.{HasCause, raised};

use crate::Failed;

/// Tells which directories may be shown, and which paths exist. Its tests may be known or not: a clause on an answer
/// holds where they are known. A path is a whole one.
pub trait Gate {
    ghost use Rattle.loc_outside.specs.Gates.{Tests};

    /// The tests, where the gate tells them.
    ghost tests: { Self → Option Tests };

    /// How often it was asked, up to 2^64 - 1. Every gate tells this.
    ghost asks: { Self → ℕ };

    /// How often it has failed, up to 2^64 - 1.
    ghost faults: { Self → ℕ };

    /// What stays the same whatever is called.
    ghost kept: { Self → Self → Type 0 };

    /// Whether the names in the directory may be shown.
    fn shows(&mut self, dir: &[u8]) -> Result<bool, Failed>
        ensures answer { IfOk result (λ shown. IfSome (tests self.old) (λ told. shown ≡ told.shows dir.now)) }
        ensures asks { asks self.new ≡ raised (asks self.old) 1 }
        ensures cause { HasCause (faults self.old) (faults self.new) result }
        ensures kept { kept self.old self.new };

    /// Whether the path exists. With `follow`, a symbolic link in the last place stands for what it leads to.
    fn exists(&mut self, path: &[u8], follow: bool) -> Result<bool, Failed>
        ensures answer { IfOk result (λ there. IfSome (tests self.old) (λ told. there ≡ told.exists follow path.now)) }
        ensures asks { asks self.new ≡ raised (asks self.old) 1 }
        ensures cause { HasCause (faults self.old) (faults self.new) result }
        ensures kept { kept self.old self.new };

    /// A gate keeps what it is.
    ghost keeps_itself: { (s : Self) → kept s s };

    /// What two steps keep, both keep together.
    ghost keeps_on: { (s t u : Self) → kept s t → kept t u → kept s u };

    /// No call changes the tests.
    ghost keeps_tests: { (s t : Self) → kept s t → tests t ≡ tests s };

    /// The number of asks is below 2^64.
    ghost asks_below: { (s : Self) → asks s < 2 ^ 64 };

    /// The count of faults is below 2^64.
    ghost faults_below: { (s : Self) → faults s < 2 ^ 64 };
}
