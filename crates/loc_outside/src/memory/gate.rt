//! A gate in memory.
ghost use Rattle.std.specs.Prelude.{◌≡◌, ◌↔◌, ◌∷◌, ◌++◌, [], Some, not, OnOk, OnErr, IfOk, IsErr, IsTrue, min};
ghost use Rattle.std.proofs.Common.{refl, ap, ◌∙◌};
ghost use Rattle.loc_outside.specs.Causes.{HasCause, last_count, stays_below};
ghost use Rattle.loc_outside.specs.Memory.{fresh_gate, is_among, tests_of, asked, is_due, called, faulted, fault_count};

use crate::memory::failing::Failing;
use crate::memory::path_set::PathSet;
use crate::{Failed, Gate};
use std::alloc::{AllocError, Global};
use std::marker::Model;

/// A gate that shows each directory that was not hidden, and has each path that was not lost, with links followed or not.
/// A contract sees what was hidden, what was lost, how often it was asked, and the calls that are to fail.
/// A call of the trait fails only where that was asked for, and takes no memory.
#[derive(Drop)]
pub struct MemGate {
    hidden: PathSet,
    lost: PathSet,
    asks: u64,
    failing: Failing,
}

impl Model for MemGate {
    ghost use Rattle.loc_outside.specs.Memory.{GateState};

    ghost Value = { GateState };

    ghost view = { λ g. record { hidden = g.hidden; lost = g.lost; asks = g.asks; failures = g.failing } };
}

impl MemGate {
    /// A gate that hides and has lost nothing.
    pub fn new(alloc: Global) -> MemGate
        ensures { result ≡ fresh_gate }
    {
        MemGate {
            hidden: PathSet::new(alloc),
            lost: PathSet::new(alloc),
            asks: 0,
            failing: Failing::new(alloc),
        }
    }

    /// Hides the directory: it is not shown from now on.
    pub fn hide(&mut self, dir: &[u8]) -> Result<(), AllocError>
        ensures ok { OnOk result (self.new ≡ record self.old { hidden = self.old.hidden ++ dir.now ∷ [] }) }
        ensures err { OnErr result (self.new ≡ self.old) }
    {
        self.hidden.add(dir)
    }

    /// Loses the path: it does not exist from now on.
    pub fn lose(&mut self, path: &[u8]) -> Result<(), AllocError>
        ensures ok { OnOk result (self.new ≡ record self.old { lost = self.old.lost ++ path.now ∷ [] }) }
        ensures err { OnErr result (self.new ≡ self.old) }
    {
        self.lost.add(path)
    }

    /// How often it was asked.
    pub fn asks(&self) -> u64
        ensures value { result ≡ self.now.asks }
        ensures told { result ≡ min self.now.asks last_count }
    {
        self.asks
    }

    /// Lets the `n`-th call fail, counted from 1 over `shows` and `exists`.
    pub fn fail_at(&mut self, n: u64) -> Result<(), AllocError>
        ensures ok { OnOk result (self.new ≡ record self.old { failures = record self.old.failures { due = self.old.failures.due ++ n ∷ [] } }) }
        ensures err { OnErr result (self.new ≡ self.old) }
    {
        self.failing.fail_at(n)
    }

    /// How many calls have failed.
    pub fn faults(&self) -> u64
        ensures value { result ≡ self.now.failures.faults }
        ensures told { result ≡ fault_count self.now.failures }
    {
        self.failing.faults()
    }
}

impl Gate for MemGate {
    ghost tests = { λ g. Some (tests_of g) };

    ghost asks = { λ g. min g.asks last_count };

    ghost faults = { λ g. fault_count g.failures };

    ghost kept = { λ g h. tests_of h ≡ tests_of g };

    ghost keeps_itself = { λ g. refl };

    ghost keeps_on = { λ g h k first then. then ∙ first };

    ghost keeps_tests = { λ g h kept. ap (λ t. Some t) kept };

    ghost asks_below = { λ g. stays_below g.asks };

    ghost faults_below = { λ g. stays_below g.failures.faults };

    fn shows(&mut self, dir: &[u8]) -> Result<bool, Failed>
        ensures answer { IfOk result (λ shown. shown ≡ not (is_among self.old.hidden dir.now)) }
        ensures cause { HasCause (fault_count self.old.failures) (fault_count self.new.failures) result }
        // It fails exactly where that was asked for, and changes nothing else.
        ensures due { IsErr result ↔ IsTrue (is_due self.old.failures) }
        ensures ok { OnOk result (self.new ≡ record (asked self.old) { failures = called self.old.failures }) }
        ensures err { OnErr result (self.new ≡ record (asked self.old) { failures = faulted (called self.old.failures) }) }
    {
        self.asks = self.asks.saturating_add(1);
        self.failing.call()?;
        Ok(!self.hidden.has(dir))
    }

    fn exists(&mut self, path: &[u8], follow: bool) -> Result<bool, Failed>
        ensures answer { IfOk result (λ there. there ≡ not (is_among self.old.lost path.now)) }
        ensures cause { HasCause (fault_count self.old.failures) (fault_count self.new.failures) result }
        // It fails exactly where that was asked for, and changes nothing else.
        ensures due { IsErr result ↔ IsTrue (is_due self.old.failures) }
        ensures ok { OnOk result (self.new ≡ record (asked self.old) { failures = called self.old.failures }) }
        ensures err { OnErr result (self.new ≡ record (asked self.old) { failures = faulted (called self.old.failures) }) }
    {
        self.asks = self.asks.saturating_add(1);
        self.failing.call()?;
        Ok(!self.lost.has(path))
    }
}

#[cfg(test)]
mod tests {
    use super::*;

    // What any gate answers of a directory, and of the path with and without a link followed.
    fn ask<G: Gate>(
        gate: &mut G,
        path: &[u8],
    ) -> (
        Result<bool, Failed>,
        Result<bool, Failed>,
        Result<bool, Failed>,
    ) {
        (
            gate.shows(path),
            gate.exists(path, false),
            gate.exists(path, true),
        )
    }

    #[test]
    fn all_but_the_hidden_and_the_lost(rt: HostRuntime) -> Result<(), AllocError> {
        let mut gate = MemGate::new(rt.alloc());
        gate.hide(b"/a")?;
        gate.hide(b"/b/c")?;
        gate.lose(b"/b")?;
        assert_eq!(rt; ask(&mut gate, b"/a"), (Ok(false), Ok(true), Ok(true)));
        assert_eq!(rt; ask(&mut gate, b"/b"), (Ok(true), Ok(false), Ok(false)));
        assert_eq!(rt; ask(&mut gate, b"/b/c"), (Ok(false), Ok(true), Ok(true)));
        assert_eq!(rt; ask(&mut gate, b"/"), (Ok(true), Ok(true), Ok(true)));
        assert_eq!(rt; (gate.asks(), gate.faults()), (12, 0));
        Ok(())
    }

    #[test]
    fn the_call_that_is_due_fails(rt: HostRuntime) -> Result<(), AllocError> {
        let mut gate = MemGate::new(rt.alloc());
        gate.fail_at(2)?;
        gate.fail_at(4)?;
        assert_eq!(rt; ask(&mut gate, b"/"), (Ok(true), Err(Failed), Ok(true)));
        assert_eq!(rt; gate.shows(b"/"), Err(Failed));
        assert_eq!(rt; (gate.asks(), gate.faults()), (4, 2));
        Ok(())
    }
}
