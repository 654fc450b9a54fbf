//! Calls that are to fail.
ghost use Rattle.std.specs.Prelude.{◌≡◌, ◌≤◌, [], ◌∷◌, ◌++◌, OnOk, OnErr, IsErr, IsTrue, ◌↔◌};
ghost use Rattle.loc_outside.specs.Causes.{HasCause, Rose};
ghost use Rattle.loc_outside.specs.Memory.{no_failures, is_due, called, faulted, fault_count};

use crate::Failed;
use std::alloc::{AllocError, Global};
use std::marker::Model;

/// Which calls are to fail, how many were made, and how many have failed.
#[derive(Drop)]
pub(crate) struct Failing {
    due: Vec<u64>,
    calls: u64,
    faults: u64,
}

impl Model for Failing {
    ghost use Rattle.loc_outside.specs.Memory.{Failures};

    ghost Value = { Failures };

    ghost view = { λ f. record { due = f.due.items; calls = f.calls; faults = f.faults } };
}

impl Failing {
    pub(crate) fn new(alloc: Global) -> Failing
        ensures { result ≡ no_failures }
    {
        Failing {
            due: Vec::new(alloc),
            calls: 0,
            faults: 0,
        }
    }

    pub(crate) fn fail_at(&mut self, n: u64) -> Result<(), AllocError>
        ensures ok { OnOk result (self.new ≡ record self.old { due = self.old.due ++ n ∷ [] }) }
        ensures err { OnErr result (self.new ≡ self.old) }
    {
        self.due.push(n)?;
        Ok(())
    }

    pub(crate) fn faults(&self) -> u64
        ensures value { result ≡ self.now.faults }
        ensures told { result ≡ fault_count self.now }
    {
        self.faults
    }

    /// Counts a fault.
    pub(crate) fn fault(&mut self) -> Failed
        ensures after { self.new ≡ faulted self.old }
        ensures later { fault_count self.old ≤ fault_count self.new }
        ensures rose { Rose (fault_count self.old) (fault_count self.new) }
    {
        self.faults = self.faults.saturating_add(1);
        Failed
    }

    /// Counts a call, and fails where that one is due.
    pub(crate) fn call(&mut self) -> Result<(), Failed>
        ensures due { IsErr result ↔ IsTrue (is_due self.old) }
        ensures ok { OnOk result (self.new ≡ called self.old) }
        ensures err { OnErr result (self.new ≡ faulted (called self.old)) }
        ensures cause { HasCause (fault_count self.old) (fault_count self.new) result }
    {
        let Some(next) = self.calls.checked_add(1) else {
            return Ok(());
        };
        self.calls = next;
        if self.due.contains(&next) {
            return Err(self.fault());
        }
        Ok(())
    }
}
