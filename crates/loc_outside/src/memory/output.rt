//! An output in memory.
ghost use Rattle.std.specs.Prelude.{◌≡◌, ◌∷◌, ◌++◌, [], Some, OnOk, OnErr, IfOk, IfSome, IsErr, IsSome, IsTrue, length, min, option_copied};
ghost use Rattle.std.specs.FinMap as map;
ghost use Rattle.std.specs.Io.KnownBytes.{WriteAppends};
ghost use Rattle.std.proofs.Common.{refl, ◌∙◌};
ghost use Rattle.loc_outside.specs.Causes.{HasCause, last_count, raised, stays_below};
ghost use Rattle.loc_outside.specs.Held.{begun, committed};
ghost use Rattle.loc_outside.specs.Memory.{empty_output, is_due, called, faulted, fault_count};
ghost use Rattle.loc_outside.specs.Outside.{TakesPart};
ghost use Rattle.loc_outside.specs.OutputLaws.{keeps_name, keeps_stored};

use crate::memory::failing::Failing;
use crate::memory::stored::{StoredFile, find_file, put_file};
use crate::{Failed, Output, Sink};
use std::alloc::{AllocError, Global};
use std::marker::Model;

/// Files in memory, and the one that is being written. A contract sees what is stored and pending, and the calls that are
/// to fail. A call of a trait fails where that was asked for, and when out of memory. Each write takes the whole piece.
#[derive(Drop)]
pub struct MemOutput {
    alloc: Global,
    files: Vec<StoredFile>,
    name: Option<String>,
    pending: Vec<u8>,
    begins: u64,
    failing: Failing,
}

impl Model for MemOutput {
    ghost use Rattle.std.specs.Prelude.{string_bytes};
    ghost use Rattle.std.specs.Option.{option_map};
    ghost use Rattle.loc_outside.specs.Codes.{output_state_code};
    ghost use Rattle.loc_outside.specs.Memory.{OutputState};
    ghost use Rattle.loc_outside.specs.Stored.{files_of};

    ghost Value = { OutputState };

    ghost coded = { output_state_code };

    ghost view = { λ m. record { held = record { stored = files_of m.files.items; name = option_map string_bytes m.name; pending = m.pending.items }; begins = m.begins; failures = m.failing } };
}

impl MemOutput {
    /// An output that stores no file.
    pub fn new(alloc: Global) -> MemOutput
        ensures { result ≡ empty_output }
    {
        MemOutput {
            alloc,
            files: Vec::new(alloc),
            name: None,
            pending: Vec::new(alloc),
            begins: 0,
            failing: Failing::new(alloc),
        }
    }

    /// The bytes of the stored file of this name.
    pub fn stored(&self, name: &str) -> Option<&[u8]>
        ensures { option_copied result ≡ map.get self.now.held.stored name.now }
    {
        match find_file(&self.files, name) {
            Some(place) => Some(&self.files[place].bytes),
            None => None,
        }
    }

    /// The bytes taken since the last name was begun.
    pub fn pending(&self) -> &[u8]
        ensures { result.now ≡ self.now.held.pending }
    {
        &self.pending
    }

    /// Lets the `n`-th call fail, counted from 1 over `write`, `begin` and `commit`.
    pub fn fail_at(&mut self, n: u64) -> Result<(), AllocError>
        ensures ok { OnOk result (self.new ≡ record self.old { failures = record self.old.failures { due = self.old.failures.due ++ n ∷ [] } }) }
        ensures err { OnErr result (self.new ≡ self.old) }
    {
        self.failing.fail_at(n)
    }

    /// How many calls have failed.
    pub fn faults(&self) -> u64
        ensures value { result ≡ self.now.failures.faults }
        ensures told { result ≡ fault_count self.now.failures }
    {
        self.failing.faults()
    }
}

impl Sink for MemOutput {
    ghost taken = { λ m. Some m.held.pending };

    ghost faults = { λ m. fault_count m.failures };

    ghost kept = { λ m n. (n.held.stored ≡ m.held.stored) × (n.held.name ≡ m.held.name) × (min n.begins last_count ≡ min m.begins last_count) };

    ghost keeps_itself = { λ m. (refl, refl, refl) };

    ghost keeps_on = { λ m n o first then. (then.0 ∙ first.0, then.1 ∙ first.1, then.2 ∙ first.2) };

    ghost faults_below = { λ m. stays_below m.failures.faults };

    fn write(&mut self, piece: &[u8]) -> Result<usize, Failed>
        ensures bound { TakesPart result piece.now }
        ensures bytes { WriteAppends (Some self.old.held.pending) (Some self.new.held.pending) result piece.now }
        ensures cause { HasCause (fault_count self.old.failures) (fault_count self.new.failures) result }
        ensures kept { (self.new.held.stored ≡ self.old.held.stored) × (self.new.held.name ≡ self.old.held.name) × (min self.new.begins last_count ≡ min self.old.begins last_count) }
        // It fails where that was asked for, else only when out of memory, and takes the whole piece.
        ensures due { IsTrue (is_due self.old.failures) → IsErr result }
        ensures most { IfOk result (λ n. n ≡ length piece.now) }
        ensures ok { OnOk result (self.new.failures ≡ called self.old.failures) }
        ensures err { OnErr result (self.new ≡ record self.old { failures = faulted (called self.old.failures) }) }
    {
        self.failing.call()?;
        match self.pending.extend_from_slice(piece) {
            Ok(()) => Ok(piece.len()),
            Err(_) => Err(self.failing.fault()),
        }
    }
}

impl Output for MemOutput {
    ghost held = { λ m. Some m.held };

    ghost begins = { λ m. min m.begins last_count };

    ghost keeps_begins = { λ m n kept. kept.2 };

    ghost keeps_begun = { λ m n kept. keeps_name m.held n.held kept.0 kept.1 };

    ghost keeps_held = { λ m n bytes kept grows. keeps_stored m.held n.held bytes kept.0 kept.1 grows };

    fn begin(&mut self, name: &str) -> Result<(), Failed>
        ensures ok { OnOk result (self.new ≡ record { held = begun name.now self.old.held; begins = raised self.old.begins 1; failures = called self.old.failures }) }
        // It fails where that was asked for, else only when out of memory.
        ensures due { IsTrue (is_due self.old.failures) → IsErr result }
        ensures err { OnErr result (self.new ≡ record self.old { failures = faulted (called self.old.failures) }) }
        ensures cause { HasCause (fault_count self.old.failures) (fault_count self.new.failures) result }
    {
        self.failing.call()?;
        match String::from_str(self.alloc, name) {
            Ok(name) => {
                self.name = Some(name);
                self.pending.clear();
                self.begins = self.begins.saturating_add(1);
                Ok(())
            }
            Err(_) => Err(self.failing.fault()),
        }
    }

    fn commit(&mut self) -> Result<(), Failed>
        requires { IsSome self.old.held.name }
        ensures ok { OnOk result (self.new ≡ record self.old { held = committed self.old.held; failures = called self.old.failures }) }
        // It fails where that was asked for, else only when out of memory.
        ensures due { IsTrue (is_due self.old.failures) → IsErr result }
        ensures err { OnErr result (self.new ≡ record self.old { failures = faulted (called self.old.failures) }) }
        ensures cause { HasCause (fault_count self.old.failures) (fault_count self.new.failures) result }
    {
        self.failing.call()?;
        let Some(name) = &self.name else {
            unreachable!();
        };
        match put_file(self.alloc, &mut self.files, name.as_str(), &self.pending) {
            Ok(()) => {
                self.name = None;
                Ok(())
            }
            Err(_) => Err(self.failing.fault()),
        }
    }
}

#[cfg(test)]
mod tests {
    use super::*;
    use crate::put_all;
    use std::test::Fail;

    // Stores a file in two pieces, by any output.
    fn store<O: Output>(output: &mut O, name: &str, a: &[u8], b: &[u8]) -> Result<(), Failed> {
        output.begin(name)?;
        put_all(output, a)?;
        put_all(output, b)?;
        output.commit()
    }

    #[test]
    fn a_commit_replaces_one_file(rt: HostRuntime) -> Result<(), Fail> {
        let mut output = MemOutput::new(rt.alloc());
        store(&mut output, "/a", b"old", b"")?;
        store(&mut output, "/b", b"other", b"")?;
        store(&mut output, "/a", b"new", b"er")?;
        assert_eq!(rt; output.stored("/a").unwrap_or(b""), b"newer".as_slice());
        assert_eq!(rt; output.stored("/b").unwrap_or(b""), b"other".as_slice());
        assert!(rt; output.stored("/c").is_none());
        assert_eq!(rt; output.pending(), b"newer".as_slice());
        assert_eq!(rt; output.faults(), 0);
        Ok(())
    }

    // The calls of `store` are 1 begin, 2 and 3 write, 4 commit. What is pending after the n-th has failed.
    #[test]
    fn the_failing_call_stores_nothing(rt: HostRuntime) -> Result<(), AllocError> {
        for (n, pending) in [(1, b"".as_slice()), (2, b""), (3, b"new"), (4, b"newer")] {
            let mut output = MemOutput::new(rt.alloc());
            output.fail_at(n)?;
            assert_eq!(rt; store(&mut output, "/a", b"new", b"er"), Err(Failed));
            assert_eq!(rt; output.pending(), pending);
            assert!(rt; output.stored("/a").is_none());
            assert_eq!(rt; output.faults(), 1);
        }
        Ok(())
    }
}
