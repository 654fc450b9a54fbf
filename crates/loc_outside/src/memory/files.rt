//! Files in memory, to be read.
ghost use Rattle.std.specs.Prelude.{◌≡◌, ◌↔◌, ◌∷◌, ◌++◌, [], Some, OnOk, OnErr, IfOk, IsErr, IsTrue, length, min};
ghost use Rattle.std.specs.Io.{ReadsAtMost};
ghost use Rattle.std.specs.Io.KnownBytes.{ReadConsumes};
ghost use Rattle.loc_outside.specs.Causes.{HasCause, last_count, stays_below};
ghost use Rattle.loc_outside.specs.Outside.{GivesCount, OpensAs};
ghost use Rattle.std.specs.FinMap as map;
ghost use Rattle.std.proofs.Common.{refl, ap, ◌∙◌};
ghost use Rattle.loc_outside.specs.Memory.{no_failures, is_due, called, faulted, fault_count};

use crate::memory::failing::Failing;
use crate::memory::stored::{StoredFile, find_file, give, left_of, put_file};
use crate::{Failed, Opened, Reader, Source};
use std::alloc::{AllocError, Global};
use std::marker::Model;

/// Files in memory. A contract sees the files as a map from names to bytes, the bytes that are left of the open one,
/// the number of bytes given, and the calls that are to fail. A call of a trait fails only where that was asked for.
#[derive(Drop)]
pub struct MemFiles {
    alloc: Global,
    files: Vec<StoredFile>,
    current: Option<usize>,
    at: usize,
    given: u64,
    failing: Failing,
}

impl Model for MemFiles {
    ghost use Rattle.loc_outside.specs.Stored.{files_of, left_of};
    ghost use Rattle.loc_outside.specs.Memory.{FilesState};
    ghost use Rattle.loc_outside.specs.Codes.{files_state_code};

    ghost Value = { FilesState };

    ghost coded = { files_state_code };

    ghost view = { λ m. record { files = files_of m.files.items; left = left_of m.files.items m.current m.at; given = m.given; failures = m.failing } };
}

impl MemFiles {
    /// No file.
    pub fn new(alloc: Global) -> MemFiles
        ensures files { result.files ≡ map.empty }
        ensures left { result.left ≡ [] }
        ensures given { result.given ≡ 0 }
        ensures failures { result.failures ≡ no_failures }
    {
        MemFiles {
            alloc,
            files: Vec::new(alloc),
            current: None,
            at: 0,
            given: 0,
            failing: Failing::new(alloc),
        }
    }

    /// Stores the bytes under the name, in place of those that it had. Nothing is left to be read then.
    pub fn put(&mut self, name: &str, bytes: &[u8]) -> Result<(), AllocError>
        ensures ok { OnOk result (self.new ≡ record self.old { files = map.insert self.old.files name.now bytes.now; left = [] }) }
        ensures err { OnErr result (self.new ≡ self.old) }
    {
        put_file(self.alloc, &mut self.files, name, bytes)?;
        self.current = None;
        Ok(())
    }

    /// Lets the `n`-th call fail, counted from 1 over `read` and `open_file`.
    pub fn fail_at(&mut self, n: u64) -> Result<(), AllocError>
        ensures ok { OnOk result (self.new ≡ record self.old { failures = record self.old.failures { due = self.old.failures.due ++ n ∷ [] } }) }
        ensures err { OnErr result (self.new ≡ self.old) }
    {
        self.failing.fail_at(n)
    }

    /// How many bytes were given.
    pub fn given(&self) -> u64
        ensures value { result ≡ self.now.given }
        ensures told { result ≡ min self.now.given last_count }
    {
        self.given
    }

    /// How many calls have failed.
    pub fn faults(&self) -> u64
        ensures value { result ≡ self.now.failures.faults }
        ensures told { result ≡ fault_count self.now.failures }
    {
        self.failing.faults()
    }
}

impl Source for MemFiles {
    ghost left = { λ m. Some m.left };

    ghost given = { λ m. min m.given last_count };

    ghost faults = { λ m. fault_count m.failures };

    ghost kept = { λ m n. n.files ≡ m.files };

    ghost keeps_itself = { λ m. refl };

    ghost keeps_on = { λ m n o first then. then ∙ first };

    ghost given_below = { λ m. stays_below m.given };

    ghost faults_below = { λ m. stays_below m.failures.faults };

    fn read(&mut self, into: &mut [u8]) -> Result<usize, Failed>
        ensures bound { ReadsAtMost result into.new }
        ensures bytes { ReadConsumes (Some self.old.left) (Some self.new.left) result into.new }
        ensures given { GivesCount (min self.old.given last_count) (min self.new.given last_count) result }
        ensures cause { HasCause (fault_count self.old.failures) (fault_count self.new.failures) result }
        ensures kept { self.new.files ≡ self.old.files }
        // It fails exactly where that was asked for, and else gives all that there is room for.
        ensures due { IsErr result ↔ IsTrue (is_due self.old.failures) }
        ensures most { IfOk result (λ n. n ≡ min (length self.old.left) (length into.old)) }
        ensures ok { OnOk result (self.new.failures ≡ called self.old.failures) }
        ensures err { OnErr result (self.new ≡ record self.old { failures = faulted (called self.old.failures) }) }
    {
        self.failing.call()?;
        let count = give(left_of(&self.files, self.current, self.at), into);
        self.at += count;
        self.given = self.given.saturating_add(count as u64);
        Ok(count)
    }
}

impl Reader for MemFiles {
    ghost files = { λ m. Some m.files };

    ghost keeps_files = { λ m n kept. ap (λ f. Some f) kept };

    fn open_file(&mut self, name: &str) -> Result<Opened, Failed>
        ensures opened { OpensAs (Some self.old.files) name.now result (Some self.new.left) }
        ensures files { self.new.files ≡ self.old.files }
        ensures given { self.new.given ≡ self.old.given }
        ensures cause { HasCause (fault_count self.old.failures) (fault_count self.new.failures) result }
        // It fails exactly where that was asked for.
        ensures due { IsErr result ↔ IsTrue (is_due self.old.failures) }
        ensures ok { OnOk result (self.new.failures ≡ called self.old.failures) }
        ensures err { OnErr result (self.new.failures ≡ faulted (called self.old.failures)) }
    {
        self.current = None;
        self.at = 0;
        self.failing.call()?;
        match find_file(&self.files, name) {
            Some(place) => {
                self.current = Some(place);
                Ok(Opened::Found)
            }
            None => Ok(Opened::Missing),
        }
    }
}

#[cfg(test)]
mod tests {
    use super::*;
    use crate::SliceSource;

    // What up to six reads of four bytes answer, by any source.
    fn read_by_fours<S: Source>(
        alloc: Global,
        source: &mut S,
    ) -> Result<Vec<Result<usize, Failed>>, AllocError> {
        let mut answers = Vec::new(alloc);
        let mut bytes = [0; 4];
        for _ in 0..6u8 {
            let answer = source.read(&mut bytes);
            answers.push(answer)?;
            if answer == Ok(0) {
                break;
            }
        }
        Ok(answers)
    }

    #[test]
    fn short_reads_and_faults(rt: HostRuntime) -> Result<(), AllocError> {
        let mut files = MemFiles::new(rt.alloc());
        files.put("b", b"old")?;
        files.put("a", b"0123456789")?;
        files.put("b", b"new")?;
        files.fail_at(3)?;
        files.fail_at(8)?;
        assert_eq!(rt; files.open_file("a"), Ok(Opened::Found));
        let answers = read_by_fours(rt.alloc(), &mut files)?;
        assert_eq!(rt;
            answers.as_slice(),
            [Ok(4), Err(Failed), Ok(4), Ok(2), Ok(0)].as_slice()
        );
        assert_eq!(rt; files.open_file("c"), Ok(Opened::Missing));
        assert_eq!(rt; files.open_file("b"), Err(Failed));
        assert_eq!(rt; files.open_file("b"), Ok(Opened::Found));
        let mut bytes = [0; 3];
        assert_eq!(rt; files.read(&mut bytes), Ok(3));
        assert_eq!(rt; bytes.as_slice(), b"new".as_slice());
        assert_eq!(rt; (files.given(), files.faults()), (13, 2));
        Ok(())
    }

    #[test]
    fn lent_bytes(rt: HostRuntime) -> Result<(), AllocError> {
        let answers = read_by_fours(rt.alloc(), &mut SliceSource::new(b"01234"))?;
        assert_eq!(rt; answers.as_slice(), [Ok(4), Ok(1), Ok(0)].as_slice());
        Ok(())
    }
}
