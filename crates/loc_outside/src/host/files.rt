//! The host's files, to be read, and its standard error. They tell no content.
ghost use Rattle.std.specs.Prelude.{◌≡◌, ◌≤◌, None, ⊤, min};
ghost use Rattle.std.specs.Io.{ReadsAtMost};
ghost use Rattle.std.proofs.Common.{refl};
ghost use Rattle.loc_outside.specs.Causes.{Rose, last_count, stays_below};
ghost use Rattle.loc_outside.specs.Outside.{TakesPart};

use crate::{Failed, Opened, Reader, Sink, Source};
use std::fs;
use std::fs::File;
use std::io::{ErrorKind, Input, Read, Write};
use std::marker::Model;

/// How often a call that a signal interrupts is tried.
const MOST_TRIES: u32 = 1_000_000;

/// Counts a fault.
pub(crate) fn fault(count: &mut u64) -> Failed
    ensures later { min count.old last_count ≤ min count.new last_count }
    ensures rose { Rose (min count.old last_count) (min count.new last_count) }
{
    *count = count.saturating_add(1);
    Failed
}

/// Reads once, and again where a signal interrupts it.
fn read_some<R: Read>(reader: &mut R, into: &mut [u8]) -> Result<usize, Failed>
    ensures { ReadsAtMost result into.new }
{
    for _ in 0..MOST_TRIES {
        match reader.read(into) {
            Ok(count) => return Ok(count),
            Err(error) if error.kind() == ErrorKind::Interrupted => {}
            Err(_) => return Err(Failed),
        }
    }
    Err(Failed)
}

/// Writes once, and again where a signal interrupts it, and flushes. To take nothing of a piece that isn't empty is a fault.
pub(crate) fn write_some<W: Write>(writer: &mut W, piece: &[u8]) -> Result<usize, Failed>
    ensures { TakesPart result piece.now }
{
    for _ in 0..MOST_TRIES {
        match writer.write(piece) {
            Ok(count) if (count > 0 || piece.is_empty()) && writer.flush().is_ok() => {
                return Ok(count);
            }
            Err(error) if error.kind() == ErrorKind::Interrupted => {}
            _ => return Err(Failed),
        }
    }
    Err(Failed)
}

/// What is being read.
#[derive(Drop)]
enum Origin {
    Nothing,
    Stream(<HostRuntime as Input>::Reader),
    File(File),
}

/// The host's files, to be read. The name `-` is standard input. A file that isn't there is `Missing`,
/// also where what should be a directory on the way isn't one; any other fault is `Failed`.
/// A contract sees the counts of bytes given and of faults.
#[derive(Drop)]
pub struct HostFiles {
    rt: HostRuntime,
    origin: Origin,
    given: u64,
    faults: u64,
}

impl Model for HostFiles {
    ghost use Rattle.loc_outside.specs.Host.{Counts};

    ghost Value = { Counts };

    ghost view = { λ h. record { given = h.given; faults = h.faults } };
}

impl HostFiles {
    /// The files of this host, none of which is open.
    pub fn new(rt: HostRuntime) -> HostFiles
        ensures { result ≡ record { given = 0; faults = 0 } }
    {
        HostFiles {
            rt,
            origin: Origin::Nothing,
            given: 0,
            faults: 0,
        }
    }
}

impl Source for HostFiles {
    ghost left = { λ h. None };

    ghost given = { λ h. min h.given last_count };

    ghost faults = { λ h. min h.faults last_count };

    ghost kept = { λ h k. ⊤ };

    ghost keeps_itself = { λ h. tt };

    ghost keeps_on = { λ h k l first then. tt };

    ghost given_below = { λ h. stays_below h.given };

    ghost faults_below = { λ h. stays_below h.faults };

    fn read(&mut self, into: &mut [u8]) -> Result<usize, Failed> {
        let answer = match &mut self.origin {
            Origin::Nothing => Ok(0),
            Origin::Stream(input) => read_some(input, into),
            Origin::File(file) => read_some(file, into),
        };
        match answer {
            Ok(count) => {
                self.given = self.given.saturating_add(count as u64);
                Ok(count)
            }
            Err(_) => Err(fault(&mut self.faults)),
        }
    }
}

impl Reader for HostFiles {
    ghost files = { λ h. None };

    ghost keeps_files = { λ h k kept. refl };

    fn open_file(&mut self, name: &str) -> Result<Opened, Failed> {
        self.origin = Origin::Nothing;
        if name == "-" {
            self.origin = Origin::Stream(self.rt.reader());
            return Ok(Opened::Found);
        }
        match fs::open(&self.rt, name) {
            Ok(file) => {
                self.origin = Origin::File(file);
                Ok(Opened::Found)
            }
            Err(error)
                if error.kind() == ErrorKind::NotFound
                    || error.kind() == ErrorKind::NotADirectory => { Ok(Opened::Missing) }
            Err(_) => Err(fault(&mut self.faults)),
        }
    }
}

/// The host's standard error. Each write goes out at once. A contract sees the count of faults.
#[derive(Drop)]
pub struct HostErr {
    rt: HostRuntime,
    faults: u64,
}

impl Model for HostErr {
    ghost use Rattle.std.specs.Prelude.{ℕ};

    ghost Value = { ℕ };

    ghost view = { λ h. h.faults };
}

impl HostErr {
    /// The standard error of this host.
    pub fn new(rt: HostRuntime) -> HostErr
        ensures { result ≡ 0 }
    {
        HostErr { rt, faults: 0 }
    }
}

impl Sink for HostErr {
    ghost taken = { λ h. None };

    ghost faults = { λ h. min h last_count };

    ghost kept = { λ h k. ⊤ };

    ghost keeps_itself = { λ h. tt };

    ghost keeps_on = { λ h k l first then. tt };

    ghost faults_below = { λ h. stays_below h };

    fn write(&mut self, piece: &[u8]) -> Result<usize, Failed> {
        let Ok(count) = write_some(&mut self.rt.stderr(), piece) else {
            return Err(fault(&mut self.faults));
        };
        Ok(count)
    }
}

#[cfg(test)]
mod tests {
    use super::*;

    #[test]
    fn opens_files_of_the_host(rt: HostRuntime) {
        let mut files = HostFiles::new(rt);
        let mut bytes = [0; 13];
        assert_eq!(rt; files.open_file("/proc/version"), Ok(Opened::Found));
        assert_eq!(rt; files.read(&mut bytes), Ok(13));
        assert_eq!(rt; bytes.as_slice(), b"Linux version".as_slice());

        for missing in ["/nowhere/at/all", "/proc/version/below", ""] {
            assert_eq!(rt; files.open_file(missing), Ok(Opened::Missing));
            assert_eq!(rt; files.read(&mut bytes), Ok(0));
        }

        // A directory can be opened, but not read.
        assert_eq!(rt; files.open_file("/"), Ok(Opened::Found));
        assert_eq!(rt; files.read(&mut bytes), Err(Failed));
    }

    #[test]
    fn writes_to_the_stream(rt: HostRuntime) {
        assert_eq!(rt; HostErr::new(rt).write(b"\n"), Ok(1));
    }
}
