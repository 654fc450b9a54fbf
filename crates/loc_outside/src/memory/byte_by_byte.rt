//! A file in memory that is read one byte at a time.
ghost use Rattle.std.specs.Prelude.{None, ⊤, min};
ghost use Rattle.loc_outside.specs.Causes.{last_count, stays_below};
ghost use Rattle.loc_outside.specs.Memory.{fault_count};

use crate::memory::files::MemFiles;
use crate::{Failed, Source};

/// Files in memory of which the open one gives one byte at a time, however much is asked for. Like a file of the host it
/// tells no bytes to contracts.
#[derive(Drop)]
pub struct ByteByByte {
    /// The files.
    pub files: MemFiles,
}

impl Source for ByteByByte {
    ghost left = { λ s. None };

    ghost given = { λ s. min s.files.given last_count };

    ghost faults = { λ s. fault_count s.files.failures };

    ghost kept = { λ s t. ⊤ };

    ghost keeps_itself = { λ s. tt };

    ghost keeps_on = { λ s t u first then. tt };

    ghost given_below = { λ s. stays_below s.files.given };

    ghost faults_below = { λ s. stays_below s.files.failures.faults };

    fn read(&mut self, into: &mut [u8]) -> Result<usize, Failed> {
        self.files.read(&mut into[..1])
    }
}
