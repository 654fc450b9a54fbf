//! The entries of a LOCATE02 database, in memory.
ghost use Rattle.std.specs.Prelude.{◌≡◌, [], Some, IfOk, min, ⊤};
ghost use Rattle.loc_outside.specs.Causes.{last_count, stays_below};
ghost use Rattle.db_convert.specs.Gathered.{AreEntries};

use crate::gathers::Gathers;
use loc_outside::{Failed, Sink};
use locate02_db::Writer02;
use std::alloc::{AllocError, Global};

/// Bytes in memory. It fails only where memory has run out.
#[derive(Drop)]
pub(crate) struct Growing {
    bytes: Vec<u8>,
    failed: u64,
}

impl Sink for Growing {
    ghost taken = { λ s. Some s.bytes.items };

    ghost faults = { λ s. min s.failed last_count };

    ghost kept = { λ s t. ⊤ };

    ghost keeps_itself = { λ s. tt };

    ghost keeps_on = { λ s t u first then. tt };

    ghost faults_below = { λ s. stays_below s.failed };

    #[inline(always)]
    fn write(&mut self, piece: &[u8]) -> Result<usize, Failed> {
        match self.bytes.extend_from_slice(piece) {
            Ok(()) => Ok(piece.len()),
            Err(_) => {
                self.failed = self.failed.saturating_add(1);
                Err(Failed)
            }
        }
    }
}

/// The bytes of a LOCATE02 database of the paths that were taken in. They take the memory of what each path does not share
/// with the one before, which the paths themselves would take several times.
#[derive(Drop)]
pub(crate) struct Entries {
    writer: Writer02,
    sink: Growing,
    count: u64,
}

impl Entries {
    /// The database of no paths.
    pub(crate) fn new(alloc: Global) -> Result<Entries, AllocError>
        ensures { IfOk result (λ e. AreEntries e.sink.bytes.items e.writer e.count []) }
    {
        let mut writer = Writer02::new();
        let mut sink = Growing {
            bytes: Vec::new(alloc),
            failed: 0,
        };
        match writer.start(&mut sink) {
            Ok(()) => Ok(Entries {
                writer,
                sink,
                count: 0,
            }),
            Err(_) => Err(AllocError),
        }
    }

    /// The bytes of the database.
    pub(crate) fn bytes(&self) -> &[u8]
        ensures { result.now ≡ self.now.sink.bytes.items }
    {
        &self.sink.bytes
    }

    /// The number of paths.
    pub(crate) fn count(&self) -> u64
        ensures { result ≡ self.now.count }
    {
        self.count
    }
}

impl Gathers for Entries {
    ghost holds = { λ e paths. AreEntries e.sink.bytes.items e.writer e.count paths };

    #[inline(always)]
    fn gather(&mut self, path: &[u8]) -> Result<(), AllocError> {
        let Some(count) = self.count.checked_add(1) else {
            return Err(AllocError);
        };
        match self.writer.put(path, &mut self.sink) {
            Ok(()) => {
                self.count = count;
                Ok(())
            }
            Err(_) => Err(AllocError),
        }
    }
}
