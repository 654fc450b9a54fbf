//! The files that settings come from.
ghost use Rattle.std.specs.Prelude.{◌≡◌, ◌<◌, ◌≤◌, ◌+◌, length, Some, IfOk, IfSome, OnOk, IsErrOf, IsSomeAnd};
ghost use Rattle.std.specs.FinMap.{get};
ghost use Rattle.loc_outside.specs.Causes.{Rose, raised};
ghost use Rattle.loc_outside.specs.Files.{Files};
ghost use Rattle.database_update.specs.SettingsFiles.{limit_of, name_of, read_most};

use byte_feed::{AllFault, Bytes, read_all};
use loc_outside::{Opened, Reader};
use std::alloc::Global;

/// A file that settings come from.
#[derive(Clone, Copy, Debug, PartialEq, Eq)]
pub enum SettingsFile {
    /// The configuration, which updatedb.conf(5) describes.
    Configuration,
    /// The mounts of the process itself, which proc(5) describes.
    Mounts,
}

impl SettingsFile {
    /// The name of the file, a whole path.
    pub fn name(self) -> &'static str
        ensures { result.now ≡ name_of self }
    {
        match self {
            SettingsFile::Configuration => "/etc/updatedb.conf",
            SettingsFile::Mounts => "/proc/self/mountinfo",
        }
    }

    /// The most bytes that it may have.
    pub(crate) fn limit(self) -> u64
        ensures { result ≡ limit_of self }
    {
        match self {
            SettingsFile::Configuration => 1_048_576,
            SettingsFile::Mounts => 16_777_216,
        }
    }

    /// All bytes of the file, or None where there is none.
    pub(crate) fn read<R: Reader>(
        self,
        alloc: Global,
        reader: &mut R,
    ) -> Result<Option<Bytes>, AllFault>
        ensures text { IfOk result (λ text. (files : Files) → R.files reader.old ≡ Some files → text ≡ get files (name_of self)) }
        ensures within { IfOk result (λ text. IfSome text (λ bytes. length bytes ≤ limit_of self)) }
        ensures too_long { IsErrOf result AllFault.TooLong → (files : Files) → R.files reader.old ≡ Some files → IsSomeAnd (get files (name_of self)) (λ bytes. limit_of self < length bytes) }
        ensures given { R.given reader.new ≤ R.given reader.old + limit_of self + 1 }
        ensures given_whole { OnOk result ((files : Files) → R.files reader.old ≡ Some files → R.given reader.new ≡ raised (R.given reader.old) (read_most self (get files (name_of self)))) }
        ensures given_most { (files : Files) → R.files reader.old ≡ Some files → R.given reader.new ≤ R.given reader.old + read_most self (get files (name_of self)) }
        ensures fault { IsErrOf result AllFault.ReadFault → Rose (R.faults reader.old) (R.faults reader.new) }
        ensures later { R.faults reader.old ≤ R.faults reader.new }
        ensures files { R.files reader.new ≡ R.files reader.old }
    {
        match reader.open_file(self.name()) {
            Ok(Opened::Found) => {}
            Ok(Opened::Missing) => return Ok(None),
            Err(_) => return Err(AllFault::ReadFault),
        }
        let bytes = match read_all(alloc, reader, self.limit()) {
            Ok(bytes) => bytes,
            Err(fault) => return Err(fault),
        };
        Ok(Some(bytes))
    }
}
