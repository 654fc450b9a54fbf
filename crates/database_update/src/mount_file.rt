//! The mounts: what the file of the process itself gives.
ghost use Rattle.std.specs.Prelude.{false, ◌≡◌, ◌≤◌, ◌≢◌, ◌+◌, Some, Ok, Err, IfOk, IfErr, OnOk, IsErrOf, IsTrue};
ghost use Rattle.loc_outside.specs.Causes.{Rose, raised};
ghost use Rattle.loc_outside.specs.Files.{Files};
ghost use Rattle.std.specs.FinMap.{get};
ghost use Rattle.database_update.specs.SettingsFiles.{name_of, read_most};
ghost use Rattle.database_update.specs.Settings.{mounts_in};
ghost use Rattle.database_update.specs.Faults.{hides_memory, is_of_mounts, is_refusal};

use crate::fault::UpdateFault;
use crate::settings_file::SettingsFile;
use byte_feed::AllFault;
use loc_outside::Reader;
use mount_table::{MountCause, MountFault, Mounts, read_mounts};
use std::alloc::Global;

/// A refused table, as an update answers it.
fn refusal(fault: MountFault) -> UpdateFault
    ensures refused { IsTrue (is_refusal result) → result ≡ UpdateFault.BadMount fault.line fault.cause }
    ensures memory { IsTrue (is_refusal result) → fault.cause ≢ MountCause.OutOfMemory }
    ensures mounts { IsTrue (is_of_mounts result) }
    ensures told { hides_memory result ≡ false }
    ensures unread { result ≢ UpdateFault.ReadFault SettingsFile.Mounts }
{
    match fault.cause {
        MountCause::OutOfMemory => UpdateFault::OutOfMemory,
        _ => UpdateFault::BadMount {
            line: fault.line,
            cause: fault.cause,
        },
    }
}

/// The mounts of the file, of which there are none where there is no file.
#[tactic(auto, unfolding(crate::specs::Settings::mounts_in))]
pub(crate) fn mounts_of<R: Reader>(alloc: Global, reader: &mut R) -> Result<Mounts, UpdateFault>
    ensures ok { IfOk result (λ mounts. (files : Files) → R.files reader.old ≡ Some files → mounts_in files ≡ Ok mounts) }
    ensures refused { IfErr result (λ fault. IsTrue (is_refusal fault) → (files : Files) → R.files reader.old ≡ Some files → mounts_in files ≡ Err fault) }
    ensures mounts { IfErr result (λ fault. IsTrue (is_of_mounts fault)) }
    ensures memory { IfErr result (λ fault. hides_memory fault ≡ false) }
    ensures given { R.given reader.new ≤ R.given reader.old + 16777217 }
    ensures given_whole { OnOk result ((files : Files) → R.files reader.old ≡ Some files → R.given reader.new ≡ raised (R.given reader.old) (read_most SettingsFile.Mounts (get files (name_of SettingsFile.Mounts)))) }
    ensures given_most { (files : Files) → R.files reader.old ≡ Some files → R.given reader.new ≤ R.given reader.old + read_most SettingsFile.Mounts (get files (name_of SettingsFile.Mounts)) }
    ensures fault { IsErrOf result (UpdateFault.ReadFault SettingsFile.Mounts) → Rose (R.faults reader.old) (R.faults reader.new) }
    ensures later { R.faults reader.old ≤ R.faults reader.new }
    ensures files { R.files reader.new ≡ R.files reader.old }
{
    let text = match SettingsFile::Mounts.read(alloc, reader) {
        Ok(Some(text)) => text,
        Ok(None) => return Ok(Mounts::none(alloc)),
        Err(AllFault::ReadFault) => return Err(UpdateFault::ReadFault(SettingsFile::Mounts)),
        Err(AllFault::TooLong) => {
            return Err(UpdateFault::BadMount {
                line: 0,
                cause: MountCause::LongText,
            });
        }
        Err(AllFault::OutOfMemory) => return Err(UpdateFault::OutOfMemory),
    };
    match read_mounts(alloc, text.as_slice()) {
        Ok(mounts) => Ok(mounts),
        Err(fault) => Err(refusal(fault)),
    }
}
