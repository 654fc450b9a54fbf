//! What is scanned, and how: the files and the words of a call.
ghost use Rattle.std.specs.Prelude.{false, ◌≡◌, ◌<◌, ◌≤◌, ◌+◌, ◌^◌, length, Some, Ok, Err, IfOk, IfErr, OnOk, IsErrOf, IsOk, IsTrue};
ghost use Rattle.std.specs.FinMap.{get};
ghost use Rattle.path_order.specs.Path.{is_normal};
ghost use Rattle.loc_outside.specs.Causes.{Rose, raised};
ghost use Rattle.loc_outside.specs.Files.{Files};
ghost use Rattle.updatedb_conf.specs.Settings.{settings_room};
ghost use Rattle.tool_words.specs.UpdatedbSeen.{seen};
ghost use Rattle.tree_scan.specs.Plans.{plan_of};
ghost use Rattle.database_update.specs.SettingsFiles.{both_read, name_of, read_most};
ghost use Rattle.database_update.specs.Settings.{conf_in, plan_in, rules_of as rules_by};
ghost use Rattle.database_update.specs.Faults.{hides_memory, is_of_settings, is_refusal};

use crate::conf_file::conf_of;
use crate::fault::UpdateFault;
use crate::mount_file::mounts_of;
use crate::settings_file::SettingsFile;
use loc_outside::Reader;
use mount_table::Mounts;
use path_order::PathBuf;
use std::alloc::Global;
use tool_words::UpdatedbSettings;
use tree_scan::Rules;
use updatedb_conf::{Conf, block_is_short};

/// The rules of a configuration, mounts and words.
fn rules_of(asked: &UpdatedbSettings<'_>, conf: Conf, mounts: Mounts) -> Rules
    requires { settings_room conf ≤ 101711879 }
    ensures value { result ≡ rules_by (seen asked.now) conf mounts }
    ensures root { IsTrue (is_normal result.root) }
    ensures version { result.version < 2 }
    ensures block { length (plan_of result).block < 2 ^ 32 }
{
    block_is_short(&conf);
    let mut root = PathBuf::new();
    let _ = root.set(asked.root.as_bytes());
    Rules {
        root,
        conf,
        mounts,
        flag: asked.visibility,
        verbose: asked.verbose,
        version: asked.version,
    }
}

/// The rules that the files and the words ask for.
pub(crate) fn read_settings<R: Reader>(
    alloc: Global,
    asked: &UpdatedbSettings<'_>,
    reader: &mut R,
) -> Result<Rules, UpdateFault>
    ensures accepted { IfOk result (λ rules. (files : Files) → R.files reader.old ≡ Some files → plan_in files (seen asked.now) ≡ Ok (plan_of rules)) }
    ensures refused { IfErr result (λ fault. IsTrue (is_refusal fault) → (files : Files) → R.files reader.old ≡ Some files → plan_in files (seen asked.now) ≡ Err fault) }
    ensures settings { IfErr result (λ fault. IsTrue (is_of_settings fault)) }
    ensures memory { IfErr result (λ fault. hides_memory fault ≡ false) }
    ensures given { R.given reader.new ≤ R.given reader.old + 17825794 }
    ensures given_whole { OnOk result ((files : Files) → R.files reader.old ≡ Some files → R.given reader.new ≡ raised (R.given reader.old) (both_read files)) }
    ensures given_most { (files : Files) → R.files reader.old ≡ Some files → R.given reader.new ≤ R.given reader.old + both_read files }
    ensures conf_alone { (files : Files) (fault : UpdateFault) → R.files reader.old ≡ Some files → conf_in files (seen asked.now) ≡ Err fault → R.given reader.new ≤ R.given reader.old + read_most SettingsFile.Configuration (get files (name_of SettingsFile.Configuration)) }
    ensures fault { (file : SettingsFile) → IsErrOf result (UpdateFault.ReadFault file) → Rose (R.faults reader.old) (R.faults reader.new) }
    ensures in_hand { IsErrOf result (UpdateFault.ReadFault SettingsFile.Mounts) → (files : Files) → R.files reader.old ≡ Some files → IsOk (conf_in files (seen asked.now)) }
    ensures ruled { IfOk result (λ rules. (rules.root ≡ (seen asked.now).root) × (rules.verbose ≡ (seen asked.now).verbose)) }
    ensures root { IfOk result (λ rules. IsTrue (is_normal rules.root)) }
    ensures version { IfOk result (λ rules. rules.version < 2) }
    ensures block { IfOk result (λ rules. length (plan_of rules).block < 2 ^ 32) }
    ensures later { R.faults reader.old ≤ R.faults reader.new }
    ensures files { R.files reader.new ≡ R.files reader.old }
{
    let conf = match conf_of(alloc, asked, reader) {
        Ok(conf) => conf,
        Err(fault) => return Err(fault),
    };
    let mounts = match mounts_of(alloc, reader) {
        Ok(mounts) => mounts,
        Err(fault) => return Err(fault),
    };
    Ok(rules_of(asked, conf, mounts))
}
