//! The configuration: its file, and what the words of a call change.
ghost use Rattle.std.specs.Prelude.{false, ◌≡◌, ◌≤◌, ◌≢◌, ◌*◌, ◌+◌, ℕ, Some, Ok, Err, IfOk, IfErr, OnOk, IsErrOf, IsTrue, length, option_map, unwrap_or, []};
ghost use Rattle.std.specs.FinMap.{get};
ghost use Rattle.loc_outside.specs.Causes.{Rose, raised};
ghost use Rattle.loc_outside.specs.Files.{Files};
ghost use Rattle.updatedb_conf.specs.Settings.{changed, settings_room, changes_room};
ghost use Rattle.updatedb_conf.specs.Words.{words, room_of};
ghost use Rattle.std.specs.Option.{ForSome};
ghost use Rattle.tool_words.specs.Lists.{FitsList};
ghost use Rattle.tool_words.specs.UpdatedbSeen.{seen};
ghost use Rattle.database_update.specs.SettingsFiles.{conf_of_file, name_of, read_most};
ghost use Rattle.database_update.specs.Settings.{changes_of as changes_by, conf_in, conf_or_fault};
ghost use Rattle.database_update.specs.Faults.{hides_memory, is_of_conf, is_refusal};

use crate::fault::UpdateFault;
use crate::settings_file::SettingsFile;
use byte_feed::AllFault;
use loc_outside::Reader;
use std::alloc::{AllocError, Global};
use tool_words::UpdatedbSettings;
use updatedb_conf::{Changes, Conf, ConfCause, ConfFault, Words, apply, read_conf};

/// A refused text, as an update answers it.
fn refusal(fault: ConfFault) -> UpdateFault
    ensures refused { IsTrue (is_refusal result) → result ≡ UpdateFault.BadConf fault.line fault.cause }
    ensures memory { IsTrue (is_refusal result) → fault.cause ≢ ConfCause.OutOfMemory }
    ensures conf { IsTrue (is_of_conf result) }
    ensures told { hides_memory result ≡ false }
    ensures unread { result ≢ UpdateFault.ReadFault SettingsFile.Configuration }
{
    match fault.cause {
        ConfCause::OutOfMemory => UpdateFault::OutOfMemory,
        _ => UpdateFault::BadConf {
            line: fault.line,
            cause: fault.cause,
        },
    }
}

/// The configuration of the file, or the defaults where there is none.
fn read_file<R: Reader>(alloc: Global, reader: &mut R) -> Result<Conf, UpdateFault>
    ensures ok { IfOk result (λ conf. (files : Files) (changes : Changes) → R.files reader.old ≡ Some files → conf_of_file (get files (name_of SettingsFile.Configuration)) changes ≡ Ok (changed conf changes)) }
    ensures refused { IfErr result (λ fault. IsTrue (is_refusal fault) → (files : Files) (changes : Changes) → R.files reader.old ≡ Some files → conf_or_fault (conf_of_file (get files (name_of SettingsFile.Configuration)) changes) ≡ Err fault) }
    ensures conf { IfErr result (λ fault. IsTrue (is_of_conf fault)) }
    ensures memory { IfErr result (λ fault. hides_memory fault ≡ false) }
    ensures room { IfOk result (λ conf. settings_room conf ≤ 1048577) }
    ensures given { R.given reader.new ≤ R.given reader.old + 1048577 }
    ensures given_whole { OnOk result ((files : Files) → R.files reader.old ≡ Some files → R.given reader.new ≡ raised (R.given reader.old) (read_most SettingsFile.Configuration (get files (name_of SettingsFile.Configuration)))) }
    ensures given_most { (files : Files) → R.files reader.old ≡ Some files → R.given reader.new ≤ R.given reader.old + read_most SettingsFile.Configuration (get files (name_of SettingsFile.Configuration)) }
    ensures fault { IsErrOf result (UpdateFault.ReadFault SettingsFile.Configuration) → Rose (R.faults reader.old) (R.faults reader.new) }
    ensures later { R.faults reader.old ≤ R.faults reader.new }
    ensures files { R.files reader.new ≡ R.files reader.old }
{
    let text = match SettingsFile::Configuration.read(alloc, reader) {
        Ok(Some(text)) => text,
        Ok(None) => return Ok(Conf::defaults(alloc)),
        Err(AllFault::ReadFault) => {
            return Err(UpdateFault::ReadFault(SettingsFile::Configuration));
        }
        Err(AllFault::TooLong) => {
            return Err(UpdateFault::BadConf {
                line: 0,
                cause: ConfCause::LongText,
            });
        }
        Err(AllFault::OutOfMemory) => return Err(UpdateFault::OutOfMemory),
    };
    match read_conf(alloc, text.as_slice()) {
        Ok(conf) => Ok(conf),
        Err(fault) => Err(refusal(fault)),
    }
}

/// The words of a list.
fn words_of(alloc: Global, list: &str) -> Result<Words, AllocError>
    ensures ok { IfOk result (λ given. given ≡ words list.now) }
    ensures room { IfOk result (λ given. room_of given ≤ length list.now + 1) }
{
    Words::split(alloc, list.as_bytes())
}

/// The words of a list, where one is given.
fn words_given(alloc: Global, list: Option<&str>) -> Result<Option<Words>, AllocError>
    requires { ForSome list (λ t. FitsList t.now) }
    ensures ok { IfOk result (λ given. given ≡ option_map (λ t. words t.now) list.entry) }
    ensures room { IfOk result (λ given. room_of (unwrap_or given []) ≤ 16777217) }
{
    match list {
        Some(list) => Ok(Some(words_of(alloc, list)?)),
        None => Ok(None),
    }
}

/// What the words of a call change.
fn changes_of(alloc: Global, asked: &UpdatedbSettings<'_>) -> Result<Changes, AllocError>
    ensures ok { IfOk result (λ changes. changes ≡ changes_by (seen asked.now)) }
    ensures room { IfOk result (λ changes. changes_room changes ≤ 6 * 16777217) }
{
    Ok(Changes {
        bind: asked.prune_bind_mounts,
        margin: asked.margin,
        fs: words_given(alloc, asked.prunefs)?,
        names: words_given(alloc, asked.prunenames)?,
        paths: words_given(alloc, asked.prunepaths)?,
        add_fs: words_of(alloc, asked.add_prunefs)?,
        add_names: words_of(alloc, asked.add_prunenames)?,
        add_paths: words_of(alloc, asked.add_prunepaths)?,
    })
}

/// The configuration of the file with the changes of the words.
pub(crate) fn conf_of<R: Reader>(
    alloc: Global,
    asked: &UpdatedbSettings<'_>,
    reader: &mut R,
) -> Result<Conf, UpdateFault>
    ensures ok { IfOk result (λ conf. (files : Files) → R.files reader.old ≡ Some files → conf_in files (seen asked.now) ≡ Ok conf) }
    ensures refused { IfErr result (λ fault. IsTrue (is_refusal fault) → (files : Files) → R.files reader.old ≡ Some files → conf_in files (seen asked.now) ≡ Err fault) }
    ensures conf { IfErr result (λ fault. IsTrue (is_of_conf fault)) }
    ensures memory { IfErr result (λ fault. hides_memory fault ≡ false) }
    ensures room { IfOk result (λ conf. settings_room conf ≤ 101711879) }
    ensures given { R.given reader.new ≤ R.given reader.old + 1048577 }
    ensures given_whole { OnOk result ((files : Files) → R.files reader.old ≡ Some files → R.given reader.new ≡ raised (R.given reader.old) (read_most SettingsFile.Configuration (get files (name_of SettingsFile.Configuration)))) }
    ensures given_most { (files : Files) → R.files reader.old ≡ Some files → R.given reader.new ≤ R.given reader.old + read_most SettingsFile.Configuration (get files (name_of SettingsFile.Configuration)) }
    ensures fault { IsErrOf result (UpdateFault.ReadFault SettingsFile.Configuration) → Rose (R.faults reader.old) (R.faults reader.new) }
    ensures later { R.faults reader.old ≤ R.faults reader.new }
    ensures files { R.files reader.new ≡ R.files reader.old }
{
    let conf = match read_file(alloc, reader) {
        Ok(conf) => conf,
        Err(fault) => return Err(fault),
    };
    let Ok(changes) = changes_of(alloc, asked) else {
        return Err(UpdateFault::OutOfMemory);
    };
    let Ok(conf) = apply(alloc, conf, &changes) else {
        return Err(UpdateFault::OutOfMemory);
    };
    Ok(conf)
}
