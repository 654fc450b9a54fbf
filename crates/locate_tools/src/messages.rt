//! What is told on the error stream. No message takes memory.
ghost use Rattle.std.specs.Prelude.{◌≡◌, ◌++◌, ◌≤◌, OnOk, OnErr};
ghost use Rattle.std.specs.Io.KnownBytes.{Appends};
ghost use Rattle.loc_outside.specs.Causes.{HasCause};
ghost use Rattle.loc_outside.specs.Outside.{AppendsPart};
ghost use Rattle.locate_tools.specs.Calls.{update_subject as subject_of_update};
ghost use Rattle.locate_tools.specs.Messages.{admit_text as text_of_admission, cause_message, mount_text as text_of_mount, outcome_message};

use crate::answer::{Cause, NeededFile};
use crate::lines::{
    put_pieces, tell, tell_about, tell_damage, tell_numbered, tell_path, tell_regex,
};
use database_update::SettingsFile;
use db_convert::AdmitCause;
use loc_outside::{Failed, Sink};
use locate_engine::Outcome;
use mount_table::MountCause;

/// Why a mount table is refused.
fn mount_text(cause: MountCause) -> &'static [u8]
    ensures { result.now ≡ text_of_mount cause }
{
    match cause {
        MountCause::FewFields => b"too few fields",
        MountCause::NoSeparator => b"no separator",
        MountCause::BadDevice => b"bad device number",
        MountCause::BadEscape => b"bad escape",
        MountCause::BadPath => b"bad mount point",
        MountCause::OutOfMemory => b"out of memory",
        MountCause::LongText => b"file too long",
    }
}

/// Why a format can't hold a path.
fn admit_text(cause: AdmitCause) -> &'static [u8]
    ensures { result.now ≡ text_of_admission cause }
{
    match cause {
        AdmitCause::Newline => b"newline in path",
        AdmitCause::NotNormal => b"not a normal path below the root",
    }
}

/// Tells how a database ended. After `Failed` a first part of the message was taken.
pub fn tell_outcome<E: Sink>(
    err: &mut E,
    tool: &str,
    name: &[u8],
    outcome: Outcome,
) -> Result<(), Failed>
    ensures ok { OnOk result (Appends (E.taken err.old) (E.taken err.new) (outcome_message tool.now name.now outcome)) }
    ensures part { OnErr result (AppendsPart (E.taken err.old) (E.taken err.new) (outcome_message tool.now name.now outcome)) }
    ensures cause { HasCause (E.faults err.old) (E.faults err.new) result }
    ensures kept { E.kept err.old err.new }
{
    match outcome {
        Outcome::Whole | Outcome::LimitReached | Outcome::WriteFault => put_pieces(err, &[]),
        Outcome::Missing => tell_about(err, tool, name, b"no such database"),
        Outcome::NotADatabase => tell_about(err, tool, name, b"not a database"),
        Outcome::Damage(damage) => tell_damage(err, tool, name, damage),
        Outcome::ReadFault => tell_about(err, tool, name, b"read fault"),
        Outcome::GateFault => tell_about(err, tool, name, b"visibility check failed"),
        Outcome::TooLarge => tell_about(err, tool, name, b"too large"),
    }
}

/// The name that the message of a cause of `updatedb` speaks of: a settings file, or the root.
pub fn update_subject(root: &[u8], cause: Cause) -> &[u8]
    ensures { result.now ≡ subject_of_update root.now cause }
{
    match cause {
        Cause::BadConf { .. } => SettingsFile::Configuration.name().as_bytes(),
        Cause::BadMount { .. } => SettingsFile::Mounts.name().as_bytes(),
        Cause::ReadFault(NeededFile::Settings(file)) => file.name().as_bytes(),
        Cause::RootMissing => root,
        _ => b"",
    }
}

/// Tells why a run of this tool ended as it did, with the name of the file or directory that the cause speaks of. After
/// `Failed` a first part of the message was taken.
pub fn tell_cause<E: Sink>(
    err: &mut E,
    tool: &str,
    subject: &[u8],
    cause: Cause,
) -> Result<(), Failed>
    ensures ok { OnOk result (Appends (E.taken err.old) (E.taken err.new) (cause_message tool.now subject.now cause)) }
    ensures part { OnErr result (AppendsPart (E.taken err.old) (E.taken err.new) (cause_message tool.now subject.now cause)) }
    ensures cause { HasCause (E.faults err.old) (E.faults err.new) result }
    ensures kept { E.kept err.old err.new }
{
    match cause {
        Cause::Done | Cause::NoMatch => put_pieces(err, &[]),
        Cause::Usage => tell(err, tool, b"bad usage"),
        Cause::BadConf { line, fault } => { tell_numbered(err, tool, subject, line, fault.text()) }
        Cause::BadMount { line, fault } => {
            tell_numbered(err, tool, subject, line, mount_text(fault))
        }
        Cause::BadRegex {
            pattern: _,
            place,
            cause,
        } => tell_regex(err, tool, cause.text(), place),
        Cause::RootMissing => tell_about(err, tool, subject, b"no such directory"),
        Cause::ReadFault(_) => tell_about(err, tool, subject, b"read fault"),
        Cause::Missing => tell_about(err, tool, subject, b"no such database"),
        Cause::NotADatabase => tell_about(err, tool, subject, b"not a database"),
        Cause::Damage(damage) => tell_damage(err, tool, subject, damage),
        Cause::TooLarge => tell_about(err, tool, subject, b"too large"),
        Cause::NotAdmitted { index, fault } => tell_path(err, tool, index, admit_text(fault)),
        Cause::WriteFault => tell(err, tool, b"write fault"),
        Cause::OutOfMemory => tell(err, tool, b"out of memory"),
        Cause::TreeFault => tell(err, tool, b"tree fault"),
        Cause::TooManyNames => tell(err, tool, b"too many names"),
        Cause::TooManyDirectories => tell(err, tool, b"too many directories"),
    }
}
