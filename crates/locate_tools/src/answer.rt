//! How a run ends.
ghost use Rattle.std.specs.Prelude.{◌≡◌};
ghost use Rattle.locate_tools.specs.Statuses.{status_of, write_status as status_of_write_fault};

use byte_feed::Damage;
use database_update::SettingsFile;
use db_convert::AdmitCause;
use locate_engine::Outcome;
use mount_table::MountCause;
use posix_regex::RegexCause;
use std::marker::Model;
use tool_words::Tool;
use updatedb_conf::ConfCause;

/// A file that a tool needs.
#[derive(Clone, Copy, Debug, PartialEq, Eq)]
pub enum NeededFile {
    /// A settings file of `updatedb`.
    Settings(SettingsFile),
    /// The input of `convert`.
    Input,
}

/// Why a run ended as it did.
#[derive(Clone, Copy, Debug, PartialEq, Eq)]
pub enum Cause {
    /// The tool did its work. For `locate`: a path matched, or the limit is 0, or statistics were asked for.
    Done,
    /// `locate` matched no path, and no write failed.
    NoMatch,
    /// There is no such tool, or the other words break a rule of its command line.
    Usage,
    /// The configuration is refused. The line is counted from 1, and 0 where the file is too long.
    BadConf {
        line: u64,
        fault: ConfCause,
    },
    /// The mount table is refused. The line is counted from 1, and 0 where the file is too long.
    BadMount {
        line: u64,
        fault: MountCause,
    },
    /// The expression of this number, counted from 0, is refused at this byte.
    BadRegex {
        pattern: u64,
        place: u64,
        cause: RegexCause,
    },
    /// There is no directory that is to be scanned.
    RootMissing,
    /// This file could not be opened or read.
    ReadFault(NeededFile),
    /// `convert`: there is no input.
    Missing,
    /// `convert`: the input is no database.
    NotADatabase,
    /// `convert`: the input is damaged.
    Damage(Damage),
    /// `convert`: the input has 2^40 bytes or more.
    TooLarge,
    /// `convert`: the format of the output can't hold the path of this number, counted from 0.
    NotAdmitted {
        index: u64,
        fault: AdmitCause,
    },
    /// A write to the output or to standard output failed.
    WriteFault,
    OutOfMemory,
    /// The tree could not be looked at.
    TreeFault,
    /// A directory lists more than 16,777,216 names.
    TooManyNames,
    /// More than 4,294,967,295 directories were tried.
    TooManyDirectories,
}

/// The exit status of a write fault.
fn write_status(tool: Option<Tool>) -> u8
    ensures { result ≡ status_of_write_fault tool }
{
    match tool {
        Some(Tool::Locate) => 1,
        Some(Tool::Updatedb | Tool::Convert | Tool::Exercise) | None => 2,
    }
}

impl Cause {
    /// The exit status of a run of this tool.
    pub fn status(self, tool: Option<Tool>) -> u8
        ensures { result ≡ status_of tool self }
    {
        match self {
            Cause::Done => 0,
            Cause::NoMatch | Cause::Usage | Cause::RootMissing => 1,
            Cause::BadConf { .. } | Cause::BadMount { .. } | Cause::BadRegex { .. } => 1,
            Cause::ReadFault(_) | Cause::Missing | Cause::NotADatabase => 1,
            Cause::Damage(_) | Cause::TooLarge | Cause::NotAdmitted { .. } => 1,
            Cause::WriteFault => write_status(tool),
            Cause::OutOfMemory => 3,
            Cause::TreeFault => 4,
            Cause::TooManyNames | Cause::TooManyDirectories => 5,
        }
    }
}

/// How each database ended that was tried, in their order. A contract sees a list.
#[derive(Drop)]
pub struct Outcomes {
    items: Vec<Outcome>,
}

impl Model for Outcomes {
    ghost use Rattle.std.specs.Prelude.{List};
    ghost use Rattle.locate_engine.specs.declared.outcome.Outcome.{Outcome};

    ghost Value = { List Outcome };

    ghost view = { λ o. o.items.items };
}

impl Outcomes {
    pub fn new(items: Vec<Outcome>) -> Outcomes
        ensures { result ≡ items.items }
    {
        Outcomes { items }
    }

    pub fn as_slice(&self) -> &[Outcome]
        ensures { result.now ≡ self.now }
    {
        &self.items
    }
}

/// How a run ended.
#[derive(Drop)]
pub struct Ending {
    /// The exit status.
    pub status: u8,
    pub cause: Cause,
    /// One for each database that `locate` tried to open. Other tools have none.
    pub outcomes: Outcomes,
}
