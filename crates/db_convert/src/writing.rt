//! The paths of a list are written in a format.
ghost use Rattle.std.specs.Prelude.{◌≡◌, None, OnOk, OnErr, IfOk, All};
ghost use Rattle.std.specs.Io.KnownBytes.{Appends};
ghost use Rattle.loc_outside.specs.Causes.{HasCause};
ghost use Rattle.loc_outside.specs.Outside.{AppendsShort};
ghost use Rattle.byte_feed.specs.Paths.{IsPath};
ghost use Rattle.db_convert.specs.Admission.{first_refused};
ghost use Rattle.db_convert.specs.Conversion.{encode};
ghost use Rattle.db_convert.specs.Plans.{IsMade, format_of};

use crate::bigram::{put_bigram, table_for};
use crate::format::Format;
use crate::list::put_list;
use crate::locate02::put_locate02;
use crate::mlocate::{Plan, plan_of, put_mlocate};
use crate::paths::Paths;
use bigram_db::PairTable;
use loc_outside::{Failed, Sink};
use path_list::Mark;
use std::alloc::{AllocError, Global};

/// A format, and what it takes in memory to be written besides the paths.
#[derive(Drop)]
pub(crate) enum Target {
    Mlocate(Plan),
    Locate02,
    Bigram(PairTable),
    List(Mark),
}

/// Takes all memory that the format takes to write these paths.
pub(crate) fn target_for(alloc: Global, to: Format, paths: &Paths) -> Result<Target, AllocError>
    ensures format { IfOk result (λ target. format_of target ≡ to) }
    ensures made { IfOk result (λ target. IsMade paths.now target) }
{
    match to {
        Format::Mlocate => Ok(Target::Mlocate(plan_of(alloc, paths)?)),
        Format::Locate02 => Ok(Target::Locate02),
        Format::Bigram => Ok(Target::Bigram(table_for(alloc, paths)?)),
        Format::List => Ok(Target::List(Mark::Newline)),
        Format::List0 => Ok(Target::List(Mark::Zero)),
    }
}

/// Writes these paths. After `Failed` a first part of their text was taken, and not all.
pub(crate) fn put_paths<K: Sink>(sink: &mut K, target: Target, paths: &Paths) -> Result<(), Failed>
    requires made { IsMade paths.now target }
    requires readable { All IsPath paths.now }
    requires admitted { first_refused (format_of target) paths.now ≡ None }
    ensures ok { OnOk result (Appends (K.taken sink.old) (K.taken sink.new) (encode (format_of target) paths.now)) }
    ensures err { OnErr result (AppendsShort (K.taken sink.old) (K.taken sink.new) (encode (format_of target) paths.now)) }
    ensures cause { HasCause (K.faults sink.old) (K.faults sink.new) result }
    ensures kept { K.kept sink.old sink.new }
{
    match target {
        Target::Mlocate(plan) => put_mlocate(sink, &plan, paths),
        Target::Locate02 => put_locate02(sink, paths),
        Target::Bigram(table) => put_bigram(sink, table, paths),
        Target::List(mark) => put_list(sink, mark, paths),
    }
}
