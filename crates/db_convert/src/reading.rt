//! A file is read into a list of paths.
ghost use Rattle.std.specs.Prelude.{◌≤◌, ◌+◌, ◌^◌, [], Some, IfOk, IfSome, IsErrOf, IsTrue, All, length};
ghost use Rattle.loc_outside.specs.Causes.{Rose};
ghost use Rattle.byte_feed.specs.Feed.{Draws, reach, window};
ghost use Rattle.byte_feed.specs.Paths.{IsPath};
ghost use Rattle.db_convert.specs.Gathered.{Gathered};
ghost use Rattle.db_convert.specs.Reading.{Answers, contents_in};

use crate::fault::ListFault;
use crate::format::Format;
use crate::gathers::Gathers;
use crate::paths::Paths;
use any_db::AnyReader;
use bigram_db::ReaderBigram;
use byte_feed::{DbFault, PathStream};
use loc_outside::Source;
use locate02_db::Reader02;
use mlocate_db::DbReader;
use path_list::{Mark, ReaderList};
use std::alloc::Global;

/// Reads the file of a source to its end, and gives its paths in order: all of them, and only where it ends whole. With no
/// format the file is a database, whose first bytes tell which.
pub fn read_paths<S: Source>(
    alloc: Global,
    format: Option<Format>,
    src: &mut S,
) -> Result<Paths, ListFault>
    ensures answer { IfSome (S.left src.old) (λ file. Answers (contents_in format file) result) }
    ensures readable { IfOk result (λ paths. All IsPath paths) }
    ensures fault { IsErrOf result (ListFault.File DbFault.ReadFault) → Rose (S.faults src.old) (S.faults src.new) }
    ensures later { S.faults src.old ≤ S.faults src.new }
    ensures given { S.given src.new ≤ S.given src.old + 2 ^ 40 }
    ensures once { IfSome (S.left src.old) (λ file. S.given src.new ≤ S.given src.old + length file) }
    ensures kept { S.kept src.old src.new }
{
    let mut paths = Paths::new(alloc);
    match read_into(&mut paths, format, src) {
        Ok(()) => Ok(paths),
        Err(fault) => Err(fault),
    }
}

/// Reads the file of a source to its end, and takes in its paths in order. With no format the file is a database, whose
/// first bytes tell which.
pub(crate) fn read_into<S: Source, C: Gathers>(
    into: &mut C,
    format: Option<Format>,
    src: &mut S,
) -> Result<(), ListFault>
    requires empty { C.holds into.old [] }
    ensures gathered { Gathered (C.holds into.new) (contents_in format) (S.left src.old) result }
    ensures fault { IsErrOf result (ListFault.File DbFault.ReadFault) → Rose (S.faults src.old) (S.faults src.new) }
    ensures later { S.faults src.old ≤ S.faults src.new }
    ensures given { S.given src.new ≤ S.given src.old + 2 ^ 40 }
    ensures once { IfSome (S.left src.old) (λ file. S.given src.new ≤ S.given src.old + length file) }
    ensures kept { S.kept src.old src.new }
{
    match format {
        None => read_stream(into, &mut AnyReader::new(), src),
        Some(format) => read_in(into, format, src),
    }
}

/// The same of a file in this format.
fn read_in<S: Source, C: Gathers>(
    into: &mut C,
    format: Format,
    src: &mut S,
) -> Result<(), ListFault>
    requires empty { C.holds into.old [] }
    ensures gathered { Gathered (C.holds into.new) (contents_in (Some format)) (S.left src.old) result }
    ensures fault { IsErrOf result (ListFault.File DbFault.ReadFault) → Rose (S.faults src.old) (S.faults src.new) }
    ensures later { S.faults src.old ≤ S.faults src.new }
    ensures given { S.given src.new ≤ S.given src.old + 2 ^ 40 }
    ensures once { IfSome (S.left src.old) (λ file. S.given src.new ≤ S.given src.old + length file) }
    ensures kept { S.kept src.old src.new }
{
    match format {
        Format::Mlocate => read_stream(into, &mut DbReader::new(), src),
        Format::Locate02 => read_stream(into, &mut Reader02::new(), src),
        Format::Bigram => read_stream(into, &mut ReaderBigram::new(), src),
        Format::List => read_stream(into, &mut ReaderList::new(Mark::Newline), src),
        Format::List0 => read_stream(into, &mut ReaderList::new(Mark::Zero), src),
    }
}

/// The paths of a stream that has read nothing.
fn read_stream<P: PathStream, S: Source, C: Gathers>(
    into: &mut C,
    stream: &mut P,
    src: &mut S,
) -> Result<(), ListFault>
    requires fresh { IsTrue (P.is_fresh stream.old) }
    requires empty { C.holds into.old [] }
    ensures gathered { Gathered (C.holds into.new) (λ left. P.to_come stream.old (window (P.feed stream.old) left)) (S.left src.old) result }
    ensures fault { IsErrOf result (ListFault.File DbFault.ReadFault) → Rose (S.faults src.old) (S.faults src.new) }
    ensures drawn { Draws (P.feed stream.old) (P.feed stream.new) (S.given src.old) (S.given src.new) (S.left src.old) (S.left src.new) }
    ensures reach { reach (P.feed stream.new) ≤ 2 ^ 40 }
    ensures later { S.faults src.old ≤ S.faults src.new }
    ensures kept { S.kept src.old src.new }
{
    match stream.begin_paths(src) {
        Ok(()) => read_on(into, stream, src),
        Err(fault) => Err(ListFault::File(fault)),
    }
}

/// The paths to come, before which `stream` has given none.
fn read_on<P: PathStream, S: Source, C: Gathers>(
    into: &mut C,
    stream: &mut P,
    src: &mut S,
) -> Result<(), ListFault>
    requires live { IsTrue (P.is_live stream.old) }
    requires empty { C.holds into.old [] }
    ensures gathered { Gathered (C.holds into.new) (λ left. P.to_come stream.old (window (P.feed stream.old) left)) (S.left src.old) result }
    ensures fault { IsErrOf result (ListFault.File DbFault.ReadFault) → Rose (S.faults src.old) (S.faults src.new) }
    ensures drawn { Draws (P.feed stream.old) (P.feed stream.new) (S.given src.old) (S.given src.new) (S.left src.old) (S.left src.new) }
    ensures reach { reach (P.feed stream.new) ≤ 2 ^ 40 }
    ensures later { S.faults src.old ≤ S.faults src.new }
    ensures kept { S.kept src.old src.new }
{
    'paths: loop {
        let more = match stream.next_path(src) {
            Ok(more) => more,
            Err(fault) => return Err(ListFault::File(fault)),
        };
        if !more {
            return Ok(());
        }
        let Ok(()) = into.gather(stream.path()) else {
            return Err(ListFault::OutOfMemory);
        };
    }
}
