//! Reading on to a directory.
ghost use Rattle.std.specs.Prelude.{◌≡◌, ◌≤◌, IsTrue, length};
ghost use Rattle.loc_outside.specs.Causes.{Rose};
ghost use Rattle.byte_feed.specs.Feed.{Draws};
ghost use Rattle.mlocate_db.specs.Reader.{is_live};
ghost use Rattle.dir_reuse.specs.Seeking.{Further, SeekKnown, SeekShows, finds_head, stop_of};

use byte_feed::DbFault;
use loc_outside::Source;
use mlocate_db::{DbReader, Step};
use path_order::compare_paths;
use std::cmp::Ordering;

/// What a search for a directory came to.
#[derive(Clone, Copy, Debug, PartialEq, Eq)]
pub(crate) enum Sought {
    /// Its head was read.
    Here,
    /// The head of a directory that comes after it was read.
    Later,
    /// No head was left that does not come before it.
    End,
    /// The source failed.
    Fault,
}

/// Reads on to the first head whose path does not come before this one.
pub(crate) fn seek<S: Source>(reader: &mut DbReader, src: &mut S, dir: &[u8]) -> Sought
    requires { IsTrue (is_live reader.old.stage) }
    ensures sought { SeekKnown dir.now result reader.old (S.left src.old) reader.new (S.left src.new) }
    ensures shows { SeekShows dir.now result reader.new }
    ensures further { IsTrue (finds_head result) → Further reader.old reader.new }
    ensures held { length reader.new.feed.held ≤ 4096 }
    ensures drawn { Draws reader.old.feed reader.new.feed (S.given src.old) (S.given src.new) (S.left src.old) (S.left src.new) }
    ensures fault { result ≡ Sought.Fault → Rose (S.faults src.old) (S.faults src.new) }
    ensures later { S.faults src.old ≤ S.faults src.new }
    ensures kept { S.kept src.old src.new }
{
    'items: loop {
        match reader.advance(src) {
            Ok(Step::Directory) => match compare_paths(reader.path(), dir) {
                Ordering::Less => {}
                Ordering::Equal => return Sought::Here,
                Ordering::Greater => return Sought::Later,
            },
            Ok(Step::Entry(_)) => {}
            Ok(Step::EndDirectory) => {}
            Ok(Step::End) => return Sought::End,
            Err(fault) => return stopped_by(fault),
        }
    }
}

/// What it comes to where reading on is refused.
fn stopped_by(fault: DbFault) -> Sought
    ensures { result ≡ stop_of fault }
{
    match fault {
        DbFault::ReadFault => Sought::Fault,
        _ => Sought::End,
    }
}
