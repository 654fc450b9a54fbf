//! Reading the names of a directory.
ghost use Rattle.std.specs.Prelude.{◌≡◌, ◌≤◌, ◌<◌, ◌++◌, ◌∷◌, [], true, false, length, take, drop, Ok, IfOk};
ghost use Rattle.loc_outside.specs.Causes.{Rose};
ghost use Rattle.path_order.specs.declared.kind.Kind.{Kind};
ghost use Rattle.byte_feed.specs.Feed.{Draws};
ghost use Rattle.mlocate_db.specs.Items.{in_directory};
ghost use Rattle.mlocate_db.specs.Reader.{is_live};
ghost use Rattle.tree_scan.specs.Records.{Fitting};
ghost use Rattle.dir_reuse.specs.Usable.{are_usable};
ghost use Rattle.dir_reuse.specs.Seeking.{AtHead};
ghost use Rattle.dir_reuse.specs.Naming.{NamesKnown, NamesNear, Stands, is_whole, refusal_of};

use byte_feed::DbFault;
use loc_outside::Source;
use mlocate_db::{DbReader, Step};
use path_order::{NameList, is_name};
use std::alloc::AllocError;
use std::cmp::Ordering;

/// The greatest number of names of a directory that is reused.
const MAX_NAMES: usize = 16_777_216;

/// What reading the names of a directory came to.
#[derive(Clone, Copy, Debug, PartialEq, Eq)]
pub(crate) enum Names {
    /// They were read up to the end of the directory.
    Whole,
    /// They are no record's, or the directory has no end.
    Unusable,
    /// The source failed.
    Fault,
}

/// The name in the path of an entry, whose directory's path has this length.
fn name_in(path: &[u8], dir_len: usize) -> &[u8]
    requires { dir_len < length path.now }
    ensures { result.now ≡ drop (length (in_directory (take dir_len path.now))) path.now }
{
    if matches!(&path[..dir_len], [b'/']) {
        return &path[dir_len..];
    }
    &path[dir_len + 1..]
}

/// Whether a record that has these names may have this one behind them.
fn may_follow(names: &NameList, name: &[u8]) -> bool
    requires { are_usable names.now ≡ true }
    ensures { (kind : Kind) → are_usable (names.now ++ (name.now, kind) ∷ []) ≡ result }
{
    let count = names.len();
    if count >= MAX_NAMES || !is_name(name) {
        return false;
    }
    if count == 0 {
        return true;
    }
    matches!(names.name(count - 1).cmp(&name), Ordering::Less)
}

/// What it comes to where reading on is refused.
fn refused_by(fault: DbFault) -> Names
    ensures { result ≡ refusal_of fault }
{
    match fault {
        DbFault::ReadFault => Names::Fault,
        _ => Names::Unusable,
    }
}

/// Reads the names of the directory whose head was read last, in place of those that are there.
pub(crate) fn read_names<S: Source>(
    reader: &mut DbReader,
    src: &mut S,
    into: &mut NameList,
) -> Result<Names, AllocError>
    requires { AtHead reader.old }
    ensures names { NamesKnown result reader.old (S.left src.old) reader.new (S.left src.new) into.new }
    ensures fitting { result ≡ Ok Names.Whole → Fitting reader.old.path into.new }
    ensures empty { IfOk result (λ names. is_whole names ≡ false → into.new ≡ []) }
    ensures stands { Stands reader.new }
    ensures near { NamesNear result reader.old (S.left src.old) reader.new }
    ensures onward { reader.old.place ≤ reader.new.place }
    ensures dead { result ≡ Ok Names.Fault → is_live reader.new.stage ≡ false }
    ensures drawn { Draws reader.old.feed reader.new.feed (S.given src.old) (S.given src.new) (S.left src.old) (S.left src.new) }
    ensures fault { result ≡ Ok Names.Fault → Rose (S.faults src.old) (S.faults src.new) }
    ensures later { S.faults src.old ≤ S.faults src.new }
    ensures kept { S.kept src.old src.new }
{
    into.clear();
    'names: loop {
        match reader.advance(src) {
            Ok(Step::Entry(kind)) => {
                let name = name_in(reader.path(), reader.directory_len());
                if !may_follow(into, name) {
                    into.clear();
                    return Ok(Names::Unusable);
                }
                into.push(name, kind)?;
            }
            Ok(Step::EndDirectory) => return Ok(Names::Whole),
            Ok(Step::Directory) => unreachable!(),
            Ok(Step::End) => unreachable!(),
            Err(fault) => {
                into.clear();
                return Ok(refused_by(fault));
            }
        }
    }
}
