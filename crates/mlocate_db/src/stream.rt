//! The items of a stream, in parts.
ghost use Rattle.std.specs.Prelude.{◌≡◌, ◌≤◌, ◌-◌, ◌+◌, ◌<◌, length, take, OnOk, IfOk};
ghost use Rattle.loc_outside.specs.Causes.{Rose};
ghost use Rattle.byte_feed.specs.Field.{IsText};
ghost use Rattle.byte_feed.specs.Calls.{ReadsAhead};
ghost use Rattle.byte_feed.specs.Stream.{StreamGives, IsFault, BreaksAt};
ghost use Rattle.mlocate_db.specs.Items.{fixed_at, numbers_at, head_at, as_head, name_at, entry_at, room_in, in_directory};
ghost use Rattle.mlocate_db.specs.StreamItems.{HeaderKnown, item_in, IsPathAfter};

use crate::item::{Fixed, Listed, Numbers};
use crate::reading::{fixed, numbers};
use byte_feed::{Break, DamageCause, Feed, Stop, broken_at, match_bytes, read_byte, read_text};
use loc_outside::Source;
use path_order::{Kind, PathBuf};

/// The first 16 bytes of a header.
fn read_fixed<S: Source>(feed: &mut Feed, src: &mut S) -> Result<Fixed, Break>
    ensures fixed { StreamGives (λ x. x) fixed_at feed.old (S.left src.old) feed.new (S.left src.new) result }
    ensures grows { OnOk result (feed.old.offset ≤ feed.new.offset) }
    ensures near { feed.new.offset ≤ feed.old.offset + 16 }
    ensures broke { BreaksAt feed.new result }
    ensures fault { IsFault result → Rose (S.faults src.old) (S.faults src.new) }
    ensures ahead { ReadsAhead feed.old feed.new (S.given src.old) (S.given src.new) (S.left src.old) (S.left src.new) }
    ensures later { S.faults src.old ≤ S.faults src.new }
    ensures kept { S.kept src.old src.new }
{
    let Ok(count) = feed.look(src, 16) else {
        return Err(Break::ReadFault);
    };
    let end = feed.offset() + count as u64;
    match fixed(feed.ahead(count)) {
        Ok((fixed, _)) => {
            feed.pass(count);
            Ok(fixed)
        }
        Err(stop) => Err(broken_at(end, stop)),
    }
}

/// A header, whose root is put in place of the path that is there. The answer tells besides whether its configuration
/// block is this one.
#[inline(never)]
pub(crate) fn read_header<S: Source>(
    feed: &mut Feed,
    src: &mut S,
    root: &mut PathBuf,
    block: &[u8],
) -> Result<(Fixed, bool), Break>
    ensures header { HeaderKnown block.now root.new feed.old (S.left src.old) feed.new (S.left src.new) result }
    ensures grows { OnOk result (feed.old.offset < feed.new.offset) }
    ensures broke { BreaksAt feed.new result }
    ensures fault { IsFault result → Rose (S.faults src.old) (S.faults src.new) }
    ensures ahead { ReadsAhead feed.old feed.new (S.given src.old) (S.given src.new) (S.left src.old) (S.left src.new) }
    ensures later { S.faults src.old ≤ S.faults src.new }
    ensures kept { S.kept src.old src.new }
{
    let fixed = match read_fixed(feed, src) {
        Ok(fixed) => fixed,
        Err(cause) => return Err(cause),
    };
    root.cut(0);
    match read_text(feed, src, DamageCause::EmptyPath, root) {
        Ok(()) => {}
        Err(cause) => return Err(cause),
    }
    match match_bytes(feed, src, fixed.size, block) {
        Ok(same) => Ok((fixed, same)),
        Err(cause) => Err(cause),
    }
}

/// The first 16 bytes of a directory's head.
fn read_numbers<S: Source>(feed: &mut Feed, src: &mut S) -> Result<Numbers, Break>
    ensures numbers { StreamGives (λ x. x) numbers_at feed.old (S.left src.old) feed.new (S.left src.new) result }
    ensures nanos { IfOk result (λ n. n.nanos < 1000000000) }
    ensures grows { OnOk result (feed.old.offset ≤ feed.new.offset) }
    ensures near { feed.new.offset ≤ feed.old.offset + 16 }
    ensures broke { BreaksAt feed.new result }
    ensures fault { IsFault result → Rose (S.faults src.old) (S.faults src.new) }
    ensures ahead { ReadsAhead feed.old feed.new (S.given src.old) (S.given src.new) (S.left src.old) (S.left src.new) }
    ensures later { S.faults src.old ≤ S.faults src.new }
    ensures kept { S.kept src.old src.new }
{
    let Ok(count) = feed.look(src, 16) else {
        return Err(Break::ReadFault);
    };
    let end = feed.offset() + count as u64;
    match numbers(feed.ahead(count)) {
        Ok((numbers, _)) => {
            feed.pass(count);
            Ok(numbers)
        }
        Err(stop) => Err(broken_at(end, stop)),
    }
}

/// The head of a directory, whose path is put in place of the one that is there.
#[inline(never)]
pub(crate) fn read_head<S: Source>(
    feed: &mut Feed,
    src: &mut S,
    path: &mut PathBuf,
) -> Result<Numbers, Break>
    ensures head { StreamGives (λ n. as_head n path.new) head_at feed.old (S.left src.old) feed.new (S.left src.new) result }
    ensures plain { OnOk result (IsText 4096 path.new) }
    ensures nanos { IfOk result (λ n. n.nanos < 1000000000) }
    ensures grows { OnOk result (feed.old.offset < feed.new.offset) }
    ensures near { feed.new.offset ≤ feed.old.offset + 4113 }
    ensures broke { BreaksAt feed.new result }
    ensures fault { IsFault result → Rose (S.faults src.old) (S.faults src.new) }
    ensures ahead { ReadsAhead feed.old feed.new (S.given src.old) (S.given src.new) (S.left src.old) (S.left src.new) }
    ensures later { S.faults src.old ≤ S.faults src.new }
    ensures kept { S.kept src.old src.new }
{
    let numbers = match read_numbers(feed, src) {
        Ok(numbers) => numbers,
        Err(cause) => return Err(cause),
    };
    path.cut(0);
    match read_text(feed, src, DamageCause::EmptyPath, path) {
        Ok(()) => Ok(numbers),
        Err(cause) => Err(cause),
    }
}

/// An entry, whose name is put behind the directory's path in place of what is there, or the end of the directory.
#[inline(always)]
pub(crate) fn read_entry<S: Source>(
    feed: &mut Feed,
    src: &mut S,
    path: &mut PathBuf,
    dir_len: usize,
) -> Result<Listed, Break>
    requires within { dir_len ≤ length path.old }
    requires dir { IsText 4096 (take dir_len path.old) }
    ensures item { let dir = take dir_len path.old in StreamGives (item_in dir path.new) (entry_at (room_in dir)) feed.old (S.left src.old) feed.new (S.left src.new) result }
    ensures path { IfOk result (λ x. IsPathAfter x dir_len path.old path.new) }
    ensures grows { OnOk result (feed.old.offset < feed.new.offset) }
    ensures near { feed.new.offset ≤ feed.old.offset + 4098 }
    ensures broke { BreaksAt feed.new result }
    ensures fault { IsFault result → Rose (S.faults src.old) (S.faults src.new) }
    ensures ahead { ReadsAhead feed.old feed.new (S.given src.old) (S.given src.new) (S.left src.old) (S.left src.new) }
    ensures later { S.faults src.old ≤ S.faults src.new }
    ensures kept { S.kept src.old src.new }
{
    let kind = match read_byte(feed, src) {
        Ok(kind) => kind,
        Err(cause) => return Err(cause),
    };
    if kind == 0 {
        return read_name(feed, src, path, dir_len, Kind::File);
    }
    if kind == 1 {
        return read_name(feed, src, path, dir_len, Kind::Directory);
    }
    if kind == 2 {
        return Ok(Listed::End);
    }
    Err(Break::Stopped(Stop::Broken(DamageCause::BadKind)))
}

/// The name of an entry of this kind.
#[inline(always)]
fn read_name<S: Source>(
    feed: &mut Feed,
    src: &mut S,
    path: &mut PathBuf,
    dir_len: usize,
    kind: Kind,
) -> Result<Listed, Break>
    requires within { dir_len ≤ length path.old }
    requires dir { IsText 4096 (take dir_len path.old) }
    ensures item { let dir = take dir_len path.old in StreamGives (item_in dir path.new) (name_at kind (room_in dir)) feed.old (S.left src.old) feed.new (S.left src.new) result }
    ensures path { IfOk result (λ x. IsPathAfter x dir_len path.old path.new) }
    ensures grows { OnOk result (feed.old.offset < feed.new.offset) }
    ensures near { feed.new.offset ≤ feed.old.offset + 4097 }
    ensures broke { BreaksAt feed.new result }
    ensures fault { IsFault result → Rose (S.faults src.old) (S.faults src.new) }
    ensures ahead { ReadsAhead feed.old feed.new (S.given src.old) (S.given src.new) (S.left src.old) (S.left src.new) }
    ensures later { S.faults src.old ≤ S.faults src.new }
    ensures kept { S.kept src.old src.new }
{
    path.cut(dir_len);
    open_directory(path);
    match read_text(feed, src, DamageCause::EmptyName, path) {
        Ok(()) => Ok(Listed::Entry(kind)),
        Err(cause) => Err(cause),
    }
}

/// Makes the path of a directory what its entries' paths begin with, where there is room for a name.
#[inline(always)]
fn open_directory(path: &mut PathBuf)
    ensures room { 4096 - length path.new ≡ room_in path.old }
    ensures opened { 0 < room_in path.old → path.new ≡ in_directory path.old }
{
    if !matches!(path.bytes(), [b'/']) {
        let _ = path.push_byte(b'/');
    }
}
