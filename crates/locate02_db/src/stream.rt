//! An entry of a stream, in parts.
ghost use Rattle.std.specs.Prelude.{◌≡◌, ◌+◌, ◌≤◌, ◌<◌, ◌^◌, length, pos, ◌+ℤ◌, OnOk, IfOk};
ghost use Rattle.loc_outside.specs.Causes.{Rose};
ghost use Rattle.byte_feed.specs.Feed.{reach, Draws};
ghost use Rattle.byte_feed.specs.Field.{FieldGives, magic_at};
ghost use Rattle.byte_feed.specs.Stream.{StreamGives, IsFault, BreaksAt};
ghost use Rattle.locate02_db.specs.Items.{magic, long_at, change_from, shared_within as within, amount, entry_from};
ghost use Rattle.locate02_db.specs.StreamItems.{item_in, Replaces};

use crate::change::{Change, MAGIC};
use byte_feed::{Break, DamageCause, Feed, Stop, behind_magic, broken_at, number_16, read_ended};
use loc_outside::Source;
use path_order::PathBuf;

/// What an entry tells of the bytes that its path shares with the one before.
#[derive(Clone, Copy, Debug, PartialEq, Eq)]
pub struct Prefix {
    pub change: Change,
    /// The number of those bytes.
    pub shared: u16,
}

/// What a database begins with.
pub(crate) fn read_preamble<S: Source>(feed: &mut Feed, src: &mut S) -> Result<(), Break>
    ensures preamble { StreamGives (λ u. u) (magic_at magic) feed.old (S.left src.old) feed.new (S.left src.new) result }
    ensures grows { OnOk result (feed.old.offset < feed.new.offset) }
    ensures near { feed.new.offset ≤ feed.old.offset + 10 }
    ensures broke { BreaksAt feed.new result }
    ensures drawn { Draws feed.old feed.new (S.given src.old) (S.given src.new) (S.left src.old) (S.left src.new) }
    ensures held { length feed.new.held ≤ 4096 }
    ensures reach { reach feed.new ≤ 2 ^ 40 }
    ensures fault { IsFault result → Rose (S.faults src.old) (S.faults src.new) }
    ensures later { S.faults src.old ≤ S.faults src.new }
    ensures kept { S.kept src.old src.new }
{
    let Ok(count) = feed.look(src, 10) else {
        return Err(Break::ReadFault);
    };
    let end = feed.offset() + count as u64;
    match behind_magic(feed.ahead(count), &MAGIC) {
        Ok(_) => {
            feed.pass(count);
            Ok(())
        }
        Err(stop) => Err(broken_at(end, stop)),
    }
}

/// The two bytes of a change in the long form.
#[cold]
#[inline(never)]
fn read_long<S: Source>(feed: &mut Feed, src: &mut S) -> Result<Change, Break>
    ensures change { StreamGives (λ c. c) long_at feed.old (S.left src.old) feed.new (S.left src.new) result }
    ensures grows { OnOk result (feed.old.offset ≤ feed.new.offset) }
    ensures near { feed.new.offset ≤ feed.old.offset + 2 }
    ensures broke { BreaksAt feed.new result }
    ensures drawn { Draws feed.old feed.new (S.given src.old) (S.given src.new) (S.left src.old) (S.left src.new) }
    ensures held { length feed.new.held ≤ 4096 }
    ensures reach { reach feed.new ≤ 2 ^ 40 }
    ensures fault { IsFault result → Rose (S.faults src.old) (S.faults src.new) }
    ensures later { S.faults src.old ≤ S.faults src.new }
    ensures kept { S.kept src.old src.new }
{
    let Ok(count) = feed.look(src, 2) else {
        return Err(Break::ReadFault);
    };
    let end = feed.offset() + count as u64;
    match long(feed.ahead(count)) {
        Ok((change, _)) => {
            feed.pass(count);
            Ok(change)
        }
        Err(stop) => Err(broken_at(end, stop)),
    }
}

/// The two bytes of a change in the long form, at the front of some bytes.
#[tactic(auto, unfolding(crate::specs::Items::long_at))]
fn long(bytes: &[u8]) -> Result<(Change, &[u8]), Stop>
    ensures { FieldGives (λ x. (x.0, x.1.now)) result (long_at bytes.now) }
{
    let (number, rest) = number_16(bytes)?;
    Ok((Change::Long(number.cast_signed()), rest))
}

/// The change, from its first byte on.
#[inline(always)]
fn read_change<S: Source>(feed: &mut Feed, src: &mut S, first: u8) -> Result<Change, Break>
    ensures change { StreamGives (λ c. c) (change_from first) feed.old (S.left src.old) feed.new (S.left src.new) result }
    ensures grows { OnOk result (feed.old.offset ≤ feed.new.offset) }
    ensures near { feed.new.offset ≤ feed.old.offset + 2 }
    ensures broke { BreaksAt feed.new result }
    ensures drawn { Draws feed.old feed.new (S.given src.old) (S.given src.new) (S.left src.old) (S.left src.new) }
    ensures held { length feed.new.held ≤ 4096 }
    ensures reach { reach feed.new ≤ 2 ^ 40 }
    ensures fault { IsFault result → Rose (S.faults src.old) (S.faults src.new) }
    ensures later { S.faults src.old ≤ S.faults src.new }
    ensures kept { S.kept src.old src.new }
{
    if first == 128 {
        return read_long(feed, src);
    }
    let _ = feed.offset();
    Ok(Change::Short(first.cast_signed()))
}

/// The shared length after a change; BadCount where it is below 0 or above the length of the path before.
#[inline(always)]
fn shared_within(len: usize, old: u16, change: Change) -> Result<u16, Stop>
    requires len { len ≤ 4096 }
    requires old { old ≤ 4096 }
    ensures { result ≡ within len (pos old +ℤ amount change) }
{
    let shared = i32::from(old) + i32::from(change.amount());
    if shared < 0 || shared > len as i32 {
        return Err(Stop::Broken(DamageCause::BadCount));
    }
    Ok(shared as u16)
}

/// An entry, from its first byte on. The path before, which shared so many bytes, is cut to the shared
/// length, and the rest of the path is put behind that.
#[inline(always)]
pub(crate) fn read_entry<S: Source>(
    feed: &mut Feed,
    src: &mut S,
    path: &mut PathBuf,
    old: u16,
    first: u8,
) -> Result<Prefix, Break>
    requires { old ≤ 4096 }
    ensures entry { StreamGives (item_in path.new) (entry_from path.old old first) feed.old (S.left src.old) feed.new (S.left src.new) result }
    ensures path { IfOk result (λ p. Replaces old path.old p path.new) }
    ensures grows { OnOk result (feed.old.offset ≤ feed.new.offset) }
    ensures near { feed.new.offset ≤ feed.old.offset + 4099 }
    ensures broke { BreaksAt feed.new result }
    ensures drawn { Draws feed.old feed.new (S.given src.old) (S.given src.new) (S.left src.old) (S.left src.new) }
    ensures held { length feed.new.held ≤ 4096 }
    ensures reach { reach feed.new ≤ 2 ^ 40 }
    ensures fault { IsFault result → Rose (S.faults src.old) (S.faults src.new) }
    ensures later { S.faults src.old ≤ S.faults src.new }
    ensures kept { S.kept src.old src.new }
{
    let change = match read_change(feed, src, first) {
        Ok(change) => change,
        Err(cause) => return Err(cause),
    };
    let shared = match shared_within(path.bytes().len(), old, change) {
        Ok(shared) => shared,
        Err(stop) => return Err(Break::Stopped(stop)),
    };
    path.cut(shared as usize);
    let count = match read_ended(feed, src, path) {
        Ok(count) => count,
        Err(cause) => return Err(cause),
    };
    if shared as usize + count == 0 {
        return Err(Break::Stopped(Stop::Broken(DamageCause::EmptyPath)));
    }
    Ok(Prefix { change, shared })
}
