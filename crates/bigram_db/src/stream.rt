//! The parts of a database as they come off a stream.
ghost use Rattle.std.specs.Prelude.{◌≡◌, ◌≤◌, ◌<◌, ◌-◌, ◌^◌, ◌+◌, ◌++◌, ◌↔◌, true, length, take, drop, IsOk, OnOk, IfOk, IfErr, IfSome, MatchOption, false, ◌*◌, All};
ghost use Rattle.loc_outside.specs.Causes.{Rose};
ghost use Rattle.byte_feed.specs.Calls.{Shares};
ghost use Rattle.byte_feed.specs.Feed.{reach, Draws};
ghost use Rattle.byte_feed.specs.Stream.{StreamGives, IsFault, BreaksAt};
ghost use Rattle.bigram_db.specs.Pairs.{is_table as tables};
ghost use Rattle.byte_feed.specs.Field.{max_path};
ghost use Rattle.bigram_db.specs.Items.{is_in_range, table_at, count_at, word_at};
ghost use Rattle.bigram_db.specs.Entries.{CountKnown, NextKnown, UnitKnown, UnitsKnown, EntryKnown};

use crate::table::is_table;
use crate::unit::{push_escaped, push_unit, push_units};
use crate::word::{read_value, shared_after};
use byte_feed::{Break, DamageCause, Feed, LIMIT, Stop, broken_at, read_byte};
use loc_outside::Source;
use path_order::PathBuf;

/// The table.
pub(crate) fn read_table<S: Source>(feed: &mut Feed, src: &mut S) -> Result<[u8; 256], Break>
    ensures table { StreamGives (λ table. table) table_at feed.old (S.left src.old) feed.new (S.left src.new) result }
    ensures grows { OnOk result (feed.new.offset ≡ feed.old.offset + 256) }
    ensures broke { BreaksAt feed.new result }
    ensures drawn { Draws feed.old feed.new (S.given src.old) (S.given src.new) (S.left src.old) (S.left src.new) }
    ensures held { length feed.new.held ≤ 4096 }
    ensures reach { reach feed.new ≤ 2 ^ 40 }
    ensures fault { IsFault result → Rose (S.faults src.old) (S.faults src.new) }
    ensures later { S.faults src.old ≤ S.faults src.new }
    ensures kept { S.kept src.old src.new }
{
    let Ok(count) = feed.look(src, 256) else {
        return Err(Break::ReadFault);
    };
    let Some(table) = table_of(feed.ahead(count)) else {
        return Err(Break::Stopped(Stop::NotADatabase));
    };
    feed.pass(count);
    Ok(table)
}

/// These bytes, where they are a table.
fn table_of(bytes: &[u8]) -> Option<[u8; 256]>
    ensures { MatchOption result (tables bytes.now ≡ false) (λ table. (table ≡ bytes.now) × (tables bytes.now ≡ true)) }
{
    if !is_table(bytes) {
        return None;
    }
    let mut table = [0; 256];
    table.copy_from_slice(bytes);
    Some(table)
}

/// An entry, whose path is put in place of the path before. The answer is how many bytes the two share.
#[inline(always)]
pub(crate) fn read_entry<S: Source>(
    feed: &mut Feed,
    src: &mut S,
    table: &[u8; 256],
    path: &mut PathBuf,
    old: u16,
) -> Result<u16, Break>
    requires old { old ≤ 4096 }
    requires plain { All (λ b. 0 < b) path.old }
    ensures entry { EntryKnown table.now path.old old path.new feed.old (S.left src.old) feed.new (S.left src.new) result }
    ensures plain { All (λ b. 0 < b) path.new }
    ensures fits { length path.new ≤ 4096 }
    ensures some { OnOk result (0 < length path.new) }
    ensures shared { IfOk result (λ shared. shared ≤ 4096) }
    ensures shares { IfOk result (λ shared. Shares shared path.old path.new) }
    ensures grows { OnOk result (feed.old.offset < feed.new.offset) }
    ensures near { feed.new.offset ≤ feed.old.offset + 8199 }
    ensures broke { BreaksAt feed.new result }
    ensures drawn { Draws feed.old feed.new (S.given src.old) (S.given src.new) (S.left src.old) (S.left src.new) }
    ensures held { length feed.new.held ≤ 4096 }
    ensures reach { reach feed.new ≤ 2 ^ 40 }
    ensures fault { IsFault result → Rose (S.faults src.old) (S.faults src.new) }
    ensures later { S.faults src.old ≤ S.faults src.new }
    ensures kept { S.kept src.old src.new }
{
    let len = path.bytes().len();
    let value = match read_count(feed, src) {
        Ok(value) => value,
        Err(cause) => return Err(cause),
    };
    let shared = match shared_after(len, old, value) {
        Ok(shared) => shared,
        Err(stop) => return Err(Break::Stopped(stop)),
    };
    path.cut(shared as usize);
    match read_units(feed, src, table, path) {
        Ok(()) => {}
        Err(cause) => return Err(cause),
    }
    if path.bytes().is_empty() {
        return Err(Break::Stopped(Stop::Broken(DamageCause::EmptyPath)));
    }
    Ok(shared)
}

/// The value of a count.
#[inline(always)]
fn read_count<S: Source>(feed: &mut Feed, src: &mut S) -> Result<i32, Break>
    ensures count { CountKnown count_at feed.old (S.left src.old) feed.new (S.left src.new) result }
    ensures value { IfOk result (λ value. is_in_range value ≡ true) }
    ensures grows { OnOk result (feed.old.offset < feed.new.offset) }
    ensures near { feed.new.offset ≤ feed.old.offset + 5 }
    ensures broke { BreaksAt feed.new result }
    ensures drawn { Draws feed.old feed.new (S.given src.old) (S.given src.new) (S.left src.old) (S.left src.new) }
    ensures held { length feed.new.held ≤ 4096 }
    ensures reach { reach feed.new ≤ 2 ^ 40 }
    ensures fault { IsFault result → Rose (S.faults src.old) (S.faults src.new) }
    ensures later { S.faults src.old ≤ S.faults src.new }
    ensures kept { S.kept src.old src.new }
{
    let first = match read_byte(feed, src) {
        Ok(first) => first,
        Err(cause) => return Err(cause),
    };
    if first > 30 {
        return Err(Break::Stopped(Stop::Broken(DamageCause::NoCount)));
    }
    if first < 30 {
        return Ok(i32::from(first));
    }
    read_word(feed, src)
}

/// The value of a word.
#[cold]
#[inline(never)]
fn read_word<S: Source>(feed: &mut Feed, src: &mut S) -> Result<i32, Break>
    ensures word { CountKnown word_at feed.old (S.left src.old) feed.new (S.left src.new) result }
    ensures value { IfOk result (λ value. is_in_range value ≡ true) }
    ensures grows { OnOk result (feed.new.offset ≡ feed.old.offset + 4) }
    ensures near { feed.new.offset ≤ feed.old.offset + 4 }
    ensures broke { BreaksAt feed.new result }
    ensures drawn { Draws feed.old feed.new (S.given src.old) (S.given src.new) (S.left src.old) (S.left src.new) }
    ensures held { length feed.new.held ≤ 4096 }
    ensures reach { reach feed.new ≤ 2 ^ 40 }
    ensures fault { IsFault result → Rose (S.faults src.old) (S.faults src.new) }
    ensures later { S.faults src.old ≤ S.faults src.new }
    ensures kept { S.kept src.old src.new }
{
    let Ok(count) = feed.look(src, 4) else {
        return Err(Break::ReadFault);
    };
    let end = feed.offset() + count as u64;
    let value = match read_value(feed.ahead(count)) {
        Ok(value) => value,
        Err(stop) => return Err(broken_at(end, stop)),
    };
    feed.pass(count);
    Ok(value)
}

/// Units behind what is in the path, up to the end of the entry.
#[inline(always)]
fn read_units<S: Source>(
    feed: &mut Feed,
    src: &mut S,
    table: &[u8; 256],
    path: &mut PathBuf,
) -> Result<(), Break>
    requires plain { All (λ b. 0 < b) path.old }
    ensures units { UnitsKnown table.now (max_path - length path.old) (drop (length path.old) path.new) feed.old (S.left src.old) feed.new (S.left src.new) result }
    ensures begins { take (length path.old) path.new ≡ path.old }
    ensures grown { length path.old ≤ length path.new }
    ensures plain { All (λ b. 0 < b) path.new }
    ensures fits { length path.new ≤ 4096 }
    ensures forth { OnOk result (feed.old.offset ≤ feed.new.offset) }
    ensures near { feed.new.offset + 2 * length path.old ≤ feed.old.offset + (2 * length path.new + 2) }
    ensures broke { BreaksAt feed.new result }
    ensures drawn { Draws feed.old feed.new (S.given src.old) (S.given src.new) (S.left src.old) (S.left src.new) }
    ensures held { length feed.new.held ≤ 4096 }
    ensures reach { reach feed.new ≤ 2 ^ 40 }
    ensures fault { IsFault result → Rose (S.faults src.old) (S.faults src.new) }
    ensures later { S.faults src.old ≤ S.faults src.new }
    ensures kept { S.kept src.old src.new }
{
    let _ = path.bytes();
    'units: loop {
        let count = push_units(path, table, feed.held());
        feed.pass(count);
        let first = match read_next(feed, src) {
            Ok(Some(first)) => first,
            Ok(None) => return Ok(()),
            Err(cause) => return Err(cause),
        };
        match read_unit(feed, src, table, path, first) {
            Ok(()) => {}
            Err(cause) => return Err(cause),
        }
    }
}

/// The next byte of an entry; `None` where it ends, before a count or at the end of the file.
#[inline(always)]
fn read_next<S: Source>(feed: &mut Feed, src: &mut S) -> Result<Option<u8>, Break>
    ensures next { NextKnown feed.old (S.left src.old) feed.new (S.left src.new) result }
    ensures some { IfOk result (λ next. IfSome next (λ first. 30 < first)) }
    ensures forth { OnOk result (feed.old.offset ≤ feed.new.offset) }
    ensures near { feed.new.offset ≤ feed.old.offset + 1 }
    ensures broke { BreaksAt feed.new result }
    ensures drawn { Draws feed.old feed.new (S.given src.old) (S.given src.new) (S.left src.old) (S.left src.new) }
    ensures held { length feed.new.held ≤ 4096 }
    ensures reach { reach feed.new ≤ 2 ^ 40 }
    ensures fault { IsFault result → Rose (S.faults src.old) (S.faults src.new) }
    ensures later { S.faults src.old ≤ S.faults src.new }
    ensures kept { S.kept src.old src.new }
{
    let Ok(count) = feed.look(src, 1) else {
        return Err(Break::ReadFault);
    };
    match feed.ahead(count) {
        [] if feed.offset() == LIMIT => Err(Break::TooLarge),
        [] => Ok(None),
        [first, ..] if *first <= 30 => Ok(None),
        [first, ..] => {
            let first = *first;
            feed.pass(1);
            Ok(Some(first))
        }
    }
}

/// The unit that begins with this byte.
#[inline(always)]
fn read_unit<S: Source>(
    feed: &mut Feed,
    src: &mut S,
    table: &[u8; 256],
    path: &mut PathBuf,
    first: u8,
) -> Result<(), Break>
    requires first { 30 < first }
    requires plain { All (λ b. 0 < b) path.old }
    ensures unit { UnitKnown table.now (max_path - length path.old) first (drop (length path.old) path.new) feed.old (S.left src.old) feed.new (S.left src.new) result }
    ensures begins { take (length path.old) path.new ≡ path.old }
    ensures grows { OnOk result (length path.old < length path.new) }
    ensures grown { length path.old ≤ length path.new }
    ensures plain { All (λ b. 0 < b) path.new }
    ensures fits { length path.new ≤ 4096 }
    ensures forth { OnOk result (feed.old.offset ≤ feed.new.offset) }
    ensures near { feed.new.offset ≤ feed.old.offset + 1 }
    ensures broke { BreaksAt feed.new result }
    ensures drawn { Draws feed.old feed.new (S.given src.old) (S.given src.new) (S.left src.old) (S.left src.new) }
    ensures held { length feed.new.held ≤ 4096 }
    ensures reach { reach feed.new ≤ 2 ^ 40 }
    ensures fault { IsFault result → Rose (S.faults src.old) (S.faults src.new) }
    ensures later { S.faults src.old ≤ S.faults src.new }
    ensures kept { S.kept src.old src.new }
{
    let _ = feed.offset();
    let _ = path.bytes();
    if first != 31 {
        return push_unit(path, table, first);
    }
    let byte = match read_byte(feed, src) {
        Ok(byte) => byte,
        Err(cause) => return Err(cause),
    };
    push_escaped(path, byte)
}
