//! A place in an old database, which only moves on.
ghost use Rattle.std.specs.Prelude.{◌≡◌, ◌≤◌, ◌+◌, ◌&&◌, [], true, false, not, IsTrue, Ok, Err, IfOk, OnOk, Some, None, ◌==◌, length, if◌then◌else◌};
ghost use Rattle.loc_outside.specs.Causes.{Rose};
ghost use Rattle.path_order.specs.NameList.{Listed};
ghost use Rattle.byte_feed.specs.Endings.{is_read_fault as is_fault_of_the_source};
ghost use Rattle.byte_feed.specs.Feed.{Draws, empty_at, reach};
ghost use Rattle.mlocate_db.specs.Reader.{is_live};
ghost use Rattle.tree_scan.specs.Records.{Fitting, bears, is_zero as is_zero_moment};
ghost use Rattle.dir_reuse.specs.Coming.{head_of};
ghost use Rattle.dir_reuse.specs.Usable.{record_of};
ghost use Rattle.dir_reuse.specs.Keeping.{GivesKnown, StaysKnown};
ghost use Rattle.dir_reuse.specs.Seeking.{Further, finds_head};
ghost use Rattle.dir_reuse.specs.Stream.{HeaderReadKnown, OpensKnown};
ghost use Rattle.dir_reuse.specs.Answering.{AnswersTold, ReadsNear, CameKnown, CameShows, HasHead, has_failed, is_open, is_sound};

use crate::kept::Kept;
use crate::naming::{Names, read_names};
use crate::seeking::{Sought, seek};
use byte_feed::DbFault;
use loc_outside::Source;
use mlocate_db::DbReader;
use path_order::{NameList, Stamp, compare_paths};
use std::alloc::{AllocError, Global};
use std::cmp::Ordering;

/// A place in an old database.
#[derive(Drop)]
pub(crate) struct Cursor {
    pub(crate) reader: DbReader,
    /// Whether the header has the root and the configuration block that were asked for.
    pub(crate) matched: bool,
    /// Whether a directory's head was read, and nothing behind it.
    pub(crate) at_head: bool,
    /// Whether no read has failed.
    pub(crate) unbroken: bool,
}

/// Whether this is the zero time.
pub(crate) fn is_zero(stamp: Stamp) -> bool
    ensures { result ≡ is_zero_moment stamp }
{
    stamp.seconds() == 0 && stamp.nanos() == 0
}

/// Whether the source failed.
fn is_read_fault(fault: DbFault) -> bool
    ensures { result ≡ is_fault_of_the_source (Err fault) }
{
    match fault {
        DbFault::ReadFault => true,
        DbFault::NotADatabase => false,
        DbFault::TooLarge => false,
        DbFault::Damage(_) => false,
    }
}

impl Cursor {
    /// Reads the header. Records can come only where its root and its configuration block are these.
    pub(crate) fn open_on<S: Source>(src: &mut S, root: &[u8], block: &[u8]) -> Cursor
        ensures opened { OpensKnown root.now block.now (S.left src.old) result (S.left src.new) }
        ensures header { HeaderReadKnown root.now block.now (S.left src.old) result }
        ensures apart { result.at_head ≡ false }
        ensures sound { IsTrue (is_sound result) }
        ensures broke { result.unbroken ≡ false → Rose (S.faults src.old) (S.faults src.new) }
        ensures drawn { Draws (empty_at 0) result.reader.feed (S.given src.old) (S.given src.new) (S.left src.old) (S.left src.new) }
        ensures near { is_live result.reader.stage ≡ true → reach result.reader.feed ≤ result.reader.place + 4096 }
        ensures later { S.faults src.old ≤ S.faults src.new }
        ensures kept { S.kept src.old src.new }
    {
        let mut reader = DbReader::new();
        match reader.start_matching(src, root, block) {
            Ok(matched) => Cursor {
                reader,
                matched,
                at_head: false,
                unbroken: true,
            },
            Err(fault) => Cursor {
                reader,
                matched: false,
                at_head: false,
                unbroken: !is_read_fault(fault),
            },
        }
    }

    /// Whether the record of the directory whose head is in hand bears this time, which is not zero, and no device or
    /// this one.
    fn bears(&self, stamp: Stamp, device: u32) -> bool
        requires { is_zero_moment stamp ≡ false }
        ensures { (names : Listed) → bears (record_of self.now.reader.version (head_of self.now.reader) names) stamp device ≡ result }
    {
        let head = self.reader.stamp();
        if head.seconds() != stamp.seconds() || head.nanos() != stamp.nanos() {
            return false;
        }
        self.reader.version() != 1 || self.reader.device() == device
    }

    /// Reads on to the first head whose path does not come before this one.
    fn go_on<S: Source>(&mut self, src: &mut S, dir: &[u8]) -> Sought
        requires sound { IsTrue (is_sound self.old) }
        requires apart { self.old.at_head ≡ false }
        ensures came { CameKnown dir.now result self.old (S.left src.old) self.new (S.left src.new) }
        ensures shows { CameShows dir.now result self.new }
        ensures further { IsTrue (finds_head result) → Further self.old.reader self.new.reader }
        ensures closed { is_open self.old ≡ false → result ≡ Sought.End }
        ensures sound { IsTrue (is_sound self.new) }
        ensures unbroken { self.new.unbroken ≡ (not (has_failed result) && self.old.unbroken) }
        ensures still { is_open self.old ≡ false → self.new.reader ≡ self.old.reader }
        ensures drawn { Draws self.old.reader.feed self.new.reader.feed (S.given src.old) (S.given src.new) (S.left src.old) (S.left src.new) }
        ensures fault { IsTrue (has_failed result) → Rose (S.faults src.old) (S.faults src.new) }
        ensures later { S.faults src.old ≤ S.faults src.new }
        ensures kept { S.kept src.old src.new }
    {
        if !self.matched || !self.reader.live() {
            return Sought::End;
        }
        match seek(&mut self.reader, src, dir) {
            Sought::Here => {
                self.at_head = true;
                Sought::Here
            }
            Sought::Later => {
                self.at_head = true;
                Sought::Later
            }
            Sought::End => Sought::End,
            Sought::Fault => {
                self.unbroken = false;
                Sought::Fault
            }
        }
    }

    /// Reads on to the next head, if there is one.
    pub(crate) fn next_head<S: Source>(&mut self, src: &mut S) -> bool
        requires sound { IsTrue (is_sound self.old) }
        requires apart { self.old.at_head ≡ false }
        ensures stays { StaysKnown self.old (S.left src.old) self.new (S.left src.new) }
        ensures head { result ≡ true → HasHead self.new }
        ensures closed { result ≡ false → is_open self.new ≡ false }
        ensures further { result ≡ true → Further self.old.reader self.new.reader }
        ensures sound { IsTrue (is_sound self.new) }
        ensures unbroken { IsTrue self.new.unbroken → IsTrue self.old.unbroken }
        ensures broke { (Rose (S.faults src.old) (S.faults src.new) → ⊥) → self.new.unbroken ≡ self.old.unbroken }
        ensures later { S.faults src.old ≤ S.faults src.new }
        ensures kept { S.kept src.old src.new }
    {
        match self.go_on(src, b"") {
            Sought::Here => true,
            Sought::Later => true,
            Sought::End => false,
            Sought::Fault => false,
        }
    }

    /// The device of the directory whose head is in hand, which a database of version 1 tells.
    fn device(&self) -> Option<u32>
        ensures { result ≡ (if self.now.reader.version == 1 then Some self.now.reader.device else None) }
    {
        if self.reader.version() == 1 {
            Some(self.reader.device())
        } else {
            None
        }
    }

    /// Reads past the directory whose head is in hand, and gives its record where it is usable. After running out of
    /// memory the cursor is not used again.
    pub(crate) fn take_record<S: Source>(
        &mut self,
        alloc: Global,
        src: &mut S,
    ) -> Result<Option<Kept>, AllocError>
        requires sound { IsTrue (is_sound self.old) }
        requires head { HasHead self.old }
        ensures gives { IfOk result (λ given. GivesKnown given self.old (S.left src.old) self.new (S.left src.new)) }
        ensures apart { OnOk result (self.new.at_head ≡ false) }
        ensures onward { OnOk result (self.old.reader.place ≤ self.new.reader.place) }
        ensures sound { OnOk result (IsTrue (is_sound self.new)) }
        ensures unbroken { IsTrue self.new.unbroken → IsTrue self.old.unbroken }
        ensures broke { (Rose (S.faults src.old) (S.faults src.new) → ⊥) → self.new.unbroken ≡ self.old.unbroken }
        ensures later { S.faults src.old ≤ S.faults src.new }
        ensures kept { S.kept src.old src.new }
    {
        let mut path = Vec::new(alloc);
        path.extend_from_slice(self.reader.path())?;
        let stamp = self.reader.stamp();
        let device = self.device();
        let mut names = NameList::new(alloc);
        self.at_head = false;
        match read_names(&mut self.reader, src, &mut names) {
            Ok(Names::Whole) => Ok(Some(Kept::new(path, stamp, device, names))),
            Ok(Names::Unusable) => Ok(None),
            Ok(Names::Fault) => {
                self.unbroken = false;
                Ok(None)
            }
            Err(fault) => Err(fault),
        }
    }

    /// The same, where a head may be in hand.
    fn come_to<S: Source>(&mut self, src: &mut S, dir: &[u8]) -> Sought
        requires { IsTrue (is_sound self.old) }
        ensures came { CameKnown dir.now result self.old (S.left src.old) self.new (S.left src.new) }
        ensures shows { CameShows dir.now result self.new }
        ensures closed { is_open self.old ≡ false → result ≡ Sought.End }
        ensures sound { IsTrue (is_sound self.new) }
        ensures unbroken { self.new.unbroken ≡ (not (has_failed result) && self.old.unbroken) }
        ensures still { is_open self.old ≡ false → self.new.reader ≡ self.old.reader }
        ensures drawn { Draws self.old.reader.feed self.new.reader.feed (S.given src.old) (S.given src.new) (S.left src.old) (S.left src.new) }
        ensures fault { IsTrue (has_failed result) → Rose (S.faults src.old) (S.faults src.new) }
        ensures later { S.faults src.old ≤ S.faults src.new }
        ensures kept { S.kept src.old src.new }
    {
        if !self.at_head {
            return self.go_on(src, dir);
        }
        match compare_paths(self.reader.path(), dir) {
            Ordering::Less => {
                self.at_head = false;
                self.go_on(src, dir)
            }
            Ordering::Equal => Sought::Here,
            Ordering::Greater => Sought::Later,
        }
    }

    /// Whether a record vouches for the directory of this path, with this time and device. If so, `into` holds its names,
    /// else it is empty.
    pub(crate) fn vouch<S: Source>(
        &mut self,
        src: &mut S,
        dir: &[u8],
        stamp: Stamp,
        device: u32,
        into: &mut NameList,
    ) -> Result<bool, AllocError>
        requires { IsTrue (is_sound self.old) }
        ensures answers { AnswersTold dir.now stamp device self.old (S.left src.old) self.new (S.left src.new) result into.new }
        ensures empty { result ≡ Ok false → into.new ≡ [] }
        ensures fitting { result ≡ Ok true → Fitting dir.now into.new }
        ensures closed { is_open self.old ≡ false → (is_open self.new ≡ false) × (result ≡ Ok false) }
        ensures sound { IsTrue (is_sound self.new) }
        ensures near { ReadsNear dir.now self.old (S.left src.old) self.new }
        ensures still { is_open self.old ≡ false → self.new.reader ≡ self.old.reader }
        ensures drawn { Draws self.old.reader.feed self.new.reader.feed (S.given src.old) (S.given src.new) (S.left src.old) (S.left src.new) }
        ensures unbroken { IsTrue self.new.unbroken → IsTrue self.old.unbroken }
        ensures broke { (Rose (S.faults src.old) (S.faults src.new) → ⊥) → self.new.unbroken ≡ self.old.unbroken }
        ensures later { S.faults src.old ≤ S.faults src.new }
        ensures kept { S.kept src.old src.new }
    {
        into.clear();
        if is_zero(stamp) {
            return Ok(false);
        }
        match self.come_to(src, dir) {
            Sought::Here => {}
            Sought::Later => return Ok(false),
            Sought::End => return Ok(false),
            Sought::Fault => return Ok(false),
        }
        if !self.bears(stamp, device) {
            return Ok(false);
        }
        self.at_head = false;
        match read_names(&mut self.reader, src, into) {
            Ok(Names::Whole) => Ok(true),
            Ok(Names::Unusable) => Ok(false),
            Ok(Names::Fault) => {
                self.unbroken = false;
                Ok(false)
            }
            Err(fault) => Err(fault),
        }
    }
}
