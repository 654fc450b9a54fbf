//! A database, item by item.
ghost use Rattle.std.specs.Prelude.{◌≡◌, ◌+◌, ◌≤◌, ◌<◌, ◌^◌, ◌↔◌, [], true, false, length, take, Ok, Err, IfOk, IfErr, OnOk, OnErr, IsTrue, IsErrOf, is_ok};
ghost use Rattle.loc_outside.specs.Causes.{Rose};
ghost use Rattle.byte_feed.specs.Feed.{empty_at};
ghost use Rattle.byte_feed.specs.Endings.{StopsAt};
ghost use Rattle.byte_feed.specs.Paths.{preamble_of};
ghost use Rattle.byte_feed.specs.Calls.{ReadsAhead};
ghost use Rattle.byte_feed.specs.Stream.{IsFault, BreaksAt};
ghost use Rattle.mlocate_db.specs.Items.{mlocate};
ghost use Rattle.mlocate_db.specs.Reader.{ReaderState, fresh_on, StepGives, StepBreaks, Shows, Stepped, StartKnown, HeaderGives, Started, goes_on, is_live, is_fresh, paths_left, path_found};

use crate::item::Listed;
use crate::stream::{read_entry, read_head, read_header};
use byte_feed::{Break, DbFault, Feed, LIMIT, PathStream, fault_at};
use loc_outside::Source;
use path_order::{Kind, PathBuf, Stamp};
use std::marker::Model;

/// What a reader reads next.
#[derive(Clone, Copy, Debug, PartialEq, Eq)]
pub enum Stage {
    /// The header.
    Fresh,
    /// A head, or the end of the file.
    Between,
    /// An entry, or the end of the directory.
    Inside,
    /// Nothing more.
    Done,
}

/// The item that was read.
#[derive(Clone, Copy, Debug, PartialEq, Eq)]
pub enum Step {
    /// A directory's head.
    Directory,
    /// An entry of the directory in hand.
    Entry(Kind),
    /// The end of the directory in hand.
    EndDirectory,
    /// None: the file has ended whole.
    End,
}

/// A reader of an mlocate database, item by item or path by path. It takes no memory: it holds one path and one buffer.
#[derive(Drop)]
pub struct DbReader {
    feed: Feed,
    path: PathBuf,
    dir_len: usize,
    stage: Stage,
    version: u8,
    flag: bool,
    stamp: Stamp,
    device: u32,
    shared: usize,
    place: u64,
    heads: u64,
}

impl Model for DbReader {
    ghost use Rattle.std.specs.Prelude.{◌≡◌, ◌≤◌, ◌^◌, false, true, length, take};
    ghost use Rattle.byte_feed.specs.Field.{IsText};
    ghost use Rattle.mlocate_db.specs.Reader.{ReaderState, is_done, is_fresh, is_inside};

    ghost Value = { ReaderState };

    ghost view = { λ r. record { feed = r.feed; path = r.path; dir_len = r.dir_len; stage = r.stage; version = r.version; flag = r.flag; stamp = r.stamp; device = r.device; shared = r.shared; place = r.place; heads = r.heads } };

    ghost invariant = { λ r. (r.dir_len ≤ length r.path) × (r.heads ≤ r.place) × (r.place ≤ 2 ^ 40)
        × (is_done r.stage ≡ false → r.place ≡ r.feed.offset)
        × (is_inside r.stage ≡ true → IsText 4096 (take r.dir_len r.path))
        × (is_fresh r.stage ≡ true → (r.place ≡ 0) × (r.heads ≡ 0)) };
}

impl DbReader {
    /// A reader that has read nothing.
    pub fn new() -> DbReader
        ensures { result ≡ fresh_on (empty_at 0) }
    {
        DbReader::on(Feed::new())
    }

    /// A reader that reads first the bytes that this feed holds, of which none was handed out.
    pub fn on(feed: Feed) -> DbReader
        requires { feed.offset ≡ 0 }
        ensures { result ≡ fresh_on feed }
    {
        DbReader {
            feed,
            path: PathBuf::new(),
            dir_len: 0,
            stage: Stage::Fresh,
            version: 0,
            flag: false,
            stamp: Stamp::zero(),
            device: 0,
            shared: 0,
            place: 0,
            heads: 0,
        }
    }

    /// Reads the header. It is refused where no whole header begins the file or the source fails, and then nothing can
    /// be read any more.
    pub fn start<S: Source>(&mut self, src: &mut S) -> Result<(), DbFault>
        requires { IsTrue (is_fresh self.old.stage) }
        ensures header { HeaderGives result self.old (S.left src.old) self.new (S.left src.new) }
        ensures live { is_live self.new.stage ≡ is_ok result }
        ensures stops { IfErr result (λ e. StopsAt self.new.feed self.new.place (Err e)) }
        ensures fault { IsErrOf result DbFault.ReadFault → Rose (S.faults src.old) (S.faults src.new) }
        ensures started { Started result self.old self.new }
        ensures ahead { ReadsAhead self.old.feed self.new.feed (S.given src.old) (S.given src.new) (S.left src.old) (S.left src.new) }
        ensures later { S.faults src.old ≤ S.faults src.new }
        ensures kept { S.kept src.old src.new }
    {
        match self.start_matching(src, b"", b"") {
            Ok(_) => Ok(()),
            Err(fault) => Err(fault),
        }
    }

    /// Reads the header, as `start` does and with its refusals, and tells whether its root and its configuration
    /// block are these. The block is compared as it is read, and not kept.
    pub fn start_matching<S: Source>(
        &mut self,
        src: &mut S,
        root: &[u8],
        block: &[u8],
    ) -> Result<bool, DbFault>
        requires { IsTrue (is_fresh self.old.stage) }
        ensures header { StartKnown result self.old (S.left src.old) self.new (S.left src.new) root.now block.now }
        ensures live { is_live self.new.stage ≡ is_ok result }
        ensures stops { IfErr result (λ e. StopsAt self.new.feed self.new.place (Err e)) }
        ensures fault { IsErrOf result DbFault.ReadFault → Rose (S.faults src.old) (S.faults src.new) }
        ensures started { Started result self.old self.new }
        ensures ahead { ReadsAhead self.old.feed self.new.feed (S.given src.old) (S.given src.new) (S.left src.old) (S.left src.new) }
        ensures later { S.faults src.old ≤ S.faults src.new }
        ensures kept { S.kept src.old src.new }
    {
        self.stage = Stage::Done;
        self.dir_len = 0;
        match read_header(&mut self.feed, src, &mut self.path, block) {
            Ok((fixed, same)) => {
                self.version = fixed.version;
                self.flag = fixed.flag;
                self.place = self.feed.offset();
                self.stage = Stage::Between;
                Ok(is_same(same, self.path.bytes(), root))
            }
            Err(cause) => Err(fault_at(self.place, cause)),
        }
    }

    /// Reads the next item. After `Directory` the path is the directory's, after `Entry` the entry's; it has 1 to
    /// 4,096 bytes without byte 0. After `End` and after any fault nothing can be read any more.
    #[inline(always)]
    pub fn advance<S: Source>(&mut self, src: &mut S) -> Result<Step, DbFault>
        requires { IsTrue (is_live self.old.stage) }
        ensures step { StepGives result self.old (S.left src.old) self.new (S.left src.new) }
        ensures shows { Shows result self.old self.new }
        ensures live { is_live self.new.stage ≡ goes_on result }
        ensures whole { result ≡ Ok Step.End → StopsAt self.new.feed self.new.place (Ok tt) }
        ensures stops { IfErr result (λ e. StopsAt self.new.feed self.new.place (Err e)) }
        ensures fault { IsErrOf result DbFault.ReadFault → Rose (S.faults src.old) (S.faults src.new) }
        ensures stepped { Stepped result self.old self.new }
        ensures ahead { ReadsAhead self.old.feed self.new.feed (S.given src.old) (S.given src.new) (S.left src.old) (S.left src.new) }
        ensures later { S.faults src.old ≤ S.faults src.new }
        ensures kept { S.kept src.old src.new }
    {
        match self.step(src) {
            Ok(step) => Ok(step),
            Err(cause) => Err(fault_at(self.place, cause)),
        }
    }

    /// The next item, or what broke it off.
    #[inline(always)]
    fn step<S: Source>(&mut self, src: &mut S) -> Result<Step, Break>
        requires { IsTrue (is_live self.old.stage) }
        ensures step { StepBreaks result self.old (S.left src.old) self.new (S.left src.new) }
        ensures shows { Shows result self.old self.new }
        ensures live { is_live self.new.stage ≡ goes_on result }
        ensures whole { result ≡ Ok Step.End → (self.new.feed.held ≡ []) × (self.new.feed.ended ≡ true) }
        ensures broke { BreaksAt self.new.feed result }
        ensures fault { IsFault result → Rose (S.faults src.old) (S.faults src.new) }
        ensures stepped { Stepped result self.old self.new }
        ensures ahead { ReadsAhead self.old.feed self.new.feed (S.given src.old) (S.given src.new) (S.left src.old) (S.left src.new) }
        ensures later { S.faults src.old ≤ S.faults src.new }
        ensures kept { S.kept src.old src.new }
    {
        if self.stage == Stage::Inside {
            return self.step_inside(src);
        }
        self.step_between(src)
    }

    /// The next item of a directory.
    #[inline(always)]
    fn step_inside<S: Source>(&mut self, src: &mut S) -> Result<Step, Break>
        requires { self.old.stage ≡ Stage.Inside }
        ensures step { StepBreaks result self.old (S.left src.old) self.new (S.left src.new) }
        ensures shows { Shows result self.old self.new }
        ensures live { is_live self.new.stage ≡ goes_on result }
        ensures whole { result ≡ Ok Step.End → (self.new.feed.held ≡ []) × (self.new.feed.ended ≡ true) }
        ensures broke { BreaksAt self.new.feed result }
        ensures fault { IsFault result → Rose (S.faults src.old) (S.faults src.new) }
        ensures stepped { Stepped result self.old self.new }
        ensures ahead { ReadsAhead self.old.feed self.new.feed (S.given src.old) (S.given src.new) (S.left src.old) (S.left src.new) }
        ensures later { S.faults src.old ≤ S.faults src.new }
        ensures kept { S.kept src.old src.new }
    {
        match read_entry(&mut self.feed, src, &mut self.path, self.dir_len) {
            Ok(Listed::Entry(kind)) => {
                self.place = self.feed.offset();
                Ok(Step::Entry(kind))
            }
            Ok(Listed::End) => {
                self.place = self.feed.offset();
                self.stage = Stage::Between;
                Ok(Step::EndDirectory)
            }
            Err(cause) => {
                self.stage = Stage::Done;
                self.dir_len = 0;
                Err(cause)
            }
        }
    }

    /// The next head, or the end of the file.
    #[inline(never)]
    fn step_between<S: Source>(&mut self, src: &mut S) -> Result<Step, Break>
        requires { self.old.stage ≡ Stage.Between }
        ensures step { StepBreaks result self.old (S.left src.old) self.new (S.left src.new) }
        ensures shows { Shows result self.old self.new }
        ensures live { is_live self.new.stage ≡ goes_on result }
        ensures whole { result ≡ Ok Step.End → (self.new.feed.held ≡ []) × (self.new.feed.ended ≡ true) }
        ensures broke { BreaksAt self.new.feed result }
        ensures fault { IsFault result → Rose (S.faults src.old) (S.faults src.new) }
        ensures stepped { Stepped result self.old self.new }
        ensures ahead { ReadsAhead self.old.feed self.new.feed (S.given src.old) (S.given src.new) (S.left src.old) (S.left src.new) }
        ensures later { S.faults src.old ≤ S.faults src.new }
        ensures kept { S.kept src.old src.new }
    {
        self.stage = Stage::Done;
        let Ok(count) = self.feed.look(src, 1) else {
            return Err(Break::ReadFault);
        };
        if count == 0 {
            if self.place == LIMIT {
                return Err(Break::TooLarge);
            }
            return Ok(Step::End);
        }
        match read_head(&mut self.feed, src, &mut self.path) {
            Ok(numbers) => {
                let Some(stamp) = Stamp::new(numbers.seconds, numbers.nanos) else {
                    unreachable!()
                };
                self.dir_len = self.path.bytes().len();
                self.stamp = stamp;
                self.device = numbers.device;
                self.place = self.feed.offset();
                self.heads += 1;
                self.stage = Stage::Inside;
                Ok(Step::Directory)
            }
            Err(cause) => {
                self.dir_len = 0;
                Err(cause)
            }
        }
    }

    /// The path in hand: the directory's after `Directory`, the entry's after `Entry`. After anything else it is of
    /// no use.
    #[inline(always)]
    pub fn path(&self) -> &[u8]
        ensures value { result.now ≡ self.now.path }
        ensures fits { length result.now ≤ 4096 }
    {
        self.path.bytes()
    }

    /// The length of the path of the directory in hand, which the path in hand begins with, after `Directory` and
    /// `Entry`.
    #[inline(always)]
    pub fn directory_len(&self) -> usize
        ensures value { result ≡ self.now.dir_len }
        ensures within { result ≤ length self.now.path }
    {
        self.dir_len
    }

    /// The time of the last directory whose head was read, 0 before the first.
    pub fn stamp(&self) -> Stamp
        ensures { result ≡ self.now.stamp }
    {
        self.stamp
    }

    /// The number in the last head's device field, 0 before the first: a device in version 1, any padding in version 0.
    pub fn device(&self) -> u32
        ensures { result ≡ self.now.device }
    {
        self.device
    }

    /// The header's version, 0 or 1.
    pub fn version(&self) -> u8
        ensures { result ≡ self.now.version }
    {
        self.version
    }

    /// Whether paths are shown only to those who may list their directories.
    pub fn flag(&self) -> bool
        ensures { result ≡ self.now.flag }
    {
        self.flag
    }

    /// Whether a next item can be read.
    #[inline(always)]
    pub fn live(&self) -> bool
        ensures { result ≡ is_live self.now.stage }
    {
        matches!(self.stage, Stage::Between | Stage::Inside)
    }

    /// The number of bytes in the whole items so far.
    #[inline(always)]
    pub fn place(&self) -> u64
        ensures value { result ≡ self.now.place }
        ensures bound { result ≤ 2 ^ 40 }
    {
        self.place
    }
}

/// Whether it was the same so far, and these bytes are those.
fn is_same(so_far: bool, bytes: &[u8], those: &[u8]) -> bool
    ensures { IsTrue result ↔ (IsTrue so_far × (bytes.now ≡ those.now)) }
{
    so_far && bytes == those
}

impl PathStream for DbReader {
    ghost feed = { λ r. r.feed };

    ghost preamble = { λ r. preamble_of mlocate };

    ghost to_come = { λ r. paths_left r };

    ghost is_fresh = { λ r. is_fresh r.stage };

    ghost is_live = { λ r. is_live r.stage };

    ghost is_gated = { λ r. r.flag };

    ghost found = { λ r. path_found r };

    ghost shares = { λ r. r.shared };

    ghost stored = { λ r. r.place };

    ghost heads_read = { λ r. r.heads };

    fn begin_paths<S: Source>(&mut self, src: &mut S) -> Result<(), DbFault> {
        self.start(src)
    }

    #[inline(always)]
    fn next_path<S: Source>(&mut self, src: &mut S) -> Result<bool, DbFault> {
        let mut shared = if self.stage == Stage::Inside {
            self.dir_len
        } else {
            0
        };
        'steps: loop {
            match self.step(src) {
                Ok(Step::Entry(_)) => {
                    self.shared = shared;
                    return Ok(true);
                }
                Ok(Step::End) => return Ok(false),
                Ok(Step::Directory) => shared = 0,
                Ok(Step::EndDirectory) => shared = 0,
                Err(cause) => return Err(fault_at(self.place, cause)),
            }
        }
    }

    #[inline(always)]
    fn path(&self) -> &[u8] {
        self.path.bytes()
    }

    #[inline(always)]
    fn dir_len(&self) -> usize {
        self.dir_len
    }

    #[inline(always)]
    fn shared(&self) -> usize {
        self.shared
    }

    fn asks_gate(&self) -> bool {
        self.flag
    }

    #[inline(always)]
    fn live(&self) -> bool {
        matches!(self.stage, Stage::Between | Stage::Inside)
    }

    #[inline(always)]
    fn place(&self) -> u64 {
        self.place
    }

    #[inline(always)]
    fn heads(&self) -> u64 {
        self.heads
    }
}
