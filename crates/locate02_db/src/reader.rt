//! A database, read path by path.
ghost use Rattle.std.specs.Prelude.{◌≡◌, ◌≤◌, ◌<◌, ◌^◌, false, true};
ghost use Rattle.byte_feed.specs.Feed.{empty_at};
ghost use Rattle.byte_feed.specs.Paths.{preamble_of};
ghost use Rattle.locate02_db.specs.Items.{locate02};
ghost use Rattle.locate02_db.specs.Reader.{ReaderState, fresh_on, is_fresh, is_live, path_found, paths_left};

use crate::stream::{read_entry, read_preamble};
use byte_feed::{DbFault, Feed, FeedFault, PathStream, fault_at};
use loc_outside::Source;
use path_order::{PathBuf, base_start};
use std::marker::Model;

/// What a reader reads next.
#[derive(Clone, Copy, Debug, PartialEq, Eq)]
pub enum Stage {
    /// The preamble.
    Fresh,
    /// An entry, or the end of the file.
    Live,
    /// Nothing more.
    Done,
}

/// A reader of a LOCATE02 database. It takes no memory: it holds one path and one buffer.
#[derive(Drop)]
pub struct Reader02 {
    feed: Feed,
    path: PathBuf,
    shared: u16,
    stage: Stage,
    place: u64,
}

impl Model for Reader02 {
    ghost use Rattle.std.specs.Prelude.{◌≡◌, ◌≤◌, ◌<◌, ◌^◌, false, true, All};
    ghost use Rattle.locate02_db.specs.Reader.{ReaderState, is_done, is_fresh, is_live};

    ghost Value = { ReaderState };

    ghost view = { λ r. record { feed = r.feed; path = r.path; shared = r.shared; stage = r.stage; place = r.place } };

    ghost invariant = { λ r. (r.shared ≤ 4096) × (r.place ≤ 2 ^ 40)
        × (is_done r.stage ≡ false → r.place ≡ r.feed.offset)
        × (is_live r.stage ≡ true → All (λ b. 0 < b) r.path)
        × (is_fresh r.stage ≡ true → r.place ≡ 0) };
}

impl Reader02 {
    /// A reader that has read nothing.
    pub fn new() -> Reader02
        ensures { result ≡ fresh_on (empty_at 0) }
    {
        Reader02::on(Feed::new())
    }

    /// A reader that reads first the bytes that this feed holds, of which none was handed out.
    pub fn on(feed: Feed) -> Reader02
        requires { feed.offset ≡ 0 }
        ensures { result ≡ fresh_on feed }
    {
        Reader02 {
            feed,
            path: PathBuf::new(),
            shared: 0,
            stage: Stage::Fresh,
            place: 0,
        }
    }
}

impl PathStream for Reader02 {
    ghost feed = { λ r. r.feed };

    ghost preamble = { λ r. preamble_of locate02 };

    ghost to_come = { λ r. paths_left r };

    ghost is_fresh = { λ r. is_fresh r.stage };

    ghost is_live = { λ r. is_live r.stage };

    ghost is_gated = { λ r. false };

    ghost found = { λ r. path_found r };

    ghost shares = { λ r. r.shared };

    ghost stored = { λ r. r.place };

    ghost heads_read = { λ r. 0 };

    fn begin_paths<S: Source>(&mut self, src: &mut S) -> Result<(), DbFault> {
        self.path.cut(0);
        self.shared = 0;
        self.stage = Stage::Done;
        match read_preamble(&mut self.feed, src) {
            Ok(()) => {
                self.place = self.feed.offset();
                self.stage = Stage::Live;
                Ok(())
            }
            Err(cause) => Err(fault_at(self.place, cause)),
        }
    }

    #[inline(always)]
    fn next_path<S: Source>(&mut self, src: &mut S) -> Result<bool, DbFault> {
        self.stage = Stage::Done;
        let first = match self.feed.next(src) {
            Ok(Some(first)) => first,
            Ok(None) => return Ok(false),
            Err(FeedFault::ReadFault) => return Err(DbFault::ReadFault),
            Err(FeedFault::TooLarge) => return Err(DbFault::TooLarge),
        };
        match read_entry(&mut self.feed, src, &mut self.path, self.shared, first) {
            Ok(prefix) => {
                self.shared = prefix.shared;
                self.place = self.feed.offset();
                self.stage = Stage::Live;
                Ok(true)
            }
            Err(cause) => Err(fault_at(self.place, cause)),
        }
    }

    #[inline(always)]
    fn path(&self) -> &[u8] {
        self.path.bytes()
    }

    fn dir_len(&self) -> usize {
        base_start(self.path.bytes())
    }

    #[inline(always)]
    fn shared(&self) -> usize {
        self.shared as usize
    }

    fn asks_gate(&self) -> bool {
        false
    }

    #[inline(always)]
    fn live(&self) -> bool {
        matches!(self.stage, Stage::Live)
    }

    #[inline(always)]
    fn place(&self) -> u64 {
        self.place
    }

    #[inline(always)]
    fn heads(&self) -> u64 {
        0
    }
}
