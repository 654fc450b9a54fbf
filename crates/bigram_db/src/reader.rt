//! A database, read path by path.
ghost use Rattle.std.specs.Prelude.{◌≡◌, ◌≤◌, ◌<◌, ◌^◌, true, false, length, OnOk, OnErr, IfOk, IsTrue};
ghost use Rattle.loc_outside.specs.Causes.{Rose};
ghost use Rattle.byte_feed.specs.Feed.{empty_at, Draws, reach};
ghost use Rattle.byte_feed.specs.Paths.{preamble_of, IsPath};
ghost use Rattle.byte_feed.specs.Calls.{is_found};
ghost use Rattle.byte_feed.specs.Stream.{IsFault};
ghost use Rattle.bigram_db.specs.Items.{bigram};
ghost use Rattle.bigram_db.specs.Reader.{ReaderState, fresh_on, is_live, is_fresh, paths_left, path_found};

use crate::stream::{read_entry, read_table};
use byte_feed::{Break, DbFault, Feed, LIMIT, PathStream, fault_at};
use loc_outside::Source;
use path_order::{PathBuf, base_start};
use std::marker::Model;

/// What a reader reads next.
#[derive(Clone, Copy, Debug, PartialEq, Eq)]
pub enum Stage {
    /// The table.
    Fresh,
    /// An entry, or the end of the file.
    Live,
    /// Nothing more.
    Done,
}

/// A reader of a bigram database, path by path. It takes no memory: it holds the table, one path and one buffer.
#[derive(Drop)]
pub struct ReaderBigram {
    feed: Feed,
    table: [u8; 256],
    path: PathBuf,
    shared: u16,
    stage: Stage,
    place: u64,
}

impl Model for ReaderBigram {
    ghost use Rattle.std.specs.Prelude.{◌≡◌, ◌≤◌, ◌<◌, ◌^◌, false, true, length, All};
    ghost use Rattle.bigram_db.specs.Reader.{ReaderState, is_done, is_fresh};

    ghost Value = { ReaderState };

    ghost view = { λ r. record { feed = r.feed; table = r.table; path = r.path; shared = r.shared; stage = r.stage; place = r.place } };

    ghost invariant = { λ r. (r.shared ≤ 4096) × (r.place ≤ 2 ^ 40) × All (λ b. 0 < b) r.path
        × (is_done r.stage ≡ false → r.place ≡ r.feed.offset)
        × (is_fresh r.stage ≡ true → r.place ≡ 0) };
}

impl ReaderBigram {
    /// A reader that has read nothing.
    pub fn new() -> ReaderBigram
        ensures { result ≡ fresh_on (empty_at 0) }
    {
        ReaderBigram::on(Feed::new())
    }

    /// A reader that reads first the bytes that this feed holds, of which none was handed out.
    pub fn on(feed: Feed) -> ReaderBigram
        requires { feed.offset ≡ 0 }
        ensures { result ≡ fresh_on feed }
    {
        ReaderBigram {
            feed,
            table: [0; 256],
            path: PathBuf::new(),
            shared: 0,
            stage: Stage::Fresh,
            place: 0,
        }
    }

    /// The feed of a reader that is not to read on.
    pub fn into_feed(self) -> Feed
        ensures { result ≡ self.feed }
    {
        self.feed
    }
}

impl PathStream for ReaderBigram {
    ghost feed = { λ r. r.feed };

    ghost preamble = { λ r. preamble_of bigram };

    ghost to_come = { λ r. paths_left r };

    ghost is_fresh = { λ r. is_fresh r.stage };

    ghost is_live = { λ r. is_live r.stage };

    ghost is_gated = { λ r. false };

    ghost found = { λ r. path_found r };

    ghost shares = { λ r. r.shared };

    ghost stored = { λ r. r.place };

    ghost heads_read = { λ r. 0 };

    fn begin_paths<S: Source>(&mut self, src: &mut S) -> Result<(), DbFault> {
        self.stage = Stage::Done;
        match read_table(&mut self.feed, src) {
            Ok(table) => {
                self.table = table;
                self.path.cut(0);
                self.shared = 0;
                self.place = self.feed.offset();
                self.stage = Stage::Live;
                Ok(())
            }
            Err(cause) => Err(fault_at(self.place, cause)),
        }
    }

    #[inline(always)]
    fn next_path<S: Source>(&mut self, src: &mut S) -> Result<bool, DbFault> {
        self.stage = Stage::Done;
        let Ok(count) = self.feed.look(src, 1) else {
            return Err(DbFault::ReadFault);
        };
        if count == 0 {
            if self.place == LIMIT {
                return Err(DbFault::TooLarge);
            }
            return Ok(false);
        }
        match read_entry(
            &mut self.feed,
            src,
            &self.table,
            &mut self.path,
            self.shared,
        ) {
            Ok(shared) => {
                self.shared = shared;
                self.place = self.feed.offset();
                self.stage = Stage::Live;
                Ok(true)
            }
            Err(cause) => Err(fault_at(self.place, cause)),
        }
    }

    #[inline(always)]
    fn path(&self) -> &[u8] {
        self.path.bytes()
    }

    #[inline(always)]
    fn dir_len(&self) -> usize {
        base_start(self.path.bytes())
    }

    #[inline(always)]
    fn shared(&self) -> usize {
        self.shared as usize
    }

    fn asks_gate(&self) -> bool {
        false
    }

    #[inline(always)]
    fn live(&self) -> bool {
        self.stage == Stage::Live
    }

    #[inline(always)]
    fn place(&self) -> u64 {
        self.place
    }

    #[inline(always)]
    fn heads(&self) -> u64 {
        0
    }
}
