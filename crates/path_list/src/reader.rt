//! A list, read path by path.
ghost use Rattle.std.specs.Prelude.{◌≡◌, ◌≤◌, ◌^◌, Some, false, true};
ghost use Rattle.byte_feed.specs.Feed.{empty_at};
ghost use Rattle.path_list.specs.Reader.{ReaderState, fresh_on, is_fresh, is_live, path_found, paths_left};

use crate::mark::Mark;
use crate::stream::read_path;
use byte_feed::{DbFault, Feed, PathStream, fault_at};
use loc_outside::Source;
use path_order::{PathBuf, base_start};
use std::marker::Model;

/// What a reader reads next.
#[derive(Clone, Copy, Debug, PartialEq, Eq)]
pub enum Stage {
    /// The first path, of which none was asked for.
    Fresh,
    /// A path, or the end of the list.
    Live,
    /// Nothing more.
    Done,
}

/// A reader of a list of paths. It takes no memory: it holds one path and one buffer.
#[derive(Drop)]
pub struct ReaderList {
    feed: Feed,
    mark: Mark,
    path: PathBuf,
    stage: Stage,
    place: u64,
}

impl Model for ReaderList {
    ghost use Rattle.std.specs.Prelude.{◌≡◌, ◌≤◌, ◌^◌, false, true};
    ghost use Rattle.path_list.specs.Reader.{ReaderState, is_done, is_fresh};

    ghost Value = { ReaderState };

    ghost view = { λ r. record { feed = r.feed; mark = r.mark; path = r.path; stage = r.stage; place = r.place } };

    ghost invariant = { λ r. (r.place ≤ 2 ^ 40)
        × (is_done r.stage ≡ false → r.place ≡ r.feed.offset)
        × (is_fresh r.stage ≡ true → r.place ≡ 0) };
}

impl ReaderList {
    /// A reader that has read nothing, of paths that are ended so.
    pub fn new(mark: Mark) -> ReaderList
        ensures { result ≡ fresh_on (empty_at 0) mark }
    {
        ReaderList::on(Feed::new(), mark)
    }

    /// A reader that reads first the bytes that this feed holds, of which none was handed out.
    pub fn on(feed: Feed, mark: Mark) -> ReaderList
        requires { feed.offset ≡ 0 }
        ensures { result ≡ fresh_on feed mark }
    {
        ReaderList {
            feed,
            mark,
            path: PathBuf::new(),
            stage: Stage::Fresh,
            place: 0,
        }
    }

    /// The feed of a reader that is not to read on.
    pub fn into_feed(self) -> Feed
        ensures { result ≡ self.feed }
    {
        self.feed
    }
}

impl PathStream for ReaderList {
    ghost feed = { λ r. r.feed };

    ghost preamble = { λ r w. Some (0, false) };

    ghost to_come = { λ r. paths_left r };

    ghost is_fresh = { λ r. is_fresh r.stage };

    ghost is_live = { λ r. is_live r.stage };

    ghost is_gated = { λ r. false };

    ghost found = { λ r. path_found r };

    ghost shares = { λ r. 0 };

    ghost stored = { λ r. r.place };

    ghost heads_read = { λ r. 0 };

    fn begin_paths<S: Source>(&mut self, src: &mut S) -> Result<(), DbFault> {
        let _ = self.feed.offset();
        self.stage = Stage::Live;
        Ok(())
    }

    #[inline(always)]
    fn next_path<S: Source>(&mut self, src: &mut S) -> Result<bool, DbFault> {
        self.stage = Stage::Done;
        match read_path(&mut self.feed, src, self.mark.byte(), &mut self.path) {
            Ok(true) => {
                self.place = self.feed.offset();
                self.stage = Stage::Live;
                Ok(true)
            }
            Ok(false) => Ok(false),
            Err(cause) => Err(fault_at(self.place, cause)),
        }
    }

    #[inline(always)]
    fn path(&self) -> &[u8] {
        self.path.bytes()
    }

    fn dir_len(&self) -> usize {
        base_start(self.path.bytes())
    }

    fn shared(&self) -> usize {
        0
    }

    fn asks_gate(&self) -> bool {
        false
    }

    #[inline(always)]
    fn live(&self) -> bool {
        matches!(self.stage, Stage::Live)
    }

    #[inline(always)]
    fn place(&self) -> u64 {
        self.place
    }

    #[inline(always)]
    fn heads(&self) -> u64 {
        0
    }
}
