//! A database of any format, read path by path.
ghost use Rattle.std.specs.Prelude.{◌≡◌, ◌≤◌, ◌<◌, ◌∷◌, [], true, false, Some, Ok, Err, OnOk, IfSome, IsSome, IfErr, IsTrue, IsErrOf, is_ok};
ghost use Rattle.loc_outside.specs.Causes.{Rose};
ghost use Rattle.byte_feed.specs.Endings.{StopsAt};
ghost use Rattle.byte_feed.specs.Paths.{after_paths, no_paths};
ghost use Rattle.byte_feed.specs.Calls.{PreambleKnown, MovedKnown, EndsKnown, NoPreambleKnown, ReadsAhead, PlaceBehind, PlaceMoves, IsFound, Shares, is_found};
ghost use Rattle.any_db.specs.Formats.{preamble_in, preamble_by, to_come_by};
ghost use Rattle.any_db.specs.Reader.{FormatKnown, known_after, fresh, is_fresh, format_known, feed_of, paths_left, is_live, is_gated, path_found, shares_in, stored_in, heads_in};

use crate::format::{DatabaseFormat, look_format};
use bigram_db::ReaderBigram;
use byte_feed::{DbFault, Feed, PathStream};
use loc_outside::Source;
use locate02_db::Reader02;
use mlocate_db::DbReader;

/// What a reader reads with.
#[derive(Drop)]
pub enum Stage {
    /// Nothing was read yet.
    Fresh,
    /// The format is not known: the file is no database, or the source failed first.
    Failed(Feed),
    /// A database of mlocate.
    Mlocate(DbReader),
    /// A LOCATE02 database.
    Locate02(Reader02),
    /// A bigram database.
    Bigram(ReaderBigram),
}

/// A reader of a database whose format is known by its first bytes. It takes no memory: it holds the reader of that
/// format.
#[derive(Drop)]
pub struct AnyReader {
    stage: Stage,
}

impl AnyReader {
    /// A reader that has read nothing.
    pub fn new() -> AnyReader
        ensures { result ≡ fresh }
    {
        AnyReader {
            stage: Stage::Fresh,
        }
    }

    /// The format of the file, once the reader has begun. `None` where the file is no database, and where the source failed
    /// before its format was known: that takes ten bytes, and all 256 of its table for a bigram database.
    pub fn format(&self) -> Option<DatabaseFormat>
        ensures { result ≡ format_known self.now.stage }
    {
        match &self.stage {
            Stage::Fresh => None,
            Stage::Failed(_) => None,
            Stage::Mlocate(_) => Some(DatabaseFormat::Mlocate),
            Stage::Locate02(_) => Some(DatabaseFormat::Locate02),
            Stage::Bigram(_) => Some(DatabaseFormat::Bigram),
        }
    }

    /// Reads what stands before the first path in this format, of whose file the feed holds the first bytes.
    fn begin_as<S: Source>(
        &mut self,
        format: DatabaseFormat,
        feed: Feed,
        src: &mut S,
    ) -> Result<(), DbFault>
        requires { feed.offset ≡ 0 }
        ensures told { format_known self.new.stage ≡ known_after (is_ok result) format }
        ensures preamble { OnOk result (PreambleKnown (preamble_by format) feed (S.left src.old) (stored_in self.new.stage) (is_gated self.new.stage)) }
        ensures ok { OnOk result (MovedKnown (to_come_by format) (paths_left self.new.stage) (λ t. t) feed (S.left src.old) (feed_of self.new.stage) (S.left src.new)) }
        ensures refused { IfErr result (λ e. NoPreambleKnown (preamble_by format) feed (S.left src.old) (S.left src.new) e) }
        ensures err { IfErr result (λ e. EndsKnown (to_come_by format) (no_paths 0 0) feed (S.left src.old) (S.left src.new) (Err e)) }
        ensures stops { IfErr result (λ e. StopsAt (feed_of self.new.stage) 0 (Err e)) }
        ensures place { PlaceBehind result (stored_in self.new.stage) (heads_in self.new.stage) }
        ensures live { is_live self.new.stage ≡ is_ok result }
        ensures spent { is_fresh self.new.stage ≡ false }
        ensures ahead { ReadsAhead feed (feed_of self.new.stage) (S.given src.old) (S.given src.new) (S.left src.old) (S.left src.new) }
        ensures fault { IsErrOf result DbFault.ReadFault → Rose (S.faults src.old) (S.faults src.new) }
        ensures later { S.faults src.old ≤ S.faults src.new }
        ensures kept { S.kept src.old src.new }
    {
        match format {
            DatabaseFormat::Mlocate => {
                let mut reader = DbReader::on(feed);
                let begun = reader.begin_paths(src);
                self.stage = Stage::Mlocate(reader);
                begun
            }
            DatabaseFormat::Locate02 => {
                let mut reader = Reader02::on(feed);
                let begun = reader.begin_paths(src);
                self.stage = Stage::Locate02(reader);
                begun
            }
            DatabaseFormat::Bigram => {
                let mut reader = ReaderBigram::on(feed);
                match reader.begin_paths(src) {
                    Ok(()) => {
                        self.stage = Stage::Bigram(reader);
                        Ok(())
                    }
                    Err(fault) => {
                        self.stage = Stage::Failed(reader.into_feed());
                        Err(fault)
                    }
                }
            }
        }
    }
}

impl PathStream for AnyReader {
    ghost feed = { λ r. feed_of r.stage };

    ghost preamble = { λ r. preamble_in };

    ghost to_come = { λ r. paths_left r.stage };

    ghost is_fresh = { λ r. is_fresh r.stage };

    ghost is_live = { λ r. is_live r.stage };

    ghost is_gated = { λ r. is_gated r.stage };

    ghost found = { λ r. path_found r.stage };

    ghost shares = { λ r. shares_in r.stage };

    ghost stored = { λ r. stored_in r.stage };

    ghost heads_read = { λ r. heads_in r.stage };

    fn begin_paths<S: Source>(&mut self, src: &mut S) -> Result<(), DbFault>
        requires { IsTrue (is_fresh self.old.stage) }
        // Unless the source failed, the format is that of the file, or none where it has none. After a failure too it is
        // no other one.
        ensures told { (IsErrOf result DbFault.ReadFault → ⊥) → FormatKnown (feed_of self.old.stage) (S.left src.old) (format_known self.new.stage) }
        ensures right { IfSome (format_known self.new.stage) (λ d. FormatKnown (feed_of self.old.stage) (S.left src.old) (Some d)) }
        ensures known { OnOk result (IsSome (format_known self.new.stage)) }
        ensures preamble { OnOk result (PreambleKnown preamble_in (feed_of self.old.stage) (S.left src.old) (stored_in self.new.stage) (is_gated self.new.stage)) }
        ensures ok { OnOk result (MovedKnown (paths_left self.old.stage) (paths_left self.new.stage) (λ t. t) (feed_of self.old.stage) (S.left src.old) (feed_of self.new.stage) (S.left src.new)) }
        ensures refused { IfErr result (λ e. NoPreambleKnown preamble_in (feed_of self.old.stage) (S.left src.old) (S.left src.new) e) }
        ensures err { IfErr result (λ e. EndsKnown (paths_left self.old.stage) (no_paths 0 0) (feed_of self.old.stage) (S.left src.old) (S.left src.new) (Err e)) }
        ensures stops { IfErr result (λ e. StopsAt (feed_of self.new.stage) 0 (Err e)) }
        ensures place { PlaceBehind result (stored_in self.new.stage) (heads_in self.new.stage) }
        ensures live { is_live self.new.stage ≡ is_ok result }
        ensures spent { is_fresh self.new.stage ≡ false }
        ensures ahead { ReadsAhead (feed_of self.old.stage) (feed_of self.new.stage) (S.given src.old) (S.given src.new) (S.left src.old) (S.left src.new) }
        ensures fault { IsErrOf result DbFault.ReadFault → Rose (S.faults src.old) (S.faults src.new) }
        ensures later { S.faults src.old ≤ S.faults src.new }
        ensures kept { S.kept src.old src.new }
    {
        let mut feed = Feed::new();
        let Ok(format) = look_format(&mut feed, src) else {
            self.stage = Stage::Failed(feed);
            return Err(DbFault::ReadFault);
        };
        self.begin_as(format, feed, src)
    }

    #[inline(always)]
    fn next_path<S: Source>(&mut self, src: &mut S) -> Result<bool, DbFault>
        requires { IsTrue (is_live self.old.stage) }
        // The format stays.
        ensures told { format_known self.new.stage ≡ format_known self.old.stage }
        ensures path { IsTrue (is_found result) → MovedKnown (paths_left self.old.stage) (paths_left self.new.stage) (after_paths (path_found self.new.stage ∷ [])) (feed_of self.old.stage) (S.left src.old) (feed_of self.new.stage) (S.left src.new) }
        ensures end { result ≡ Ok false → EndsKnown (paths_left self.old.stage) (no_paths (stored_in self.new.stage) (heads_in self.new.stage)) (feed_of self.old.stage) (S.left src.old) (S.left src.new) (Ok tt) }
        ensures err { IfErr result (λ e. EndsKnown (paths_left self.old.stage) (no_paths (stored_in self.new.stage) (heads_in self.new.stage)) (feed_of self.old.stage) (S.left src.old) (S.left src.new) (Err e)) }
        ensures whole { result ≡ Ok false → StopsAt (feed_of self.new.stage) (stored_in self.new.stage) (Ok tt) }
        ensures stops { IfErr result (λ e. StopsAt (feed_of self.new.stage) (stored_in self.new.stage) (Err e)) }
        ensures found { IsTrue (is_found result) → IsFound (path_found self.new.stage) (stored_in self.new.stage) (heads_in self.new.stage) }
        ensures shares { IsTrue (is_found result) → Shares (shares_in self.new.stage) (path_found self.old.stage).text (path_found self.new.stage).text }
        ensures grows { IsTrue (is_found result) → stored_in self.old.stage < stored_in self.new.stage }
        ensures place { PlaceMoves (feed_of self.new.stage) (stored_in self.old.stage) (stored_in self.new.stage) (heads_in self.new.stage) }
        ensures gate { is_gated self.new.stage ≡ is_gated self.old.stage }
        ensures live { is_live self.new.stage ≡ is_found result }
        ensures ahead { ReadsAhead (feed_of self.old.stage) (feed_of self.new.stage) (S.given src.old) (S.given src.new) (S.left src.old) (S.left src.new) }
        ensures fault { IsErrOf result DbFault.ReadFault → Rose (S.faults src.old) (S.faults src.new) }
        ensures later { S.faults src.old ≤ S.faults src.new }
        ensures kept { S.kept src.old src.new }
    {
        match &mut self.stage {
            Stage::Mlocate(reader) => reader.next_path(src),
            Stage::Locate02(reader) => reader.next_path(src),
            Stage::Bigram(reader) => reader.next_path(src),
            Stage::Fresh => unreachable!(),
            Stage::Failed(_) => unreachable!(),
        }
    }

    #[inline(always)]
    fn path(&self) -> &[u8] {
        match &self.stage {
            Stage::Mlocate(reader) => reader.path(),
            Stage::Locate02(reader) => PathStream::path(reader),
            Stage::Bigram(reader) => PathStream::path(reader),
            Stage::Fresh => b"",
            Stage::Failed(_) => b"",
        }
    }

    #[inline(always)]
    fn dir_len(&self) -> usize {
        match &self.stage {
            Stage::Mlocate(reader) => reader.dir_len(),
            Stage::Locate02(reader) => reader.dir_len(),
            Stage::Bigram(reader) => reader.dir_len(),
            Stage::Fresh => 0,
            Stage::Failed(_) => 0,
        }
    }

    #[inline(always)]
    fn shared(&self) -> usize {
        match &self.stage {
            Stage::Mlocate(reader) => reader.shared(),
            Stage::Locate02(reader) => reader.shared(),
            Stage::Bigram(reader) => reader.shared(),
            Stage::Fresh => 0,
            Stage::Failed(_) => 0,
        }
    }

    fn asks_gate(&self) -> bool {
        match &self.stage {
            Stage::Mlocate(reader) => reader.asks_gate(),
            Stage::Locate02(_) => false,
            Stage::Bigram(_) => false,
            Stage::Fresh => false,
            Stage::Failed(_) => false,
        }
    }

    #[inline(always)]
    fn live(&self) -> bool {
        match &self.stage {
            Stage::Mlocate(reader) => PathStream::live(reader),
            Stage::Locate02(reader) => reader.live(),
            Stage::Bigram(reader) => reader.live(),
            Stage::Fresh => false,
            Stage::Failed(_) => false,
        }
    }

    #[inline(always)]
    fn place(&self) -> u64 {
        match &self.stage {
            Stage::Mlocate(reader) => PathStream::place(reader),
            Stage::Locate02(reader) => reader.place(),
            Stage::Bigram(reader) => reader.place(),
            Stage::Fresh => 0,
            Stage::Failed(_) => 0,
        }
    }

    #[inline(always)]
    fn heads(&self) -> u64 {
        match &self.stage {
            Stage::Mlocate(reader) => reader.heads(),
            Stage::Locate02(_) => 0,
            Stage::Bigram(_) => 0,
            Stage::Fresh => 0,
            Stage::Failed(_) => 0,
        }
    }
}
