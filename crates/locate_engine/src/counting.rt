//! The statistics of a database.
ghost use Rattle.std.specs.Prelude.{◌≡◌, ◌+◌, ◌≤◌, ◌^◌, [], length, take, true, Err, IfSome, IsTrue};
ghost use Rattle.std.specs.FinMap as map;
ghost use Rattle.loc_outside.specs.Causes.{Rose, raised};
ghost use Rattle.path_order.specs.Path.{joined};
ghost use Rattle.byte_feed.specs.Feed.{Draws, reach};
ghost use Rattle.locate_engine.specs.Searched.{outcome_of};
ghost use Rattle.locate_engine.specs.Sight.{Reads};
ghost use Rattle.locate_engine.specs.Statistics.{name_len, counted, no_stats, stats_after, CountsFile, CountsFound, DamagedAt, Fits, ends_reading};
ghost use Rattle.locate_engine.specs.Streamed.{CountsKnown};

use crate::outcome::{Outcome, outcome_at};
use any_db::AnyReader;
use byte_feed::{DbFault, PathStream};
use loc_outside::{Opened, Reader, Source};

/// What a database holds.
#[derive(Clone, Copy, Debug, PartialEq, Eq)]
pub struct Stats {
    /// Directory heads; 0 where the format has none.
    pub directories: u64,
    /// Entries of both kinds, files and directories.
    pub files: u64,
    /// The bytes of the entries' names or, where the format has no directory heads, of their whole paths.
    pub name_bytes: u64,
    /// The bytes of the header or table, and of all whole items after it.
    pub stored: u64,
}

impl Stats {
    /// Nothing.
    const fn none() -> Stats
        ensures { result ≡ no_stats }
    {
        Stats {
            directories: 0,
            files: 0,
            name_bytes: 0,
            stored: 0,
        }
    }
}

/// Opens the file of this name, a database of any format, reads it to its end and counts what it holds. A damaged
/// database is counted up to the damage, and one whose reading fails as far as its bytes were given. It takes no
/// memory: it holds one path and one buffer of 4,096 bytes.
pub fn statistics<R: Reader>(name: &str, reader: &mut R) -> (Stats, Outcome)
    ensures counts { IfSome (R.files reader.old) (λ files. CountsFound (map.get files name.now) (R.given reader.old) (R.given reader.new) result.0 result.1) }
    ensures missing { result.1 ≡ Outcome.Missing → (result.0 ≡ no_stats) × (R.given reader.new ≡ R.given reader.old) }
    ensures no_database { result.1 ≡ Outcome.NotADatabase → result.0 ≡ no_stats }
    ensures too_large { result.1 ≡ Outcome.TooLarge → R.given reader.new ≡ raised (R.given reader.old) (2 ^ 40) }
    ensures damaged { DamagedAt result.0.stored result.1 }
    ensures fits { Fits result.0 }
    ensures reading { IsTrue (ends_reading result.1) }
    ensures reads { Reads (R.given reader.old) (R.given reader.new) (R.faults reader.old) (R.faults reader.new) result.1 }
    ensures files { R.files reader.new ≡ R.files reader.old }
{
    match reader.open_file(name) {
        Ok(Opened::Found) => statistics_opened(reader),
        Ok(Opened::Missing) => (Stats::none(), Outcome::Missing),
        Err(_) => (Stats::none(), Outcome::ReadFault),
    }
}

/// The statistics of the file that was just opened.
fn statistics_opened<R: Reader>(reader: &mut R) -> (Stats, Outcome)
    ensures counts { IfSome (R.left reader.old) (λ file. CountsFile file (R.given reader.old) (R.given reader.new) result.0 result.1) }
    ensures there { result.1 ≡ Outcome.Missing → ⊥ }
    ensures no_database { result.1 ≡ Outcome.NotADatabase → result.0 ≡ no_stats }
    ensures too_large { result.1 ≡ Outcome.TooLarge → R.given reader.new ≡ raised (R.given reader.old) (2 ^ 40) }
    ensures damaged { DamagedAt result.0.stored result.1 }
    ensures fits { Fits result.0 }
    ensures reading { IsTrue (ends_reading result.1) }
    ensures reads { Reads (R.given reader.old) (R.given reader.new) (R.faults reader.old) (R.faults reader.new) result.1 }
    ensures kept { R.kept reader.old reader.new }
{
    let mut stream = AnyReader::new();
    count_all(&mut stream, reader)
}

/// Counts what a stream that has read nothing gives.
fn count_all<P: PathStream, S: Source>(stream: &mut P, src: &mut S) -> (Stats, Outcome)
    requires fresh { IsTrue (P.is_fresh stream.old) }
    ensures counted { CountsKnown (P.to_come stream.old) (P.feed stream.old) (S.left src.old) (S.left src.new) result.0 result.1 }
    ensures none_not_a_database { result.1 ≡ Outcome.NotADatabase → result.0 ≡ no_stats }
    ensures there { result.1 ≡ Outcome.Missing → ⊥ }
    ensures damaged { DamagedAt result.0.stored result.1 }
    ensures too_large { result.1 ≡ Outcome.TooLarge → reach (P.feed stream.new) ≡ 2 ^ 40 }
    ensures whole { result.1 ≡ Outcome.Whole → (P.feed stream.new).ended ≡ true }
    ensures reading { IsTrue (ends_reading result.1) }
    ensures fits { Fits result.0 }
    ensures read_fault { result.1 ≡ Outcome.ReadFault → Rose (S.faults src.old) (S.faults src.new) }
    ensures drawn { Draws (P.feed stream.old) (P.feed stream.new) (S.given src.old) (S.given src.new) (S.left src.old) (S.left src.new) }
    ensures reach { reach (P.feed stream.new) ≤ 2 ^ 40 }
    ensures later { S.faults src.old ≤ S.faults src.new }
    ensures kept { S.kept src.old src.new }
{
    match stream.begin_paths(src) {
        Ok(()) => count_paths(stream, src),
        Err(fault) => (Stats::none(), outcome_at(fault)),
    }
}

/// Counts the paths to come, before which `stream` has read no path.
fn count_paths<P: PathStream, S: Source>(stream: &mut P, src: &mut S) -> (Stats, Outcome)
    requires live { IsTrue (P.is_live stream.old) }
    ensures counted { CountsKnown (P.to_come stream.old) (P.feed stream.old) (S.left src.old) (S.left src.new) result.0 result.1 }
    ensures none_not_a_database { result.1 ≡ Outcome.NotADatabase → result.0 ≡ no_stats }
    ensures there { result.1 ≡ Outcome.Missing → ⊥ }
    ensures damaged { DamagedAt result.0.stored result.1 }
    ensures too_large { result.1 ≡ Outcome.TooLarge → reach (P.feed stream.new) ≡ 2 ^ 40 }
    ensures whole { result.1 ≡ Outcome.Whole → (P.feed stream.new).ended ≡ true }
    ensures reading { IsTrue (ends_reading result.1) }
    ensures fits { Fits result.0 }
    ensures read_fault { result.1 ≡ Outcome.ReadFault → Rose (S.faults src.old) (S.faults src.new) }
    ensures drawn { Draws (P.feed stream.old) (P.feed stream.new) (S.given src.old) (S.given src.new) (S.left src.old) (S.left src.new) }
    ensures reach { reach (P.feed stream.new) ≤ 2 ^ 40 }
    ensures later { S.faults src.old ≤ S.faults src.new }
    ensures kept { S.kept src.old src.new }
{
    let mut files = 0;
    let mut name_bytes = 0;
    'paths: loop {
        let more = match stream.next_path(src) {
            Ok(more) => more,
            Err(fault) => return (
                stats_at(stream, files, name_bytes, fault),
                outcome_at(fault),
            ),
        };
        if !more {
            return (stats_so_far(stream, files, name_bytes), Outcome::Whole);
        }
        files += 1;
        name_bytes += name_length(stream);
    }
}

/// The counts of what was read, in which so many paths were counted.
fn stats_so_far<P: PathStream>(stream: &P, files: u64, name_bytes: u64) -> Stats
    ensures { result ≡ counted (P.heads_read stream.now) files name_bytes (P.stored stream.now) }
{
    Stats {
        directories: stream.heads(),
        files,
        name_bytes,
        stored: stream.place(),
    }
}

/// The same where reading ends with this fault.
fn stats_at<P: PathStream>(stream: &P, files: u64, name_bytes: u64, fault: DbFault) -> Stats
    ensures { result ≡ stats_after (outcome_of (Err fault)) (counted (P.heads_read stream.now) files name_bytes (P.stored stream.now)) }
{
    match fault {
        DbFault::NotADatabase => Stats::none(),
        DbFault::Damage(_) => stats_so_far(stream, files, name_bytes),
        DbFault::ReadFault => stats_so_far(stream, files, name_bytes),
        DbFault::TooLarge => stats_so_far(stream, files, name_bytes),
    }
}

/// The length of the name of the path that was found last.
#[inline(always)]
fn name_length<P: PathStream>(stream: &P) -> u64
    requires dir { (P.found stream.now).dir_len ≤ length (P.found stream.now).text }
    requires heads { P.heads_read stream.now ≡ (P.found stream.now).heads }
    ensures value { result ≡ name_len (P.found stream.now) }
    ensures within { result ≤ length (P.found stream.now).text }
{
    let path = stream.path();
    if stream.heads() == 0 {
        return path.len() as u64;
    }
    let before = before_name(path, stream.dir_len());
    path.len().saturating_sub(before) as u64
}

/// The length of what stands before an entry's name: its directory, and a slash after that.
#[inline(always)]
fn before_name(path: &[u8], dir_len: usize) -> usize
    requires { dir_len ≤ length path.now }
    ensures { result ≡ length (joined (take dir_len path.now) []) }
{
    if dir_len == 1 && path[0] == b'/' {
        return 1;
    }
    dir_len + 1
}
