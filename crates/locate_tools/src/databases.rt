//! One database of a run of `locate`.
ghost use Rattle.std.specs.Prelude.{◌≡◌, ◌≤◌, ◌<◌, ◌⊎◌, ◌^◌, IfSome, None, IsTrue, OnOk, OnErr, false};
ghost use Rattle.std.specs.FinMap as map;
ghost use Rattle.std.specs.Io.KnownBytes.{Appends};
ghost use Rattle.loc_outside.specs.Causes.{HasCause};
ghost use Rattle.loc_outside.specs.Outside.{AppendsPart};
ghost use Rattle.locate_engine.specs.Statistics.{ends_reading};
ghost use Rattle.locate_tools.specs.Standing.{ends_run as run_ends};
ghost use Rattle.locate_tools.specs.Tried.{CountsText, IsMissingOrFailed, Moves, ReadsIn, Tried, TriedSearch, has_statistics as statistics_follow, text_after, work_for};

use crate::statistics_text::put_statistics;
use glob_match::Steps;
use loc_outside::{BufferedSink, Failed, Gate, Reader};
use locate_engine::{Matcher, Outcome, Query, Stats, Tally, search_by, statistics};
use std::sync::ledger::Ledger;

/// Whether no further database is tried after this outcome.
pub fn ends_run(outcome: Outcome) -> bool
    ensures { result ≡ run_ends outcome }
{
    matches!(outcome, Outcome::LimitReached | Outcome::WriteFault)
}

/// What is done with each database.
#[derive(Clone, Copy, PartialEq, Eq)]
pub enum Work {
    /// Its paths are searched for what the matcher looks for.
    Search,
    /// It is counted.
    Statistics,
}

/// Searches the database of this name, and passes on what was printed.
fn search_database<M: Matcher, R: Reader, G: Gate, P: BufferedSink, L: Ledger>(
    matcher: &mut M,
    query: &Query,
    name: &str,
    reader: &mut R,
    gate: &mut G,
    out: &mut P,
    tally: &mut Tally,
    steps: &mut Steps<L>,
) -> Outcome
    requires room { tally.old.matched ≤ 2 ^ 62 }
    requires below { IfSome query.now.limit (λ limit. tally.old.matched < limit) }
    ensures tried { TriedSearch (M.sought matcher.old) query.now name.now
        (record {
          files = R.files reader.old;
          given = R.given reader.old;
          reads_failed = R.faults reader.old;
          tests = G.tests gate.old;
          asks = G.asks gate.old;
          gate_failed = G.faults gate.old;
          taken = P.taken out.old;
          held_back = P.held_back out.old;
          writes_failed = P.faults out.old;
          matched = tally.old.matched;
        })
        result
        (record {
          files = R.files reader.new;
          given = R.given reader.new;
          reads_failed = R.faults reader.new;
          tests = G.tests gate.new;
          asks = G.asks gate.new;
          gate_failed = G.faults gate.new;
          taken = P.taken out.new;
          held_back = P.held_back out.new;
          writes_failed = P.faults out.new;
          matched = tally.new.matched;
        }) }
    ensures matcher { M.sought matcher.new ≡ M.sought matcher.old }
    ensures gate_kept { G.kept gate.old gate.new }
    ensures out_kept { P.kept out.old out.new }
{
    let ended = search_by(matcher, query, name, reader, gate, out, tally, steps);
    match out.flush() {
        Ok(()) => ended,
        Err(_) => Outcome::WriteFault,
    }
}

/// Whether statistics are written of a database that ended so.
fn has_statistics(ended: Outcome) -> bool
    ensures { result ≡ statistics_follow ended }
{
    !matches!(ended, Outcome::Missing | Outcome::NotADatabase)
}

/// Writes the statistics of a database that ended so, and passes them on. There are none where it is missing or no
/// database.
fn put_statistics_of<P: BufferedSink>(
    out: &mut P,
    name: &str,
    stats: &Stats,
    ended: Outcome,
) -> Result<(), Failed>
    ensures ok { OnOk result (Appends (P.taken out.old) (P.taken out.new) (text_after ended name.now stats.now)) }
    ensures part { OnErr result (AppendsPart (P.taken out.old) (P.taken out.new) (text_after ended name.now stats.now)) }
    ensures passed_on { OnOk result (P.held_back out.new ≡ 0) }
    ensures cause { HasCause (P.faults out.old) (P.faults out.new) result }
    ensures kept { P.kept out.old out.new }
{
    if !has_statistics(ended) {
        return out.flush();
    }
    put_statistics(out, name, stats)?;
    out.flush()
}

/// Writes the statistics of the database of this name, and passes them on.
fn count_database<R: Reader, P: BufferedSink>(name: &str, reader: &mut R, out: &mut P) -> Outcome
    ensures moves { Moves
        (record {
          files = R.files reader.old;
          given = R.given reader.old;
          reads_failed = R.faults reader.old;
          tests = None;
          asks = 0;
          gate_failed = 0;
          taken = P.taken out.old;
          held_back = P.held_back out.old;
          writes_failed = P.faults out.old;
          matched = 0;
        })
        result
        (record {
          files = R.files reader.new;
          given = R.given reader.new;
          reads_failed = R.faults reader.new;
          tests = None;
          asks = 0;
          gate_failed = 0;
          taken = P.taken out.new;
          held_back = P.held_back out.new;
          writes_failed = P.faults out.new;
          matched = 0;
        }) }
    ensures counted { CountsText name.now
        (record {
          files = R.files reader.old;
          given = R.given reader.old;
          reads_failed = R.faults reader.old;
          tests = None;
          asks = 0;
          gate_failed = 0;
          taken = P.taken out.old;
          held_back = P.held_back out.old;
          writes_failed = P.faults out.old;
          matched = 0;
        })
        result
        (record {
          files = R.files reader.new;
          given = R.given reader.new;
          reads_failed = R.faults reader.new;
          tests = None;
          asks = 0;
          gate_failed = 0;
          taken = P.taken out.new;
          held_back = P.held_back out.new;
          writes_failed = P.faults out.new;
          matched = 0;
        }) }
    ensures reads { IfSome (R.files reader.old) (λ files. ReadsIn (map.get files name.now) (R.given reader.old) (R.given reader.new) result) }
    ensures missing { IfSome (R.files reader.old) (λ files. result ≡ Outcome.Missing → map.get files name.now ≡ None) }
    ensures absent { IfSome (R.files reader.old) (λ files. map.get files name.now ≡ None → IsMissingOrFailed result) }
    ensures reading { IsTrue (ends_reading result) ⊎ (result ≡ Outcome.WriteFault) }
    ensures unread { result ≡ Outcome.Missing → R.given reader.new ≡ R.given reader.old }
    ensures out_kept { P.kept out.old out.new }
{
    let (stats, ended) = statistics(name, reader);
    match put_statistics_of(out, name, &stats, ended) {
        Ok(()) => ended,
        Err(_) => Outcome::WriteFault,
    }
}

/// Searches the database of this name, or writes its statistics, and passes on what was written.
pub fn try_database<M: Matcher, R: Reader, G: Gate, P: BufferedSink, L: Ledger>(
    work: Work,
    matcher: &mut M,
    query: &Query,
    name: &str,
    reader: &mut R,
    gate: &mut G,
    out: &mut P,
    tally: &mut Tally,
    steps: &mut Steps<L>,
) -> Outcome
    requires room { work ≡ Work.Search → tally.old.matched ≤ 2 ^ 62 }
    requires below { work ≡ Work.Search → IfSome query.now.limit (λ limit. tally.old.matched < limit) }
    ensures tried { Tried (work_for work (M.sought matcher.old)) query.now name.now
        (record {
          files = R.files reader.old;
          given = R.given reader.old;
          reads_failed = R.faults reader.old;
          tests = G.tests gate.old;
          asks = G.asks gate.old;
          gate_failed = G.faults gate.old;
          taken = P.taken out.old;
          held_back = P.held_back out.old;
          writes_failed = P.faults out.old;
          matched = tally.old.matched;
        })
        result
        (record {
          files = R.files reader.new;
          given = R.given reader.new;
          reads_failed = R.faults reader.new;
          tests = G.tests gate.new;
          asks = G.asks gate.new;
          gate_failed = G.faults gate.new;
          taken = P.taken out.new;
          held_back = P.held_back out.new;
          writes_failed = P.faults out.new;
          matched = tally.new.matched;
        }) }
    ensures under { work ≡ Work.Search → run_ends result ≡ false → IfSome query.now.limit (λ limit. tally.new.matched < limit) }
    ensures files { R.files reader.new ≡ R.files reader.old }
    ensures matcher { M.sought matcher.new ≡ M.sought matcher.old }
    ensures gate_kept { G.kept gate.old gate.new }
    ensures out_kept { P.kept out.old out.new }
{
    match work {
        Work::Search => search_database(matcher, query, name, reader, gate, out, tally, steps),
        Work::Statistics => count_database(name, reader, out),
    }
}
