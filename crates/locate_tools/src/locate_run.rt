//! The run of `locate`.
ghost use Rattle.std.specs.Prelude.{◌≡◌, ◌≤◌, ◌<◌, ◌+◌, ◌^◌, ◌↔◌, ◌++◌, [], ◌∷◌, length, map, IfOk, IfSome, IsSome, OnOk, OnErr, false, vec_capacity, decimal};
ghost use Rattle.std.specs.List.{list_any};
ghost use Rattle.std.specs.Io.KnownBytes.{Appends};
ghost use Rattle.loc_outside.specs.Causes.{HasCause};
ghost use Rattle.loc_outside.specs.Outside.{AppendsPart};
ghost use Rattle.locate_engine.specs.Sought.{Sought};
ghost use Rattle.glob_match.specs.Pattern.{wanted as pattern_wanted};
ghost use Rattle.tool_words.specs.LocateSeen.{seen};
ghost use Rattle.locate_tools.specs.LocateExact.{databases_of as databases_asked, globs_of as globs_asked, query_of as query_asked, work_by};
ghost use Rattle.locate_tools.specs.LocateRun.{Concludes, LocateDoes, cause_after as cause_by, is_write_fault};
ghost use Rattle.locate_tools.specs.RegexesAsked.{refusal_of};
ghost use Rattle.locate_tools.specs.Standing.{Goes, IsComplete};
ghost use Rattle.locate_tools.specs.Tried.{Tried, work_for};
ghost use Rattle.locate_tools.specs.Told.{TellsAs, messages};

use crate::answer::{Cause, Outcomes};
use crate::databases::{Work, ends_run, try_database};
use crate::locate_matcher::matcher_of;
use crate::statistics_text::put_number;
use crate::telling::tell_after;
use glob_match::{Glob, Steps};
use loc_outside::{BufferedSink, Failed, Gate, Reader, Sink};
use locate_engine::{Globs, Matcher, Outcome, Query, Tally};
use std::alloc::{AllocError, Global};
use std::sync::ledger::{Blank, Ledger};
use tool_words::LocateSettings;

/// The patterns.
fn read_patterns(alloc: Global, patterns: &[&str], fold: bool) -> Result<Globs, AllocError>
    ensures { IfOk result (λ globs. globs ≡ map (λ pattern. pattern_wanted pattern.now fold) patterns.now) }
{
    let mut globs = Globs::new(alloc);
    for pattern in patterns {
        globs.push(Glob::read(alloc, pattern.as_bytes(), fold)?)?;
    }
    Ok(globs)
}

/// The patterns that are no expressions.
fn globs_of(alloc: Global, asked: &LocateSettings<'_>) -> Result<Globs, AllocError>
    ensures { IfOk result (λ globs. globs ≡ globs_asked (seen asked.now)) }
{
    if asked.seeks_expressions() {
        return Ok(Globs::new(alloc));
    }
    read_patterns(alloc, asked.patterns.as_slice(), asked.fold)
}

/// What is searched for.
fn query_of(alloc: Global, asked: &LocateSettings<'_>) -> Result<Query, AllocError>
    ensures { IfOk result (λ query. query ≡ query_asked (seen asked.now)) }
{
    let globs = globs_of(alloc, asked)?;
    Ok(Query {
        globs,
        all: asked.all,
        base: asked.base,
        existing: asked.existing,
        follow: asked.follow,
        separator: asked.separator,
        limit: asked.limit,
        count_only: asked.count_only,
    })
}

/// What is done with each database.
fn work_of(statistics: bool) -> Work
    ensures value { (sought : Sought) → work_for result sought ≡ work_by statistics sought }
    ensures search { result ≡ Work.Search → statistics ≡ false }
    ensures searches { statistics ≡ false → result ≡ Work.Search }
{
    if statistics {
        Work::Statistics
    } else {
        Work::Search
    }
}

/// Tries the databases in their order, and tells of each how it ended, unless that is not asked for. After a database in
/// which the limit is reached or a write fails no other is tried. Answers whether a write to `err` has failed; after that
/// nothing more is written there.
fn try_databases<M: Matcher, R: Reader, G: Gate, P: BufferedSink, E: Sink, L: Ledger>(
    asked: &LocateSettings<'_>,
    matcher: &mut M,
    query: &Query,
    names: &[&str],
    reader: &mut R,
    gate: &mut G,
    out: &mut P,
    err: &mut E,
    tally: &mut Tally,
    steps: &mut Steps<L>,
    outcomes: &mut Vec<Outcome>,
) -> bool
    requires fresh { outcomes.old.items ≡ [] }
    requires reserved { length names.now ≤ vec_capacity outcomes.old }
    requires few { length names.now ≤ 4096 }
    requires room { tally.old.matched ≤ 2 ^ 60 }
    requires below { asked.now.statistics ≡ false → 0 < length names.now → IfSome query.now.limit (λ limit. tally.old.matched < limit) }
    ensures goes { Goes (Tried (work_by asked.now.statistics (M.sought matcher.old)) query.now) (map (λ t. t.now) names.now) outcomes.new.items
        (record {
          files = R.files reader.old;
          given = R.given reader.old;
          reads_failed = R.faults reader.old;
          tests = G.tests gate.old;
          asks = G.asks gate.old;
          gate_failed = G.faults gate.old;
          taken = P.taken out.old;
          held_back = P.held_back out.old;
          writes_failed = P.faults out.old;
          matched = tally.old.matched;
        })
        (record {
          files = R.files reader.new;
          given = R.given reader.new;
          reads_failed = R.faults reader.new;
          tests = G.tests gate.new;
          asks = G.asks gate.new;
          gate_failed = G.faults gate.new;
          taken = P.taken out.new;
          held_back = P.held_back out.new;
          writes_failed = P.faults out.new;
          matched = tally.new.matched;
        }) }
    ensures complete { IsComplete (map (λ t. t.now) names.now) outcomes.new.items }
    ensures none { names.now ≡ [] → (reader.new ≡ reader.old) × (gate.new ≡ gate.old) }
    ensures told { TellsAs result (E.faults err.old) (E.faults err.new) (E.taken err.old) (E.taken err.new) (messages asked.now.quiet (map (λ t. t.now) names.now) outcomes.new.items) }
    ensures files { R.files reader.new ≡ R.files reader.old }
    ensures tests { G.tests gate.new ≡ G.tests gate.old }
    ensures gate_kept { G.kept gate.old gate.new }
    ensures out_kept { P.kept out.old out.new }
    ensures err_kept { E.kept err.old err.new }
    ensures err_later { E.faults err.old ≤ E.faults err.new }
{
    let work = work_of(asked.statistics);
    let mut silent = false;
    for name in names {
        let outcome = try_database(work, matcher, query, name, reader, gate, out, tally, steps);
        outcomes.push_reserved(outcome);
        silent = tell_after(err, asked.quiet, silent, name, outcome);
        if ends_run(outcome) {
            return silent;
        }
    }
    silent
}

/// The databases that are tried: none where no path is asked for.
fn databases_of<'a, 'b>(asked: &'b LocateSettings<'a>) -> &'b [&'a str]
    ensures names { map (λ t. t.now) result.now ≡ databases_asked (seen asked.now) }
    ensures few { length result.now ≤ 4096 }
    ensures asks { asked.now.statistics ≡ false → 0 < length result.now → IfSome asked.now.limit (λ limit. 0 < limit) }
{
    if !asked.statistics && asked.limit == Some(0) {
        return &asked.databases.as_slice()[..0];
    }
    asked.databases.as_slice()
}

/// Why a run ends in which no write failed.
fn cause_after(asked: &LocateSettings<'_>, matched: u64) -> Cause
    ensures { result ≡ cause_by (seen asked.now) matched }
{
    if asked.statistics {
        return Cause::Done;
    }
    if matched == 0 && asked.limit != Some(0) {
        return Cause::NoMatch;
    }
    Cause::Done
}

fn has_write_fault(outcomes: &[Outcome]) -> bool
    ensures { result ≡ list_any is_write_fault outcomes.now }
{
    outcomes
        .iter()
        .any(|outcome| matches!(*outcome, Outcome::WriteFault))
}

/// Writes the number of paths and a newline, and passes them on.
fn put_total<P: BufferedSink>(out: &mut P, matched: u64) -> Result<(), Failed>
    ensures ok { OnOk result (Appends (P.taken out.old) (P.taken out.new) (decimal matched ++ 10 ∷ [])) }
    ensures part { OnErr result (AppendsPart (P.taken out.old) (P.taken out.new) (decimal matched ++ 10 ∷ [])) }
    ensures passed_on { OnOk result (P.held_back out.new ≡ 0) }
    ensures cause { HasCause (P.faults out.old) (P.faults out.new) result }
    ensures kept { P.kept out.old out.new }
{
    put_number(out, matched)?;
    out.flush()
}

/// Writes the number of paths where it is asked for, and tells why the run ends.
fn conclude<P: BufferedSink>(
    asked: &LocateSettings<'_>,
    outcomes: &[Outcome],
    matched: u64,
    out: &mut P,
) -> Cause
    ensures concludes { Concludes (seen asked.now) outcomes.now matched (P.taken out.old) (P.taken out.new) (P.held_back out.old) (P.held_back out.new) (P.faults out.old) (P.faults out.new) result }
    ensures kept { P.kept out.old out.new }
    ensures remembered { result ≡ Cause.OutOfMemory → ⊥ }
{
    if has_write_fault(outcomes) {
        return Cause::WriteFault;
    }
    if !asked.count_only || asked.statistics {
        return cause_after(asked, matched);
    }
    let Ok(()) = put_total(out, matched) else {
        return Cause::WriteFault;
    };
    cause_after(asked, matched)
}

/// What a run of `locate` comes to.
#[derive(Drop)]
pub struct Located {
    pub cause: Cause,
    pub outcomes: Outcomes,
    /// A write to the error stream has failed.
    pub silent: bool,
}

/// What a run comes to that ends before the first database.
fn untried(alloc: Global, cause: Cause) -> Located
    ensures { (result.cause ≡ cause) × (result.outcomes ≡ []) × (result.silent ≡ false) }
{
    Located {
        cause,
        outcomes: Outcomes::new(Vec::new(alloc)),
        silent: false,
    }
}

/// Searches the databases, or writes their statistics, and tells of each how it ended. All expressions are read, and all
/// memory is taken, before the first database is opened.
pub fn locate<R: Reader, G: Gate, P: BufferedSink, E: Sink, L: Ledger>(
    alloc: Global,
    asked: &LocateSettings<'_>,
    reader: &mut R,
    gate: &mut G,
    out: &mut P,
    err: &mut E,
    blank: Blank,
) -> Located
    requires blank_name { blank.name ≡ L.name }
    requires blank_parts { blank.parts ≡ L.parts }
    requires has_part { 0 < L.parts }
    ensures no_memory { result.cause ≡ Cause.OutOfMemory → (result.outcomes ≡ []) × (reader.new ≡ reader.old) × (gate.new ≡ gate.old) × (out.new ≡ out.old) × (err.new ≡ err.old) }
    ensures refused { IsSome (refusal_of (seen asked.now)) → (result.outcomes ≡ []) × (reader.new ≡ reader.old) × (gate.new ≡ gate.old) × (out.new ≡ out.old) × (err.new ≡ err.old) }
    ensures run { LocateDoes (seen asked.now)
        (record {
          files = R.files reader.old;
          given = R.given reader.old;
          reads_failed = R.faults reader.old;
          tests = G.tests gate.old;
          asks = G.asks gate.old;
          gate_failed = G.faults gate.old;
          taken = P.taken out.old;
          held_back = P.held_back out.old;
          writes_failed = P.faults out.old;
          matched = 0;
        })
        (record {
          files = R.files reader.new;
          given = R.given reader.new;
          reads_failed = R.faults reader.new;
          tests = G.tests gate.new;
          asks = G.asks gate.new;
          gate_failed = G.faults gate.new;
          taken = P.taken out.new;
          held_back = P.held_back out.new;
          writes_failed = P.faults out.new;
          matched = 0;
        })
        result.outcomes result.cause }
    ensures none { databases_asked (seen asked.now) ≡ [] → (reader.new ≡ reader.old) × (gate.new ≡ gate.old) }
    ensures told { TellsAs result.silent (E.faults err.old) (E.faults err.new) (E.taken err.old) (E.taken err.new) (messages asked.now.quiet (databases_asked (seen asked.now)) result.outcomes) }
    ensures tool { (result.cause ≡ Cause.Usage → ⊥) }
    ensures files { R.files reader.new ≡ R.files reader.old }
    ensures tests { G.tests gate.new ≡ G.tests gate.old }
    ensures gate_kept { G.kept gate.old gate.new }
    ensures out_kept { P.kept out.old out.new }
    ensures err_kept { E.kept err.old err.new }
    ensures err_later { E.faults err.old ≤ E.faults err.new }
{
    let Ok(query) = query_of(alloc, asked) else {
        return untried(alloc, Cause::OutOfMemory);
    };
    let mut matcher = match matcher_of(alloc, asked, &query) {
        Ok(matcher) => matcher,
        Err(cause) => return untried(alloc, cause),
    };
    let names = databases_of(asked);
    let Ok(mut outcomes) = Vec::with_capacity(alloc, names.len()) else {
        return untried(alloc, Cause::OutOfMemory);
    };
    let mut tally = Tally { matched: 0 };
    let mut steps = Steps::<L>::new(blank);
    let silent = try_databases(
        asked,
        &mut matcher,
        &query,
        names,
        reader,
        gate,
        out,
        err,
        &mut tally,
        &mut steps,
        &mut outcomes,
    );
    let cause = conclude(asked, outcomes.as_slice(), tally.matched, out);
    Located {
        cause,
        outcomes: Outcomes::new(outcomes),
        silent,
    }
}
