//! The search of one database by its name.
ghost use Rattle.std.specs.Prelude.{◌≡◌, ◌≤◌, ◌<◌, ◌^◌, None, IfSome, IsTrue};
ghost use Rattle.std.specs.FinMap as map;
ghost use Rattle.locate_engine.specs.Files.{SearchesFile, SearchesNamed};
ghost use Rattle.locate_engine.specs.Globs.{sought_of};
ghost use Rattle.locate_engine.specs.Sight.{MeetsLimit, Moves};

use crate::glob_matcher::GlobMatcher;
use crate::matcher::Matcher;
use crate::outcome::{Outcome, outcome_at};
use crate::paths::{Tally, search_paths};
use crate::query::Query;
use any_db::AnyReader;
use byte_feed::PathStream;
use glob_match::Steps;
use loc_outside::{Gate, Opened, Reader, Sink};
use std::sync::ledger::Ledger;

/// Searches the database of this name for the paths that the query's patterns want: [`search_by`] with the query's
/// [`GlobMatcher`].
pub fn search<R: Reader, G: Gate, P: Sink, L: Ledger>(
    query: &Query,
    name: &str,
    reader: &mut R,
    gate: &mut G,
    out: &mut P,
    tally: &mut Tally,
    steps: &mut Steps<L>,
) -> Outcome
    requires room { tally.old.matched ≤ 2 ^ 62 }
    requires below { IfSome query.now.limit (λ limit. tally.old.matched < limit) }
    ensures searches { SearchesNamed (sought_of query.now) query.now name.now
        (record {
          files = R.files reader.old;
          given = R.given reader.old;
          reads_failed = R.faults reader.old;
          tests = G.tests gate.old;
          asks = G.asks gate.old;
          gate_failed = G.faults gate.old;
          taken = P.taken out.old;
          writes_failed = P.faults out.old;
          matched = tally.old.matched;
          steps = steps.old;
        })
        result
        (record {
          files = R.files reader.new;
          given = R.given reader.new;
          reads_failed = R.faults reader.new;
          tests = G.tests gate.new;
          asks = G.asks gate.new;
          gate_failed = G.faults gate.new;
          taken = P.taken out.new;
          writes_failed = P.faults out.new;
          matched = tally.new.matched;
          steps = steps.new;
        }) }
    ensures absent { IfSome (R.files reader.old) (λ files. map.get files name.now ≡ None → (out.new ≡ out.old) × (gate.new ≡ gate.old) × (tally.new ≡ tally.old) × (steps.new ≡ steps.old)) }
    ensures missing { result ≡ Outcome.Missing → (out.new ≡ out.old) × (gate.new ≡ gate.old) × (tally.new ≡ tally.old) × (steps.new ≡ steps.old) × (R.given reader.new ≡ R.given reader.old) }
    ensures only_counted { IsTrue query.now.count_only → out.new ≡ out.old }
    ensures gate_kept { G.kept gate.old gate.new }
    ensures out_kept { P.kept out.old out.new }
{
    search_by(
        &mut GlobMatcher::new(query),
        query,
        name,
        reader,
        gate,
        out,
        tally,
        steps,
    )
}

/// Opens the file of this name, a database whose format its first bytes tell, and goes through its paths. Each that is
/// wanted is printed with the separator after it, unless paths are only counted, and is counted. Where the database
/// shows its paths only to those who may list their directories, the gate is asked for the directory of each block, at
/// its first wanted path. Where the query asks for paths that exist, the gate is asked for each wanted path that may be
/// shown.
///
/// The search ends with the paths, or where the count comes to the limit. A damaged database is searched up to the
/// damage. A gate that fails ends the search before the path in hand. Where a write fails, a first part of the line was
/// taken, and the path in hand is not counted. It takes no memory: it holds one path and one buffer of 4,096 bytes.
pub fn search_by<M: Matcher, R: Reader, G: Gate, P: Sink, L: Ledger>(
    matcher: &mut M,
    query: &Query,
    name: &str,
    reader: &mut R,
    gate: &mut G,
    out: &mut P,
    tally: &mut Tally,
    steps: &mut Steps<L>,
) -> Outcome
    requires room { tally.old.matched ≤ 2 ^ 62 }
    requires below { IfSome query.now.limit (λ limit. tally.old.matched < limit) }
    ensures searches { SearchesNamed (M.sought matcher.old) query.now name.now
        (record {
          files = R.files reader.old;
          given = R.given reader.old;
          reads_failed = R.faults reader.old;
          tests = G.tests gate.old;
          asks = G.asks gate.old;
          gate_failed = G.faults gate.old;
          taken = P.taken out.old;
          writes_failed = P.faults out.old;
          matched = tally.old.matched;
          steps = steps.old;
        })
        result
        (record {
          files = R.files reader.new;
          given = R.given reader.new;
          reads_failed = R.faults reader.new;
          tests = G.tests gate.new;
          asks = G.asks gate.new;
          gate_failed = G.faults gate.new;
          taken = P.taken out.new;
          writes_failed = P.faults out.new;
          matched = tally.new.matched;
          steps = steps.new;
        }) }
    ensures absent { IfSome (R.files reader.old) (λ files. map.get files name.now ≡ None → (out.new ≡ out.old) × (gate.new ≡ gate.old) × (tally.new ≡ tally.old) × (steps.new ≡ steps.old)) }
    ensures missing { result ≡ Outcome.Missing → (out.new ≡ out.old) × (gate.new ≡ gate.old) × (tally.new ≡ tally.old) × (steps.new ≡ steps.old) × (R.given reader.new ≡ R.given reader.old) }
    ensures only_counted { IsTrue query.now.count_only → out.new ≡ out.old }
    ensures gate_kept { G.kept gate.old gate.new }
    ensures out_kept { P.kept out.old out.new }
    ensures matcher { M.sought matcher.new ≡ M.sought matcher.old }
{
    match reader.open_file(name) {
        Ok(Opened::Found) => search_open(matcher, query, reader, gate, out, tally, steps),
        Ok(Opened::Missing) => Outcome::Missing,
        Err(_) => Outcome::ReadFault,
    }
}

/// The search of the file that was just opened.
fn search_open<M: Matcher, R: Reader, G: Gate, P: Sink, L: Ledger>(
    matcher: &mut M,
    query: &Query,
    reader: &mut R,
    gate: &mut G,
    out: &mut P,
    tally: &mut Tally,
    steps: &mut Steps<L>,
) -> Outcome
    requires room { tally.old.matched ≤ 2 ^ 62 }
    requires below { IfSome query.now.limit (λ limit. tally.old.matched < limit) }
    ensures searches { IfSome (R.left reader.old) (λ file. SearchesFile (M.sought matcher.old) query.now file
        (record {
          files = R.files reader.old;
          given = R.given reader.old;
          reads_failed = R.faults reader.old;
          tests = G.tests gate.old;
          asks = G.asks gate.old;
          gate_failed = G.faults gate.old;
          taken = P.taken out.old;
          writes_failed = P.faults out.old;
          matched = tally.old.matched;
          steps = steps.old;
        })
        result
        (record {
          files = R.files reader.new;
          given = R.given reader.new;
          reads_failed = R.faults reader.new;
          tests = G.tests gate.new;
          asks = G.asks gate.new;
          gate_failed = G.faults gate.new;
          taken = P.taken out.new;
          writes_failed = P.faults out.new;
          matched = tally.new.matched;
          steps = steps.new;
        })) }
    ensures there { result ≡ Outcome.Missing → ⊥ }
    ensures limit { MeetsLimit query.now.limit result tally.new.matched }
    ensures moves { Moves
        (record {
          files = R.files reader.old;
          given = R.given reader.old;
          reads_failed = R.faults reader.old;
          tests = G.tests gate.old;
          asks = G.asks gate.old;
          gate_failed = G.faults gate.old;
          taken = P.taken out.old;
          writes_failed = P.faults out.old;
          matched = tally.old.matched;
          steps = steps.old;
        })
        result
        (record {
          files = R.files reader.new;
          given = R.given reader.new;
          reads_failed = R.faults reader.new;
          tests = G.tests gate.new;
          asks = G.asks gate.new;
          gate_failed = G.faults gate.new;
          taken = P.taken out.new;
          writes_failed = P.faults out.new;
          matched = tally.new.matched;
          steps = steps.new;
        }) }
    ensures only_counted { IsTrue query.now.count_only → out.new ≡ out.old }
    ensures matcher { M.sought matcher.new ≡ M.sought matcher.old }
    ensures kept { R.kept reader.old reader.new }
    ensures gate_kept { G.kept gate.old gate.new }
    ensures out_kept { P.kept out.old out.new }
{
    let mut stream = AnyReader::new();
    match stream.begin_paths(reader) {
        Ok(()) => {}
        Err(fault) => return outcome_at(fault),
    }
    search_paths(&mut stream, reader, matcher, query, gate, out, tally, steps)
}
