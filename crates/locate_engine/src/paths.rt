//! The search of a stream of paths.
ghost use Rattle.std.specs.Prelude.{◌≡◌, ◌≤◌, ◌<◌, ◌^◌, ◌||◌, None, IfSome, IsTrue};
ghost use Rattle.byte_feed.specs.Feed.{Draws, reach};
ghost use Rattle.locate_engine.specs.Passing.{rule_of, tests_asked};
ghost use Rattle.locate_engine.specs.Searched.{stand};
ghost use Rattle.locate_engine.specs.Sight.{MeetsLimit, Moves};
ghost use Rattle.locate_engine.specs.Streamed.{EndsWithinKnown, OneDirectoryLeft, SearchesKnown, StreamAfter};

use crate::asking::{Block, Step, take_path};
use crate::matcher::Matcher;
use crate::outcome::{Outcome, outcome_at};
use crate::query::Query;
use byte_feed::PathStream;
use glob_match::Steps;
use loc_outside::{Gate, Sink, Source};
use std::sync::ledger::Ledger;

/// What was found so far, over all databases of a run.
#[derive(Clone, Copy, Debug, PartialEq, Eq)]
pub struct Tally {
    /// The number of paths that passed.
    pub matched: u64,
}

/// Goes through the paths to come. Each that is wanted, and that the gate lets pass where it is to be asked, is printed
/// with the separator after it, unless paths are only counted, and is counted. The search ends with the paths, or where
/// the count comes to the limit. A gate that fails ends it before the path in hand. Where a write fails, a first part of
/// the line was taken, and the path in hand is not counted.
pub(crate) fn search_paths<P: PathStream, S: Source, M: Matcher, G: Gate, K: Sink, L: Ledger>(
    stream: &mut P,
    src: &mut S,
    matcher: &mut M,
    query: &Query,
    gate: &mut G,
    out: &mut K,
    tally: &mut Tally,
    steps: &mut Steps<L>,
) -> Outcome
    requires live { IsTrue (P.is_live stream.old) }
    requires room { tally.old.matched ≤ 2 ^ 62 }
    requires below { IfSome query.now.limit (λ limit. tally.old.matched < limit) }
    ensures searched { OneDirectoryLeft (P.is_gated stream.old) (P.to_come stream.old) (P.feed stream.old) (S.left src.old) → IfSome (tests_asked (P.is_gated stream.old || query.now.existing) (G.tests gate.old)) (λ told.
        SearchesKnown (rule_of (M.sought matcher.old).wanted query.now (P.is_gated stream.old) told) (M.sought matcher.old).bound (P.to_come stream.old) (P.feed stream.old) (S.left src.old) (S.left src.new)
        (stand (K.taken out.old) tally.old.matched (G.asks gate.old)) (stand (K.taken out.new) tally.new.matched (G.asks gate.new)) steps.old steps.new result (reach (P.feed stream.new))) }
    ensures ended { EndsWithinKnown (M.sought matcher.old).bound (P.to_come stream.old) (P.feed stream.old) (S.left src.old) steps.old steps.new result }
    ensures limit { MeetsLimit query.now.limit result tally.new.matched }
    ensures moves { Moves
        (record {
          files = None;
          given = S.given src.old;
          reads_failed = S.faults src.old;
          tests = G.tests gate.old;
          asks = G.asks gate.old;
          gate_failed = G.faults gate.old;
          taken = K.taken out.old;
          writes_failed = K.faults out.old;
          matched = tally.old.matched;
          steps = steps.old;
        })
        result
        (record {
          files = None;
          given = S.given src.new;
          reads_failed = S.faults src.new;
          tests = G.tests gate.new;
          asks = G.asks gate.new;
          gate_failed = G.faults gate.new;
          taken = K.taken out.new;
          writes_failed = K.faults out.new;
          matched = tally.new.matched;
          steps = steps.new;
        }) }
    ensures only_counted { IsTrue query.now.count_only → out.new ≡ out.old }
    ensures stops { StreamAfter (P.feed stream.new) (P.is_live stream.new) result }
    ensures drawn { Draws (P.feed stream.old) (P.feed stream.new) (S.given src.old) (S.given src.new) (S.left src.old) (S.left src.new) }
    ensures matcher { M.sought matcher.new ≡ M.sought matcher.old }
    ensures kept { S.kept src.old src.new }
    ensures gate_kept { G.kept gate.old gate.new }
    ensures out_kept { K.kept out.old out.new }
{
    let mut block = Block {
        number: None,
        shown: false,
    };
    matcher.begin();
    'paths: loop {
        let more = match stream.next_path(src) {
            Ok(more) => more,
            Err(fault) => return outcome_at(fault),
        };
        if !more {
            return Outcome::Whole;
        }
        if matcher.wants_next(stream.path(), stream.shared(), steps) {
            match take_path(stream, query, gate, &mut block, out, tally) {
                Step::On => {}
                Step::LimitReached => return Outcome::LimitReached,
                Step::GateFault => return Outcome::GateFault,
                Step::WriteFault => return Outcome::WriteFault,
            }
        }
    }
}
