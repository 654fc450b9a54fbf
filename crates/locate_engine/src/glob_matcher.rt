//! The paths that the patterns of a query want.
ghost use Rattle.std.specs.Prelude.{◌≡◌, ◌+◌, ◌≤◌, ◌↔◌, IsTrue, drop, length, sum_by};
ghost use Rattle.std.specs.List.{list_all, list_any};
ghost use Rattle.locate_engine.specs.Globs.{judged, in_glob, wanted_by, wanted, Wants, sought_of, steps_of};
ghost use Rattle.locate_engine.specs.Kept.{fresh, KnowsPath};

use crate::globs::Globs;
use crate::matcher::Matcher;
use crate::next::is_wanted_next;
use crate::query::Query;
use crate::spots::Spots;
use glob_match::{Glob, Steps};
use path_order::base_start;
use std::marker::Model;
use std::sync::ledger::Ledger;

/// Wants the paths that some pattern of a query matches, or every one, as the query says. A plain pattern in the case
/// in which it is written takes no step. Of whole paths each of the first eight patterns, where it is plain, is searched
/// for only where the path differs from the one before, if it was asked of that.
#[derive(Drop)]
pub struct GlobMatcher<'q> {
    query: &'q Query,
    spots: Spots,
}

impl<'q> Model for GlobMatcher<'q> {
    ghost use Rattle.locate_engine.specs.Kept.{Kept};

    ghost Value = { Kept };

    ghost view = { λ m. record { query = m.query.now; spots = m.spots } };
}

impl<'q> GlobMatcher<'q> {
    /// Looks for the paths that this query wants.
    pub fn new(query: &'q Query) -> GlobMatcher<'q>
        ensures { result ≡ fresh query.entry.now }
    {
        GlobMatcher {
            query,
            spots: Spots::new(),
        }
    }
}

impl Matcher for GlobMatcher<'_> {
    ghost sought = { λ m. sought_of m.query };

    ghost knows = { KnowsPath };

    #[inline(always)]
    fn wants<L: Ledger>(&mut self, path: &[u8], steps: &mut Steps<L>) -> bool {
        let from = judged_from(self.query.base, path);
        is_wanted(&self.query.globs, self.query.all, path, from, steps)
    }

    fn begin(&mut self) {
        self.spots.forget_from(0);
    }

    #[inline(always)]
    fn wants_next<L: Ledger>(&mut self, path: &[u8], shared: usize, steps: &mut Steps<L>) -> bool {
        let query = self.query;
        if query.base {
            let from = judged_from(true, path);
            return is_wanted(&query.globs, query.all, path, from, steps);
        }
        is_wanted_next(
            &query.globs,
            query.all,
            path,
            shared,
            &mut self.spots,
            steps,
        )
    }
}

/// What a query wants is what its patterns match. Nothing is done.
pub fn wanted_is_matched(_query: &Query, _path: &[u8])
    ensures { IsTrue (wanted _query.now _path.now) ↔ Wants _query.now _path.now }
{}

/// From which place on a path is judged.
#[inline(always)]
fn judged_from(base: bool, path: &[u8]) -> usize
    ensures judged { drop result path.now ≡ judged base path.now }
    ensures within { result ≤ length path.now }
{
    if base { base_start(path) } else { 0 }
}

/// Whether every pattern matches what the path has from a place on, or some pattern does.
#[inline(always)]
fn is_wanted<L: Ledger>(
    globs: &Globs,
    all: bool,
    path: &[u8],
    from: usize,
    steps: &mut Steps<L>,
) -> bool
    requires { from ≤ length path.now }
    ensures value { result ≡ wanted_by globs.now all (drop from path.now) }
    ensures later { steps.old ≤ steps.new }
    ensures within { steps.new ≤ steps.old + sum_by (steps_of (drop from path.now)) globs.now }
{
    if all {
        return all_match(globs, path, from, steps);
    }
    any_matches(globs, path, from, steps)
}

/// Whether every pattern matches.
fn all_match<L: Ledger>(globs: &Globs, path: &[u8], from: usize, steps: &mut Steps<L>) -> bool
    requires { from ≤ length path.now }
    ensures value { result ≡ list_all (λ glob. in_glob glob (drop from path.now)) globs.now }
    ensures later { steps.old ≤ steps.new }
    ensures within { steps.new ≤ steps.old + sum_by (steps_of (drop from path.now)) globs.now }
{
    for at in 0..globs.len() {
        if !matches(globs.at(at), path, from, steps) {
            return false;
        }
    }
    true
}

/// Whether some pattern matches.
#[inline(always)]
fn any_matches<L: Ledger>(globs: &Globs, path: &[u8], from: usize, steps: &mut Steps<L>) -> bool
    requires { from ≤ length path.now }
    ensures value { result ≡ list_any (λ glob. in_glob glob (drop from path.now)) globs.now }
    ensures later { steps.old ≤ steps.new }
    ensures within { steps.new ≤ steps.old + sum_by (steps_of (drop from path.now)) globs.now }
{
    for at in 0..globs.len() {
        if matches(globs.at(at), path, from, steps) {
            return true;
        }
    }
    false
}

/// Whether one pattern matches.
#[inline(always)]
fn matches<L: Ledger>(glob: &Glob, path: &[u8], from: usize, steps: &mut Steps<L>) -> bool
    requires { from ≤ length path.now }
    ensures value { result ≡ in_glob glob.now (drop from path.now) }
    ensures later { steps.old ≤ steps.new }
    ensures within { steps.new ≤ steps.old + steps_of (drop from path.now) glob.now }
{
    glob.matches_from(path, from, steps)
}
