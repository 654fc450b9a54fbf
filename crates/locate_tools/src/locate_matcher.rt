//! What the words of `locate` look for.
ghost use Rattle.std.specs.Prelude.{◌≡◌, ◌⊎◌, ◌↔◌, true, Some, None, IsTrue, MatchResult};
ghost use Rattle.tool_words.specs.Locate.{seeks_expressions};
ghost use Rattle.tool_words.specs.LocateSeen.{seen};
ghost use Rattle.locate_tools.specs.LocateExact.{query_of as query_asked, sought_by};
ghost use Rattle.locate_tools.specs.LocateMatcher.{knows_in, sought_in};
ghost use Rattle.locate_tools.specs.Regexes.{Wants};
ghost use Rattle.locate_tools.specs.RegexesAsked.{refusal_of, regexes_of};

use crate::answer::Cause;
use crate::regex_matcher::RegexMatcher;
use crate::regexes::read_regexes;
use glob_match::Steps;
use locate_engine::{GlobMatcher, Matcher, Query};
use std::alloc::Global;
use std::sync::ledger::Ledger;
use tool_words::LocateSettings;

/// Wants the paths that the words want, by their patterns or by their expressions.
#[derive(Drop)]
pub enum LocateMatcher<'q> {
    Globs(GlobMatcher<'q>),
    Regexes(RegexMatcher),
}

impl Matcher for LocateMatcher<'_> {
    ghost sought = { sought_in };

    ghost knows = { knows_in };

    fn wants<L: Ledger>(&mut self, path: &[u8], steps: &mut Steps<L>) -> bool {
        match self {
            LocateMatcher::Globs(globs) => globs.wants(path, steps),
            LocateMatcher::Regexes(regexes) => regexes.wants(path, steps),
        }
    }

    fn begin(&mut self) {
        match self {
            LocateMatcher::Globs(globs) => globs.begin(),
            LocateMatcher::Regexes(regexes) => regexes.begin(),
        }
    }

    #[inline(always)]
    fn wants_next<L: Ledger>(&mut self, path: &[u8], shared: usize, steps: &mut Steps<L>) -> bool {
        match self {
            LocateMatcher::Globs(globs) => globs.wants_next(path, shared, steps),
            LocateMatcher::Regexes(regexes) => regexes.wants_next(path, shared, steps),
        }
    }
}

/// The matcher of the words, or the cause for the first expression that is refused.
pub fn matcher_of<'q>(
    alloc: Global,
    asked: &LocateSettings<'_>,
    query: &'q Query,
) -> Result<LocateMatcher<'q>, Cause>
    requires { query.now ≡ query_asked (seen asked.now) }
    ensures { MatchResult result
        (λ matcher. (sought_in matcher ≡ sought_by (seen asked.now)) × (refusal_of (seen asked.now) ≡ None))
        (λ cause. (cause ≡ Cause.OutOfMemory) ⊎ (refusal_of (seen asked.now) ≡ Some cause)) }
{
    if !asked.seeks_expressions() {
        return Ok(LocateMatcher::Globs(GlobMatcher::new(query)));
    }
    match read_regexes(alloc, asked) {
        Ok(regexes) => Ok(LocateMatcher::Regexes(RegexMatcher::new(
            regexes, asked.all, asked.base,
        ))),
        Err(cause) => Err(cause),
    }
}

/// What words want that ask for expressions is what those are found in. Nothing is done.
pub fn wanted_is_found(_asked: &LocateSettings<'_>, _path: &[u8])
    ensures { seeks_expressions (seen _asked.now) ≡ true → (IsTrue ((sought_by (seen _asked.now)).wanted _path.now)
        ↔ Wants (regexes_of (seen _asked.now)) _asked.now.all _asked.now.base _path.now) }
{}
