//! What patterns want of a path that begins as the one before.
ghost use Rattle.std.specs.Prelude.{◌≡◌, ◌+◌, ◌≤◌, sum_by};
ghost use Rattle.std.specs.List.{list_all, list_any};
ghost use Rattle.locate_engine.specs.Globs.{in_glob, steps_of, wanted_by};
ghost use Rattle.locate_engine.specs.Kept.{KnowsAll};
ghost use Rattle.locate_engine.specs.Sought.{Follows};

use crate::globs::Globs;
use crate::spots::Spots;
use glob_match::Steps;
use std::sync::ledger::Ledger;

/// Whether every pattern matches the text, or some pattern does. Its first `shared` bytes are those of the text before.
#[inline(always)]
pub(crate) fn is_wanted_next<L: Ledger>(
    globs: &Globs,
    all: bool,
    text: &[u8],
    shared: usize,
    spots: &mut Spots,
    steps: &mut Steps<L>,
) -> bool
    requires follows { Follows (KnowsAll spots.old globs.now) shared text.now }
    ensures value { result ≡ wanted_by globs.now all text.now }
    ensures known { KnowsAll spots.new globs.now text.now }
    ensures later { steps.old ≤ steps.new }
    ensures within { steps.new ≤ steps.old + sum_by (steps_of text.now) globs.now }
{
    if all {
        return all_match_next(globs, text, shared, spots, steps);
    }
    any_matches_next(globs, text, shared, spots, steps)
}

/// Whether every pattern matches the text.
fn all_match_next<L: Ledger>(
    globs: &Globs,
    text: &[u8],
    shared: usize,
    spots: &mut Spots,
    steps: &mut Steps<L>,
) -> bool
    requires follows { Follows (KnowsAll spots.old globs.now) shared text.now }
    ensures value { result ≡ list_all (λ glob. in_glob glob text.now) globs.now }
    ensures known { KnowsAll spots.new globs.now text.now }
    ensures later { steps.old ≤ steps.new }
    ensures within { steps.new ≤ steps.old + sum_by (steps_of text.now) globs.now }
{
    for at in 0..globs.len() {
        if !spots.judge(at, globs.at(at), text, shared, steps) {
            spots.forget_from(at + 1);
            return false;
        }
    }
    true
}

/// Whether some pattern matches the text.
#[inline(always)]
fn any_matches_next<L: Ledger>(
    globs: &Globs,
    text: &[u8],
    shared: usize,
    spots: &mut Spots,
    steps: &mut Steps<L>,
) -> bool
    requires follows { Follows (KnowsAll spots.old globs.now) shared text.now }
    ensures value { result ≡ list_any (λ glob. in_glob glob text.now) globs.now }
    ensures known { KnowsAll spots.new globs.now text.now }
    ensures later { steps.old ≤ steps.new }
    ensures within { steps.new ≤ steps.old + sum_by (steps_of text.now) globs.now }
{
    for at in 0..globs.len() {
        if spots.judge(at, globs.at(at), text, shared, steps) {
            spots.forget_from(at + 1);
            return true;
        }
    }
    false
}
