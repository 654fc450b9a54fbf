//! The paths that regular expressions want.
ghost use Rattle.std.specs.Prelude.{◌≡◌, ◌+◌, ◌≤◌, sum_by, ⊤};
ghost use Rattle.std.specs.List.{list_all, list_any};
ghost use Rattle.locate_engine.specs.Globs.{judged};
ghost use Rattle.locate_tools.specs.Regexes.{found_in, sought_of, steps_of, wanted_by};

use crate::regexes::ReadRegex;
use locate_engine::Matcher;
use path_order::base_start;
use posix_regex::Steps;
use std::sync::ledger::Ledger;

/// Wants the paths in which some expression is found, or every one. `base` asks of what follows the last `/` of a path.
#[derive(Drop)]
pub struct RegexMatcher {
    regexes: Vec<ReadRegex>,
    all: bool,
    base: bool,
}

impl RegexMatcher {
    pub fn new(regexes: Vec<ReadRegex>, all: bool, base: bool) -> RegexMatcher
        ensures { result ≡ record { regexes = regexes; all = all; base = base } }
    {
        RegexMatcher { regexes, all, base }
    }
}

impl Matcher for RegexMatcher {
    ghost sought = { λ m. sought_of m.regexes.items m.all m.base };

    ghost knows = { λ m path. ⊤ };

    fn wants<L: Ledger>(&mut self, path: &[u8], steps: &mut Steps<L>) -> bool {
        let text = judged_text(self.base, path);
        is_wanted(&mut self.regexes, self.all, text, steps)
    }

    fn begin(&mut self) {}

    fn wants_next<L: Ledger>(&mut self, path: &[u8], _shared: usize, steps: &mut Steps<L>) -> bool {
        self.wants(path, steps)
    }
}

/// The text that the expressions are asked of.
fn judged_text(base: bool, path: &[u8]) -> &[u8]
    ensures { result.now ≡ judged base path.now }
{
    if base {
        return &path[base_start(path)..];
    }
    path
}

/// Whether every expression is found in the text, or some expression is.
fn is_wanted<L: Ledger>(
    regexes: &mut Vec<ReadRegex>,
    all: bool,
    text: &[u8],
    steps: &mut Steps<L>,
) -> bool
    ensures value { result ≡ wanted_by regexes.old.items all text.now }
    ensures same { regexes.new.items ≡ regexes.old.items }
    ensures later { steps.old ≤ steps.new }
    ensures within { steps.new ≤ steps.old + sum_by (steps_of text.now) regexes.old.items }
{
    if all {
        return all_match(regexes, text, steps);
    }
    any_matches(regexes, text, steps)
}

/// Whether every expression is found in the text.
fn all_match<L: Ledger>(regexes: &mut Vec<ReadRegex>, text: &[u8], steps: &mut Steps<L>) -> bool
    ensures value { result ≡ list_all (found_in text.now) regexes.old.items }
    ensures same { regexes.new.items ≡ regexes.old.items }
    ensures later { steps.old ≤ steps.new }
    ensures within { steps.new ≤ steps.old + sum_by (steps_of text.now) regexes.old.items }
{
    for at in 0..regexes.len() {
        if !regexes[at].matches(text, steps) {
            return false;
        }
    }
    true
}

/// Whether some expression is found in the text.
fn any_matches<L: Ledger>(regexes: &mut Vec<ReadRegex>, text: &[u8], steps: &mut Steps<L>) -> bool
    ensures value { result ≡ list_any (found_in text.now) regexes.old.items }
    ensures same { regexes.new.items ≡ regexes.old.items }
    ensures later { steps.old ≤ steps.new }
    ensures within { steps.new ≤ steps.old + sum_by (steps_of text.now) regexes.old.items }
{
    for at in 0..regexes.len() {
        if regexes[at].matches(text, steps) {
            return true;
        }
    }
    false
}
