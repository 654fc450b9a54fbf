//! Regular expressions, with what they were read from.
ghost use Rattle.std.specs.Prelude.{◌≡◌, ◌⊎◌, ◌+◌, ◌≤◌, true, IsOk, Err, Some, None, map, MatchResult};
ghost use Rattle.posix_regex.specs.Pattern.{expression_at};
ghost use Rattle.posix_regex.specs.Reader.{no_memory};
ghost use Rattle.tool_words.specs.Locate.{seeks_expressions};
ghost use Rattle.tool_words.specs.LocateSeen.{seen};
ghost use Rattle.locate_tools.specs.Regexes.{found_in, steps_of};
ghost use Rattle.locate_tools.specs.RegexesAsked.{first_refused, refusal_of, regexes_by, regexes_of};

use crate::answer::Cause;
use posix_regex::{Regex, RegexCause, RegexFault, Steps};
use std::alloc::Global;
use std::marker::Model;
use std::sync::ledger::Ledger;
use tool_words::LocateSettings;

/// An expression that was read. A contract sees what it was read from.
#[derive(Drop)]
pub struct ReadRegex {
    pattern: Vec<u8>,
    extended: bool,
    fold: bool,
    regex: Regex,
}

impl Model for ReadRegex {
    ghost use Rattle.std.specs.Prelude.{◌≡◌, IsOkAnd};
    ghost use Rattle.posix_regex.specs.Pattern.{expression_at};
    ghost use Rattle.posix_regex.specs.Program.{items_of};
    ghost use Rattle.locate_tools.specs.Regexes.{RegexAsked};

    ghost Value = { RegexAsked };

    ghost view = { λ r. record { pattern = r.pattern.items; extended = r.extended; fold = r.fold } };

    ghost invariant = { λ r. IsOkAnd (expression_at r.extended r.fold r.pattern.items) (λ e. r.regex.items ≡ items_of e) };
}

impl ReadRegex {
    /// Reads a pattern in extended or in basic syntax. Where `fold`, ASCII letters match in either case.
    pub fn read(
        alloc: Global,
        pattern: &str,
        extended: bool,
        fold: bool,
    ) -> Result<ReadRegex, RegexFault>
        ensures { MatchResult result
            (λ regex. (regex ≡ record { pattern = pattern.now; extended = extended; fold = fold }) × IsOk (expression_at extended fold pattern.now))
            (λ fault. (fault ≡ no_memory) ⊎ (expression_at extended fold pattern.now ≡ Err fault)) }
    {
        let regex = match Regex::read(alloc, pattern.as_bytes(), extended, fold) {
            Ok(regex) => regex,
            Err(fault) => return Err(fault),
        };
        match pattern.as_bytes().to_vec(alloc) {
            Ok(pattern) => Ok(ReadRegex {
                pattern,
                extended,
                fold,
                regex,
            }),
            Err(_) => Err(RegexFault {
                place: 0,
                cause: RegexCause::OutOfMemory,
            }),
        }
    }

    /// Whether it is found in the text.
    pub fn matches<L: Ledger>(&mut self, text: &[u8], steps: &mut Steps<L>) -> bool
        ensures value { result ≡ found_in text.now self.old }
        ensures same { self.new ≡ self.old }
        ensures later { steps.old ≤ steps.new }
        ensures within { steps.new ≤ steps.old + steps_of text.now self.old }
    {
        self.regex.matches(text, steps)
    }
}

/// Why a run ends whose expression of this number can't be read.
fn cause_of(number: u64, fault: RegexFault) -> Cause
    ensures memory { fault ≡ no_memory → result ≡ Cause.OutOfMemory }
    ensures refused { (result ≡ Cause.OutOfMemory) ⊎ (result ≡ Cause.BadRegex number fault.place fault.cause) }
{
    if matches!(fault.cause, RegexCause::OutOfMemory) {
        return Cause::OutOfMemory;
    }
    Cause::BadRegex {
        pattern: number,
        place: fault.place,
        cause: fault.cause,
    }
}

/// The expressions of these patterns, or the cause for the first that is refused.
fn read_all(
    alloc: Global,
    patterns: &[&str],
    extended: bool,
    fold: bool,
) -> Result<Vec<ReadRegex>, Cause>
    ensures { let asked = regexes_by extended fold (map (λ t. t.now) patterns.now) in MatchResult result
        (λ regexes. (regexes.items ≡ asked) × (first_refused 0 asked ≡ None))
        (λ cause. (cause ≡ Cause.OutOfMemory) ⊎ (first_refused 0 asked ≡ Some cause)) }
{
    let mut regexes = Vec::new(alloc);
    for pattern in patterns {
        let regex = match ReadRegex::read(alloc, pattern, extended, fold) {
            Ok(regex) => regex,
            Err(fault) => return Err(cause_of(regexes.len() as u64, fault)),
        };
        let Ok(()) = regexes.push(regex) else {
            return Err(Cause::OutOfMemory);
        };
    }
    Ok(regexes)
}

/// The expressions that the words ask for, or the cause for the first that is refused.
pub fn read_regexes(alloc: Global, asked: &LocateSettings<'_>) -> Result<Vec<ReadRegex>, Cause>
    requires { seeks_expressions (seen asked.now) ≡ true }
    ensures { MatchResult result
        (λ regexes. (regexes.items ≡ regexes_of (seen asked.now)) × (refusal_of (seen asked.now) ≡ None))
        (λ cause. (cause ≡ Cause.OutOfMemory) ⊎ (refusal_of (seen asked.now) ≡ Some cause)) }
{
    match asked.regexp {
        Some(pattern) => read_all(alloc, &[pattern], false, asked.fold),
        None => read_all(alloc, asked.patterns.as_slice(), true, asked.fold),
    }
}
