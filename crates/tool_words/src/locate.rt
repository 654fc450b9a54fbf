//! The words of `locate`.
ghost use Rattle.std.specs.Prelude.{◌≡◌, ◌≤◌, ◌&&◌, ◌||◌, IfOk, Option, Some, None, map, codes, option_map, string_bytes, vec_len};
ghost use Rattle.tool_words.specs.Matches.{found_in, is_given as given, is_used as uses, values_of as values_in};
ghost use Rattle.tool_words.specs.Values.{number_word as number_of_word, read_by};
ghost use Rattle.tool_words.specs.Locate.{breaks_rule as rule_broken, databases_of as databases_by, given_names as names_given, has_conflict as conflicts, has_pattern as pattern_stands, lacks_pattern as pattern_lacks, keeps_link as link_kept, limit_value as word_of_limit, locate_asked as asked_of_locate, path_names as names_of_path, settings_of as settings_by, settings_with as settings_by_parts};
ghost use Rattle.tool_words.specs.LocateSeen.{seen};

use crate::commands::locate_command;
use crate::matches::{is_used, taken, value_of, values_of};
use crate::settings::{LocateSettings, MAX_DATABASES};
use crate::values::{DEFAULT_DATABASE, names_in, number_word};
use clap::ArgMatches;
use std::alloc::{AllocError, Global};

fn keeps_link(matches: &ArgMatches<'_>) -> bool
    ensures { result ≡ link_kept (found_in matches.now) }
{
    is_used(matches, "nofollow") || is_used(matches, "H")
}

/// Whether `-r` stands with a PATTERN or with `--regex`.
fn mixes_expressions(matches: &ArgMatches<'_>, patterns: &[&str]) -> bool
    requires { map (λ t. t.now) patterns.now ≡ values_in (codes "PATTERN") (found_in matches.now) }
    ensures { result ≡ (given (codes "regexp") (found_in matches.now) && (uses (codes "regex") (found_in matches.now) || pattern_stands (found_in matches.now))) }
{
    value_of(matches, "regexp").is_some() && (is_used(matches, "regex") || !patterns.is_empty())
}

fn has_conflict(matches: &ArgMatches<'_>, patterns: &[&str]) -> bool
    requires { map (λ t. t.now) patterns.now ≡ values_in (codes "PATTERN") (found_in matches.now) }
    ensures { result ≡ conflicts (found_in matches.now) }
{
    if is_used(matches, "basename") && is_used(matches, "wholename") {
        return true;
    }
    if is_used(matches, "follow") && keeps_link(matches) {
        return true;
    }
    if value_of(matches, "limit").is_some() && value_of(matches, "n").is_some() {
        return true;
    }
    mixes_expressions(matches, patterns)
}

/// Whether there is no PATTERN, no `-r` and no `-S`.
fn lacks_pattern(matches: &ArgMatches<'_>, patterns: &[&str]) -> bool
    requires { map (λ t. t.now) patterns.now ≡ values_in (codes "PATTERN") (found_in matches.now) }
    ensures { result ≡ pattern_lacks (found_in matches.now) }
{
    !is_used(matches, "statistics") && value_of(matches, "regexp").is_none() && patterns.is_empty()
}

fn breaks_rule(matches: &ArgMatches<'_>, databases: &[&str], patterns: &[&str]) -> bool
    requires { map (λ t. t.now) patterns.now ≡ values_in (codes "PATTERN") (found_in matches.now) }
    ensures { result ≡ rule_broken (found_in matches.now) (map (λ t. t.now) databases.now) }
{
    if has_conflict(matches, patterns) {
        return true;
    }
    if lacks_pattern(matches, patterns) {
        return true;
    }
    databases.len() > MAX_DATABASES
}

fn limit_value<'a>(matches: &ArgMatches<'a>) -> Option<&'a str>
    ensures { option_map (λ t. t.now) result ≡ word_of_limit (found_in matches.now) }
{
    match value_of(matches, "limit") {
        Some(word) => Some(word),
        None => value_of(matches, "n"),
    }
}

/// The limit, if one is given, or None where its word is no number.
fn read_limit(matches: &ArgMatches<'_>) -> Option<Option<u64>>
    ensures { result ≡ read_by number_of_word (word_of_limit (found_in matches.now)) }
{
    match limit_value(matches) {
        None => Some(None),
        Some(word) => match number_word(word) {
            Some(limit) => Some(Some(limit)),
            None => None,
        },
    }
}

fn given_names<'a>(alloc: Global, given: Option<&'a str>) -> Result<Vec<&'a str>, AllocError>
    ensures { IfOk result (λ v. map (λ t. t.now) v.items ≡ names_given (option_map (λ t. t.now) given.entry)) }
{
    match given {
        Some(list) => names_in(alloc, list),
        None => {
            let mut names = Vec::new(alloc);
            names.push(DEFAULT_DATABASE)?;
            Ok(names)
        }
    }
}

fn path_names<'a>(alloc: Global, path: Option<&'a str>) -> Result<Vec<&'a str>, AllocError>
    ensures { IfOk result (λ v. map (λ t. t.now) v.items ≡ names_of_path (option_map (λ t. t.now) path.entry)) }
{
    match path {
        Some(list) if !list.is_empty() => names_in(alloc, list),
        _ => Ok(Vec::new(alloc)),
    }
}

fn databases_of<'a>(
    alloc: Global,
    given: Option<&'a str>,
    path: Option<&'a str>,
) -> Result<Vec<&'a str>, AllocError>
    ensures { IfOk result (λ v. map (λ t. t.now) v.items
        ≡ databases_by (option_map (λ t. t.now) given.entry) (option_map (λ t. t.now) path.entry)) }
{
    let mut databases = given_names(alloc, given)?;
    let more = path_names(alloc, path)?;
    databases.extend_from_slice(more.as_slice())?;
    Ok(databases)
}

fn settings_with<'a>(
    matches: &ArgMatches<'a>,
    limit: Option<u64>,
    databases: Vec<&'a str>,
    patterns: Vec<&'a str>,
) -> LocateSettings<'a>
    requires patterns { map (λ t. t.now) patterns.items ≡ values_in (codes "PATTERN") (found_in matches.now) }
    requires few { vec_len databases ≤ 4096 }
    ensures { seen result ≡ settings_by_parts (found_in matches.now) (map (λ t. t.now) databases.entry.items) limit }
{
    LocateSettings {
        all: is_used(matches, "all"),
        base: is_used(matches, "basename"),
        count_only: is_used(matches, "count"),
        existing: is_used(matches, "existing"),
        follow: !keeps_link(matches),
        fold: is_used(matches, "ignore-case"),
        separator: if is_used(matches, "null") { 0 } else { b'\n' },
        quiet: is_used(matches, "quiet"),
        statistics: is_used(matches, "statistics"),
        limit,
        databases,
        patterns,
        regex: is_used(matches, "regex"),
        regexp: value_of(matches, "regexp"),
    }
}

#[tactic(auto, unfolding(crate::specs::Locate::settings_of))]
fn settings_of<'a>(
    alloc: Global,
    matches: &ArgMatches<'a>,
    databases: Vec<&'a str>,
) -> Result<Option<LocateSettings<'a>>, AllocError>
    ensures { IfOk result (λ o. option_map seen o
        ≡ settings_by (found_in matches.now) (map (λ t. t.now) databases.entry.items)) }
{
    let patterns = values_of(alloc, matches, "PATTERN")?;
    let Some(limit) = read_limit(matches) else {
        return Ok(None);
    };
    if breaks_rule(matches, databases.as_slice(), patterns.as_slice()) {
        return Ok(None);
    }
    Ok(Some(settings_with(matches, limit, databases, patterns)))
}

/// What the words of `locate` and `LOCATE_PATH` ask for, or None on bad usage.
pub(crate) fn locate_asked<'a>(
    alloc: Global,
    words: &'a [String],
    locate_path: Option<&'a str>,
) -> Result<Option<LocateSettings<'a>>, AllocError>
    ensures { IfOk result (λ o. option_map seen o
        ≡ asked_of_locate (map string_bytes words.entry.now) (option_map (λ t. t.now) locate_path.entry)) }
{
    let command = locate_command(alloc)?;
    match taken(command, words)? {
        Some(matches) => {
            let databases = databases_of(alloc, value_of(&matches, "database"), locate_path)?;
            settings_of(alloc, &matches, databases)
        }
        None => Ok(None),
    }
}
