//! The words of `updatedb`.
ghost use Rattle.std.specs.Prelude.{◌≡◌, ◌<◌, ◌≤◌, false, IfOk, IfSome, Option, Some, None, map, codes, option_map, string_bytes};
ghost use Rattle.std.specs.Option.{ForSome};
ghost use Rattle.tool_words.specs.Matches.{found_in, value_of as value_in};
ghost use Rattle.tool_words.specs.Lists.{is_long as too_long};
ghost use Rattle.tool_words.specs.Values.{read_by, version_word as version_of_word};
ghost use Rattle.updatedb_conf.specs.Value.{flag_word as flag_of_word, margin_word as margin_of_word};
ghost use Rattle.tool_words.specs.Updatedb.{breaks_rule as rule_broken, has_long_addition as some_addition_is_long, has_long_list as some_list_is_long, has_slash_in_name as some_name_has_slash, list_of as list_in, output_of as output_in, root_of as root_in, settings_of as settings_by, settings_with as settings_by_parts, updatedb_asked as asked_of_updatedb};
ghost use Rattle.tool_words.specs.UpdatedbSeen.{seen};

use crate::commands::updatedb_command;
use crate::matches::{is_used, taken, value_of};
use crate::settings::{MAX_LIST, UpdatedbSettings};
use crate::values::{DEFAULT_DATABASE, has_slash, is_normal_path, margin_of, version_word};
use clap::ArgMatches;
use std::alloc::{AllocError, Global};
use updatedb_conf::flag_word;

fn read_switch(matches: &ArgMatches<'_>, id: &str) -> Option<Option<bool>>
    ensures { result ≡ read_by flag_of_word (value_in id.now (found_in matches.now)) }
{
    match value_of(matches, id) {
        None => Some(None),
        Some(word) => match flag_word(word.as_bytes()) {
            Some(switch) => Some(Some(switch)),
            None => None,
        },
    }
}

fn read_version(matches: &ArgMatches<'_>) -> Option<Option<u8>>
    ensures value { result ≡ read_by version_of_word (value_in (codes "db-version") (found_in matches.now)) }
    ensures known { IfSome result (λ given. ForSome given (λ version. version < 2)) }
{
    match value_of(matches, "db-version") {
        None => Some(None),
        Some(word) => match version_word(word) {
            Some(version) => Some(Some(version)),
            None => None,
        },
    }
}

fn read_margin(matches: &ArgMatches<'_>) -> Option<Option<u16>>
    ensures value { result ≡ read_by margin_of_word (value_in (codes "recent-margin") (found_in matches.now)) }
    ensures within { IfSome result (λ given. ForSome given (λ seconds. seconds ≤ 3600)) }
{
    match value_of(matches, "recent-margin") {
        None => Some(None),
        Some(word) => match margin_of(word) {
            Some(margin) => Some(Some(margin)),
            None => None,
        },
    }
}

#[tactic(auto, unfolding(crate::specs::Updatedb::list_of))]
fn list_of<'a>(matches: &ArgMatches<'a>, id: &str) -> &'a str
    ensures { result.now ≡ list_in id.now (found_in matches.now) }
{
    match value_of(matches, id) {
        Some(list) => list,
        None => "",
    }
}

#[tactic(auto, unfolding(crate::specs::Updatedb::root_of))]
fn root_of<'a>(matches: &ArgMatches<'a>) -> &'a str
    ensures { result.now ≡ root_in (found_in matches.now) }
{
    match value_of(matches, "database-root") {
        Some(root) => root,
        None => "/",
    }
}

#[tactic(auto, unfolding(crate::specs::Updatedb::output_of))]
fn output_of<'a>(matches: &ArgMatches<'a>) -> &'a str
    ensures { result.now ≡ output_in (found_in matches.now) }
{
    match value_of(matches, "output") {
        Some(output) => output,
        None => DEFAULT_DATABASE,
    }
}

fn is_long(list: &str) -> bool
    ensures { result ≡ too_long list.now }
{
    list.len() > MAX_LIST
}

fn has_long_list(matches: &ArgMatches<'_>) -> bool
    ensures { result ≡ some_list_is_long (found_in matches.now) }
{
    is_long(list_of(matches, "prunefs"))
        || is_long(list_of(matches, "prunenames"))
        || is_long(list_of(matches, "prunepaths"))
}

fn has_long_addition(matches: &ArgMatches<'_>) -> bool
    ensures { result ≡ some_addition_is_long (found_in matches.now) }
{
    is_long(list_of(matches, "add-prunefs"))
        || is_long(list_of(matches, "add-prunenames"))
        || is_long(list_of(matches, "add-prunepaths"))
}

fn has_slash_in_name(matches: &ArgMatches<'_>) -> bool
    ensures { result ≡ some_name_has_slash (found_in matches.now) }
{
    has_slash(list_of(matches, "add-prunenames")) || has_slash(list_of(matches, "prunenames"))
}

fn breaks_rule(matches: &ArgMatches<'_>) -> bool
    ensures { result ≡ rule_broken (found_in matches.now) }
{
    if !is_normal_path(root_of(matches)) || output_of(matches).is_empty() {
        return true;
    }
    if has_long_list(matches) || has_long_addition(matches) {
        return true;
    }
    has_slash_in_name(matches)
}

fn settings_with<'a>(
    matches: &ArgMatches<'a>,
    visibility: Option<bool>,
    prune_bind_mounts: Option<bool>,
    version: Option<u8>,
    margin: Option<u16>,
) -> UpdatedbSettings<'a>
    requires kept { rule_broken (found_in matches.now) ≡ false }
    requires version { ForSome version (λ v. v < 2) }
    requires margin { ForSome margin (λ seconds. seconds ≤ 3600) }
    ensures { seen result ≡ settings_by_parts (found_in matches.now) visibility prune_bind_mounts version margin }
{
    UpdatedbSettings {
        root: root_of(matches),
        output: output_of(matches),
        visibility: visibility.unwrap_or(true),
        verbose: is_used(matches, "verbose"),
        version: version.unwrap_or(0),
        margin,
        prune_bind_mounts,
        prunefs: value_of(matches, "prunefs"),
        prunenames: value_of(matches, "prunenames"),
        prunepaths: value_of(matches, "prunepaths"),
        add_prunefs: list_of(matches, "add-prunefs"),
        add_prunenames: list_of(matches, "add-prunenames"),
        add_prunepaths: list_of(matches, "add-prunepaths"),
    }
}

#[tactic(auto, unfolding(crate::specs::Updatedb::settings_of))]
fn settings_of<'a>(matches: &ArgMatches<'a>) -> Option<UpdatedbSettings<'a>>
    ensures { option_map seen result ≡ settings_by (found_in matches.now) }
{
    let visibility = read_switch(matches, "require-visibility")?;
    let prune_bind_mounts = read_switch(matches, "prune-bind-mounts")?;
    let version = read_version(matches)?;
    let margin = read_margin(matches)?;
    if breaks_rule(matches) {
        return None;
    }
    Some(settings_with(matches, visibility, prune_bind_mounts, version, margin))
}

/// What the words of `updatedb` ask for, or None on bad usage.
pub(crate) fn updatedb_asked<'a>(
    alloc: Global,
    words: &'a [String],
) -> Result<Option<UpdatedbSettings<'a>>, AllocError>
    ensures { IfOk result (λ o. option_map seen o ≡ asked_of_updatedb (map string_bytes words.entry.now)) }
{
    let command = updatedb_command(alloc)?;
    match taken(command, words)? {
        Some(matches) => Ok(settings_of(&matches)),
        None => Ok(None),
    }
}
