//! The words of `convert`.
ghost use Rattle.std.specs.Prelude.{◌≡◌, false, IfOk, map, codes, option_map, string_bytes};
ghost use Rattle.tool_words.specs.Convert.{convert_asked as asked_of_convert, file_of as file_in, to_of as to_in, lacks_name as name_lacks, settings_of as settings_by, settings_with as settings_by_parts};
ghost use Rattle.tool_words.specs.ConvertSeen.{seen};
ghost use Rattle.tool_words.specs.Formats.{format_word as format_of_word};
ghost use Rattle.tool_words.specs.Matches.{found_in, value_of as value_in};
ghost use Rattle.tool_words.specs.Values.{read_by};

use crate::commands::convert_command;
use crate::format::{Format, format_word};
use crate::matches::{taken, value_of};
use crate::settings::ConvertSettings;
use clap::ArgMatches;
use std::alloc::{AllocError, Global};

fn read_from(matches: &ArgMatches<'_>) -> Option<Option<Format>>
    ensures { result ≡ read_by format_of_word (value_in (codes "from") (found_in matches.now)) }
{
    match value_of(matches, "from") {
        None => Some(None),
        Some(word) => match format_word(word) {
            Some(format) => Some(Some(format)),
            None => None,
        },
    }
}

#[tactic(auto, unfolding(crate::specs::Convert::to_of))]
fn read_to(matches: &ArgMatches<'_>) -> Option<Format>
    ensures { result ≡ to_in (found_in matches.now) }
{
    match value_of(matches, "to") {
        Some(word) => format_word(word),
        None => None,
    }
}

#[tactic(auto, unfolding(crate::specs::Convert::file_of))]
fn file_of<'a>(matches: &ArgMatches<'a>, id: &str) -> &'a str
    ensures { result.now ≡ file_in id.now (found_in matches.now) }
{
    match value_of(matches, id) {
        Some(name) => name,
        None => "",
    }
}

fn lacks_name(matches: &ArgMatches<'_>) -> bool
    ensures { result ≡ name_lacks (found_in matches.now) }
{
    file_of(matches, "INPUT").is_empty() || file_of(matches, "OUTPUT").is_empty()
}

/// The settings of words that name both files, from one format, or the one that is found, into another.
fn settings_with<'a>(
    matches: &ArgMatches<'a>,
    from: Option<Format>,
    to: Format,
) -> ConvertSettings<'a>
    requires { name_lacks (found_in matches.now) ≡ false }
    ensures { seen result ≡ settings_by_parts (found_in matches.now) from to }
{
    ConvertSettings {
        from,
        to,
        input: file_of(matches, "INPUT"),
        output: file_of(matches, "OUTPUT"),
    }
}

#[tactic(auto, unfolding(crate::specs::Convert::settings_of))]
fn settings_of<'a>(matches: &ArgMatches<'a>) -> Option<ConvertSettings<'a>>
    ensures { option_map seen result ≡ settings_by (found_in matches.now) }
{
    let from = read_from(matches)?;
    let to = read_to(matches)?;
    if lacks_name(matches) {
        return None;
    }
    Some(settings_with(matches, from, to))
}

/// What the words of `convert` ask for, or None on bad usage.
pub(crate) fn convert_asked<'a>(
    alloc: Global,
    words: &'a [String],
) -> Result<Option<ConvertSettings<'a>>, AllocError>
    ensures { IfOk result (λ o. option_map seen o ≡ asked_of_convert (map string_bytes words.entry.now)) }
{
    let command = convert_command(alloc)?;
    match taken(command, words)? {
        Some(matches) => Ok(settings_of(&matches)),
        None => Ok(None),
    }
}
