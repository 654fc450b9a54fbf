//! What clap finds in words.
ghost use Rattle.std.specs.Prelude.{◌≡◌, IfOk, MatchOption, true, false, map, option_map, string_bytes};
ghost use Rattle.clap.specs.Words.{app_of, is_simple_and_free};
ghost use Rattle.tool_words.specs.Matches.{found, found_in, is_used as uses, refuses, value_of as value_in, values_of as values_in};

use clap::error::ErrorKind;
use clap::{ArgMatches, Command};
use std::alloc::{AllocError, Global};

/// What clap finds in the words, of which the first is the command's own name, or None where it refuses them. The
/// command is one of which clap's own definitions are exact.
pub(crate) fn taken<'a>(
    command: Command<'a>,
    words: &'a [String],
) -> Result<Option<ArgMatches<'a>>, AllocError>
    requires { is_simple_and_free (app_of command) ≡ true }
    ensures { IfOk result (λ o. MatchOption o
        (refuses (app_of command.entry) (map string_bytes words.entry.now) ≡ true)
        (λ m. (refuses (app_of command.entry) (map string_bytes words.entry.now) ≡ false)
        × (found_in m ≡ found (app_of command.entry) (map string_bytes words.entry.now)))) }
{
    match command.try_get_matches_from(words) {
        Ok(matches) => Ok(Some(matches)),
        Err(error) => match error.kind() {
            ErrorKind::OutOfMemory => Err(AllocError),
            _ => Ok(None),
        },
    }
}

/// Whether a flag is given.
#[tactic(auto, unfolding(crate::specs::Matches::found_in, crate::specs::Matches::is_used))]
pub(crate) fn is_used(matches: &ArgMatches<'_>, id: &str) -> bool
    ensures { result ≡ uses id.now (found_in matches.now) }
{
    matches.get_count(id) > 0
}

/// The value of an option, where it is given.
pub(crate) fn value_of<'a>(matches: &ArgMatches<'a>, id: &str) -> Option<&'a str>
    ensures { option_map (λ t. t.now) result ≡ value_in id.now (found_in matches.now) }
{
    matches.get_str(id)
}

/// The words left for an argument that takes any number.
pub(crate) fn values_of<'a>(
    alloc: Global,
    matches: &ArgMatches<'a>,
    id: &str,
) -> Result<Vec<&'a str>, AllocError>
    ensures { IfOk result (λ v. map (λ t. t.now) v.items ≡ values_in id.now (found_in matches.now)) }
{
    match matches.get_strs(id) {
        Some(values) => copied(alloc, values),
        None => Ok(Vec::new(alloc)),
    }
}

fn copied<'a>(alloc: Global, values: &[&'a str]) -> Result<Vec<&'a str>, AllocError>
    ensures { IfOk result (λ v. v.items ≡ values.now) }
{
    values.iter().copied().collect(alloc)
}
