//! The words of `exercise`.
ghost use Rattle.std.specs.Prelude.{◌≡◌, ◌≤◌, IfOk, IfSome, map, option_map, string_bytes};
ghost use Rattle.tool_words.specs.Exercise.{exercise_asked as asked_of_exercise, number_of as number_in, rounds_of as rounds_in, settings_of as settings_by};
ghost use Rattle.tool_words.specs.ExerciseSeen.{seen};
ghost use Rattle.tool_words.specs.Matches.{found_in};

use crate::commands::exercise_command;
use crate::matches::{taken, value_of};
use crate::settings::ExerciseSettings;
use crate::values::{number_word, rounds_word};
use clap::ArgMatches;
use std::alloc::{AllocError, Global};

#[tactic(auto, unfolding(crate::specs::Exercise::number_of))]
fn read_number(matches: &ArgMatches<'_>) -> Option<u64>
    ensures { result ≡ number_in (found_in matches.now) }
{
    match value_of(matches, "NUMBER") {
        Some(word) => number_word(word),
        None => None,
    }
}

#[tactic(auto, unfolding(crate::specs::Exercise::rounds_of))]
fn read_rounds(matches: &ArgMatches<'_>) -> Option<u8>
    ensures value { result ≡ rounds_in (found_in matches.now) }
    ensures within { IfSome result (λ rounds. rounds ≤ 100) }
{
    match value_of(matches, "ROUNDS") {
        Some(word) => rounds_word(word),
        None => None,
    }
}

#[tactic(auto, unfolding(crate::specs::Exercise::settings_of))]
fn settings_of(matches: &ArgMatches<'_>) -> Option<ExerciseSettings>
    ensures { option_map seen result ≡ settings_by (found_in matches.now) }
{
    let number = read_number(matches)?;
    let rounds = read_rounds(matches)?;
    Some(ExerciseSettings { number, rounds })
}

/// What the words of `exercise` ask for, or None on bad usage.
pub(crate) fn exercise_asked<'a>(
    alloc: Global,
    words: &'a [String],
) -> Result<Option<ExerciseSettings>, AllocError>
    ensures { IfOk result (λ o. option_map seen o ≡ asked_of_exercise (map string_bytes words.entry.now)) }
{
    let command = exercise_command(alloc)?;
    match taken(command, words)? {
        Some(matches) => Ok(settings_of(&matches)),
        None => Ok(None),
    }
}
