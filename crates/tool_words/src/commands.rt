//! The commands of the tools, made for clap.
ghost use Rattle.std.specs.Prelude.{◌≡◌, ◌∷◌, [], IfOk};
ghost use Rattle.clap.specs.Words.{app_of};
ghost use Rattle.tool_words.specs.Commands.{bare, convert_command as command_of_convert, exercise_command as command_of_exercise, flag, locate_command as command_of_locate, long_flag, long_option, needed_option, needed_word, option, short_flag, short_option, updatedb_command as command_of_updatedb, with_argument, words_left};

use clap::{Arg, ArgAction, Command};
use std::alloc::{AllocError, Global};

#[tactic(auto, unfolding(crate::specs::Commands::bare))]
fn bare_command<'a>(alloc: Global, name: &'a str) -> Command<'a>
    ensures { app_of result ≡ bare name.entry.now }
{
    Command::new(alloc, name)
        .disable_help_flag(true)
        .disable_version_flag(true)
}

#[tactic(auto, unfolding(crate::specs::Commands::with_argument))]
fn with_flag<'a>(
    alloc: Global,
    command: Command<'a>,
    name: &'a str,
    letter: char,
) -> Result<Command<'a>, AllocError>
    ensures { IfOk result (λ r. app_of r ≡ with_argument (app_of command.entry) (flag name.entry.now (letter ∷ []))) }
{
    command.arg(
        Arg::new(alloc, name)
            .short(letter)
            .long(name)
            .action(ArgAction::Count),
    )
}

#[tactic(auto, unfolding(crate::specs::Commands::with_argument))]
fn with_long_flag<'a>(
    alloc: Global,
    command: Command<'a>,
    name: &'a str,
) -> Result<Command<'a>, AllocError>
    ensures { IfOk result (λ r. app_of r ≡ with_argument (app_of command.entry) (long_flag name.entry.now)) }
{
    command.arg(Arg::new(alloc, name).long(name).action(ArgAction::Count))
}

#[tactic(auto, unfolding(crate::specs::Commands::with_argument))]
fn with_short_flag<'a>(
    alloc: Global,
    command: Command<'a>,
    id: &'a str,
    letter: char,
) -> Result<Command<'a>, AllocError>
    ensures { IfOk result (λ r. app_of r ≡ with_argument (app_of command.entry) (short_flag id.entry.now (letter ∷ []))) }
{
    command.arg(Arg::new(alloc, id).short(letter).action(ArgAction::Count))
}

#[tactic(auto, unfolding(crate::specs::Commands::with_argument))]
fn with_option<'a>(
    alloc: Global,
    command: Command<'a>,
    name: &'a str,
    letter: char,
) -> Result<Command<'a>, AllocError>
    ensures { IfOk result (λ r. app_of r ≡ with_argument (app_of command.entry) (option name.entry.now (letter ∷ []))) }
{
    command.arg(
        Arg::new(alloc, name)
            .short(letter)
            .long(name)
            .action(ArgAction::Set),
    )
}

#[tactic(auto, unfolding(crate::specs::Commands::with_argument))]
fn with_short_option<'a>(
    alloc: Global,
    command: Command<'a>,
    id: &'a str,
    letter: char,
) -> Result<Command<'a>, AllocError>
    ensures { IfOk result (λ r. app_of r ≡ with_argument (app_of command.entry) (short_option id.entry.now (letter ∷ []))) }
{
    command.arg(Arg::new(alloc, id).short(letter).action(ArgAction::Set))
}

#[tactic(auto, unfolding(crate::specs::Commands::with_argument))]
fn with_long_option<'a>(
    alloc: Global,
    command: Command<'a>,
    name: &'a str,
) -> Result<Command<'a>, AllocError>
    ensures { IfOk result (λ r. app_of r ≡ with_argument (app_of command.entry) (long_option name.entry.now)) }
{
    command.arg(Arg::new(alloc, name).long(name).action(ArgAction::Set))
}

#[tactic(auto, unfolding(crate::specs::Commands::with_argument))]
fn with_needed_option<'a>(
    alloc: Global,
    command: Command<'a>,
    name: &'a str,
) -> Result<Command<'a>, AllocError>
    ensures { IfOk result (λ r. app_of r ≡ with_argument (app_of command.entry) (needed_option name.entry.now)) }
{
    command.arg(
        Arg::new(alloc, name)
            .long(name)
            .action(ArgAction::Set)
            .required(true),
    )
}

#[tactic(auto, unfolding(crate::specs::Commands::with_argument))]
fn with_needed_word<'a>(
    alloc: Global,
    command: Command<'a>,
    id: &'a str,
) -> Result<Command<'a>, AllocError>
    ensures { IfOk result (λ r. app_of r ≡ with_argument (app_of command.entry) (needed_word id.entry.now)) }
{
    command.arg(Arg::new(alloc, id).action(ArgAction::Set).required(true))
}

#[tactic(auto, unfolding(crate::specs::Commands::with_argument))]
fn with_words_left<'a>(
    alloc: Global,
    command: Command<'a>,
    id: &'a str,
) -> Result<Command<'a>, AllocError>
    ensures { IfOk result (λ r. app_of r ≡ with_argument (app_of command.entry) (words_left id.entry.now)) }
{
    command.arg(Arg::new(alloc, id).action(ArgAction::Append))
}

#[tactic(auto, unfolding(crate::specs::Commands::updatedb_command))]
pub(crate) fn updatedb_command<'a>(alloc: Global) -> Result<Command<'a>, AllocError>
    ensures { IfOk result (λ c. app_of c ≡ command_of_updatedb) }
{
    let command = bare_command(alloc, "updatedb");
    let command = with_option(alloc, command, "add-prunefs", 'f')?;
    let command = with_option(alloc, command, "add-prunenames", 'n')?;
    let command = with_option(alloc, command, "add-prunepaths", 'e')?;
    let command = with_option(alloc, command, "database-root", 'U')?;
    let command = with_option(alloc, command, "output", 'o')?;
    let command = with_option(alloc, command, "require-visibility", 'l')?;
    let command = with_long_option(alloc, command, "prune-bind-mounts")?;
    let command = with_long_option(alloc, command, "prunefs")?;
    let command = with_long_option(alloc, command, "prunenames")?;
    let command = with_long_option(alloc, command, "prunepaths")?;
    let command = with_long_option(alloc, command, "db-version")?;
    let command = with_long_option(alloc, command, "recent-margin")?;
    let command = with_flag(alloc, command, "verbose", 'v')?;
    Ok(command)
}

#[tactic(auto, unfolding(crate::specs::Commands::locate_command))]
pub(crate) fn locate_command<'a>(alloc: Global) -> Result<Command<'a>, AllocError>
    ensures { IfOk result (λ c. app_of c ≡ command_of_locate) }
{
    let command = bare_command(alloc, "locate");
    let command = with_flag(alloc, command, "all", 'A')?;
    let command = with_flag(alloc, command, "basename", 'b')?;
    let command = with_flag(alloc, command, "count", 'c')?;
    let command = with_flag(alloc, command, "existing", 'e')?;
    let command = with_flag(alloc, command, "follow", 'L')?;
    let command = with_flag(alloc, command, "nofollow", 'P')?;
    let command = with_short_flag(alloc, command, "H", 'H')?;
    let command = with_flag(alloc, command, "ignore-case", 'i')?;
    let command = with_flag(alloc, command, "null", '0')?;
    let command = with_flag(alloc, command, "quiet", 'q')?;
    let command = with_flag(alloc, command, "statistics", 'S')?;
    let command = with_flag(alloc, command, "wholename", 'w')?;
    let command = with_flag(alloc, command, "mmap", 'm')?;
    let command = with_flag(alloc, command, "stdio", 's')?;
    let command = with_long_flag(alloc, command, "regex")?;
    let command = with_option(alloc, command, "regexp", 'r')?;
    let command = with_option(alloc, command, "database", 'd')?;
    let command = with_option(alloc, command, "limit", 'l')?;
    let command = with_short_option(alloc, command, "n", 'n')?;
    let command = with_words_left(alloc, command, "PATTERN")?;
    Ok(command)
}

#[tactic(auto, unfolding(crate::specs::Commands::convert_command))]
pub(crate) fn convert_command<'a>(alloc: Global) -> Result<Command<'a>, AllocError>
    ensures { IfOk result (λ c. app_of c ≡ command_of_convert) }
{
    let command = bare_command(alloc, "convert");
    let command = with_long_option(alloc, command, "from")?;
    let command = with_needed_option(alloc, command, "to")?;
    let command = with_needed_word(alloc, command, "INPUT")?;
    let command = with_needed_word(alloc, command, "OUTPUT")?;
    Ok(command)
}

#[tactic(auto, unfolding(crate::specs::Commands::exercise_command))]
pub(crate) fn exercise_command<'a>(alloc: Global) -> Result<Command<'a>, AllocError>
    ensures { IfOk result (λ c. app_of c ≡ command_of_exercise) }
{
    let command = bare_command(alloc, "exercise");
    let command = with_needed_word(alloc, command, "NUMBER")?;
    let command = with_needed_word(alloc, command, "ROUNDS")?;
    Ok(command)
}
