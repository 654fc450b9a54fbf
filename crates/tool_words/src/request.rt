//! What the words of a command line ask for.
ghost use Rattle.std.specs.Prelude.{◌≡◌, IfOk, IsErrOf, Option, Some, None, map, option_map, string_bytes};
ghost use Rattle.tool_words.specs.Convert.{convert_asked as asked_of_convert};
ghost use Rattle.tool_words.specs.Exercise.{exercise_asked as asked_of_exercise};
ghost use Rattle.tool_words.specs.Locate.{locate_asked as asked_of_locate};
ghost use Rattle.tool_words.specs.Updatedb.{updatedb_asked as asked_of_updatedb};
ghost use Rattle.tool_words.specs.Asked.{Convert, Exercise, Locate, Updatedb, asked as asked_by_words};
ghost use Rattle.tool_words.specs.AskedSeen.{seen};

use crate::convert::convert_asked;
use crate::exercise::exercise_asked;
use crate::locate::locate_asked;
use crate::settings::{ConvertSettings, ExerciseSettings, LocateSettings, UpdatedbSettings};
use crate::tool::{Tool, tool_of};
use crate::updatedb::updatedb_asked;
use std::alloc::{AllocError, Global};
use thiserror::Error;

/// A tool, with what the words ask of it.
#[derive(Debug, Drop)]
pub enum Request<'a> {
    Updatedb(UpdatedbSettings<'a>),
    Locate(LocateSettings<'a>),
    Convert(ConvertSettings<'a>),
    Exercise(ExerciseSettings),
}

/// Why words ask for nothing.
#[derive(Clone, Copy, Debug, PartialEq, Eq, Drop, Error)]
pub enum WordsFault {
    /// The first word names no tool, or the others break a rule of its command line.
    #[error("bad usage")]
    Usage,
    #[error("out of memory")]
    OutOfMemory,
}

fn locate_request<'a>(
    alloc: Global,
    words: &'a [String],
    locate_path: Option<&'a str>,
) -> Result<Option<Request<'a>>, AllocError>
    ensures { IfOk result (λ o. option_map seen o ≡ option_map Locate
        (asked_of_locate (map string_bytes words.entry.now) (option_map (λ t. t.now) locate_path.entry))) }
{
    let found = locate_asked(alloc, words, locate_path)?;
    match found {
        Some(settings) => Ok(Some(Request::Locate(settings))),
        None => Ok(None),
    }
}

fn updatedb_request<'a>(
    alloc: Global,
    words: &'a [String],
) -> Result<Option<Request<'a>>, AllocError>
    ensures { IfOk result (λ o. option_map seen o ≡ option_map Updatedb
        (asked_of_updatedb (map string_bytes words.entry.now))) }
{
    let found = updatedb_asked(alloc, words)?;
    match found {
        Some(settings) => Ok(Some(Request::Updatedb(settings))),
        None => Ok(None),
    }
}

fn convert_request<'a>(
    alloc: Global,
    words: &'a [String],
) -> Result<Option<Request<'a>>, AllocError>
    ensures { IfOk result (λ o. option_map seen o ≡ option_map Convert
        (asked_of_convert (map string_bytes words.entry.now))) }
{
    let found = convert_asked(alloc, words)?;
    match found {
        Some(settings) => Ok(Some(Request::Convert(settings))),
        None => Ok(None),
    }
}

fn exercise_request<'a>(
    alloc: Global,
    words: &'a [String],
) -> Result<Option<Request<'a>>, AllocError>
    ensures { IfOk result (λ o. option_map seen o ≡ option_map Exercise
        (asked_of_exercise (map string_bytes words.entry.now))) }
{
    let found = exercise_asked(alloc, words)?;
    match found {
        Some(settings) => Ok(Some(Request::Exercise(settings))),
        None => Ok(None),
    }
}

#[tactic(auto, unfolding(crate::specs::Asked::asked))]
fn asked<'a>(
    alloc: Global,
    words: &'a [String],
    locate_path: Option<&'a str>,
) -> Result<Option<Request<'a>>, AllocError>
    ensures { IfOk result (λ o. option_map seen o
        ≡ asked_by_words (map string_bytes words.entry.now) (option_map (λ t. t.now) locate_path.entry)) }
{
    match tool_of(words) {
        Some(Tool::Updatedb) => updatedb_request(alloc, words),
        Some(Tool::Locate) => locate_request(alloc, words, locate_path),
        Some(Tool::Convert) => convert_request(alloc, words),
        Some(Tool::Exercise) => exercise_request(alloc, words),
        None => Ok(None),
    }
}

/// What the words ask for, of which the first is a tool's name, with the value of the environment's `LOCATE_PATH`.
pub fn read_words<'a>(
    alloc: Global,
    words: &'a [String],
    locate_path: Option<&'a str>,
) -> Result<Request<'a>, WordsFault>
    ensures accepted { IfOk result (λ request.
        asked_by_words (map string_bytes words.entry.now) (option_map (λ t. t.now) locate_path.entry) ≡ Some (seen request)) }
    ensures refused { IsErrOf result WordsFault.Usage
        → asked_by_words (map string_bytes words.entry.now) (option_map (λ t. t.now) locate_path.entry) ≡ None }
{
    match asked(alloc, words, locate_path) {
        Ok(Some(request)) => Ok(request),
        Ok(None) => Err(WordsFault::Usage),
        Err(_) => Err(WordsFault::OutOfMemory),
    }
}
