//! The words of a command line, and what they ask of a tool.
#![tactic(auto)]

mod commands;
mod convert;
mod exercise;
mod format;
mod locate;
mod matches;
mod request;
mod settings;
mod tool;
mod updatedb;
mod values;

pub use format::Format;
pub use request::{Request, WordsFault, read_words};
pub use settings::{
    ConvertSettings, ExerciseSettings, LocateSettings, MAX_DATABASES, MAX_LIST, MAX_ROUNDS,
    UpdatedbSettings,
};
pub use tool::{Tool, speaker, tool_of};
pub use values::DEFAULT_DATABASE;

#[cfg(test)]
mod tests;
