//! The steps of `updatedb`: the settings are read, the tree is scanned into the output with the records of the old
//! database, and the new one is stored.
#![tactic(auto)]

mod conf_file;
mod fault;
mod mount_file;
mod old_database;
#[cfg(test)]
mod reuse_tests;
mod settings;
mod settings_file;
mod storing;
#[cfg(test)]
mod tests;
mod updating;

pub use fault::UpdateFault;
pub use settings_file::SettingsFile;
pub use updating::update;
