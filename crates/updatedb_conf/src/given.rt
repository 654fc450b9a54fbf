//! The values that the lines of a text give to the variables.
ghost use Rattle.std.specs.Prelude.{◌≡◌, ◌≢◌, [], false, unwrap_or, IfErr};
ghost use Rattle.updatedb_conf.specs.Value.{is_given as given_before, nothing_given, with_line, with_named, with_value};
ghost use Rattle.updatedb_conf.specs.Settings.{given_in};

use crate::fault::{ConfCause, ConfFault};
use crate::line::read_line;
use crate::value::{Variable, flag_word, margin_word, variable_named};
use crate::words::has_slash_in;
use std::marker::Model;

/// The values so far, which lie in the text.
#[derive(Drop)]
pub(crate) struct Given<'a> {
    bind: Option<bool>,
    fs: Option<&'a [u8]>,
    names: Option<&'a [u8]>,
    paths: Option<&'a [u8]>,
    margin: Option<u16>,
}

impl<'a> Model for Given<'a> {
    ghost use Rattle.std.specs.Option.{option_copied};
    ghost use Rattle.updatedb_conf.specs.Value.{Given};

    ghost Value = { Given };

    ghost view = { λ g. record { bind = g.bind; fs = option_copied g.fs; names = option_copied g.names; paths = option_copied g.paths; margin = g.margin } };
}

impl<'a> Given<'a> {
    /// No value.
    fn nothing() -> Given<'a>
        ensures { result ≡ nothing_given }
    {
        Given {
            bind: None,
            fs: None,
            names: None,
            paths: None,
            margin: None,
        }
    }

    /// Whether the variable has a value.
    fn is_given(&self, variable: Variable) -> bool
        ensures { result ≡ given_before self.now variable }
    {
        match variable {
            Variable::PruneBindMounts => self.bind.is_some(),
            Variable::PruneFs => self.fs.is_some(),
            Variable::PruneNames => self.names.is_some(),
            Variable::PrunePaths => self.paths.is_some(),
            Variable::RecentMargin => self.margin.is_some(),
        }
    }

    /// One more variable gets its value.
    #[tactic(auto, unfolding(crate::specs::Value::with_value))]
    fn with_value(self, variable: Variable, value: &'a [u8]) -> Result<Given<'a>, ConfCause>
        ensures { result ≡ with_value self.entry variable value.now }
    {
        let mut given = self;
        match variable {
            Variable::PruneBindMounts => {
                given.bind = Some(flag_word(value).ok_or(ConfCause::BadFlag)?);
            }
            Variable::PruneFs => given.fs = Some(value),
            Variable::PruneNames if has_slash_in(value) => return Err(ConfCause::BadName),
            Variable::PruneNames => given.names = Some(value),
            Variable::PrunePaths => given.paths = Some(value),
            Variable::RecentMargin => {
                given.margin = Some(margin_word(value).ok_or(ConfCause::BadMargin)?);
            }
        }
        Ok(given)
    }

    /// A name gets its value: it is that of a variable, which has none before.
    #[tactic(auto, unfolding(crate::specs::Value::with_named))]
    fn with_named(self, name: &[u8], value: &'a [u8]) -> Result<Given<'a>, ConfCause>
        ensures { result ≡ with_named self.entry name.now value.now }
    {
        let variable = variable_named(name).ok_or(ConfCause::Unknown)?;
        if self.is_given(variable) {
            return Err(ConfCause::Repeated);
        }
        self.with_value(variable, value)
    }

    /// One more line.
    #[tactic(auto, unfolding(crate::specs::Value::with_line))]
    fn with_line(self, line: &'a [u8]) -> Result<Given<'a>, ConfCause>
        ensures { result ≡ with_line self.entry line.now }
    {
        match read_line(line)? {
            None => Ok(self),
            Some((name, value)) => self.with_named(name, value),
        }
    }

    /// The values that a text gives, or its first fault.
    #[tactic(auto, unfolding(crate::specs::Settings::given_in))]
    pub(crate) fn read(text: &'a [u8]) -> Result<Given<'a>, ConfFault>
        ensures values { result ≡ given_in text.now }
        ensures cause { IfErr result (λ fault. fault.cause ≢ ConfCause.LongText) }
    {
        let mut given = Given::nothing();
        let mut number = 0;
        'lines: for line in text.split(|byte| *byte == b'\n') {
            number += 1;
            given = match given.with_line(line) {
                Ok(more) => more,
                Err(cause) => {
                    return Err(ConfFault {
                        line: number,
                        cause,
                    });
                }
            };
        }
        Ok(given)
    }

    /// The flag, which is false where it isn't given.
    pub(crate) fn bind(&self) -> bool
        ensures { result ≡ unwrap_or self.now.bind false }
    {
        self.bind.unwrap_or(false)
    }

    /// The margin, which is 3 where it isn't given.
    pub(crate) fn margin(&self) -> u16
        ensures { result ≡ unwrap_or self.now.margin 3 }
    {
        self.margin.unwrap_or(3)
    }

    /// The value of the file system types, which is empty where it isn't given.
    pub(crate) fn fs(&self) -> &'a [u8]
        ensures { result.now ≡ unwrap_or self.now.fs [] }
    {
        self.fs.unwrap_or(&[])
    }

    /// The value of the base names, which is empty where it isn't given.
    pub(crate) fn names(&self) -> &'a [u8]
        ensures { result.now ≡ unwrap_or self.now.names [] }
    {
        self.names.unwrap_or(&[])
    }

    /// The value of the paths, which is empty where it isn't given.
    pub(crate) fn paths(&self) -> &'a [u8]
        ensures { result.now ≡ unwrap_or self.now.paths [] }
    {
        self.paths.unwrap_or(&[])
    }
}
