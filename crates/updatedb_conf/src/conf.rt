//! The configuration.
ghost use Rattle.std.specs.Prelude.{◌≡◌, ◌≢◌, ◌⊎◌, ◌+◌, ◌≤◌, length, map, IfOk, IfErr, Result, Ok, Err};
ghost use Rattle.std.specs.Option.{option_copied, option_map};
ghost use Rattle.updatedb_conf.specs.Words.{has, upper, words};
ghost use Rattle.updatedb_conf.specs.Settings.{changed, changed_set as set_changed, changes_room, default_settings, settings_in, settings_of, settings_room};

use crate::changes::Changes;
use crate::fault::{ConfCause, ConfFault};
use crate::given::Given;
use crate::word_set::WordSet;
use crate::words::{Words, to_upper};
use std::alloc::{AllocError, Global};
use std::marker::Model;

/// What `updatedb` prunes: whether bind mounts, and sets of file system types, of base names and of whole paths. Beside
/// it stands the recency margin in seconds.
#[derive(Drop)]
pub struct Conf {
    bind: bool,
    fs: WordSet,
    names: WordSet,
    paths: WordSet,
    margin: u16,
}

impl Model for Conf {
    ghost use Rattle.updatedb_conf.specs.Codes.{settings_code};
    ghost use Rattle.updatedb_conf.specs.Settings.{Settings};

    ghost Value = { Settings };

    ghost coded = { settings_code };

    ghost view = { λ c. record { bind = c.bind; fs = c.fs; names = c.names; paths = c.paths; margin = c.margin } };
}

impl Conf {
    /// Nothing is pruned, and the margin is 3. This takes no memory.
    pub fn defaults(alloc: Global) -> Conf
        ensures value { result ≡ default_settings }
        ensures room { settings_room result ≡ 0 }
    {
        Conf {
            bind: false,
            fs: WordSet::new(alloc),
            names: WordSet::new(alloc),
            paths: WordSet::new(alloc),
            margin: 3,
        }
    }

    /// Whether bind mounts are pruned.
    pub fn bind(&self) -> bool
        ensures { result ≡ self.now.bind }
    {
        self.bind
    }

    /// The recency margin in seconds.
    pub fn margin(&self) -> u16
        ensures { result ≡ self.now.margin }
    {
        self.margin
    }

    /// Whether a file system of this type is pruned; ASCII letters match in either case.
    pub fn prunes_type(&self, kind: &[u8]) -> bool
        ensures { result ≡ has self.now.fs (upper kind.now) }
    {
        self.fs.contains_upper(kind)
    }

    /// Whether a directory of this base name is pruned.
    pub fn prunes_name(&self, name: &[u8]) -> bool
        ensures { result ≡ has self.now.names name.now }
    {
        self.names.contains(name)
    }

    /// Whether the directory of this whole path is pruned.
    pub fn prunes_path(&self, path: &[u8]) -> bool
        ensures { result ≡ has self.now.paths path.now }
    {
        self.paths.contains(path)
    }

    /// The file system types that are pruned, in upper case.
    pub(crate) fn fs(&self) -> &WordSet
        ensures { result.now ≡ self.now.fs }
    {
        &self.fs
    }

    /// The base names that are pruned.
    pub(crate) fn names(&self) -> &WordSet
        ensures { result.now ≡ self.now.names }
    {
        &self.names
    }

    /// The paths that are pruned.
    pub(crate) fn paths(&self) -> &WordSet
        ensures { result.now ≡ self.now.paths }
    {
        &self.paths
    }
}

/// The configuration of given values.
#[tactic(auto, using(crate::proofs::Uppers::words_upper))]
fn conf_of_given(alloc: Global, given: &Given<'_>) -> Result<Conf, AllocError>
    ensures { IfOk result (λ conf. conf ≡ settings_of given.now) }
{
    Ok(Conf {
        bind: given.bind(),
        fs: WordSet::of_text(alloc, &to_upper(alloc, given.fs())?)?,
        names: WordSet::of_text(alloc, given.names())?,
        paths: WordSet::of_text(alloc, given.paths())?,
        margin: given.margin(),
    })
}

/// Reads a configuration, by updatedb.conf(5); the variable `RECENT_MARGIN` is this project's own. Lines are counted from 1, and the first line with a fault is refused.
/// White space is space, tab, carriage return, vertical tab, form feed and byte 0.
#[tactic(auto, using(crate::proofs::GivenRooms::room_settings_in))]
pub fn read_conf(alloc: Global, text: &[u8]) -> Result<Conf, ConfFault>
    ensures ok { IfOk result (λ conf. settings_in text.now ≡ Ok conf) }
    ensures err { IfErr result (λ fault. (settings_in text.now ≡ Err fault) ⊎ (fault ≡ record { line = 0; cause = ConfCause.OutOfMemory })) }
    ensures never_long { IfErr result (λ fault. fault.cause ≢ ConfCause.LongText) }
    ensures room { IfOk result (λ conf. settings_room conf ≤ length text.now + 1) }
{
    let given = Given::read(text)?;
    let Ok(conf) = conf_of_given(alloc, &given) else {
        return Err(ConfFault {
            line: 0,
            cause: ConfCause::OutOfMemory,
        });
    };
    Ok(conf)
}

/// The set after a replacing change, if there is one, and then an adding one.
fn changed_set(
    alloc: Global,
    set: WordSet,
    replacing: Option<&[u8]>,
    adding: &[u8],
) -> Result<WordSet, AllocError>
    ensures { IfOk result (λ after. after ≡ set_changed set (option_map words (option_copied replacing.entry)) (words adding.now)) }
{
    match replacing {
        Some(text) => WordSet::of_text(alloc, text)?.with_text(alloc, adding),
        None => set.with_text(alloc, adding),
    }
}

/// The same of file system types, which may be written in any case.
#[tactic(auto, using(crate::proofs::Uppers::words_upper))]
fn changed_types(
    alloc: Global,
    set: WordSet,
    replacing: &Option<Words>,
    adding: &Words,
) -> Result<WordSet, AllocError>
    ensures { IfOk result (λ after. after ≡ set_changed set (option_map (map upper) replacing.now) (map upper adding.now)) }
{
    let adding = to_upper(alloc, adding.text())?;
    match replacing {
        Some(words) => {
            let text = to_upper(alloc, words.text())?;
            changed_set(alloc, set, Some(&text), &adding)
        }
        None => changed_set(alloc, set, None, &adding),
    }
}

/// The same of names and paths.
fn changed_words(
    alloc: Global,
    set: WordSet,
    replacing: &Option<Words>,
    adding: &Words,
) -> Result<WordSet, AllocError>
    ensures { IfOk result (λ after. after ≡ set_changed set replacing.now adding.now) }
{
    match replacing {
        Some(words) => changed_set(alloc, set, Some(words.text()), adding.text()),
        None => changed_set(alloc, set, None, adding.text()),
    }
}

/// The configuration after changes: what replaces comes first, then what is added. Where there is no memory for it, the
/// configuration is given up.
#[tactic(auto, using(crate::proofs::ChangedRooms::room_changed))]
pub fn apply(alloc: Global, conf: Conf, changes: &Changes) -> Result<Conf, AllocError>
    ensures ok { IfOk result (λ after. after ≡ changed conf changes.now) }
    ensures room { IfOk result (λ after. settings_room after ≤ settings_room conf + changes_room changes.now) }
{
    let Conf {
        bind,
        fs,
        names,
        paths,
        margin,
    } = conf;
    Ok(Conf {
        bind: changes.bind.unwrap_or(bind),
        fs: changed_types(alloc, fs, &changes.fs, &changes.add_fs)?,
        names: changed_words(alloc, names, &changes.names, &changes.add_names)?,
        paths: changed_words(alloc, paths, &changes.paths, &changes.add_paths)?,
        margin: changes.margin.unwrap_or(margin),
    })
}
