//! What words ask of a tool.
ghost use Rattle.std.specs.Prelude.{◌<◌, ◌≤◌, IsTrue, length, vec_len};
ghost use Rattle.std.specs.Option.{ForSome};
ghost use Rattle.path_order.specs.Path.{is_normal};
ghost use Rattle.tool_words.specs.Lists.{FitsList};

use crate::format::Format;

/// The most bytes that a list of words has.
pub const MAX_LIST: usize = 16_777_216;

/// What the words of `updatedb` ask for. A list of words is given as it stands.
#[derive(Clone, Copy, Debug, Drop)]
pub struct UpdatedbSettings<'a> {
    /// The directory that is scanned, a normal path.
    pub root: &'a str,
    /// The name of the database, not empty.
    pub output: &'a str,
    /// The visibility flag of the database.
    pub visibility: bool,
    /// The paths that are stored are written as well.
    pub verbose: bool,
    /// The version of the database, 0 or 1.
    pub version: u8,
    /// The recency margin in seconds, at most 3,600, in place of the configuration's.
    pub margin: Option<u16>,
    /// In place of the configuration's `PRUNE_BIND_MOUNTS`.
    pub prune_bind_mounts: Option<bool>,
    /// In place of the configuration's `PRUNEFS`. An empty list is not an absent one.
    pub prunefs: Option<&'a str>,
    /// In place of the configuration's `PRUNENAMES`.
    pub prunenames: Option<&'a str>,
    /// In place of the configuration's `PRUNEPATHS`.
    pub prunepaths: Option<&'a str>,
    /// Besides the types of file systems that the configuration or `prunefs` has.
    pub add_prunefs: &'a str,
    /// Besides the names that the configuration or `prunenames` has.
    pub add_prunenames: &'a str,
    /// Besides the paths that the configuration or `prunepaths` has.
    pub add_prunepaths: &'a str,
    pub ghost normal: { IsTrue (is_normal root.now) },
    pub ghost named: { 0 < length output.now },
    pub ghost known_version: { version < 2 },
    pub ghost within_an_hour: { ForSome margin (λ seconds. seconds ≤ 3600) },
    pub ghost prunefs_fit: { ForSome prunefs (λ list. FitsList list.now) },
    pub ghost prunenames_fit: { ForSome prunenames (λ list. FitsList list.now) },
    pub ghost prunepaths_fit: { ForSome prunepaths (λ list. FitsList list.now) },
    pub ghost additions_fit: { FitsList add_prunefs.now × FitsList add_prunenames.now × FitsList add_prunepaths.now },
}

/// The most databases that one call may name, with those of `LOCATE_PATH`.
pub const MAX_DATABASES: usize = 4096;

/// What the words of `locate` ask for.
#[derive(Debug, Drop)]
pub struct LocateSettings<'a> {
    /// A path is to match all patterns, not just one of them.
    pub all: bool,
    /// Patterns are matched against base names, not against whole paths.
    pub base: bool,
    /// The number of matches is written in place of the paths.
    pub count_only: bool,
    /// Only paths that exist are found.
    pub existing: bool,
    /// A path that ends in a symbolic link exists where the link's target does. Else the link itself is enough.
    pub follow: bool,
    /// Patterns match in upper and lower case alike.
    pub fold: bool,
    /// The byte that stands after each path: a newline or byte 0.
    pub separator: u8,
    /// Databases that can't be searched to their end are not reported.
    pub quiet: bool,
    /// Statistics of the databases are written, and the patterns are ignored.
    pub statistics: bool,
    /// The most paths that are found.
    pub limit: Option<u64>,
    /// The names of the databases in the order in which they are searched: those of `-d`, or the default where it is not
    /// given, and then those of `LOCATE_PATH`.
    pub databases: Vec<&'a str>,
    /// The patterns as they stand.
    pub patterns: Vec<&'a str>,
    /// The patterns are extended regular expressions.
    pub regex: bool,
    /// The basic regular expression that stands in place of patterns.
    pub regexp: Option<&'a str>,
    pub ghost few: { vec_len databases ≤ 4096 },
}

impl<'a> LocateSettings<'a> {
    ghost use Rattle.std.specs.Prelude.{◌≡◌};
    ghost use Rattle.tool_words.specs.Locate.{seeks_expressions};
    ghost use Rattle.tool_words.specs.LocateSeen.{seen};

    /// Whether paths are searched for regular expressions. With statistics none is read.
    pub fn seeks_expressions(&self) -> bool
        ensures { result ≡ seeks_expressions (seen self.now) }
    {
        !self.statistics && (self.regex || self.regexp.is_some())
    }
}

/// What the words of `convert` ask for.
#[derive(Clone, Copy, Debug, Drop)]
pub struct ConvertSettings<'a> {
    /// The format of the input. Where none is given, the input's own bytes tell which database it is.
    pub from: Option<Format>,
    /// The format of the output.
    pub to: Format,
    /// The name of the input, not empty.
    pub input: &'a str,
    /// The name of the output, not empty.
    pub output: &'a str,
    pub ghost named: { (0 < length input.now) × (0 < length output.now) },
}

/// The most rounds of `exercise`.
pub const MAX_ROUNDS: u8 = 100;

/// What the words of `exercise` ask for.
#[derive(Clone, Copy, Debug, Drop)]
pub struct ExerciseSettings {
    /// What the generator begins with.
    pub number: u64,
    /// How many rounds are to be gone, at most 100.
    pub rounds: u8,
    pub ghost few: { rounds ≤ 100 },
}
