//! The formats that `convert` reads and writes.
ghost use Rattle.std.specs.Prelude.{◌≡◌};
ghost use Rattle.tool_words.specs.Formats.{format_word as format_of_word};

/// A format of paths: of a database, or of a plain list.
#[derive(Clone, Copy, Debug, PartialEq, Eq)]
pub enum Format {
    /// mlocate.db(5).
    Mlocate,
    /// The database of GNU findutils, locatedb(5).
    Locate02,
    /// The old database with a table of bigrams, locatedb(5).
    Bigram,
    /// Paths that each end at a newline.
    List,
    /// Paths that each end at a zero byte.
    List0,
}

/// The format of a name, in small letters.
#[tactic(auto, unfolding(crate::specs::Formats::format_word))]
pub(crate) fn format_word(word: &str) -> Option<Format>
    ensures { result ≡ format_of_word word.now }
{
    match word {
        "mlocate" => Some(Format::Mlocate),
        "locate02" => Some(Format::Locate02),
        "bigram" => Some(Format::Bigram),
        "list" => Some(Format::List),
        "list0" => Some(Format::List0),
        _ => None,
    }
}
