//! The tools.
ghost use Rattle.std.specs.Prelude.{◌≡◌, map, string_bytes};
ghost use Rattle.tool_words.specs.Tools.{name_of, speaker as name_in_messages, tool_named as tool_of_name, tool_of as named_by};

/// A tool, by the first word of a command line.
#[derive(Clone, Copy, Debug, PartialEq, Eq)]
pub enum Tool {
    Updatedb,
    Locate,
    Convert,
    Exercise,
}

impl Tool {
    /// The tool's name.
    pub fn name(self) -> &'static str
        ensures { result.now ≡ name_of self }
    {
        match self {
            Tool::Updatedb => "updatedb",
            Tool::Locate => "locate",
            Tool::Convert => "convert",
            Tool::Exercise => "exercise",
        }
    }
}

#[tactic(auto, unfolding(crate::specs::Tools::tool_named))]
fn tool_named(word: &str) -> Option<Tool>
    ensures { result ≡ tool_of_name word.now }
{
    match word {
        "updatedb" => Some(Tool::Updatedb),
        "locate" => Some(Tool::Locate),
        "convert" => Some(Tool::Convert),
        "exercise" => Some(Tool::Exercise),
        _ => None,
    }
}

/// The tool that the first of the words names, if there is one.
pub fn tool_of(words: &[String]) -> Option<Tool>
    ensures { result ≡ named_by (map string_bytes words.now) }
{
    match words {
        [word, ..] => tool_named(word.as_str()),
        [] => None,
    }
}

/// The name that messages begin with: the tool's, or `locate_tools` where there is none.
pub fn speaker(tool: Option<Tool>) -> &'static str
    ensures { result.now ≡ name_in_messages tool }
{
    match tool {
        Some(tool) => tool.name(),
        None => "locate_tools",
    }
}
