//! A call: its words, its moment and the environment's list of databases.
ghost use Rattle.std.specs.Prelude.{◌≡◌, IfOk, IsErrOf, Some, None, map, option_map, string_bytes};
ghost use Rattle.locate_tools.specs.Calls.{request_of, tool_called};
ghost use Rattle.tool_words.specs.AskedSeen.{seen};

use path_order::Stamp;
use std::alloc::Global;
use std::marker::Model;
use tool_words::{Request, Tool, WordsFault, read_words, tool_of};

/// A call of one of the tools. A contract sees the bytes of its texts.
#[derive(Drop)]
pub struct Call {
    words: Vec<String>,
    moment: Stamp,
    locate_path: Option<String>,
}

impl Model for Call {
    ghost use Rattle.std.specs.Prelude.{map, option_map, string_bytes};
    ghost use Rattle.locate_tools.specs.Calls.{CallMade};

    ghost Value = { CallMade };

    ghost view = { λ c. record { words = map string_bytes c.words.items; moment = c.moment; locate_path = option_map string_bytes c.locate_path } };
}

impl Call {
    /// A call with the words after the program's own name, the tool's name first; its moment, by which a time is recent;
    /// and the value of the environment's `LOCATE_PATH`, where it is set.
    pub fn new(words: Vec<String>, moment: Stamp, locate_path: Option<String>) -> Call
        ensures { result ≡ record { words = map string_bytes words.items; moment = moment; locate_path = option_map string_bytes locate_path } }
    {
        Call {
            words,
            moment,
            locate_path,
        }
    }

    /// The moment.
    pub fn moment(&self) -> Stamp
        ensures { result ≡ self.now.moment }
    {
        self.moment
    }

    /// The tool that the first word names, if there is one.
    pub fn tool(&self) -> Option<Tool>
        ensures { result ≡ tool_called self.now }
    {
        tool_of(&self.words)
    }

    /// The value of `LOCATE_PATH`, where it is set.
    fn path(&self) -> Option<&str>
        ensures { option_map (λ t. t.now) result ≡ self.now.locate_path }
    {
        match &self.locate_path {
            Some(path) => Some(path.as_str()),
            None => None,
        }
    }

    /// What the run is to do.
    #[tactic(auto, unfolding(crate::specs::Calls::request_of))]
    pub fn request(&self, alloc: Global) -> Result<Request<'_>, WordsFault>
        ensures accepted { IfOk result (λ request. request_of self.now ≡ Some (seen request)) }
        ensures refused { IsErrOf result WordsFault.Usage → request_of self.now ≡ None }
    {
        read_words(alloc, &self.words, self.path())
    }
}
