//! Words of a text.
ghost use Rattle.std.specs.Prelude.{◌≡◌, ◌+◌, ◌≤◌, ◌∷◌, ◌++◌, [], filter, length, map, IfOk, OnOk};
ghost use Rattle.updatedb_conf.specs.Words.{is_blank as blank, is_nonempty, is_space as space, words, upper, room_of};
ghost use Rattle.updatedb_conf.specs.Value.{has_slash};

use std::alloc::{AllocError, Global};
use std::marker::Model;

/// Whether the byte is white space of a line: space, tab, carriage return, vertical tab, form feed or byte 0.
#[tactic(auto, unfolding(crate::specs::Words::is_blank))]
pub(crate) fn is_blank(byte: u8) -> bool
    ensures { result ≡ blank byte }
{
    matches!(byte, b' ' | b'\t' | b'\r' | 0x0b | 0x0c | 0)
}

/// Whether the byte stands between words: white space, or a newline.
fn is_space(byte: u8) -> bool
    ensures { result ≡ space byte }
{
    is_blank(byte) || byte == b'\n'
}

/// How many words a text has.
fn word_count(text: &[u8]) -> usize {
    text.split(|byte| is_space(*byte))
        .filter(|word| !word.is_empty())
        .count()
}

/// Puts a part of a text at the end of the words, unless it is empty.
fn push_part<'a>(list: &mut Vec<&'a [u8]>, part: &'a [u8]) -> Result<(), AllocError>
    ensures { OnOk result (map (λ word. word.now) list.new.items ≡ map (λ word. word.now) list.old.items ++ filter is_nonempty (part.now ∷ [])) }
{
    if part.is_empty() {
        return Ok(());
    }
    list.push(part)?;
    Ok(())
}

/// The words of a text, where they lie. They are counted first, so that no more memory is taken than they need.
pub(crate) fn words_in<'a>(alloc: Global, text: &'a [u8]) -> Result<Vec<&'a [u8]>, AllocError>
    ensures { IfOk result (λ list. map (λ word. word.now) list.items ≡ words text.now) }
{
    let mut list = Vec::with_capacity(alloc, word_count(text))?;
    for part in text.split(|byte| is_space(*byte)) {
        push_part(&mut list, part)?;
    }
    Ok(list)
}

/// The text in ASCII upper case.
pub(crate) fn to_upper(alloc: Global, text: &[u8]) -> Result<Vec<u8>, AllocError>
    ensures { IfOk result (λ bytes. bytes.items ≡ upper text.now) }
{
    text.iter()
        .map(|byte| byte.to_ascii_uppercase())
        .collect(alloc)
}

/// Whether some word of a text has a `/`.
pub(crate) fn has_slash_in(text: &[u8]) -> bool
    ensures { result ≡ has_slash (words text.now) }
{
    text.contains(&b'/')
}

/// A list of words, each of at least one byte and none with white space or a newline. A contract sees the list of their
/// bytes.
#[derive(Drop)]
pub struct Words {
    text: Vec<u8>,
}

impl Model for Words {
    ghost use Rattle.std.specs.Prelude.{List, ℕ};
    ghost use Rattle.updatedb_conf.specs.Words.{words};

    ghost Value = { List (List ℕ) };

    ghost view = { λ w. words w.text.items };
}

impl Words {
    /// No words. This takes no memory.
    #[tactic(auto, unfolding(crate::specs::Words::words))]
    pub fn none(alloc: Global) -> Words
        ensures { result ≡ [] }
    {
        Words {
            text: Vec::new(alloc),
        }
    }

    /// The words of a text in order, which is split at white space (space, tab, carriage return, vertical tab, form feed,
    /// byte 0) and at newlines. It takes as much memory as the text.
    pub fn split(alloc: Global, text: &[u8]) -> Result<Words, AllocError>
        ensures ok { IfOk result (λ list. list ≡ words text.now) }
        ensures room { IfOk result (λ list. room_of list ≤ length text.now + 1) }
    {
        Ok(Words {
            text: Vec::from_slice(alloc, text)?,
        })
    }

    /// The words in order.
    pub fn list(&self, alloc: Global) -> Result<Vec<&[u8]>, AllocError>
        ensures { IfOk result (λ list. map (λ word. word.now) list.items ≡ self.now) }
    {
        words_in(alloc, &self.text)
    }

    /// Whether some word has a `/`.
    pub fn have_slash(&self) -> bool
        ensures { result ≡ has_slash self.now }
    {
        has_slash_in(&self.text)
    }

    /// A text that has these words.
    pub(crate) fn text(&self) -> &[u8]
        ensures { words result.now ≡ self.now }
    {
        &self.text
    }
}
