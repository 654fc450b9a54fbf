//! Sets of words.
ghost use Rattle.std.specs.Prelude.{◌≡◌, ◌++◌, map, IfOk, OnOk};
ghost use Rattle.std.specs.Ordering.{nat_cmp};
ghost use Rattle.std.specs.Cmp.Lexicographic.{slice_cmp};
ghost use Rattle.std.specs.List.{flat_map};
ghost use Rattle.std.specs.FinMap.{empty};
ghost use Rattle.updatedb_conf.specs.Words.{has, joined, members, set_of, upper, words};
ghost use Rattle.updatedb_conf.specs.Stored.{piece as piece_of, pieces, IsRising};
ghost use Rattle.updatedb_conf.specs.Block.{zero_ended};

use crate::words::words_in;
use std::alloc::{AllocError, Global};
use std::cmp::Ordering;
use std::marker::Model;

/// A piece of a text.
#[derive(Clone, Copy)]
pub(crate) struct Span {
    start: usize,
    len: usize,
}

/// The bytes of a piece, of which those behind the end of the text are left out.
fn piece(text: &[u8], span: Span) -> &[u8]
    ensures { result.now ≡ piece_of text.now span }
{
    let rest = &text[span.start.min(text.len())..];
    &rest[..span.len.min(rest.len())]
}

/// A set of words: their bytes one behind the other, and where each lies, in rising order and each once.
#[derive(Drop)]
pub(crate) struct WordSet {
    text: Vec<u8>,
    spans: Vec<Span>,
}

impl Model for WordSet {
    ghost use Rattle.updatedb_conf.specs.Words.{WordSet as Set, set_of};
    ghost use Rattle.updatedb_conf.specs.Stored.{pieces, IsRising};
    ghost use Rattle.updatedb_conf.specs.Codes.{set_code};

    ghost Value = { Set };

    ghost coded = { set_code };

    ghost view = { λ s. set_of (pieces s.text.items s.spans.items) };

    ghost invariant = { λ s. IsRising (pieces s.text.items s.spans.items) };
}

/// The set of words that rise.
fn set_of_rising(alloc: Global, list: &[&[u8]]) -> Result<WordSet, AllocError>
    requires { IsRising (map (λ word. word.now) list.now) }
    ensures { IfOk result (λ set. set ≡ set_of (map (λ word. word.now) list.now)) }
{
    let mut text = Vec::new(alloc);
    let mut spans = Vec::with_capacity(alloc, list.len())?;
    for word in list {
        spans.push(Span {
            start: text.len(),
            len: word.len(),
        })?;
        text.extend_from_slice(word)?;
    }
    Ok(WordSet { text, spans })
}

/// The set of words in any order, with repeats.
fn set_of_list(alloc: Global, list: Vec<&[u8]>) -> Result<WordSet, AllocError>
    ensures { IfOk result (λ set. set ≡ set_of (map (λ word. word.now) list.entry.items)) }
{
    let mut list = list;
    list.sort_unstable();
    list.dedup();
    set_of_rising(alloc, &list)
}

/// Compares a text with the upper case of another.
#[tactic(auto, using(crate::proofs::Uppers::at_same, crate::proofs::Uppers::at_other))]
fn compare_upper(word: &[u8], other: &[u8]) -> Ordering
    ensures { result ≡ slice_cmp nat_cmp word.now (upper other.now) }
{
    let shorter = word.len().min(other.len());
    for i in 0..shorter {
        let upper = other[i].to_ascii_uppercase();
        if word[i] != upper {
            return word[i].cmp(&upper);
        }
    }
    word.len().cmp(&other.len())
}

/// Compares a piece of a text with a word.
fn compare_piece(text: &[u8], span: Span, word: &[u8]) -> Ordering
    ensures { result ≡ slice_cmp nat_cmp (piece_of text.now span) word.now }
{
    piece(text, span).cmp(&word)
}

/// Compares a piece of a text with the upper case of a word.
fn compare_piece_upper(text: &[u8], span: Span, word: &[u8]) -> Ordering
    ensures { result ≡ slice_cmp nat_cmp (piece_of text.now span) (upper word.now) }
{
    compare_upper(piece(text, span), word)
}

impl WordSet {
    /// No words. This takes no memory.
    pub(crate) fn new(alloc: Global) -> WordSet
        ensures { result ≡ empty }
    {
        WordSet {
            text: Vec::new(alloc),
            spans: Vec::new(alloc),
        }
    }

    /// The set of the words of a text.
    pub(crate) fn of_text(alloc: Global, text: &[u8]) -> Result<WordSet, AllocError>
        ensures { IfOk result (λ set. set ≡ set_of (words text.now)) }
    {
        set_of_list(alloc, words_in(alloc, text)?)
    }

    /// The set with the words of a text.
    pub(crate) fn with_text(self, alloc: Global, text: &[u8]) -> Result<WordSet, AllocError>
        ensures { IfOk result (λ set. set ≡ joined self (words text.now)) }
    {
        let more = words_in(alloc, text)?;
        if more.is_empty() {
            return Ok(self);
        }
        let mut list = self.list(alloc)?;
        list.extend_from_slice(&more)?;
        set_of_list(alloc, list)
    }

    /// The words in byte order.
    fn list(&self, alloc: Global) -> Result<Vec<&[u8]>, AllocError>
        ensures { IfOk result (λ list. map (λ word. word.now) list.items ≡ members self.now) }
    {
        let text = self.text.as_slice();
        self.spans
            .iter()
            .map(|span| piece(text, *span))
            .collect(alloc)
    }

    /// Whether the word is in the set.
    pub(crate) fn contains(&self, word: &[u8]) -> bool
        ensures { result ≡ has self.now word.now }
    {
        let text = self.text.as_slice();
        self.spans
            .binary_search_by(|span| compare_piece(text, *span, word))
            .is_ok()
    }

    /// Whether the upper case of the word is in the set.
    pub(crate) fn contains_upper(&self, word: &[u8]) -> bool
        ensures { result ≡ has self.now (upper word.now) }
    {
        let text = self.text.as_slice();
        self.spans
            .binary_search_by(|span| compare_piece_upper(text, *span, word))
            .is_ok()
    }

    /// Writes the words in byte order, each with a zero byte.
    pub(crate) fn put_words(&self, block: &mut Vec<u8>) -> Result<(), AllocError>
        ensures { OnOk result (block.new.items ≡ block.old.items ++ flat_map zero_ended (members self.now)) }
    {
        for span in &self.spans {
            block.extend_from_slice(piece(&self.text, *span))?;
            block.push(0)?;
        }
        Ok(())
    }
}
