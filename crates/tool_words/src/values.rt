//! What single words mean.
ghost use Rattle.std.specs.Prelude.{◌≡◌, ◌<◌, ◌≤◌, IfOk, IfSome, map};
ghost use Rattle.std.specs.Char.{is_ascii_digit};
ghost use Rattle.std.specs.List.{list_all};
ghost use Rattle.updatedb_conf.specs.Value.{margin_word as margin_of_word};
ghost use Rattle.tool_words.specs.Lists.{some_word_has_slash};
ghost use Rattle.tool_words.specs.Values.{is_normal_path as is_normal_text, number_word as number_of_word, names_in as names_of, number_up_to as number_of, or_default as name_or_default, rounds_word as rounds_of, version_word as version_of};

use path_order::is_normal;
use std::alloc::{AllocError, Global};
use updatedb_conf::margin_word;

/// The database that is written and searched where no other is named.
pub const DEFAULT_DATABASE: &str = "/var/lib/mlocate/mlocate.db";

fn is_digits(word: &str) -> bool
    ensures { result ≡ list_all is_ascii_digit word.now }
{
    word.bytes().all(|b| b.is_ascii_digit())
}

/// The number that 1 to `digits` decimal digits write, where it is at most `greatest`. Leading zeros count as digits.
fn number_up_to(word: &str, digits: usize, greatest: u64) -> Option<u64>
    ensures value { result ≡ number_of digits greatest word.now }
    ensures within { IfSome result (λ number. number ≤ greatest) }
{
    if word.len() > digits {
        return None;
    }
    if !is_digits(word) {
        return None;
    }
    let Ok(number) = word.parse::<u64>() else {
        return None;
    };
    if number > greatest {
        return None;
    }
    Some(number)
}

/// A number: 1 to 20 decimal digits, below 2^64.
pub(crate) fn number_word(word: &str) -> Option<u64>
    ensures { result ≡ number_of_word word.now }
{
    number_up_to(word, 20, u64::MAX)
}

/// A number of rounds: 1 to 20 decimal digits, at most 100.
pub(crate) fn rounds_word(word: &str) -> Option<u8>
    ensures value { result ≡ rounds_of word.now }
    ensures within { IfSome result (λ rounds. rounds ≤ 100) }
{
    match number_up_to(word, 20, 100) {
        Some(rounds) => Some(rounds as u8),
        None => None,
    }
}

/// A recency margin in seconds, as updatedb.conf has it: at most an hour.
#[tactic(auto, using(crate::proofs::NumberLemmas::margin_word_within))]
pub(crate) fn margin_of(word: &str) -> Option<u16>
    ensures value { result ≡ margin_of_word word.now }
    ensures within { IfSome result (λ seconds. seconds ≤ 3600) }
{
    margin_word(word.as_bytes())
}

/// A version of the database: `0` or `1`.
#[tactic(auto, unfolding(crate::specs::Values::version_word))]
pub(crate) fn version_word(word: &str) -> Option<u8>
    ensures value { result ≡ version_of word.now }
    ensures known { IfSome result (λ version. version < 2) }
{
    match word {
        "0" => Some(0),
        "1" => Some(1),
        _ => None,
    }
}

#[tactic(auto, unfolding(crate::specs::Values::is_normal_path))]
pub(crate) fn is_normal_path(word: &str) -> bool
    ensures { result ≡ is_normal_text word.now }
{
    is_normal(word.as_bytes())
}

/// Whether some word of a list has a `/`. No separator is one, so the list is not split.
pub(crate) fn has_slash(list: &str) -> bool
    ensures { result ≡ some_word_has_slash list.now }
{
    list.bytes().any(|b| b == b'/')
}

fn or_default<'a>(name: &'a str) -> &'a str
    ensures { result.now ≡ name_or_default name.entry.now }
{
    if name.is_empty() {
        DEFAULT_DATABASE
    } else {
        name
    }
}

/// The names between colons, where an empty one stands for the default.
pub(crate) fn names_in<'a>(alloc: Global, list: &'a str) -> Result<Vec<&'a str>, AllocError>
    ensures { IfOk result (λ v. map (λ t. t.now) v.items ≡ names_of list.entry.now) }
{
    list.split(':').map(|name| or_default(name)).collect(alloc)
}
