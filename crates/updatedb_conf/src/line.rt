//! One line of a configuration.
ghost use Rattle.std.specs.Prelude.{◌≡◌, ◌≤◌, length, not};
ghost use Rattle.updatedb_conf.specs.Words.{is_blank as is_blank_byte};
ghost use Rattle.std.specs.Option.{option_map};
ghost use Rattle.std.specs.List.{position, position_or_len};
ghost use Rattle.updatedb_conf.specs.Line.{Gives, assignment as assigned, behind as behind_byte, ended, ends_name, is_empty_or_comment, is_quote, line_gives, past_blanks as unindented, quoted as quoted_text};

use crate::fault::ConfCause;
use crate::words::is_blank;

/// The place of the first byte that is no white space.
fn first_other(text: &[u8]) -> Option<usize>
    ensures { result ≡ position (λ byte. not (is_blank_byte byte)) text.now }
{
    text.iter().position(|byte| !is_blank(*byte))
}

/// The text without the white space that it begins with.
#[tactic(auto, using(crate::proofs::Scans::place_or_length, crate::proofs::Scans::position_or_len_within), unfolding(crate::specs::Line::past_blanks))]
fn past_blanks(text: &[u8]) -> &[u8]
    ensures { result.now ≡ unindented text.now }
{
    let place = first_other(text).unwrap_or(text.len());
    &text[place..]
}

/// Whether nothing is said there, or a comment begins.
fn says_nothing(text: &[u8]) -> bool
    ensures { result ≡ is_empty_or_comment text.now }
{
    match text {
        [] => true,
        [byte, ..] => *byte == b'#',
    }
}

/// The place of the first byte that ends a name.
fn name_end(text: &[u8]) -> Option<usize>
    ensures { result ≡ position ends_name text.now }
{
    text.iter().position(|byte| is_blank(*byte) || matches!(*byte, b'=' | b'#' | b'"'))
}

/// The length of the name that stands first.
#[tactic(auto, using(crate::proofs::Scans::place_or_length, crate::proofs::Scans::position_or_len_within))]
fn name_len(text: &[u8]) -> usize
    ensures value { result ≡ position_or_len ends_name text.now }
    ensures bound { result ≤ length text.now }
{
    name_end(text).unwrap_or(text.len())
}

/// What follows this byte, which must stand first.
fn behind(text: &[u8], wanted: u8, cause: ConfCause) -> Result<&[u8], ConfCause>
    ensures { Gives (λ rest. rest.now) result (behind_byte wanted cause text.now) }
{
    match text {
        [byte, rest @ ..] if *byte == wanted => Ok(rest),
        _ => Err(cause),
    }
}

/// The place of the first `"`.
fn quote_place(text: &[u8]) -> Option<usize>
    ensures { result ≡ position is_quote text.now }
{
    text.iter().position(|byte| *byte == b'"')
}

/// The value up to the next `"`, and what follows that.
#[tactic(auto, using(crate::proofs::Scans::position_is, crate::proofs::Scans::position_within), unfolding(crate::specs::Line::quoted))]
fn quoted(text: &[u8]) -> Result<(&[u8], &[u8]), ConfCause>
    ensures { Gives (λ value. (value.0.now, value.1.now)) result (quoted_text text.now) }
{
    match quote_place(text) {
        Some(end) => Ok((&text[..end], &text[end + 1..])),
        None => Err(ConfCause::Unclosed),
    }
}

/// Behind the value stands nothing but a comment.
#[tactic(auto, unfolding(crate::specs::Line::ended))]
fn check_end(text: &[u8]) -> Result<(), ConfCause>
    ensures { result ≡ ended text.now }
{
    if says_nothing(past_blanks(text)) {
        Ok(())
    } else {
        Err(ConfCause::Trailing)
    }
}

/// The name of a variable, and its value.
#[tactic(auto, unfolding(crate::specs::Line::assignment))]
fn assignment(text: &[u8]) -> Result<(&[u8], &[u8]), ConfCause>
    ensures { Gives (λ given. (given.0.now, given.1.now)) result (assigned text.now) }
{
    let name = name_len(text);
    let equals = behind(past_blanks(&text[name..]), b'=', ConfCause::NoEquals)?;
    let inside = behind(past_blanks(equals), b'"', ConfCause::NoQuote)?;
    let (value, rest) = quoted(inside)?;
    check_end(rest)?;
    Ok((&text[..name], value))
}

/// What a line gives: nothing, or a name with a value.
#[tactic(auto, unfolding(crate::specs::Line::line_gives))]
pub(crate) fn read_line(line: &[u8]) -> Result<Option<(&[u8], &[u8])>, ConfCause>
    ensures { Gives (option_map (λ given. (given.0.now, given.1.now))) result (line_gives line.now) }
{
    let text = past_blanks(line);
    if says_nothing(text) {
        return Ok(None);
    }
    Ok(Some(assignment(text)?))
}
