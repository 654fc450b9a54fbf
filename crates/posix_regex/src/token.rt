//! The tokens of a pattern.
ghost use Rattle.std.specs.Prelude.{◌≡◌, ℕ, ◌+◌, ◌<◌, ◌≤◌, ◌^◌, Ok, Err, length, IfOk, IfErr, MatchResult, Bool};
ghost use Rattle.byte_class.specs.ByteSet.{has, members};
ghost use Rattle.posix_regex.specs.declared.lex.Meaning.TheVariants.{Bracket, Interval};
ghost use Rattle.posix_regex.specs.Expression.{OneOf};
ghost use Rattle.posix_regex.specs.Token.{literal, any_byte, token_of_meaning, token_at, token_of, begins_after, bare_after};

use crate::bracket::read_bracket;
use crate::fault::RegexCause;
use crate::interval::read_interval;
use crate::lex::{Meaning, meaning_at};
use byte_class::ByteSet;

/// A token of a pattern.
#[derive(Clone, Copy)]
pub(crate) enum Kept {
    Set(ByteSet),
    Start,
    End,
    /// The piece before repeats: at least so many times and, where a second number is given, at most so many more.
    Suffix(usize, Option<usize>),
    Bar,
    Open,
    Close,
}

/// The set of one byte, in both its cases where `fold`.
fn literal(fold: bool, byte: u8) -> ByteSet
    ensures { OneOf (members (has result)) ≡ literal fold byte }
{
    let mut set = ByteSet::new();
    set.insert(byte);
    set.closed(fold, false)
}

/// The set of every byte.
fn any_byte() -> ByteSet
    ensures { OneOf (members (has result)) ≡ any_byte }
{
    ByteSet::all()
}

/// The suffix whose interval is at the head of the text, after an opening of `taken` bytes.
#[tactic(auto, unfolding(crate::specs::Token::token_of_meaning, crate::specs::Token::interval_token))]
fn read_suffix(
    extended: bool,
    taken: usize,
    text: &[u8],
) -> Result<(Kept, usize), (usize, RegexCause)>
    requires some { 0 < taken }
    requires place { taken + length text.now < 2 ^ 63 }
    ensures value { (fold : Bool) → MatchResult result
        (λ t. token_of_meaning extended fold Interval taken text.now ≡ Ok (token_of t.0, t.1))
        (λ fault. token_of_meaning extended fold Interval taken text.now ≡ Err fault) }
    ensures some { IfOk result (λ t. 0 < t.1) }
    ensures within { IfOk result (λ t. t.1 ≤ taken + length text.now) }
    ensures fault { IfErr result (λ fault. fault.0 ≡ 0) }
{
    match read_interval(extended, text) {
        Some(((least, more), len)) => Ok((Kept::Suffix(least, more), taken + len)),
        None => Err((0, RegexCause::BadRepeat)),
    }
}

/// The set of the bracket expression whose `[` comes right before the text.
fn read_set(fold: bool, text: &[u8]) -> Result<(Kept, usize), (usize, RegexCause)>
    requires { length text.now + 1 < 2 ^ 63 }
    ensures value { (extended : Bool) → (taken : ℕ) → MatchResult result
        (λ t. token_of_meaning extended fold Bracket taken text.now ≡ Ok (token_of t.0, t.1))
        (λ fault. token_of_meaning extended fold Bracket taken text.now ≡ Err fault) }
    ensures some { IfOk result (λ t. 0 < t.1) }
    ensures within { IfOk result (λ t. t.1 ≤ length text.now + 1) }
    ensures fault { IfErr result (λ fault. fault.0 ≤ length text.now + 3) }
{
    match read_bracket(fold, text) {
        Ok((set, taken)) => Ok((Kept::Set(set), taken)),
        Err(fault) => Err(fault),
    }
}

/// The token whose first `taken` bytes, right before the text, have this meaning.
#[tactic(auto, unfolding(crate::specs::Token::token_of_meaning))]
fn token_of_meaning(
    extended: bool,
    fold: bool,
    meaning: Meaning,
    taken: usize,
    text: &[u8],
) -> Result<(Kept, usize), (usize, RegexCause)>
    requires some { 0 < taken }
    requires place { taken + length text.now < 2 ^ 63 }
    ensures value { MatchResult result
        (λ t. token_of_meaning extended fold meaning taken text.now ≡ Ok (token_of t.0, t.1))
        (λ fault. token_of_meaning extended fold meaning taken text.now ≡ Err fault) }
    ensures some { IfOk result (λ t. 0 < t.1) }
    ensures within { IfOk result (λ t. t.1 ≤ taken + length text.now) }
    ensures fault { IfErr result (λ fault. fault.0 ≤ taken + length text.now + 2) }
{
    match meaning {
        Meaning::Byte(byte) => Ok((Kept::Set(literal(fold, byte)), taken)),
        Meaning::Any => Ok((Kept::Set(any_byte()), taken)),
        Meaning::Bracket => read_set(fold, text),
        Meaning::Start => Ok((Kept::Start, taken)),
        Meaning::End => Ok((Kept::End, taken)),
        Meaning::Open => Ok((Kept::Open, taken)),
        Meaning::Close => Ok((Kept::Close, taken)),
        Meaning::Bar => Ok((Kept::Bar, taken)),
        Meaning::Suffix(least, more) => Ok((Kept::Suffix(least, more), taken)),
        Meaning::Interval => read_suffix(extended, taken, text),
        Meaning::Trailing => Err((0, RegexCause::Trailing)),
        Meaning::Unsupported => Err((0, RegexCause::Unsupported)),
    }
}

/// The token at the head of the text, and how many bytes it takes. The place of a fault counts from that head.
#[tactic(auto, unfolding(crate::specs::Token::token_at))]
pub(crate) fn read_token(
    extended: bool,
    fold: bool,
    begins: bool,
    bare: bool,
    text: &[u8],
) -> Result<(Kept, usize), (usize, RegexCause)>
    requires { 0 < length text.now }
    ensures value { MatchResult result
        (λ t. token_at extended fold begins bare text.now ≡ Ok (token_of t.0, t.1))
        (λ fault. token_at extended fold begins bare text.now ≡ Err fault) }
    ensures some { IfOk result (λ t. 0 < t.1) }
    ensures within { IfOk result (λ t. t.1 ≤ length text.now) }
    ensures fault { IfErr result (λ fault. fault.0 ≤ length text.now + 2) }
{
    let (meaning, taken) = meaning_at(extended, begins, bare, text);
    token_of_meaning(extended, fold, meaning, taken, &text[taken..])
}

/// Whether a group has just begun after the token.
#[tactic(auto, unfolding(crate::specs::Token::begins_after))]
pub(crate) fn begins_after(token: Kept) -> bool
    ensures { result ≡ begins_after (token_of token) }
{
    matches!(token, Kept::Open)
}

/// Whether nothing but perhaps an anchor stands between there and the beginning of the pattern or a group.
#[tactic(auto, unfolding(crate::specs::Token::bare_after))]
pub(crate) fn bare_after(token: Kept) -> bool
    ensures { result ≡ bare_after (token_of token) }
{
    matches!(token, Kept::Open | Kept::Start)
}
