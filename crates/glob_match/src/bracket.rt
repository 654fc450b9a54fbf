//! Bracket expressions.
ghost use Rattle.std.specs.Prelude.{◌≡◌, ℕ, ◌+◌, ◌<◌, ◌≤◌, ◌==◌, ◌||◌, length, drop, IfSome, IfNone, IsSomeAnd, IsTrue, MatchOption};
ghost use Rattle.glob_match.specs.Bracket.{quoted, range_end, part_at, parts_first, is_complement, bracket};
ghost use Rattle.byte_class.specs.ByteSet.{has, members};
ghost use Rattle.byte_class.specs.Part.{has_part, has_parts};
ghost use Rattle.glob_match.specs.Item.{OneOf};

use byte_class::class::read_class;
use byte_class::{ByteSet, Class};

/// The byte that stands first, which a backslash may quote, and how many bytes it takes.
#[tactic(auto, unfolding(crate::specs::Bracket::quoted))]
pub(crate) fn read_byte(text: &[u8]) -> (u8, usize)
    requires { 0 < length text.now }
    ensures value { result ≡ quoted text.now }
    ensures some { 0 < result.1 }
    ensures within { result.1 ≤ length text.now }
{
    if text[0] == b'\\' && text.len() > 1 {
        (text[1], 2)
    } else {
        (text[0], 1)
    }
}

/// The end of a range and how many bytes it takes with its `-`, where one stands first.
#[tactic(auto, unfolding(crate::specs::Bracket::range_end))]
fn read_range_end(text: &[u8]) -> Option<(u8, usize)>
    ensures value { result ≡ range_end text.now }
    ensures within { IfSome result (λ end. end.1 ≤ length text.now) }
{
    if text.len() < 2 || text[0] != b'-' || text[1] == b']' {
        return None;
    }
    let after = &text[1..];
    if read_class(after).is_some() {
        return None;
    }
    let (high, taken) = read_byte(after);
    Some((high, taken + 1))
}

/// Inserts the part of a bracket expression that stands first, and answers how many bytes it takes.
#[tactic(auto, unfolding(crate::specs::Bracket::part_or, crate::specs::Bracket::range_at, byte_class::specs::Part::has_part, byte_class::specs::Class::name_has))]
fn insert_part(set: &mut ByteSet, text: &[u8]) -> usize
    requires { 0 < length text.now }
    ensures inserted { (byte : ℕ) → byte < 256 → has set.new byte ≡ (has set.old byte || has_part (part_at text.now).0 byte) }
    ensures taken { result ≡ (part_at text.now).1 }
    ensures some { 0 < result }
    ensures within { result ≤ length text.now }
{
    if let Some(len) = read_class(text) {
        if let Some(class) = Class::named(&text[2..2 + len]) {
            set.insert_class(class);
        }
        return len + 4;
    }
    let (low, taken) = read_byte(text);
    match read_range_end(&text[taken..]) {
        Some((high, more)) => {
            set.insert_range(low, high);
            taken + more
        }
        None => {
            set.insert_range(low, low);
            taken
        }
    }
}

/// The bytes of a bracket expression, and how many bytes its parts take with the closing `]`. A `]`
/// that stands first is a member.
fn read_parts(text: &[u8]) -> Option<(ByteSet, usize)>
    ensures none { IfNone result (parts_first text.now ≡ None) }
    ensures some { IfSome result (λ r. IsSomeAnd (parts_first text.now) (λ p.
        (p.1 ≡ drop r.1 text.now) × ((byte : ℕ) → byte < 256 → has_parts p.0 byte ≡ has r.0 byte))) }
    ensures within { IfSome result (λ r. r.1 ≤ length text.now) }
{
    if text.is_empty() {
        return None;
    }
    let mut set = ByteSet::new();
    let mut at = insert_part(&mut set, text);
    while at < text.len() {
        if text[at] == b']' {
            return Some((set, at + 1));
        }
        at += insert_part(&mut set, &text[at..]);
    }
    None
}

/// Whether the mark of a complement stands first.
#[tactic(auto, unfolding(crate::specs::Bracket::is_complement))]
fn is_complement(text: &[u8]) -> bool
    ensures value { result ≡ is_complement text.now }
    ensures some { IsTrue result → 0 < length text.now }
{
    !text.is_empty() && (text[0] == b'!' || text[0] == b'^')
}

/// The set of the bracket expression whose `[` stands before the text, and how many bytes of the text
/// it takes. `None` where no `]` closes it.
pub(crate) fn read_bracket(text: &[u8], fold: bool) -> Option<(ByteSet, usize)>
    ensures value { MatchOption result (bracket fold text.now ≡ None)
        (λ r. bracket fold text.now ≡ Some (OneOf (members (has r.0)), drop r.1 text.now)) }
    ensures within { IfSome result (λ r. r.1 ≤ length text.now) }
{
    let complement = is_complement(text);
    let mark = usize::from(complement);
    let Some((set, taken)) = read_parts(&text[mark..]) else {
        return None;
    };
    Some((set.closed(fold, complement), mark + taken))
}
