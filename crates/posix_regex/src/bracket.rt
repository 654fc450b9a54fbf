//! Bracket expressions.
ghost use Rattle.std.specs.Prelude.{◌≡◌, ℕ, ◌+◌, ◌<◌, ◌≤◌, ◌^◌, ◌||◌, Ok, Err, length, IfOk, IfErr, IsOkAnd, IsTrue, MatchResult};
ghost use Rattle.byte_class.specs.ByteSet.{has, members};
ghost use Rattle.byte_class.specs.Part.{has_part, has_parts};
ghost use Rattle.posix_regex.specs.Expression.{OneOf};
ghost use Rattle.posix_regex.specs.Bracket.{is_reserved, is_range, class_member, range_member, byte_member, member_at, members_first, members_marked, is_complement, bracket};

use crate::fault::RegexCause;
use byte_class::class::read_class;
use byte_class::{ByteSet, Class};

/// Whether `[=` or `[.` stands first.
#[tactic(auto, unfolding(crate::specs::Bracket::is_reserved))]
fn is_reserved(text: &[u8]) -> bool
    ensures { result ≡ is_reserved text.now }
{
    text.starts_with(b"[=") || text.starts_with(b"[.")
}

/// Whether a byte before the text begins a range.
#[tactic(auto, unfolding(crate::specs::Bracket::is_range))]
fn is_range(text: &[u8]) -> bool
    ensures value { result ≡ is_range text.now }
    ensures some { IsTrue result → 2 ≤ length text.now }
{
    if text.len() < 2 || text[0] != b'-' || text[1] == b']' {
        return false;
    }
    read_class(&text[1..]).is_none()
}

/// Inserts the class at the head of the text, whose name has `letters` letters, and returns how many bytes it
/// takes. `at` is the place of its `[`.
#[tactic(auto, unfolding(crate::specs::Bracket::class_member, byte_class::specs::Part::has_part, byte_class::specs::Class::name_has))]
fn class_member(
    set: ByteSet,
    at: usize,
    text: &[u8],
    letters: usize,
) -> Result<(ByteSet, usize), (usize, RegexCause)>
    requires { letters + 4 ≤ length text.now }
    ensures value { MatchResult result
        (λ r. IsOkAnd (class_member at text.now letters) (λ m. (m.1 ≡ r.1) × ((byte : ℕ) → byte < 256 → has r.0 byte ≡ (has set byte || has_part m.0 byte))))
        (λ fault. class_member at text.now letters ≡ Err fault) }
    ensures taken { IfOk result (λ r. r.1 ≡ letters + 4) }
    ensures fault { IfErr result (λ fault. fault.0 ≤ at + 2) }
{
    match Class::named(&text[2..2 + letters]) {
        Some(class) => {
            let mut more = set;
            more.insert_class(class);
            Ok((more, letters + 4))
        }
        None => Err((at, RegexCause::BadClass)),
    }
}

/// Inserts the range that `low`, the byte at the place `at` before the text, begins.
#[tactic(auto, unfolding(crate::specs::Bracket::range_member, byte_class::specs::Part::has_part))]
fn range_member(
    set: ByteSet,
    at: usize,
    low: u8,
    text: &[u8],
) -> Result<(ByteSet, usize), (usize, RegexCause)>
    requires some { 2 ≤ length text.now }
    requires place { at < 2 ^ 63 }
    ensures value { MatchResult result
        (λ r. IsOkAnd (range_member at low text.now) (λ m. (m.1 ≡ r.1) × ((byte : ℕ) → byte < 256 → has r.0 byte ≡ (has set byte || has_part m.0 byte))))
        (λ fault. range_member at low text.now ≡ Err fault) }
    ensures taken { IfOk result (λ r. r.1 ≡ 3) }
    ensures fault { IfErr result (λ fault. fault.0 ≤ at + 2) }
{
    if is_reserved(&text[1..]) {
        return Err((at + 2, RegexCause::Unsupported));
    }
    if text[1] < low {
        return Err((0, RegexCause::BadBracket));
    }
    let mut more = set;
    more.insert_range(low, text[1]);
    Ok((more, 3))
}

/// Inserts a byte or a range: the member at the head of a text that begins with no class.
#[tactic(auto, unfolding(crate::specs::Bracket::byte_member, byte_class::specs::Part::has_part))]
fn byte_member(
    set: ByteSet,
    at: usize,
    text: &[u8],
) -> Result<(ByteSet, usize), (usize, RegexCause)>
    requires some { 0 < length text.now }
    requires place { at < 2 ^ 63 }
    ensures value { MatchResult result
        (λ r. IsOkAnd (byte_member at text.now) (λ m. (m.1 ≡ r.1) × ((byte : ℕ) → byte < 256 → has r.0 byte ≡ (has set byte || has_part m.0 byte))))
        (λ fault. byte_member at text.now ≡ Err fault) }
    ensures some { IfOk result (λ r. 0 < r.1) }
    ensures within { IfOk result (λ r. r.1 ≤ length text.now) }
    ensures fault { IfErr result (λ fault. fault.0 ≤ at + 2) }
{
    if is_reserved(text) {
        return Err((at, RegexCause::Unsupported));
    }
    let rest = &text[1..];
    if is_range(rest) {
        return range_member(set, at, text[0], rest);
    }
    let mut more = set;
    more.insert_range(text[0], text[0]);
    Ok((more, 1))
}

/// Inserts the member at the head of the text, and returns how many bytes it takes.
#[tactic(auto, unfolding(crate::specs::Bracket::member_or))]
fn insert_member(
    set: ByteSet,
    at: usize,
    text: &[u8],
) -> Result<(ByteSet, usize), (usize, RegexCause)>
    requires some { 0 < length text.now }
    requires place { at < 2 ^ 63 }
    ensures value { MatchResult result
        (λ r. IsOkAnd (member_at at text.now) (λ m. (m.1 ≡ r.1) × ((byte : ℕ) → byte < 256 → has r.0 byte ≡ (has set byte || has_part m.0 byte))))
        (λ fault. member_at at text.now ≡ Err fault) }
    ensures some { IfOk result (λ r. 0 < r.1) }
    ensures within { IfOk result (λ r. r.1 ≤ length text.now) }
    ensures fault { IfErr result (λ fault. fault.0 ≤ at + 2) }
{
    match read_class(text) {
        Some(letters) => class_member(set, at, text, letters),
        None => byte_member(set, at, text),
    }
}

/// The members up to the closing `]`, and the place after it. The first member may be a `]`. The text begins at the
/// place `start`.
fn read_members(start: usize, text: &[u8]) -> Result<(ByteSet, usize), (usize, RegexCause)>
    requires { start + length text.now < 2 ^ 63 }
    ensures value { MatchResult result
        (λ r. IsOkAnd (members_first start text.now) (λ m. (m.1 ≡ r.1) × ((byte : ℕ) → byte < 256 → has_parts m.0 byte ≡ has r.0 byte)))
        (λ fault. members_first start text.now ≡ Err fault) }
    ensures some { IfOk result (λ r. 0 < r.1) }
    ensures within { IfOk result (λ r. r.1 ≤ start + length text.now) }
    ensures fault { IfErr result (λ fault. fault.0 ≤ start + length text.now + 2) }
{
    if text.is_empty() {
        return Err((0, RegexCause::BadBracket));
    }
    let (first, first_len) = match insert_member(ByteSet::new(), start, text) {
        Ok(read) => read,
        Err(fault) => return Err(fault),
    };
    let mut set = first;
    let mut at = first_len;
    while at < text.len() {
        if text[at] == b']' {
            return Ok((set, start + at + 1));
        }
        let (more, taken) = match insert_member(set, start + at, &text[at..]) {
            Ok(read) => read,
            Err(fault) => return Err(fault),
        };
        set = more;
        at += taken;
    }
    Err((0, RegexCause::BadBracket))
}

/// Whether the text begins with `^`, the mark of a complement.
#[tactic(auto, unfolding(crate::specs::Bracket::is_complement))]
fn is_complement(text: &[u8]) -> bool
    ensures value { result ≡ is_complement text.now }
    ensures some { IsTrue result → 0 < length text.now }
{
    !text.is_empty() && text[0] == b'^'
}

/// The members, past the mark of a complement if there is one, and the place after the closing `]`.
#[tactic(auto, unfolding(crate::specs::Bracket::members_marked))]
fn read_marked(text: &[u8]) -> Result<(ByteSet, usize), (usize, RegexCause)>
    requires { length text.now + 1 < 2 ^ 63 }
    ensures value { MatchResult result
        (λ r. IsOkAnd (members_marked text.now) (λ m. (m.1 ≡ r.1) × ((byte : ℕ) → byte < 256 → has_parts m.0 byte ≡ has r.0 byte)))
        (λ fault. members_marked text.now ≡ Err fault) }
    ensures some { IfOk result (λ r. 0 < r.1) }
    ensures within { IfOk result (λ r. r.1 ≤ length text.now + 1) }
    ensures fault { IfErr result (λ fault. fault.0 ≤ length text.now + 3) }
{
    if is_complement(text) {
        return read_members(2, &text[1..]);
    }
    read_members(1, text)
}

/// The set of the bracket expression whose `[` comes right before the text, and how many bytes the expression takes,
/// the `[` among them.
pub(crate) fn read_bracket(fold: bool, text: &[u8]) -> Result<(ByteSet, usize), (usize, RegexCause)>
    requires { length text.now + 1 < 2 ^ 63 }
    ensures value { MatchResult result
        (λ r. bracket fold text.now ≡ Ok (OneOf (members (has r.0)), r.1))
        (λ fault. bracket fold text.now ≡ Err fault) }
    ensures some { IfOk result (λ r. 0 < r.1) }
    ensures within { IfOk result (λ r. r.1 ≤ length text.now + 1) }
    ensures fault { IfErr result (λ fault. fault.0 ≤ length text.now + 3) }
{
    match read_marked(text) {
        Ok((set, taken)) => Ok((set.closed(fold, is_complement(text)), taken)),
        Err(fault) => Err(fault),
    }
}
