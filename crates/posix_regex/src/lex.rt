//! What the bytes of a pattern mean.
ghost use Rattle.std.specs.Prelude.{◌≡◌, ◌+◌, ◌<◌, ◌≤◌, length};
ghost use Rattle.posix_regex.specs.Lex.{escape_extended, escape_basic, meaning_extended, meaning_basic, is_end, meaning_at};

/// What one or two bytes of a pattern mean.
#[derive(Clone, Copy)]
pub(crate) enum Meaning {
    /// The byte itself.
    Byte(u8),
    Any,
    /// The `[` of a bracket expression.
    Bracket,
    Start,
    End,
    Open,
    Close,
    Bar,
    /// The piece before repeats: at least so many times and, where a second number is given, at most so many more.
    Suffix(usize, Option<usize>),
    /// The opening of an interval.
    Interval,
    /// A backslash at the end of the pattern.
    Trailing,
    Unsupported,
}

/// What a backslash right before the text means in extended syntax, and how many bytes it takes.
#[tactic(auto, unfolding(crate::specs::Lex::escape_extended))]
fn escape_extended(text: &[u8]) -> (Meaning, usize)
    ensures value { result ≡ escape_extended text.now }
    ensures some { 0 < result.1 }
    ensures within { result.1 ≤ length text.now + 1 }
{
    if text.is_empty() {
        return (Meaning::Trailing, 1);
    }
    let byte = text[0];
    if byte.is_ascii_digit() || byte.is_ascii_alphabetic() {
        (Meaning::Unsupported, 2)
    } else {
        (Meaning::Byte(byte), 2)
    }
}

/// The same in basic syntax.
#[tactic(auto, unfolding(crate::specs::Lex::escape_basic))]
fn escape_basic(text: &[u8]) -> (Meaning, usize)
    ensures value { result ≡ escape_basic text.now }
    ensures some { 0 < result.1 }
    ensures within { result.1 ≤ length text.now + 1 }
{
    if text.is_empty() {
        return (Meaning::Trailing, 1);
    }
    let byte = text[0];
    if byte == b'(' {
        (Meaning::Open, 2)
    } else if byte == b')' {
        (Meaning::Close, 2)
    } else if byte == b'{' {
        (Meaning::Interval, 2)
    } else if byte.is_ascii_digit()
        || byte.is_ascii_alphabetic()
        || byte == b'|'
        || byte == b'+'
        || byte == b'?'
    {
        (Meaning::Unsupported, 2)
    } else {
        (Meaning::Byte(byte), 2)
    }
}

/// What a byte right before the text means in extended syntax, and how many bytes it takes.
#[tactic(auto, unfolding(crate::specs::Lex::meaning_extended))]
fn meaning_extended(byte: u8, text: &[u8]) -> (Meaning, usize)
    ensures value { result ≡ meaning_extended byte text.now }
    ensures some { 0 < result.1 }
    ensures within { result.1 ≤ length text.now + 1 }
{
    if byte == b'\\' {
        escape_extended(text)
    } else if byte == b'[' {
        (Meaning::Bracket, 1)
    } else if byte == b'.' {
        (Meaning::Any, 1)
    } else if byte == b'^' {
        (Meaning::Start, 1)
    } else if byte == b'$' {
        (Meaning::End, 1)
    } else if byte == b'(' {
        (Meaning::Open, 1)
    } else if byte == b')' {
        (Meaning::Close, 1)
    } else if byte == b'|' {
        (Meaning::Bar, 1)
    } else if byte == b'*' {
        (Meaning::Suffix(0, None), 1)
    } else if byte == b'+' {
        (Meaning::Suffix(1, None), 1)
    } else if byte == b'?' {
        (Meaning::Suffix(0, Some(1)), 1)
    } else if byte == b'{' {
        (Meaning::Interval, 1)
    } else {
        (Meaning::Byte(byte), 1)
    }
}

/// Whether the pattern or a group ends at the head of the text, in basic syntax.
#[tactic(auto, unfolding(crate::specs::Lex::is_end))]
fn is_end(text: &[u8]) -> bool
    ensures { result ≡ is_end text.now }
{
    text.is_empty() || text.starts_with(b"\\)")
}

/// What a byte right before the text means in basic syntax, and how many bytes it takes.
#[tactic(auto, unfolding(crate::specs::Lex::meaning_basic))]
fn meaning_basic(begins: bool, bare: bool, byte: u8, text: &[u8]) -> (Meaning, usize)
    ensures value { result ≡ meaning_basic begins bare byte text.now }
    ensures some { 0 < result.1 }
    ensures within { result.1 ≤ length text.now + 1 }
{
    if byte == b'\\' {
        escape_basic(text)
    } else if byte == b'[' {
        (Meaning::Bracket, 1)
    } else if byte == b'.' {
        (Meaning::Any, 1)
    } else if byte == b'^' && begins {
        (Meaning::Start, 1)
    } else if byte == b'$' && is_end(text) {
        (Meaning::End, 1)
    } else if byte == b'*' && !bare {
        (Meaning::Suffix(0, None), 1)
    } else {
        (Meaning::Byte(byte), 1)
    }
}

/// What the head of the text means, and how many bytes it takes. Basic syntax asks whether the pattern or a group has
/// just begun (`begins`), and whether it has nothing yet but perhaps an anchor (`bare`).
#[tactic(auto, unfolding(crate::specs::Lex::meaning_at))]
pub(crate) fn meaning_at(extended: bool, begins: bool, bare: bool, text: &[u8]) -> (Meaning, usize)
    requires { 0 < length text.now }
    ensures value { result ≡ meaning_at extended begins bare text.now }
    ensures some { 0 < result.1 }
    ensures within { result.1 ≤ length text.now }
{
    let rest = &text[1..];
    if extended {
        meaning_extended(text[0], rest)
    } else {
        meaning_basic(begins, bare, text[0], rest)
    }
}
