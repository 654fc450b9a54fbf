//! Lines, and the fields in them.
ghost use Rattle.std.specs.Prelude.{◌≡◌, ◌<◌, ◌≤◌, ◌∷◌, [], not, length, position, IfSome, MatchOption};
ghost use Rattle.std.specs.List.{before_first};
ghost use Rattle.mount_table.specs.Line.{fields, is_newline, is_blank as blank};

/// Whether the byte stands between fields, as a space or a tab.
fn is_blank(byte: u8) -> bool
    ensures { result ≡ blank byte }
{
    byte == b' ' || byte == b'\t'
}

/// Where the first newline stands.
fn newline_place(text: &[u8]) -> Option<usize>
    ensures { result ≡ position is_newline text.now }
{
    text.iter().position(|byte| *byte == b'\n')
}

/// Where the first blank stands.
fn blank_place(text: &[u8]) -> Option<usize>
    ensures { result ≡ position blank text.now }
{
    text.iter().position(|byte| is_blank(*byte))
}

/// Where the first byte stands that is no blank.
fn field_place(text: &[u8]) -> Option<usize>
    ensures { result ≡ position (λ byte. not (blank byte)) text.now }
{
    text.iter().position(|byte| !is_blank(*byte))
}

/// The bytes before the first newline, or all where there is none.
pub(crate) fn first_line(text: &[u8]) -> &[u8]
    ensures value { result.now ≡ before_first is_newline text.now }
    ensures within { length result.now ≤ length text.now }
{
    let end = newline_place(text).unwrap_or(text.len());
    &text[..end]
}

/// The first field and what follows it, where there is a field.
pub(crate) fn split_field(line: &[u8]) -> Option<(&[u8], &[u8])>
    ensures value { MatchOption result (fields line.now ≡ []) (λ found. fields line.now ≡ found.0.now ∷ fields found.1.now) }
    ensures shorter { IfSome result (λ found. length found.1.now < length line.now) }
{
    let Some(start) = field_place(line) else {
        return None;
    };
    let rest = &line[start..];
    let end = blank_place(rest).unwrap_or(rest.len());
    Some(rest.split_at(end))
}
