//! Bytes that are written as a backslash and three octal digits.
ghost use Rattle.std.specs.Prelude.{◌≡◌, ◌≢◌, ◌<◌, ◌≤◌, length, take, drop, Some, None, IfSome, IfOk, IfErr, MatchOption};
ghost use Rattle.mount_table.specs.Escape.{octal_byte, is_octal_digit, before_rest, unescaped};
ghost use Rattle.mount_table.specs.declared.fault.MountCause.TheVariants.{BadEscape, OutOfMemory};

use crate::fault::MountCause;
use std::alloc::{AllocError, Global};

/// Whether the byte is an octal digit.
fn is_octal(byte: u8) -> bool
    ensures { result ≡ is_octal_digit byte }
{
    matches!(byte, b'0'..=b'7')
}

/// The byte that the first three bytes write in octal digits, which is not 0.
fn read_octal(text: &[u8]) -> Option<u8>
    ensures value { result ≡ octal_byte (take 3 text.now) }
    ensures some { IfSome result (λ _. 3 ≤ length text.now) }
{
    let [high, middle, low, ..] = text else {
        return None;
    };
    if !is_octal(*high) || !is_octal(*middle) || !is_octal(*low) {
        return None;
    }
    let value = u16::from(*high - b'0') * 64
        + u16::from(*middle - b'0') * 8
        + u16::from(*low - b'0');
    if value == 0 || value > 255 {
        return None;
    }
    Some(value as u8)
}

/// The byte that stands first, which an escape may write, and how many bytes it takes.
fn read_byte(text: &[u8]) -> Option<(u8, usize)>
    requires { 0 < length text.now }
    ensures value { MatchOption result (unescaped text.now ≡ None)
        (λ r. unescaped text.now ≡ before_rest (Some r.0) (unescaped (drop r.1 text.now))) }
    ensures some { IfSome result (λ r. 0 < r.1) }
    ensures within { IfSome result (λ r. r.1 ≤ length text.now) }
{
    if text[0] != b'\\' {
        return Some((text[0], 1));
    }
    match read_octal(&text[1..]) {
        Some(byte) => Some((byte, 4)),
        None => None,
    }
}

/// The text with the byte of each escape in the escape's place.
pub(crate) fn unescape(alloc: Global, text: &[u8]) -> Result<Vec<u8>, MountCause>
    ensures ok { IfOk result (λ bytes. unescaped text.now ≡ Some bytes.items) }
    ensures err { IfErr result (λ cause. cause ≢ OutOfMemory → (cause ≡ BadEscape) × (unescaped text.now ≡ None)) }
{
    let mut bytes = Vec::new(alloc);
    let mut at = 0;
    while at < text.len() {
        let Some((byte, taken)) = read_byte(&text[at..]) else {
            return Err(MountCause::BadEscape);
        };
        bytes.push(byte).map_err(AllocError::from)?;
        at += taken;
    }
    Ok(bytes)
}
