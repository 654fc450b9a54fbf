//! The word of a count, and the change of the shared length that a count tells.
ghost use Rattle.std.specs.Prelude.{◌≡◌, ◌≤◌, ◌<◌, true, pos, ◌+ℤ◌, ◌-ℤ◌, IfSome, IfOk};
ghost use Rattle.bigram_db.specs.Items.{is_in_range as in_range, word_value, shared_within};
ghost use Rattle.bigram_db.specs.Entries.{WordIs};

use byte_feed::{DamageCause, Stop};

/// Whether a word may have this value.
pub(crate) fn is_in_range(value: i32) -> bool
    ensures { result ≡ in_range value }
{
    -4096 <= value && value <= 4110
}

/// The value of a word: little endian where that is one, else big endian where that is one.
#[tactic(auto, unfolding(crate::specs::Items::word_value))]
pub(crate) fn value_of_word(bytes: [u8; 4]) -> Option<i32>
    ensures value { result ≡ word_value bytes }
    ensures bound { IfSome result (λ v. in_range v ≡ true) }
{
    let little = i32::from_le_bytes(bytes);
    if is_in_range(little) {
        return Some(little);
    }
    let big = i32::from_be_bytes(bytes);
    if is_in_range(big) {
        return Some(big);
    }
    None
}

/// The value of the word at the front of some bytes; `Cut` where there are fewer than four.
pub(crate) fn read_value(bytes: &[u8]) -> Result<i32, Stop>
    ensures value { WordIs bytes.now result }
    ensures bound { IfOk result (λ v. in_range v ≡ true) }
{
    let [a, b, c, d, ..] = bytes else {
        return Err(Stop::Broken(DamageCause::Cut));
    };
    match value_of_word([*a, *b, *c, *d]) {
        Some(value) => Ok(value),
        None => Err(Stop::Broken(DamageCause::BadWord)),
    }
}

/// The shared length after a change that is 14 less than this value: from 0 to the length of the path before.
pub(crate) fn shared_after(len: usize, old: u16, value: i32) -> Result<u16, Stop>
    requires len { len ≤ 4096 }
    requires old { old ≤ 4096 }
    requires value { in_range value ≡ true }
    ensures shared { result ≡ shared_within len (pos old +ℤ (value -ℤ pos 14)) }
    ensures within { IfOk result (λ shared. shared ≤ len) }
{
    let shared = i32::from(old) + value - 14;
    if shared < 0 || shared > len as i32 {
        return Err(Stop::Broken(DamageCause::BadCount));
    }
    Ok(shared as u16)
}
