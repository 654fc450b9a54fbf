//! Reading the items of a pattern.
ghost use Rattle.std.specs.Prelude.{◌≡◌, ℕ, ◌+◌, ◌<◌, ◌≤◌, List, [], ◌∷◌, ◌++◌, length, drop, map, slice_index, true, IfOk, OnOk};
ghost use Rattle.glob_match.specs.Item.{Item, Star, OneOf};
ghost use Rattle.glob_match.specs.Pattern.{literal, item_at, items, is_special, is_plain};

use crate::bracket::{read_bracket, read_byte};
use crate::items::Items;
use byte_class::ByteSet;
use std::alloc::{AllocError, Global};

/// Whether the byte has a meaning in patterns.
#[tactic(auto, unfolding(crate::specs::Pattern::is_special))]
fn is_special(byte: u8) -> bool
    ensures { result ≡ is_special byte }
{
    byte == b'*' || byte == b'?' || byte == b'[' || byte == b'\\' || byte == b']'
}

/// Whether the pattern has no byte with a meaning.
#[tactic(auto, unfolding(crate::specs::Pattern::is_plain))]
pub(crate) fn is_plain(pattern: &[u8]) -> bool
    ensures { result ≡ is_plain pattern.now }
{
    pattern.iter().all(|byte| !is_special(*byte))
}

/// Pushes the item of one byte, in both its cases where `fold`.
fn push_literal(items: &mut Items, byte: u8, fold: bool) -> Result<(), AllocError>
    ensures { OnOk result (items.new ≡ items.old ++ literal fold byte ∷ []) }
{
    if !fold {
        return items.push_byte(byte);
    }
    let mut set = ByteSet::new();
    set.insert(byte);
    items.push_set(set.closed(true, false))
}

/// Pushes the item that stands first, and answers how many bytes it takes.
fn push_item(items: &mut Items, text: &[u8], fold: bool) -> Result<usize, AllocError>
    requires { 0 < length text.now }
    ensures pushed { OnOk result (items.new ≡ items.old ++ (item_at fold (slice_index text.now 0) (drop 1 text.now)).0 ∷ []) }
    ensures rest { IfOk result (λ n. (item_at fold (slice_index text.now 0) (drop 1 text.now)).1 ≡ drop n text.now) }
    ensures some { IfOk result (λ n. 0 < n) }
    ensures within { IfOk result (λ n. n ≤ length text.now) }
{
    match text[0] {
        b'*' => {
            items.push_star()?;
            Ok(1)
        }
        b'?' => {
            items.push_set(ByteSet::all())?;
            Ok(1)
        }
        b'\\' => {
            let (byte, taken) = read_byte(text);
            push_literal(items, byte, fold)?;
            Ok(taken)
        }
        b'[' => match read_bracket(&text[1..], fold) {
            Some((set, taken)) => {
                items.push_set(set)?;
                Ok(taken + 1)
            }
            None => {
                push_literal(items, b'[', fold)?;
                Ok(1)
            }
        },
        byte => {
            push_literal(items, byte, fold)?;
            Ok(1)
        }
    }
}

/// The items of a pattern.
pub(crate) fn read_items(alloc: Global, pattern: &[u8], fold: bool) -> Result<Items, AllocError>
    ensures { IfOk result (λ read. read ≡ items fold 0 pattern.now) }
{
    let mut read = Items::new(alloc);
    let mut at = 0;
    while at < pattern.len() {
        at += push_item(&mut read, &pattern[at..], fold)?;
    }
    Ok(read)
}

/// A star, the bytes of a plain pattern in either case, and a star.
pub(crate) fn read_plain(alloc: Global, pattern: &[u8]) -> Result<Items, AllocError>
    ensures { IfOk result (λ read. read ≡ (Star ∷ map (literal true) pattern.now) ++ Star ∷ []) }
{
    let mut read = Items::new(alloc);
    read.push_star()?;
    for byte in pattern {
        push_literal(&mut read, *byte, true)?;
    }
    read.push_star()?;
    Ok(read)
}
