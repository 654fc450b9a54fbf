//! Whether items match a text.
ghost use Rattle.std.specs.Prelude.{◌≡◌, ℕ, ◌+◌, ◌-◌, ◌*◌, ◌<◌, ◌≤◌, ◌↔◌, length, drop, IsTrue};
ghost use Rattle.glob_match.specs.Language.{Matches};

use crate::items::Items;
use byte_class::Steps;
use std::sync::ledger::Ledger;

/// Whether the whole text is one that the items match. Most texts that are not end otherwise, and
/// take one step.
pub(crate) fn matches_items<L: Ledger>(items: &Items, text: &[u8], steps: &mut Steps<L>) -> bool
    ensures value { IsTrue result ↔ Matches items.now text.now }
    ensures rising { steps.old ≤ steps.new }
    ensures bound { steps.new ≤ steps.old + 2 * (length items.now + 1) * (length text.now + 1) }
{
    if !ends_alike(items, text, steps) {
        return false;
    }
    walk(items, text, steps)
}

/// Whether the last item is a star or takes the last byte of the text, without which nothing matches.
#[inline(always)]
fn ends_alike<L: Ledger>(items: &Items, text: &[u8], steps: &mut Steps<L>) -> bool
    ensures needed { Matches items.now text.now → IsTrue result }
    ensures rising { steps.old ≤ steps.new }
    ensures bound { steps.new ≤ steps.old + 1 }
{
    let len = items.len();
    if len == 0 || items.is_star(len - 1) {
        return true;
    }
    if text.is_empty() {
        return false;
    }
    items.takes(len - 1, text[text.len() - 1], steps)
}

/// The walk over items and text, which goes back to the last star.
fn walk<L: Ledger>(items: &Items, text: &[u8], steps: &mut Steps<L>) -> bool
    ensures value { IsTrue result ↔ Matches items.now text.now }
    ensures rising { steps.old ≤ steps.new }
    ensures bound { steps.new ≤ steps.old + (length items.now + 1) * (length text.now + 1) }
{
    let mut item = 0;
    let mut at = 0;
    // The item after the last star, or 0, and the place of the text from which it was last tried.
    let mut restart = 0;
    let mut from = 0;
    'walk: loop {
        if item == items.len() {
            if at == text.len() {
                return true;
            }
        } else if items.is_star(item) {
            item += 1;
            if item == items.len() {
                return true;
            }
            restart = item;
            from = at;
            continue;
        } else if at == text.len() {
            return false;
        } else if items.takes(item, text[at], steps) {
            item += 1;
            at += 1;
            continue;
        }
        if restart == 0 {
            return false;
        }
        from = next_start(items, restart, text, from + 1, steps);
        item = restart;
        at = from;
    }
}

/// The first place from `from` on where the items from `item` on may match: where the item takes the byte, or the end.
/// Most of the time of a search for a pattern is spent here.
#[inline(always)]
fn next_start<L: Ledger>(
    items: &Items,
    item: usize,
    text: &[u8],
    from: usize,
    steps: &mut Steps<L>,
) -> usize
    requires item { item < length items.now }
    requires from { from ≤ length text.now }
    ensures forth { from ≤ result }
    ensures within { result ≤ length text.now }
    ensures passed { (place : ℕ) → from ≤ place → place < result → Matches (drop item items.now) (drop place text.now) → ⊥ }
    ensures rising { steps.old ≤ steps.new }
    ensures bound { steps.new ≤ steps.old + (result - from) + 1 }
{
    if items.is_star(item) {
        return from;
    }
    let mut start = from;
    while start < text.len() {
        if items.takes(item, text[start], steps) {
            return start;
        }
        start += 1;
    }
    start
}
