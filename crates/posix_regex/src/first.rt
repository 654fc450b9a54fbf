//! The bytes with which states can begin.
ghost use Rattle.std.specs.Prelude.{◌≡◌, ◌⊎◌, ◌↔◌, ℕ, ◌+◌, ◌<◌, ◌≤◌, ◌||◌, Some, length, slice_get, slice_index, Contains, IsTrue};
ghost use Rattle.byte_class.specs.ByteSet.{has};
ghost use Rattle.posix_regex.specs.First.{CanTake, AreFirst, MayBegin, LacksAll, bytes_of};
ghost use Rattle.posix_regex.specs.Program.{item_of};

use crate::search::spread;
use crate::state_set::StateSet;
use crate::states::{State, States};
use byte_class::{ByteSet, Steps};
use std::marker::Brand;
use std::sync::ledger::{Blank, Ledger};

/// Adds the bytes of another set.
fn add_all(bytes: &mut ByteSet, more: ByteSet)
    ensures { (byte : ℕ) → byte < 256 → has bytes.new byte ≡ (has bytes.old byte || has more byte) }
{
    for n in 0..256usize {
        let byte = n as u8;
        if more.contains(byte) {
            bytes.insert(byte);
        }
    }
}

/// Adds the bytes that a state takes.
fn add_taken(bytes: &mut ByteSet, state: State)
    ensures { (byte : ℕ) → byte < 256 → (IsTrue (has bytes.new byte) ↔ (IsTrue (has bytes.old byte) ⊎ CanTake (Some (item_of state)) byte)) }
{
    match state {
        State::Set(set) => add_all(bytes, set),
        _ => {}
    }
}

/// The bytes that the reached states take.
fn taken(states: &States, reached: &StateSet) -> ByteSet
    requires width { reached.now.width ≡ length states.now + 1 }
    requires unfinished { Contains reached.now.order (length states.now) → ⊥ }
    ensures { (byte : ℕ) → byte < 256 → (IsTrue (has result byte) ↔ ((s : ℕ) × Contains reached.now.order s × CanTake (slice_get states.now s) byte)) }
{
    let mut bytes = ByteSet::new();
    let mut k = 0;
    while k < reached.len() {
        let state = reached.at(k);
        add_taken(&mut bytes, states.at(state));
        k += 1;
    }
    bytes
}

/// The bytes with which the states can begin, none where they can come to their end without a byte. It counts steps of its
/// own.
fn counted<L: Ledger>(
    blank: Blank,
    states: &States,
    now: &mut StateSet,
    next: &mut StateSet,
) -> Option<ByteSet>
    requires name { blank.name ≡ L.name }
    requires parts { blank.parts ≡ L.parts }
    requires some { 0 < L.parts }
    requires now_width { now.old.width ≡ length states.now + 1 }
    requires next_width { next.old.width ≡ length states.now + 1 }
    ensures now_width { now.new.width ≡ length states.now + 1 }
    ensures next_width { next.new.width ≡ length states.now + 1 }
    ensures first { AreFirst states.now (bytes_of result) }
{
    let mut steps = Steps::<L>::new(blank);
    now.clear();
    next.clear();
    now.insert(0);
    if spread(states, &[], 0, now, next, &mut steps) {
        return None;
    }
    Some(taken(states, now))
}

/// The bytes with which the states can begin, none where they can come to their end without a byte.
pub(crate) fn first_bytes(
    states: &States,
    now: &mut StateSet,
    next: &mut StateSet,
) -> Option<ByteSet>
    requires now_width { now.old.width ≡ length states.now + 1 }
    requires next_width { next.old.width ≡ length states.now + 1 }
    ensures now_width { now.new.width ≡ length states.now + 1 }
    ensures next_width { next.new.width ≡ length states.now + 1 }
    ensures first { AreFirst states.now (bytes_of result) }
{
    counted::<Brand>(Blank::new(1), states, now, next)
}

/// Whether states may begin at a place of the text, as far as its byte tells.
#[inline(always)]
pub(crate) fn may_begin(first: &Option<ByteSet>, text: &[u8], at: usize) -> bool
    ensures { IsTrue result ↔ MayBegin text.now (bytes_of first.now) at }
{
    match first {
        None => true,
        Some(set) => at < text.len() && set.contains(text[at]),
    }
}

/// The first place from `from` on at which states may begin, or the end of the text.
pub(crate) fn next_start(first: &Option<ByteSet>, text: &[u8], from: usize) -> usize
    requires { from ≤ length text.now }
    ensures from { from ≤ result }
    ensures within { result ≤ length text.now }
    ensures none { (k : ℕ) → from ≤ k → k < result → MayBegin text.now (bytes_of first.now) k → ⊥ }
    ensures found { result < length text.now → MayBegin text.now (bytes_of first.now) result }
{
    let mut at = from;
    while at < text.len() {
        if may_begin(first, text, at) {
            return at;
        }
        at += 1;
    }
    at
}

/// Whether there are such bytes, and the text has none of them.
pub(crate) fn lacks_all(first: &Option<ByteSet>, text: &[u8]) -> bool
    ensures { IsTrue result ↔ LacksAll text.now (bytes_of first.now) }
{
    match first {
        None => false,
        Some(_) => next_start(first, text, 0) == text.len(),
    }
}
