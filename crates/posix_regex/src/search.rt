//! Searches a text, by sets of states.
ghost use Rattle.std.specs.Prelude.{◌≡◌, ◌⊎◌, ◌<◌, ◌≤◌, ◌+◌, ℕ, [], length, slice_get, slice_index, Contains, IsTrue, IsFalse, ◌↔◌, ◌*◌};
ghost use Rattle.posix_regex.specs.First.{AreFirst, MayBegin, bytes_of};
ghost use Rattle.posix_regex.specs.Lead.{LeadsTo};
ghost use Rattle.posix_regex.specs.Moves.{Leads, ReachesEnd, Still};

use crate::first::{may_begin, next_start};
use crate::state_set::StateSet;
use crate::states::{Lead, States};
use byte_class::{ByteSet, Steps};
use std::mem;
use std::sync::ledger::Ledger;

/// Inserts what a state leads to into the set of this place or of the next.
#[inline(always)]
fn insert(lead: Lead, now: &mut StateSet, next: &mut StateSet)
    requires { now.old.width ≡ next.old.width }
    ensures now_width { now.new.width ≡ now.old.width }
    ensures next_width { next.new.width ≡ next.old.width }
    ensures longer { length now.old.order ≤ length now.new.order }
    ensures same { (k : ℕ) → k < length now.old.order → slice_index now.new.order k ≡ slice_index now.old.order k }
    ensures now_only { (s : ℕ) → Contains now.new.order s → Contains now.old.order s ⊎ ((s < now.old.width) × ((at : ℕ) → LeadsTo lead at s at)) }
    ensures now_kept { (s : ℕ) → Contains now.old.order s → Contains now.new.order s }
    ensures next_only { (s : ℕ) → Contains next.new.order s → Contains next.old.order s ⊎ ((s < now.old.width) × ((at : ℕ) → LeadsTo lead at s (at + 1))) }
    ensures next_kept { (s : ℕ) → Contains next.old.order s → Contains next.new.order s }
    ensures has { (at u j : ℕ) → LeadsTo lead at u j → u < now.old.width → ((j ≡ at) × Contains now.new.order u) ⊎ ((j ≡ at + 1) × Contains next.new.order u) }
{
    match lead {
        Lead::Nowhere => {}
        Lead::Here(state) => now.insert(state),
        Lead::Both(first, second) => {
            now.insert(first);
            now.insert(second);
        }
        Lead::Further(state) => next.insert(state),
    }
}

/// Follows the states reached at a place, and those that they lead to there, and tells whether the end is reached.
pub(crate) fn spread<L: Ledger>(
    states: &States,
    text: &[u8],
    at: usize,
    now: &mut StateSet,
    next: &mut StateSet,
    steps: &mut Steps<L>,
) -> bool
    requires place { at ≤ length text.now }
    requires now_width { now.old.width ≡ length states.now + 1 }
    requires next_width { next.old.width ≡ length states.now + 1 }
    requires empty { next.old.order ≡ [] }
    ensures now_width { now.new.width ≡ now.old.width }
    ensures next_width { next.new.width ≡ next.old.width }
    ensures kept { (s : ℕ) → Contains now.old.order s → Contains now.new.order s }
    ensures sound { (s : ℕ) → Contains now.new.order s → Still states.now text.now now.old.order at s }
    ensures next_sound { (s : ℕ) → Contains next.new.order s → (t : ℕ) × Contains now.new.order t × Leads text.now (slice_get states.now t) t at s (at + 1) }
    ensures found { IsTrue result → Still states.now text.now now.old.order at (length states.now) }
    ensures closed { IsFalse result → (s u j : ℕ) → Contains now.new.order s → Leads text.now (slice_get states.now s) s at u j → u ≤ length states.now
        → ((j ≡ at) × Contains now.new.order u) ⊎ ((j ≡ at + 1) × Contains next.new.order u) }
    ensures unfinished { IsFalse result → Contains now.new.order (length states.now) → ⊥ }
    ensures rising { steps.old ≤ steps.new }
    ensures bound { steps.new ≤ steps.old + length states.now + 1 }
{
    let mut k = 0;
    while k < now.len() {
        let state = now.at(k);
        if state == states.len() {
            return true;
        }
        let lead = states.lead(state, text, at, steps);
        insert(lead, now, next);
        k += 1;
    }
    false
}

/// Inserts the first state where it may begin.
#[inline(always)]
fn begin(first: &Option<ByteSet>, text: &[u8], at: usize, now: &mut StateSet)
    ensures width { now.new.width ≡ now.old.width }
    ensures kept { (s : ℕ) → Contains now.old.order s → Contains now.new.order s }
    ensures only { (s : ℕ) → Contains now.new.order s → Contains now.old.order s ⊎ (s ≡ 0) }
    ensures start { 0 < now.old.width → MayBegin text.now (bytes_of first.now) at → Contains now.new.order 0 }
{
    if !may_begin(first, text, at) {
        return;
    }
    now.insert(0);
}

/// The place behind a place or, where no state is left, the next at which the first state may begin.
#[inline(always)]
fn place_after(now: &StateSet, first: &Option<ByteSet>, text: &[u8], at: usize) -> usize
    requires { at < length text.now }
    ensures further { at < result }
    ensures within { result ≤ length text.now }
    ensures empty { at + 1 < result → now.now.order ≡ [] }
    ensures idle { (k : ℕ) → at + 1 ≤ k → k < result → MayBegin text.now (bytes_of first.now) k → ⊥ }
{
    if now.len() > 0 {
        return at + 1;
    }
    next_start(first, text, at + 1)
}

/// Whether the states reach their end somewhere in the text. Only places at which the first state may begin are tried.
pub(crate) fn search<L: Ledger>(
    states: &States,
    first: &Option<ByteSet>,
    text: &[u8],
    now: &mut StateSet,
    next: &mut StateSet,
    steps: &mut Steps<L>,
) -> bool
    requires first { AreFirst states.now (bytes_of first.now) }
    requires now_width { now.old.width ≡ length states.now + 1 }
    requires next_width { next.old.width ≡ length states.now + 1 }
    ensures now_width { now.new.width ≡ length states.now + 1 }
    ensures next_width { next.new.width ≡ length states.now + 1 }
    ensures value { IsTrue result ↔ ReachesEnd states.now text.now }
    ensures rising { steps.old ≤ steps.new }
    ensures bound { steps.new ≤ steps.old + (length states.now + 1) * (length text.now + 1) }
{
    now.clear();
    next.clear();
    let mut at = 0;
    while at < text.len() {
        begin(first, text, at, now);
        if spread(states, text, at, now, next, steps) {
            return true;
        }
        mem::swap(now, next);
        next.clear();
        at = place_after(now, first, text, at);
    }
    begin(first, text, at, now);
    if spread(states, text, at, now, next, steps) {
        return true;
    }
    false
}
