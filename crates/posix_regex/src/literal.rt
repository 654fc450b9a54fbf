//! The bytes that every text must hold in which the states come to their end.
ghost use Rattle.std.specs.Prelude.{◌≡◌, ℕ, ◌+◌, ◌-◌, ◌<◌, ◌≤◌, ◌^◌, List, Some, min, max, length, slice_get, vec_len, IfOk, MatchOption};
ghost use Rattle.posix_regex.specs.Program.{item_of};
ghost use Rattle.posix_regex.specs.Literal.{reach, reach_at, IsGate, TakesOnly, TakeInTurn, IsStretch, IsLiteral};

use crate::states::{State, States};
use std::alloc::{AllocError, Global};

/// How many places further a state leads at most.
fn reach(state: State) -> usize
    ensures { result ≡ reach (item_of state) }
{
    match state {
        State::Fork(further) => further.max(1),
        State::Skip(further) => further,
        _ => 1,
    }
}

/// The byte, where the state takes it and no other.
fn only_byte(state: State) -> Option<u8>
    ensures { MatchOption result ((byte : ℕ) → TakesOnly (Some (item_of state)) byte → ⊥) (λ byte. TakesOnly (Some (item_of state)) byte) }
{
    match state {
        State::Set(set) => set.single(),
        _ => None,
    }
}

/// How many states from a place on each take one byte alone.
fn run_len(states: &States, place: usize) -> usize
    requires { place ≤ length states.now }
    ensures alone { (k : ℕ) → k < result → (byte : ℕ) × TakesOnly (slice_get states.now (place + k)) byte }
    ensures ends { (byte : ℕ) → TakesOnly (slice_get states.now (place + result)) byte → ⊥ }
    ensures within { place + result ≤ length states.now }
{
    let mut at = place;
    while at < states.len() {
        let Some(_byte) = only_byte(states.at(at)) else {
            return at - place;
        };
        at += 1;
    }
    at - place
}

/// The bytes that the states from a place on take in turn, as far as each takes one alone.
fn bytes_from(alloc: Global, states: &States, place: usize) -> Result<Vec<u8>, AllocError>
    requires { place ≤ length states.now }
    ensures in_turn { IfOk result (λ bytes. TakeInTurn states.now place bytes.items) }
    ensures ends { IfOk result (λ bytes. (byte : ℕ) → TakesOnly (slice_get states.now (place + vec_len bytes)) byte → ⊥) }
{
    let mut bytes = Vec::new(alloc);
    let mut at = place;
    while at < states.len() {
        let Some(byte) = only_byte(states.at(at)) else {
            return Ok(bytes);
        };
        bytes.push(byte)?;
        at += 1;
    }
    Ok(bytes)
}

/// The furthest place that states lead to, with one state more.
fn furthest(states: &States, before: usize, place: usize) -> usize
    ensures { result ≡ max before (min (place + reach_at (slice_get states.now place)) (2 ^ 64 - 1)) }
{
    if place < states.len() {
        before.max(place.saturating_add(reach(states.at(place))))
    } else {
        before.max(place)
    }
}

/// How many states from a place on each take one byte alone, where none before leads past the place.
fn stretch_len(states: &States, furthest: usize, place: usize) -> usize
    requires { place ≤ length states.now }
    ensures alone { (k : ℕ) → k < result → (furthest ≤ place) × ((byte : ℕ) × TakesOnly (slice_get states.now (place + k)) byte) }
    ensures ends { furthest ≤ place → (byte : ℕ) → TakesOnly (slice_get states.now (place + result)) byte → ⊥ }
    ensures none { place < furthest → result ≡ 0 }
    ensures within { place + result ≤ length states.now }
{
    if furthest <= place {
        run_len(states, place)
    } else {
        0
    }
}

/// The place of the longest stretch.
fn longest(states: &States) -> usize
    ensures within { result ≤ length states.now }
    ensures gate { IsGate states.now result }
    ensures longest { (other : ℕ) → (more : List ℕ) → IsStretch states.now other more
        → (k : ℕ) → k < length more → (byte : ℕ) × TakesOnly (slice_get states.now (result + k)) byte }
{
    let mut best = 0;
    let mut most = 0;
    let mut edge = 0;
    let mut at = 0;
    while at < states.len() {
        let run = stretch_len(states, edge, at);
        if most < run {
            best = at;
            most = run;
        }
        edge = furthest(states, edge, at + run);
        at = at + run + 1;
    }
    best
}

/// The longest row of bytes that every text must hold in which the states come to their end, as far as the row of states
/// tells.
pub(crate) fn literal(alloc: Global, states: &States) -> Result<Vec<u8>, AllocError>
    ensures { IfOk result (λ bytes. IsLiteral states.now bytes.items) }
{
    let bytes = bytes_from(alloc, states, longest(states))?;
    Ok(bytes)
}
