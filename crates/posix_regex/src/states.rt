//! The states of an expression.
ghost use Rattle.std.specs.Prelude.{◌≡◌, ◌↔◌, ℕ, ◌+◌, ◌<◌, ◌≤◌, ◌^◌, [], ◌∷◌, ◌++◌, Some, length, slice_get, OnOk, IfOk};
ghost use Rattle.posix_regex.specs.Moves.{Leads};
ghost use Rattle.posix_regex.specs.Lead.{LeadsTo};
ghost use Rattle.byte_class.specs.ByteSet.{has, members};
ghost use Rattle.posix_regex.specs.Program.{Takes, item_of, copies, optional, again, at_least, between, either};

use byte_class::{ByteSet, Steps};
use std::alloc::{AllocError, Global};
use std::marker::Model;
use std::sync::ledger::Ledger;

/// A state takes a byte of its set, asks for the start or the end of the text, or leads on without a byte: a fork to the
/// next state and to one so many further, `Back` to the next and to one so many before, a skip to one so many further.
#[derive(Clone, Copy)]
pub(crate) enum State {
    Set(ByteSet),
    Start,
    End,
    Fork(usize),
    Back(usize),
    Skip(usize),
}

/// What a state leads to: nothing, one or two states at the same place of the text, or one at the next place.
#[derive(Clone, Copy)]
pub(crate) enum Lead {
    Nowhere,
    Here(usize),
    Both(usize, usize),
    Further(usize),
}

/// What a state that takes a byte of the set leads to.
#[inline(always)]
fn lead_of_set(set: ByteSet, s: usize, text: &[u8], at: usize) -> Lead
    requires { s < 2 ^ 63 }
    ensures { (u j : ℕ) → (Leads text.now (Some (Takes (members (has set)))) s at u j ↔ LeadsTo result at u j) }
{
    if at >= text.len() {
        return Lead::Nowhere;
    }
    if !set.contains(text[at]) {
        return Lead::Nowhere;
    }
    Lead::Further(s + 1)
}

/// What the state number `s` leads to at a place of the text.
#[inline(always)]
fn lead_of(state: State, s: usize, text: &[u8], at: usize) -> Lead
    requires state { s < 2 ^ 63 }
    requires place { at ≤ length text.now }
    ensures { (u j : ℕ) → u < 2 ^ 63 → (Leads text.now (Some (item_of state)) s at u j ↔ LeadsTo result at u j) }
{
    match state {
        State::Set(set) => lead_of_set(set, s, text, at),
        State::Start => {
            if at == 0 {
                Lead::Here(s + 1)
            } else {
                Lead::Nowhere
            }
        }
        State::End => {
            if at == text.len() {
                Lead::Here(s + 1)
            } else {
                Lead::Nowhere
            }
        }
        State::Fork(further) => Lead::Both(s + 1, s.saturating_add(further)),
        State::Back(before) => {
            if before <= s {
                Lead::Both(s + 1, s - before)
            } else {
                Lead::Here(s + 1)
            }
        }
        State::Skip(further) => Lead::Here(s.saturating_add(further)),
    }
}

/// States in a row, the compiled form of an expression.
#[derive(Drop)]
pub(crate) struct States {
    kept: Vec<State>,
}

impl Model for States {
    ghost use Rattle.std.specs.Prelude.{List, map};
    ghost use Rattle.posix_regex.specs.Program.{Item};

    ghost Value = { List Item };

    ghost use Rattle.posix_regex.specs.Program.{item_of};

    ghost view = { λ s. map item_of s.kept.items };
}

impl States {
    /// An empty row.
    pub(crate) fn new(alloc: Global) -> States
        ensures { result ≡ [] }
    {
        States {
            kept: Vec::new(alloc),
        }
    }

    /// How many states there are.
    #[inline(always)]
    pub(crate) fn len(&self) -> usize
        ensures value { result ≡ length self.now }
        ensures bound { result < 2 ^ 63 }
    {
        let kept: &[State] = &self.kept;
        kept.len()
    }

    /// Adds a state at the end.
    pub(crate) fn push(&mut self, state: State) -> Result<(), AllocError>
        ensures { OnOk result (self.new ≡ self.old ++ item_of state ∷ []) }
    {
        self.kept.push(state)?;
        Ok(())
    }

    /// The state at a place.
    #[inline(always)]
    pub(crate) fn at(&self, place: usize) -> State
        requires { place < length self.now }
        ensures { slice_get self.now place ≡ Some (item_of result) }
    {
        self.kept[place]
    }

    /// What the state number `s` leads to at a place of the text, which counts as one step.
    #[inline(always)]
    pub(crate) fn lead<L: Ledger>(
        &self,
        s: usize,
        text: &[u8],
        at: usize,
        steps: &mut Steps<L>,
    ) -> Lead
        requires state { s < length self.now }
        requires place { at ≤ length text.now }
        ensures value { (u j : ℕ) → u ≤ length self.now → (Leads text.now (slice_get self.now s) s at u j ↔ LeadsTo result at u j) }
        ensures step { steps.new ≡ steps.old + 1 }
    {
        steps.tick();
        let _len = self.len();
        lead_of(self.at(s), s, text, at)
    }

    /// Appends another row.
    pub(crate) fn append(&mut self, other: &States) -> Result<(), AllocError>
        ensures { OnOk result (self.new ≡ self.old ++ other.now) }
    {
        for n in 0..other.len() {
            self.push(other.at(n))?;
        }
        Ok(())
    }

    /// Appends another row `count` times.
    pub(crate) fn append_times(&mut self, count: usize, other: &States) -> Result<(), AllocError>
        ensures { OnOk result (self.new ≡ self.old ++ copies count other.now) }
    {
        for n in 0..count {
            self.append(other)?;
        }
        Ok(())
    }
}

/// The states, or none of them.
fn optional(alloc: Global, states: &States) -> Result<States, AllocError>
    ensures { IfOk result (λ s. s ≡ optional states.now) }
{
    let mut all = States::new(alloc);
    all.push(State::Fork(states.len() + 1))?;
    all.append(states)?;
    Ok(all)
}

/// The states, once or more.
fn again(alloc: Global, states: &States) -> Result<States, AllocError>
    ensures { IfOk result (λ s. s ≡ again states.now) }
{
    let mut all = States::new(alloc);
    all.append(states)?;
    all.push(State::Back(states.len()))?;
    Ok(all)
}

/// The states, at least `least` times.
pub(crate) fn at_least(alloc: Global, least: usize, states: &States) -> Result<States, AllocError>
    ensures { IfOk result (λ s. s ≡ at_least least states.now) }
{
    let last = again(alloc, states)?;
    if least == 0 {
        return optional(alloc, &last);
    }
    let mut all = States::new(alloc);
    all.append_times(least - 1, states)?;
    all.append(&last)?;
    Ok(all)
}

/// The states, from `least` to `least + more` times.
pub(crate) fn between(
    alloc: Global,
    least: usize,
    more: usize,
    states: &States,
) -> Result<States, AllocError>
    ensures { IfOk result (λ s. s ≡ between least more states.now) }
{
    let mut all = States::new(alloc);
    all.append_times(least, states)?;
    let free = optional(alloc, states)?;
    all.append_times(more, &free)?;
    Ok(all)
}

/// One row of states or another.
pub(crate) fn either(alloc: Global, first: &States, second: &States) -> Result<States, AllocError>
    ensures { IfOk result (λ s. s ≡ either first.now second.now) }
{
    let mut left = States::new(alloc);
    left.append(first)?;
    left.push(State::Skip(second.len() + 1))?;
    let mut all = optional(alloc, &left)?;
    all.append(second)?;
    Ok(all)
}
