//! Sets of states, which keep the order in which their members came.
ghost use Rattle.std.specs.Prelude.{◌≡◌, ◌⊎◌, ◌≤◌, ◌<◌, ◌++◌, ◌∷◌, [], ℕ, length, slice_index, slice_index_or, false, true, Contains, IfOk};

use std::alloc::{AllocError, Global};
use std::marker::Model;

/// A set of states below a number.
#[derive(Drop)]
pub(crate) struct StateSet {
    order: Vec<usize>,
    count: usize,
    marks: Vec<bool>,
}

impl Model for StateSet {
    ghost use Rattle.std.specs.Prelude.{length, take};
    ghost use Rattle.posix_regex.specs.StateSet.{Members, AreMarked};

    ghost Value = { Members };

    ghost view = { λ s. record { width = length s.marks.items; order = take s.count s.order.items } };

    ghost invariant = { λ s. AreMarked s.order.items s.count s.marks.items };
}

/// Clears the marks of the listed states, the only ones marked.
fn unmark(marks: &mut Vec<bool>, listed: &[usize])
    requires below { (s : ℕ) → Contains listed.now s → s < length marks.old.items }
    requires all { (s : ℕ) → s < length marks.old.items → slice_index_or marks.old.items s false ≡ true → Contains listed.now s }
    ensures len { length marks.new.items ≡ length marks.old.items }
    ensures none { (s : ℕ) → slice_index_or marks.new.items s false ≡ false }
{
    for k in 0..listed.len() {
        marks[listed[k]] = false;
    }
}

impl StateSet {
    /// The empty set of states below a number.
    pub(crate) fn new(alloc: Global, width: usize) -> Result<StateSet, AllocError>
        ensures { IfOk result (λ s. (s.width ≡ width) × (s.order ≡ [])) }
    {
        let order = vec![in alloc; 0; width]?;
        let marks = vec![in alloc; false; width]?;
        Ok(StateSet {
            order,
            count: 0,
            marks,
        })
    }

    /// How many states are in the set.
    #[inline(always)]
    pub(crate) fn len(&self) -> usize
        ensures value { result ≡ length self.now.order }
        ensures few { length self.now.order ≤ self.now.width }
    {
        self.count
    }

    /// The state at a place of that order.
    #[inline(always)]
    pub(crate) fn at(&self, place: usize) -> usize
        requires { place < length self.now.order }
        ensures value { result ≡ slice_index self.now.order place }
        ensures below { result < self.now.width }
    {
        self.order[place]
    }

    /// Empties the set, in as many steps as it has members.
    pub(crate) fn clear(&mut self)
        ensures width { self.new.width ≡ self.old.width }
        ensures empty { self.new.order ≡ [] }
    {
        unmark(&mut self.marks, &self.order[..self.count]);
        self.count = 0;
    }

    /// Inserts a state, if it is below the number.
    pub(crate) fn insert(&mut self, state: usize)
        ensures width { self.new.width ≡ self.old.width }
        ensures order { (self.new.order ≡ self.old.order) ⊎ ((state < self.old.width) × (self.new.order ≡ self.old.order ++ state ∷ [])) }
        ensures has { state < self.old.width → Contains self.new.order state }
    {
        if state >= self.marks.len() {
            return;
        }
        if self.marks[state] {
            return;
        }
        self.marks[state] = true;
        self.order[self.count] = state;
        self.count += 1;
    }
}
