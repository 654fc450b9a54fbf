//! Parts of an expression, compiled into states.
ghost use Rattle.std.specs.Prelude.{◌≡◌, ◌≤◌, ◌+◌, ◌-◌, ◌*◌, ◌^◌, min, Some, None, IfOk};
ghost use Rattle.posix_regex.specs.Expression.{Expression, OneOf, Start, End, Empty, Then, Or, Repeat};
ghost use Rattle.byte_class.specs.ByteSet.{has, members};

use crate::states::{State, States, at_least, between, either};
use byte_class::ByteSet;
use std::alloc::{AllocError, Global};

/// The greatest size allowed.
pub(crate) const MAX_SIZE: usize = 4096;

/// A compiled part of an expression. The size stops at one above the greatest allowed; past that the states mean
/// nothing. A part that is too big can still be repeated zero times, and so be fine in the end.
#[derive(Drop)]
pub(crate) struct Fragment {
    pub(crate) size: usize,
    pub(crate) states: States,
    ghost cut: { size ≤ 4097 },
}

/// The size, at most one above the greatest allowed.
fn cut(size: usize) -> usize
    ensures { result ≡ min size 4097 }
{
    if size <= MAX_SIZE { size } else { MAX_SIZE + 1 }
}

/// The sum, or the greatest `usize`.
fn sum(least: usize, more: usize) -> usize
    ensures { result ≡ min (least + more) (2 ^ 64 - 1) }
{
    least.saturating_add(more)
}

/// The size of `count` copies, each with a fork.
fn repeated(count: usize, size: usize) -> usize
    requires { size ≤ 4097 }
    ensures { result ≡ min (count * (size + 1)) 4097 }
{
    cut(count.saturating_mul(size + 1))
}

impl Fragment {
    ghost use Rattle.posix_regex.specs.Fragment.{Stands};

    /// The empty expression.
    pub(crate) fn empty(alloc: Global) -> Fragment
        ensures { Stands result Empty }
    {
        Fragment {
            size: 0,
            states: States::new(alloc),
        }
    }

    /// Any one byte of the set.
    pub(crate) fn one_of(alloc: Global, set: ByteSet) -> Result<Fragment, AllocError>
        ensures { IfOk result (λ f. Stands f (OneOf (members (has set)))) }
    {
        let mut states = States::new(alloc);
        states.push(State::Set(set))?;
        Ok(Fragment { size: 1, states })
    }

    /// The anchor `^`.
    pub(crate) fn start(alloc: Global) -> Result<Fragment, AllocError>
        ensures { IfOk result (λ f. Stands f Start) }
    {
        let mut states = States::new(alloc);
        states.push(State::Start)?;
        Ok(Fragment { size: 1, states })
    }

    /// The anchor `$`.
    pub(crate) fn end(alloc: Global) -> Result<Fragment, AllocError>
        ensures { IfOk result (λ f. Stands f End) }
    {
        let mut states = States::new(alloc);
        states.push(State::End)?;
        Ok(Fragment { size: 1, states })
    }

    /// This one, then the other.
    pub(crate) fn then(self, other: Fragment) -> Result<Fragment, AllocError>
        ensures { (a b : Expression) → Stands self a → Stands other b → IfOk result (λ f. Stands f (Then a b)) }
    {
        let size = cut(self.size + other.size);
        let mut states = self.states;
        if size > MAX_SIZE {
            return Ok(Fragment { size, states });
        }
        states.append(&other.states)?;
        Ok(Fragment { size, states })
    }

    /// This one or the other.
    pub(crate) fn or(self, alloc: Global, other: Fragment) -> Result<Fragment, AllocError>
        ensures { (a b : Expression) → Stands self a → Stands other b → IfOk result (λ f. Stands f (Or a b)) }
    {
        let size = cut(self.size + other.size + 1);
        if size > MAX_SIZE {
            return Ok(Fragment {
                size,
                states: self.states,
            });
        }
        let states = either(alloc, &self.states, &other.states)?;
        Ok(Fragment { size, states })
    }

    /// At least `least` times.
    fn at_least(self, alloc: Global, least: usize) -> Result<Fragment, AllocError>
        ensures { (a : Expression) → Stands self a → IfOk result (λ f. Stands f (Repeat a least None)) }
    {
        let size = cut(repeated(least.max(1), self.size) + 1);
        if size > MAX_SIZE {
            return Ok(Fragment {
                size,
                states: self.states,
            });
        }
        let states = at_least(alloc, least, &self.states)?;
        Ok(Fragment { size, states })
    }

    /// From `least` to `least + more` times.
    fn between(self, alloc: Global, least: usize, more: usize) -> Result<Fragment, AllocError>
        ensures { (a : Expression) → Stands self a → IfOk result (λ f. Stands f (Repeat a least (Some more))) }
    {
        let size = repeated(sum(least, more), self.size);
        if size > MAX_SIZE {
            return Ok(Fragment {
                size,
                states: self.states,
            });
        }
        let states = between(alloc, least, more, &self.states)?;
        Ok(Fragment { size, states })
    }

    /// At least `least` times and, where `more` is given, at most `more` times more.
    pub(crate) fn repeated(
        self,
        alloc: Global,
        least: usize,
        more: Option<usize>,
    ) -> Result<Fragment, AllocError>
        ensures { (a : Expression) → Stands self a → IfOk result (λ f. Stands f (Repeat a least more)) }
    {
        match more {
            None => self.at_least(alloc, least),
            Some(more) => self.between(alloc, least, more),
        }
    }
}
