//! The items of a pattern, and what each takes.
ghost use Rattle.std.specs.Prelude.{◌≡◌, ◌≢◌, ℕ, ◌+◌, ◌<◌, ◌==◌, ◌↔◌, List, [], ◌∷◌, ◌++◌, length, map, slice_get, IsTrue, IfSome, OnOk};
ghost use Rattle.glob_match.specs.Item.{Item, Star, OneOf, Takes};
ghost use Rattle.byte_class.specs.ByteSet.{has, members};

use byte_class::{ByteSet, Steps};
use std::alloc::{AllocError, Global};
use std::marker::Model;
use std::sync::ledger::Ledger;

#[derive(Clone, Copy)]
enum Stored {
    Star,
    Byte(u8),
    Set(ByteSet),
}

/// The items of a pattern, each a star or a set of bytes of which it takes one.
#[derive(Drop)]
pub struct Items {
    stored: Vec<Stored>,
}

impl Model for Items {
    ghost use Rattle.std.specs.Prelude.{List, map};
    ghost use Rattle.glob_match.specs.Item.{Item};
    ghost use Rattle.glob_match.specs.Stored.{item_of};

    ghost Value = { List Item };

    ghost view = { λ i. map item_of i.stored.items };
}

impl Items {
    /// No item.
    pub(crate) fn new(alloc: Global) -> Items
        ensures { result ≡ [] }
    {
        Items {
            stored: Vec::new(alloc),
        }
    }

    pub(crate) fn push_star(&mut self) -> Result<(), AllocError>
        ensures { OnOk result (self.new ≡ self.old ++ Star ∷ []) }
    {
        self.stored.push(Stored::Star)?;
        Ok(())
    }

    /// The item that takes one byte alone.
    pub(crate) fn push_byte(&mut self, byte: u8) -> Result<(), AllocError>
        ensures { OnOk result (self.new ≡ self.old ++ OneOf (members (λ x. x == byte)) ∷ []) }
    {
        self.stored.push(Stored::Byte(byte))?;
        Ok(())
    }

    /// The item that takes a byte of the set.
    pub(crate) fn push_set(&mut self, set: ByteSet) -> Result<(), AllocError>
        ensures { OnOk result (self.new ≡ self.old ++ OneOf (members (has set)) ∷ []) }
    {
        self.stored.push(Stored::Set(set))?;
        Ok(())
    }

    /// How many items there are.
    #[inline(always)]
    pub fn len(&self) -> usize
        ensures { result ≡ length self.now }
    {
        self.stored.len()
    }

    /// Whether there is no item.
    pub fn is_empty(&self) -> bool
        ensures { result ≡ (length self.now == 0) }
    {
        self.stored.is_empty()
    }

    /// Whether the item at a place is a star.
    #[inline(always)]
    pub fn is_star(&self, at: usize) -> bool
        requires { at < length self.now }
        ensures { IsTrue result ↔ (slice_get self.now at ≡ Some Star) }
    {
        matches!(self.stored[at], Stored::Star)
    }

    /// Whether the item at a place, which is no star, takes the byte. This is one step.
    #[inline(always)]
    pub fn takes<L: Ledger>(&self, at: usize, byte: u8, steps: &mut Steps<L>) -> bool
        requires within { at < length self.now }
        requires no_star { slice_get self.now at ≢ Some Star }
        ensures value { IfSome (slice_get self.now at) (λ item. IsTrue result ↔ Takes item byte) }
        ensures step { steps.new ≡ steps.old + 1 }
    {
        steps.tick();
        match self.stored[at] {
            Stored::Star => unreachable!(),
            Stored::Byte(kept) => byte == kept,
            Stored::Set(set) => set.contains(byte),
        }
    }
}
