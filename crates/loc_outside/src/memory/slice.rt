//! Bytes that are lent, to be read.
ghost use Rattle.std.specs.Prelude.{◌≡◌, Some, ⊤, OnErr, IsOkAnd, length, min};
ghost use Rattle.std.specs.Io.{ReadsAtMost};
ghost use Rattle.std.specs.Io.KnownBytes.{ReadConsumes};
ghost use Rattle.loc_outside.specs.Outside.{GivesCount};
ghost use Rattle.loc_outside.specs.Causes.{HasCause, last_count, stays_below};

use crate::memory::stored::give;
use crate::{Failed, Source};
use std::marker::Model;

/// A source over bytes that are lent. It takes no memory and never fails.
#[derive(Drop)]
pub struct SliceSource<'a> {
    left: &'a [u8],
    given: u64,
}

impl<'a> Model for SliceSource<'a> {
    ghost use Rattle.loc_outside.specs.Memory.{Lent};

    ghost Value = { Lent };

    ghost view = { λ s. record { left = s.left.now; given = s.given } };
}

impl<'a> SliceSource<'a> {
    /// A source of these bytes.
    pub fn new(bytes: &'a [u8]) -> SliceSource<'a>
        ensures { result ≡ record { left = bytes.entry.now; given = 0 } }
    {
        SliceSource {
            left: bytes,
            given: 0,
        }
    }
}

impl Source for SliceSource<'_> {
    ghost left = { λ s. Some s.left };

    ghost given = { λ s. min s.given last_count };

    ghost faults = { λ s. 0 };

    ghost kept = { λ s t. ⊤ };

    ghost keeps_itself = { λ s. tt };

    ghost keeps_on = { λ s t u first then. tt };

    ghost given_below = { λ s. stays_below s.given };

    ghost faults_below = { λ s. stays_below 0 };

    fn read(&mut self, into: &mut [u8]) -> Result<usize, Failed>
        ensures bound { ReadsAtMost result into.new }
        ensures bytes { ReadConsumes (Some self.old.left) (Some self.new.left) result into.new }
        ensures given { GivesCount (min self.old.given last_count) (min self.new.given last_count) result }
        ensures err { OnErr result (Some self.new.left ≡ Some self.old.left) }
        ensures cause { HasCause 0 0 result }
        // It never fails, and gives all that there is room for.
        ensures most { IsOkAnd result (λ n. n ≡ min (length self.old.left) (length into.old)) }
    {
        let count = give(self.left, into);
        self.left = &self.left[count..];
        self.given = self.given.saturating_add(count as u64);
        Ok(count)
    }
}
