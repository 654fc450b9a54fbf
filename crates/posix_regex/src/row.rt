//! Rows of a table.
ghost use Rattle.std.specs.Prelude.{◌≡◌, ℕ, ◌+◌, ◌<◌, ◌≤◌, false, length, slice_index, IsTrue};
ghost use Rattle.posix_regex.specs.Leaving.{few, leaves, elsewhere};

use crate::leaving::Leaving;
use byte_class::Steps;
use std::sync::ledger::Ledger;

/// What follows a set of states on each byte, whether the end is reached where the text has no byte more, and by which
/// bytes the set is left.
#[derive(Clone, Copy)]
pub(crate) struct Row {
    next: [u8; 256],
    end: bool,
    leaving: Leaving,
}

impl Row {
    /// The row of the set with a number, with what follows on each byte, and whether the end is reached where none comes.
    pub(crate) fn new(number: u8, next: [u8; 256], end: bool) -> Row
        ensures next { result.next ≡ next }
        ensures end { result.end ≡ end }
        ensures leaving { result.leaving ≡ few (elsewhere next number) }
    {
        let leaving = Leaving::new(&next, number);
        Row { next, end, leaving }
    }

    /// The first place from `from` on at which the set may be left, or the end of the text. It goes past those before
    /// without a step.
    #[inline(always)]
    pub(crate) fn next_place(&self, text: &[u8], from: usize) -> usize
        requires { from ≤ length text.now }
        ensures from { from ≤ result }
        ensures within { result ≤ length text.now }
        ensures none { (k : ℕ) → from ≤ k → k < result → leaves self.now.leaving (slice_index text.now k) ≡ false }
        ensures found { result < length text.now → IsTrue (leaves self.now.leaving (slice_index text.now result)) }
    {
        self.leaving.next_place(text, from)
    }

    /// What follows on a byte. To look it up counts as one step. Without a step only `next_place` tells of bytes: of those
    /// on which the set stays.
    #[inline(always)]
    pub(crate) fn after<L: Ledger>(&self, byte: u8, steps: &mut Steps<L>) -> u8
        ensures value { result ≡ slice_index self.now.next byte }
        ensures counted { steps.new ≡ steps.old + 1 }
    {
        steps.tick();
        self.next[byte as usize]
    }

    /// Whether the end is reached where the text has no byte more.
    #[inline(always)]
    pub(crate) fn ends(&self) -> bool
        ensures { result ≡ self.now.end }
    {
        self.end
    }
}
