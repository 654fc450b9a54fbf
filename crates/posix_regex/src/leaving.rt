//! The bytes by which a search leaves a set of states.
ghost use Rattle.std.specs.Prelude.{◌≡◌, ℕ, ◌≤◌, ◌<◌, true, false, List, ◌∷◌, [], ◌++◌, length, slice_index, IsTrue};
ghost use Rattle.memchr.specs.Find.{IsFirstByte};
ghost use Rattle.posix_regex.specs.Leaving.{few, leaves, elsewhere};

use memchr::{memchr, memchr2, memchr3};

/// The bytes that lead from a set elsewhere than to itself, where they are at most three.
#[derive(Clone, Copy)]
pub(crate) enum Leaving {
    Nothing,
    One(u8),
    Two(u8, u8),
    Three(u8, u8, u8),
    Many,
}

/// The bytes and one more.
fn with(leaving: Leaving, byte: u8) -> Leaving
    ensures { (bytes : List ℕ) → leaving ≡ few bytes → result ≡ few (bytes ++ byte ∷ []) }
{
    match leaving {
        Leaving::Nothing => Leaving::One(byte),
        Leaving::One(a) => Leaving::Two(a, byte),
        Leaving::Two(a, b) => Leaving::Three(a, b, byte),
        _ => Leaving::Many,
    }
}

impl Leaving {
    /// The bytes that have another entry than the number.
    pub(crate) fn new(next: &[u8; 256], number: u8) -> Leaving
        ensures { result ≡ few (elsewhere next.now number) }
    {
        let mut leaving = Leaving::Nothing;
        for byte in 0..256usize {
            if next[byte] != number {
                leaving = with(leaving, byte as u8);
            }
        }
        leaving
    }

    /// The first place with one of the bytes.
    fn find(self, text: &[u8]) -> Option<usize>
        ensures { IsFirstByte (leaves self) text.now result }
    {
        match self {
            Leaving::Nothing => None,
            Leaving::One(a) => memchr(a, text),
            Leaving::Two(a, b) => memchr2(a, b, text),
            Leaving::Three(a, b, c) => memchr3(a, b, c, text),
            Leaving::Many => {
                if text.is_empty() {
                    return None;
                }
                Some(0)
            }
        }
    }

    /// The first place from `from` on with one of the bytes, or the end of the text.
    #[inline(never)]
    fn find_from(self, text: &[u8], from: usize) -> usize
        requires { from ≤ length text.now }
        ensures from { from ≤ result }
        ensures within { result ≤ length text.now }
        ensures none { (k : ℕ) → from ≤ k → k < result → leaves self (slice_index text.now k) ≡ false }
        ensures found { result < length text.now → IsTrue (leaves self (slice_index text.now result)) }
    {
        match self.find(&text[from..]) {
            None => text.len(),
            Some(place) => from + place,
        }
    }

    /// The first place from `from` on at which the set may be left, or the end of the text. It goes past those before
    /// without a step.
    #[inline(always)]
    pub(crate) fn next_place(self, text: &[u8], from: usize) -> usize
        requires { from ≤ length text.now }
        ensures from { from ≤ result }
        ensures within { result ≤ length text.now }
        ensures none { (k : ℕ) → from ≤ k → k < result → leaves self (slice_index text.now k) ≡ false }
        ensures found { result < length text.now → IsTrue (leaves self (slice_index text.now result)) }
    {
        if let Leaving::Many = self {
            return from;
        }
        self.find_from(text, from)
    }
}
