//! Sets of bytes.
ghost use Rattle.std.specs.Prelude.{◌≡◌, ◌↔◌, ℕ, ◌<◌, ◌==◌, ◌||◌, true, false, IsTrue, MatchOption};
ghost use Rattle.std.specs.Int.{is_in_range};
ghost use Rattle.byte_class.specs.ByteSet.{has, folded, in_set, IsAlone};
ghost use Rattle.byte_class.specs.Class.{class_has};

use crate::class::Class;

/// A set of bytes, with one bit for each byte.
#[derive(Clone, Copy)]
pub struct ByteSet {
    words: [u64; 4],
}

impl ByteSet {
    /// The set with no byte.
    pub fn new() -> ByteSet
        ensures { (byte : ℕ) → byte < 256 → has result byte ≡ false }
    {
        ByteSet { words: [0; 4] }
    }

    /// The set of every byte.
    pub fn all() -> ByteSet
        ensures { (byte : ℕ) → byte < 256 → has result byte ≡ true }
    {
        ByteSet {
            words: [u64::MAX; 4],
        }
    }

    /// Whether the set has the byte.
    #[inline(always)]
    pub fn contains(&self, byte: u8) -> bool
        ensures { result ≡ has self.now byte }
    {
        (self.words[byte as usize / 64] >> (byte % 64)) & 1 == 1
    }

    /// Whether the set has this byte and no other.
    fn has_only(&self, byte: u8) -> bool
        ensures { IsTrue result ↔ IsAlone (has self.now) byte }
    {
        for n in 0..256usize {
            if self.contains(n as u8) != (n as u8 == byte) {
                return false;
            }
        }
        true
    }

    /// The byte of a set that has exactly one.
    pub fn single(&self) -> Option<u8>
        ensures { MatchOption result ((byte : ℕ) → IsAlone (has self.now) byte → ⊥) (λ byte. IsAlone (has self.now) byte) }
    {
        for n in 0..256usize {
            let byte = n as u8;
            if self.contains(byte) {
                return if self.has_only(byte) {
                    Some(byte)
                } else {
                    None
                };
            }
        }
        None
    }

    /// Inserts the byte.
    pub fn insert(&mut self, byte: u8)
        ensures { (other : ℕ) → other < 256 → has self.new other ≡ (has self.old other || other == byte) }
    {
        self.words[byte as usize / 64] |= 1 << (byte % 64);
    }

    /// Inserts each byte from `low` to `high`, none where `high` is below.
    pub fn insert_range(&mut self, low: u8, high: u8)
        ensures { (other : ℕ) → other < 256 → has self.new other ≡ (has self.old other || is_in_range low high other) }
    {
        for n in low as usize..high as usize + 1 {
            self.insert(n as u8);
        }
    }

    /// Inserts each byte of the class.
    pub fn insert_class(&mut self, class: Class)
        ensures { (other : ℕ) → other < 256 → has self.new other ≡ (has self.old other || class_has class other) }
    {
        for n in 0..256usize {
            let byte = n as u8;
            if class.has(byte) {
                self.insert(byte);
            }
        }
    }

    /// The set closed under ASCII case, where `fold`, and then complemented, where `complement`.
    #[tactic(auto, unfolding(crate::specs::ByteSet::in_set))]
    pub fn closed(&self, fold: bool, complement: bool) -> ByteSet
        ensures { (other : ℕ) → other < 256 → has result other ≡ in_set fold complement (has self.now) other }
    {
        let mut closed = ByteSet::new();
        for n in 0..256usize {
            let byte = n as u8;
            if self.contains_folded(fold, byte) != complement {
                closed.insert(byte);
            }
        }
        closed
    }

    /// Whether the set has the byte or, where `fold`, the byte in either case.
    #[tactic(auto, unfolding(crate::specs::ByteSet::folded))]
    fn contains_folded(&self, fold: bool, byte: u8) -> bool
        ensures { result ≡ folded fold (has self.now) byte }
    {
        if fold {
            self.contains(byte.to_ascii_lowercase()) || self.contains(byte.to_ascii_uppercase())
        } else {
            self.contains(byte)
        }
    }
}
