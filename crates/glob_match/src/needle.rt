//! Bytes that are looked for, as they are or in either case.
ghost use Rattle.std.specs.Prelude.{◌≡◌, ℕ, ◌+◌, ◌<◌, ◌≤◌, ◌↔◌, Bool, true, false, List, length, take, drop, slice_index, IsTrue, IsNone, IfOk, IfSome, MatchOption};
ghost use Rattle.std.specs.Char.{to_ascii_lowercase, to_ascii_uppercase};
ghost use Rattle.memchr.specs.Find.{Nowhere as NoPlace, IsFirst, IsFirstByte, is_byte2};
ghost use Rattle.glob_match.specs.Pattern.{Wanted, InGlob};
ghost use Rattle.glob_match.specs.Needle.{Stands, StandsFrom, Occurs, plain_wanted};
ghost use Rattle.glob_match.specs.Spot.{Known, Tells};

use crate::spot::{Spot, unmatched};
use memchr::{memchr, memchr2};
use std::alloc::{AllocError, Global};
use std::marker::Model;

/// The bytes that are common in paths, the commonest first, as counted over 400,000 paths of a Linux system.
const COMMON: &[u8] = b"/otsneralciu.ph_-ymdg1b6x3vkf842w705zj9q";

/// A search by `memchr` is slow in fewer bytes.
const BLOCK: usize = 32;

/// Bytes, the place among them of the one that is looked for first, and that byte in both its cases where
/// `fold`.
#[derive(Drop)]
pub(crate) struct Needle {
    fold: bool,
    bytes: Vec<u8>,
    rare: usize,
    small: u8,
    big: u8,
}

impl Model for Needle {
    ghost use Rattle.std.specs.Prelude.{ℕ, ◌<◌, Bool, List, length};
    ghost use Rattle.glob_match.specs.Needle.{Looks};

    ghost Value = { Bool × List ℕ };

    ghost view = { λ n. (n.fold, n.bytes.items) };

    ghost invariant = { λ n. 0 < length n.bytes.items → Looks n.fold n.bytes.items n.rare n.small n.big };
}

impl Needle {
    pub(crate) fn new(alloc: Global, bytes: &[u8], fold: bool) -> Result<Needle, AllocError>
        ensures { IfOk result (λ needle. needle ≡ (fold, bytes.now)) }
    {
        let rare = rarest(bytes, fold);
        let (small, big) = cases_at(bytes, rare, fold);
        Ok(Needle {
            fold,
            bytes: Vec::from_slice(alloc, bytes)?,
            rare,
            small,
            big,
        })
    }

    /// Whether the bytes stand somewhere in the text.
    pub(crate) fn occurs_in(&self, text: &[u8]) -> bool
        ensures { IsTrue result ↔ Occurs self.now.0 self.now.1 text.now }
    {
        if self.bytes.is_empty() {
            return true;
        }
        self.first_from(text, 0).is_some()
    }

    /// Whether the bytes stand in what the text has from a place on.
    #[inline(always)]
    pub(crate) fn occurs_from(&self, text: &[u8], from: usize) -> bool
        requires { from ≤ length text.now }
        ensures { IsTrue result ↔ Occurs self.now.0 self.now.1 (drop from text.now) }
    {
        if self.bytes.is_empty() {
            return true;
        }
        match self.near(text, from) {
            Some(near) => self.stands_from(text, near),
            None => false,
        }
    }

    /// Whether the bytes stand in the text at a place that is not before this one.
    #[inline(never)]
    fn stands_from(&self, text: &[u8], from: usize) -> bool
        requires { 0 < length self.now.1 }
        ensures { IsTrue result ↔ StandsFrom self.now.0 self.now.1 text.now from }
    {
        self.first_from(text, from).is_some()
    }

    /// Whether the bytes stand in the text, whose first `shared` bytes are those of the one before.
    #[inline(always)]
    pub(crate) fn judge(&self, text: &[u8], shared: usize, spot: &mut Spot) -> bool
        ensures known { (before : List ℕ) → Known spot.old (plain_wanted self.now.0 self.now.1) before → take shared before ≡ take shared text.now → Known spot.new (plain_wanted self.now.0 self.now.1) text.now }
        ensures told { Tells spot.new result }
    {
        let Some(quiet) = unmatched(*spot, shared) else {
            return true;
        };
        let first = (quiet.min(text.len()) + 1).saturating_sub(self.bytes.len());
        let Some(from) = self.near(text, first) else {
            *spot = Spot::Nowhere;
            return false;
        };
        self.search_from(text, from, spot)
    }

    /// A place from one on before which the bytes don't stand, or none where they stand nowhere from
    /// there. The rare byte is looked for in the end of the text, and in no less than a block of it.
    #[inline(always)]
    fn near(&self, text: &[u8], first: usize) -> Option<usize>
        requires { first ≤ length text.now + 1 }
        ensures some { IsNone result → 0 < length self.now.1 }
        ensures from { IfSome result (λ from. first ≤ from) }
        ensures near { MatchOption result (NoPlace (Stands self.now.0 self.now.1 text.now) first (length text.now + 1)) (λ from. NoPlace (Stands self.now.0 self.now.1 text.now) first from) }
    {
        if self.bytes.is_empty() {
            return Some(first);
        }
        let start = (first + self.rare).min(text.len().saturating_sub(BLOCK));
        match find_either(self.small, self.big, &text[start..]) {
            Some(more) => Some((start + more).saturating_sub(self.rare).max(first)),
            None => None,
        }
    }

    /// Looks for the bytes where they stand at no place before one.
    #[inline(never)]
    fn search_from(&self, text: &[u8], from: usize, spot: &mut Spot) -> bool
        ensures known { ((place : ℕ) → place < from → Stands self.now.0 self.now.1 text.now place → 0 < length self.now.1 → ⊥) → Known spot.new (plain_wanted self.now.0 self.now.1) text.now }
        ensures told { Tells spot.new result }
    {
        if self.bytes.is_empty() {
            *spot = Spot::Ends(0);
            return true;
        }
        let Some(place) = self.first_from(text, from) else {
            *spot = Spot::Nowhere;
            return false;
        };
        *spot = Spot::Ends(place + self.bytes.len());
        true
    }

    /// The first place from one on where the bytes stand. The rare byte is found first, and the others are
    /// compared there.
    fn first_from(&self, text: &[u8], from: usize) -> Option<usize>
        requires { 0 < length self.now.1 }
        ensures { IsFirst (Stands self.now.0 self.now.1 text.now) from (length text.now + 1) result }
    {
        let bytes = self.bytes.as_slice();
        if text.len() < bytes.len() {
            return None;
        }
        let past = text.len() - bytes.len() + 1;
        let mut at = from;
        while at < past {
            let Some(more) = find_either(
                self.small,
                self.big,
                &text[self.rare + at..self.rare + past],
            ) else {
                return None;
            };
            at += more;
            if stands_at(self.fold, bytes, text, at) {
                return Some(at);
            }
            at += 1;
        }
        None
    }
}

/// The first place of either byte.
#[inline(always)]
fn find_either(small: u8, big: u8, text: &[u8]) -> Option<usize>
    ensures { IsFirstByte (is_byte2 small big) text.now result }
{
    if small == big {
        return memchr(small, text);
    }
    memchr2(small, big, text)
}

/// Whether the text has the bytes from the place on.
fn stands_at(fold: bool, bytes: &[u8], text: &[u8], at: usize) -> bool
    requires { at + length bytes.now ≤ length text.now }
    ensures { IsTrue result ↔ Stands fold bytes.now text.now at }
{
    if fold {
        return text[at..at + bytes.len()].eq_ignore_ascii_case(bytes);
    }
    &text[at..at + bytes.len()] == bytes
}

/// The byte at the place, twice, or both its cases where `fold`.
fn cases_at(bytes: &[u8], place: usize, fold: bool) -> (u8, u8)
    ensures folded { place < length bytes.now → fold ≡ true → result ≡ (to_ascii_lowercase (slice_index bytes.now place), to_ascii_uppercase (slice_index bytes.now place)) }
    ensures exact { place < length bytes.now → fold ≡ false → result ≡ (slice_index bytes.now place, slice_index bytes.now place) }
{
    if place >= bytes.len() {
        return (0, 0);
    }
    let byte = bytes[place];
    if fold {
        return (byte.to_ascii_lowercase(), byte.to_ascii_uppercase());
    }
    (byte, byte)
}

/// How rare the byte is in paths, in either case where `fold`.
fn rarity(byte: u8, fold: bool) -> usize {
    let sought = if fold {
        byte.to_ascii_lowercase()
    } else {
        byte
    };
    memchr(sought, COMMON).unwrap_or(COMMON.len())
}

/// The place of the rarest byte. Any place would be right, but at a rare byte the bytes are seldom compared in
/// vain.
fn rarest(bytes: &[u8], fold: bool) -> usize
    ensures { 0 < length bytes.now → result < length bytes.now }
{
    let mut best = 0;
    for (place, byte) in bytes.iter().enumerate() {
        if rarity(*byte, fold) > rarity(bytes[best], fold) {
            best = place;
        }
    }
    best
}
