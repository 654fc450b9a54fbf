//! How often each pair of bytes comes.
ghost use Rattle.std.specs.Prelude.{◌≡◌, ◌+◌, ◌<◌, ◌≤◌, ◌^◌, [], ◌∷◌, length, filter, map, sum_by, IfOk, IfSome, MatchOption, IsTrue, ◌↔◌, ℕ};
ghost use Rattle.bigram_db.specs.Pairs.{Pair};
ghost use Rattle.bigram_db.specs.Chosen.{is_counted as counted_pair, counted_in, counted_behind, times, chosen, table_for};
ghost use Rattle.bigram_db.specs.Counts.{times_of, index_of, ComesFirst, IsAfter, IsNextIn, IsNoneNext};

use crate::table::{PairTable, is_counted, place_of};
use byte_feed::common_prefix;
use std::alloc::{AllocError, Global};
use std::marker::Model;

/// How often each pair of bytes from 32 to 127 was counted. A contract sees the list of the counts in the order of the
/// pairs by their bytes.
#[derive(Drop)]
pub struct PairCounts {
    numbers: Vec<u64>,
}

impl Model for PairCounts {
    ghost use Rattle.std.specs.Prelude.{◌≡◌, ℕ, List, vec_len};

    ghost Value = { List ℕ };

    ghost view = { λ c. c.numbers.items };

    ghost invariant = { λ c. vec_len c.numbers ≡ 9216 };
}

impl PairCounts {
    /// No pair was counted.
    pub fn new(alloc: Global) -> Result<PairCounts, AllocError>
        ensures { IfOk result (λ c. (p : Pair) → times_of c p ≡ 0) }
    {
        Ok(PairCounts {
            numbers: vec![in alloc; 0; 9216]?,
        })
    }

    /// Counts the pairs of what is left of a path behind the longest prefix that it shares with the path before.
    pub fn add(&mut self, before: &[u8], path: &[u8])
        requires { (p : Pair) → times_of self.old p < 2 ^ 62 }
        ensures { (p : Pair) → times_of self.new p ≡ times_of self.old p + times (counted_behind before.now path.now) p }
    {
        let shared = common_prefix(before, path);
        count_pairs(&mut self.numbers, &path[shared..]);
    }

    /// The table of the 128 pairs that were counted most, by falling count, of equal counts the smaller pair by bytes
    /// first. Where fewer pairs came, the rest of the table is zero bytes. That is the table for a list of paths where each
    /// was counted behind the one before: its function is the same at each pair.
    pub fn choose_table(&self) -> PairTable
        ensures { result ≡ chosen (times_of self.now) }
    {
        let mut bytes = [0; 256];
        let mut last = None;
        'places: for place in 0..128usize {
            let Some(next) = next_after(&self.numbers, last) else {
                return PairTable::new(bytes);
            };
            bytes[2 * place] = 32 + (next / 96) as u8;
            bytes[2 * place + 1] = 32 + (next % 96) as u8;
            last = Some(next);
        }
        PairTable::new(bytes)
    }
}

impl PairTable {
    /// The table for a list of paths of fewer than 2^63 bytes in all, each counted behind the one before it.
    pub fn for_paths(alloc: Global, paths: &[&[u8]]) -> Result<PairTable, AllocError>
        requires { sum_by length (map (λ p. p.now) paths.now) < 2 ^ 63 }
        ensures { IfOk result (λ t. t ≡ table_for (map (λ p. p.now) paths.now)) }
    {
        let mut counts = PairCounts::new(alloc)?;
        let mut before = b"".as_slice();
        for path in paths {
            counts.add(before, path);
            before = path;
        }
        Ok(counts.choose_table())
    }
}

/// Counts the pairs of a text.
fn count_pairs(numbers: &mut [u64], text: &[u8])
    requires size { length numbers.old ≡ 9216 }
    requires room { (p : Pair) → times_of numbers.old p < 2 ^ 62 }
    ensures { (p : Pair) → times_of numbers.new p ≡ times_of numbers.old p + times (counted_in text.now) p }
{
    let _ = text.len();
    let mut left = text;
    'pairs: while let [a, b, rest @ ..] = left {
        count_pair(numbers, *a, *b);
        left = rest;
    }
}

/// Counts a pair, where it counts.
#[inline(always)]
fn count_pair(numbers: &mut [u64], a: u8, b: u8)
    requires size { length numbers.old ≡ 9216 }
    requires room { times_of numbers.old (a, b) + 1 < 2 ^ 64 }
    ensures { (p : Pair) → times_of numbers.new p ≡ times_of numbers.old p + times (filter counted_pair ((a, b) ∷ [])) p }
{
    if !is_counted(a, b) {
        return;
    }
    numbers[place_of(a, b)] += 1;
}

/// Whether the number at a place is behind the last one taken.
fn is_after(numbers: &[u64], last: Option<usize>, k: usize) -> bool
    requires last { IfSome last (λ i. i < length numbers.now) }
    requires within { k < length numbers.now }
    ensures { IsTrue result ↔ IsAfter numbers.now last k }
{
    match last {
        Some(last) => comes_first(numbers, last, k),
        None => true,
    }
}

/// Whether the number at a place comes before that at another: it is greater, or they are equal and the place is.
fn comes_first(numbers: &[u64], i: usize, k: usize) -> bool
    requires first { i < length numbers.now }
    requires second { k < length numbers.now }
    ensures { IsTrue result ↔ ComesFirst numbers.now i k }
{
    numbers[i] > numbers[k] || (numbers[i] == numbers[k] && i < k)
}

/// The better of a place, if any, and one more: where that is taken at all, it is behind the last one and comes before.
fn better(numbers: &[u64], last: Option<usize>, best: Option<usize>, k: usize) -> Option<usize>
    requires last { IfSome last (λ i. i < length numbers.now) }
    requires within { k < length numbers.now }
    requires best { MatchOption best (IsNoneNext numbers.now last k) (IsNextIn numbers.now last k) }
    ensures { MatchOption result (IsNoneNext numbers.now last (k + 1)) (IsNextIn numbers.now last (k + 1)) }
{
    if numbers[k] == 0 || !is_after(numbers, last, k) {
        return best;
    }
    match best {
        Some(i) if comes_first(numbers, i, k) => best,
        _ => Some(k),
    }
}

/// The first pair in order behind this one, or of all, that was counted at all, by the places of the pairs.
fn next_after(numbers: &[u64], last: Option<usize>) -> Option<usize>
    requires { IfSome last (λ i. i < length numbers.now) }
    ensures { MatchOption result (IsNoneNext numbers.now last (length numbers.now)) (IsNextIn numbers.now last (length numbers.now)) }
{
    let mut best: Option<usize> = None;
    'all: for k in 0..numbers.len() {
        best = better(numbers, last, best, k);
    }
    best
}
