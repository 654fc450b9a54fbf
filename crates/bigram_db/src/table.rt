//! The table of pairs.
ghost use Rattle.std.specs.Prelude.{◌≡◌, ◌↔◌, IsTrue, length, true, IfSome, ◌<◌};
ghost use Rattle.std.specs.List.{list_all};
ghost use Rattle.bigram_db.specs.Pairs.{is_plain as plain, is_table as tables, is_table_byte as table_byte, number_of};
ghost use Rattle.bigram_db.specs.Chosen.{is_counted as counted_pair};
ghost use Rattle.bigram_db.specs.Counts.{index_of};
ghost use Rattle.bigram_db.specs.Numbers.{AreNumbers, number_told};

use std::marker::Model;

/// The table that a bigram database begins with: 128 pairs of bytes, a pair that is not used as two zero bytes. A contract
/// sees it as the list of its 256 bytes, each of them 0 or from 32 to 127.
#[derive(Drop)]
pub struct PairTable {
    bytes: [u8; 256],
    numbers: [u8; 9216],
}

impl Model for PairTable {
    ghost use Rattle.std.specs.Prelude.{◌≡◌, true, List, ℕ};
    ghost use Rattle.bigram_db.specs.Pairs.{is_table};
    ghost use Rattle.bigram_db.specs.Numbers.{AreNumbers};

    ghost Value = { List ℕ };

    ghost view = { λ t. t.bytes };

    ghost invariant = { λ t. (is_table t.bytes ≡ true) × AreNumbers t.bytes t.numbers };
}

impl PairTable {
    /// The table of these bytes.
    pub(crate) fn new(bytes: [u8; 256]) -> PairTable
        requires { tables bytes ≡ true }
        ensures { result ≡ bytes }
    {
        let numbers = numbers_of(&bytes);
        PairTable { bytes, numbers }
    }

    /// The 256 bytes.
    pub fn bytes(&self) -> &[u8]
        ensures value { result.now ≡ self.now }
        ensures table { tables result.now ≡ true }
        ensures len { length result.now ≡ 256 }
    {
        &self.bytes
    }

    /// The first number of a pair, from 0 to 127, where the table has it.
    #[inline(always)]
    pub(crate) fn number_of(&self, a: u8, b: u8) -> Option<u8>
        ensures value { result ≡ number_of self.now (a, b) }
        ensures bound { IfSome result (λ n. n < 128) }
    {
        if !is_counted(a, b) {
            return self.search(a, b);
        }
        number_in(self.numbers[place_of(a, b)])
    }

    /// The same by a search of all pairs, for bytes that have no cell.
    #[cold]
    #[inline(never)]
    fn search(&self, a: u8, b: u8) -> Option<u8>
        ensures value { result ≡ number_of self.now (a, b) }
        ensures bound { IfSome result (λ n. n < 128) }
    {
        let mut number = 0;
        let mut left = self.bytes();
        'pairs: while let [c, d, rest @ ..] = left {
            if *c == a && *d == b {
                return Some(number);
            }
            number += 1;
            left = rest;
        }
        None
    }
}

/// The first number of each pair of bytes from 32 to 127, in the order of the pairs by their bytes. It is made once, so that
/// the number of a pair is one look-up.
fn numbers_of(bytes: &[u8; 256]) -> [u8; 9216]
    ensures { AreNumbers bytes.now result }
{
    let mut numbers = [128; 9216];
    let mut left = 128usize;
    // From the last pair to the first, so that the first of equal pairs is what stays.
    'pairs: while left > 0 {
        left -= 1;
        let a = bytes[2 * left];
        let b = bytes[2 * left + 1];
        if !is_counted(a, b) {
            continue;
        }
        numbers[place_of(a, b)] = left as u8;
    }
    numbers
}

/// The number that a cell tells.
#[inline(always)]
fn number_in(cell: u8) -> Option<u8>
    ensures value { result ≡ number_told cell }
    ensures bound { IfSome result (λ n. n < 128) }
{
    if cell < 128 { Some(cell) } else { None }
}

/// Whether both bytes are from 32 to 127.
#[inline(always)]
pub(crate) fn is_counted(a: u8, b: u8) -> bool
    ensures { result ≡ counted_pair (a, b) }
{
    is_plain(a) && is_plain(b)
}

/// The place of a pair of such bytes, in the order of all of them by their bytes.
#[inline(always)]
pub(crate) fn place_of(a: u8, b: u8) -> usize
    requires { counted_pair (a, b) ≡ true }
    ensures value { result ≡ index_of (a, b) }
    ensures within { result < 9216 }
{
    (a as usize - 32) * 96 + (b as usize - 32)
}

/// Whether a byte stands for itself: from 32 to 127.
#[inline(always)]
pub(crate) fn is_plain(byte: u8) -> bool
    ensures { result ≡ plain byte }
{
    32 <= byte && byte < 128
}

/// Whether these bytes are a table.
pub(crate) fn is_table(bytes: &[u8]) -> bool
    ensures { result ≡ tables bytes.now }
{
    bytes.len() == 256 && are_table_bytes(bytes)
}

/// Whether each byte is 0 or stands for itself.
fn are_table_bytes(bytes: &[u8]) -> bool
    ensures { result ≡ list_all table_byte bytes.now }
{
    bytes.iter().all(is_table_byte)
}

/// Whether a byte is 0 or stands for itself.
fn is_table_byte(byte: &u8) -> bool
    ensures { result ≡ table_byte byte.now }
{
    *byte == 0 || is_plain(*byte)
}
