//! Units, as they go into a path.
ghost use Rattle.std.specs.Prelude.{◌≡◌, ◌≤◌, ◌<◌, ◌-◌, ◌+◌, ◌*◌, ◌++◌, ◌∷◌, [], ◌↔◌, length, take, drop, IsOk, Ok, OnOk, IfErr, All, List, ℕ};
ghost use Rattle.std.specs.Bool.{OnTrue, OnFalse};
ghost use Rattle.byte_feed.specs.Field.{max_path};
ghost use Rattle.bigram_db.specs.Entries.{Pushes, SpellsText};

use byte_feed::{Break, DamageCause, Stop};
use path_order::PathBuf;

/// Appends the units that stand first in these bytes, up to an escape, the end of an entry, or a unit that is not
/// appended. The answer is how many bytes they take.
#[inline(always)]
pub(crate) fn push_units(path: &mut PathBuf, table: &[u8; 256], bytes: &[u8]) -> usize
    requires plain { All (λ b. 0 < b) path.old }
    ensures within { result ≤ length bytes.now }
    ensures units { SpellsText table.now (take result bytes.now) (drop (length path.old) path.new) }
    ensures begins { take (length path.old) path.new ≡ path.old }
    ensures grown { result + length path.old ≤ length path.new }
    ensures plain { All (λ b. 0 < b) path.new }
    ensures fits { length path.new ≤ 4096 }
{
    let _ = path.bytes();
    let mut taken = 0;
    'units: while taken < bytes.len() {
        let first = bytes[taken];
        if first <= 31 {
            return taken;
        }
        if !push_quickly(path, table, first) {
            return taken;
        }
        taken += 1;
    }
    taken
}

/// Appends what a byte above 31 stands for, where it stands for something and two bytes more fit. The answer is whether
/// it did. Both kinds of units go one way, since a branch on them is hard to predict.
#[inline(always)]
fn push_quickly(path: &mut PathBuf, table: &[u8; 256], first: u8) -> bool
    requires first { 31 < first }
    requires plain { All (λ b. 0 < b) path.old }
    ensures unit { OnTrue result (Pushes table.now (max_path - length path.old) first [] (drop (length path.old) path.new) (Ok tt)) }
    ensures none { OnFalse result (path.new ≡ path.old) }
    ensures begins { take (length path.old) path.new ≡ path.old }
    ensures grows { OnTrue result (length path.old < length path.new) }
    ensures plain { All (λ b. 0 < b) path.new }
    ensures fits { length path.new ≤ 4096 }
{
    let _ = path.bytes();
    let pairs = pairs_of(first);
    let place = 2 * (first - 128 * pairs) as usize;
    let one = table[place];
    let two = table[place + 1];
    let front = choose(pairs, one, first);
    if front == 0 {
        return false;
    }
    if two < pairs {
        return false;
    }
    push_front(path, front, two, pairs)
}

/// 1 for a byte that stands for a pair, 0 for another.
#[inline(always)]
fn pairs_of(first: u8) -> u8
    ensures pair { 128 ≤ first → result ≡ 1 }
    ensures other { first < 128 → result ≡ 0 }
    ensures most { result ≤ 1 }
    ensures within { 128 * result ≤ first }
    ensures below { first - 128 * result < 128 }
{
    first / 128
}

/// The first of two bytes for 1, the other for 0.
#[inline(always)]
fn choose(number: u8, one: u8, other: u8) -> u8
    ensures one { number ≡ 1 → result ≡ one }
    ensures other { number ≡ 0 → result ≡ other }
{
    if number == 1 { one } else { other }
}

/// Appends a byte, and so many of one behind it, where two more fit.
#[inline(always)]
fn push_front(path: &mut PathBuf, front: u8, behind: u8, more: u8) -> bool
    requires some { 0 < front }
    requires most { more ≤ 1 }
    requires none_zero { more ≤ behind }
    requires plain { All (λ b. 0 < b) path.old }
    ensures text { OnTrue result (path.new ≡ path.old ++ front ∷ take more (behind ∷ [])) }
    ensures room { OnTrue result (length path.old + 2 ≤ 4096) }
    ensures none { OnFalse result (path.new ≡ path.old) }
    ensures begins { take (length path.old) path.new ≡ path.old }
    ensures grows { OnTrue result (length path.old < length path.new) }
    ensures plain { All (λ b. 0 < b) path.new }
    ensures fits { length path.new ≤ 4096 }
{
    let len = path.bytes().len();
    if path.append(&[front, behind]).is_err() {
        return false;
    }
    path.cut(len + 1 + more as usize);
    true
}

/// Appends what a byte other than 31 stands for: itself, or a pair of the table.
#[inline(always)]
pub(crate) fn push_unit(path: &mut PathBuf, table: &[u8; 256], first: u8) -> Result<(), Break>
    requires first { 31 < first }
    requires plain { All (λ b. 0 < b) path.old }
    ensures unit { Pushes table.now (max_path - length path.old) first [] (drop (length path.old) path.new) result }
    ensures begins { take (length path.old) path.new ≡ path.old }
    ensures grows { OnOk result (length path.old < length path.new) }
    ensures grown { length path.old ≤ length path.new }
    ensures plain { All (λ b. 0 < b) path.new }
    ensures fits { length path.new ≤ 4096 }
{
    let _ = path.bytes();
    if first < 128 {
        return push_all(path, &[first]);
    }
    let place = 2 * (first as usize - 128);
    let pair = [table[place], table[place + 1]];
    if pair[0] == 0 {
        return Err(Break::Stopped(Stop::Broken(DamageCause::EmptyPair)));
    }
    if pair[1] == 0 {
        return Err(Break::Stopped(Stop::Broken(DamageCause::EmptyPair)));
    }
    push_all(path, &pair)
}

/// Appends a byte that stands behind 31.
#[inline(always)]
pub(crate) fn push_escaped(path: &mut PathBuf, byte: u8) -> Result<(), Break>
    requires { All (λ b. 0 < b) path.old }
    ensures unit { (table : List ℕ) → Pushes table (max_path - length path.old) 31 (byte ∷ []) (drop (length path.old) path.new) result }
    ensures begins { take (length path.old) path.new ≡ path.old }
    ensures grows { OnOk result (length path.old < length path.new) }
    ensures grown { length path.old ≤ length path.new }
    ensures plain { All (λ b. 0 < b) path.new }
    ensures fits { length path.new ≤ 4096 }
{
    let _ = path.bytes();
    if byte == 0 {
        return Err(Break::Stopped(Stop::Broken(DamageCause::ZeroChar)));
    }
    push_all(path, &[byte])
}

/// Appends bytes to a path, where they fit.
#[inline(always)]
fn push_all(path: &mut PathBuf, bytes: &[u8]) -> Result<(), Break>
    requires some { 0 < length bytes.now }
    requires plain { All (λ b. 0 < b) path.old }
    requires none_zero { All (λ b. 0 < b) bytes.now }
    ensures variant { IsOk result ↔ (length path.old + length bytes.now ≤ 4096) }
    ensures ok { OnOk result (path.new ≡ path.old ++ bytes.now) }
    ensures err { IfErr result (λ e. (e ≡ Break.Stopped (Stop.Broken DamageCause.LongPath)) × (path.new ≡ path.old)) }
    ensures begins { take (length path.old) path.new ≡ path.old }
    ensures grows { OnOk result (length path.old < length path.new) }
    ensures grown { length path.old ≤ length path.new }
    ensures plain { All (λ b. 0 < b) path.new }
    ensures fits { length path.new ≤ 4096 }
{
    let _ = path.bytes();
    match path.append(bytes) {
        Ok(()) => Ok(()),
        Err(_) => Err(Break::Stopped(Stop::Broken(DamageCause::LongPath))),
    }
}
