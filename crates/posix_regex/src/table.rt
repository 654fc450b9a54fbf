//! A table of the sets between which a search moves, with which it takes one look-up a byte.
ghost use Rattle.std.specs.Prelude.{◌≡◌, ◌⊎◌, ◌↔◌, ℕ, ◌+◌, ◌<◌, ◌≤◌, ◌==◌, ◌||◌, true, List, Some, length, slice_get, slice_index, Contains, IsTrue, IfOk, IfSome};
ghost use Rattle.posix_regex.specs.Moves.{ReachesEnd};
ghost use Rattle.posix_regex.specs.Table.{has_state, states_of, Begins, Stepped, Follows, Ends, Entry, Grown, IsMade, IsTable};

use crate::row::Row;
use crate::search::spread;
use crate::state_set::StateSet;
use crate::states::States;
use byte_class::Steps;
use std::alloc::{AllocError, Global};
use std::marker::Brand;
use std::sync::ledger::{Blank, Ledger};

/// The most states for which a table is made: they and their end are the bits of a set.
const MAX_STATES: usize = 63;

/// The most sets for which a table is made.
const MAX_SETS: usize = 128;

/// What stands in a row in place of a set's number where the end is reached.
const FOUND: u8 = 255;

/// Whether a state is in a set.
fn has_state(set: u64, state: usize) -> bool
    requires { state < 64 }
    ensures { result ≡ has_state set state }
{
    (set >> state) & 1 == 1
}

/// The set with a state more.
fn with_state(set: u64, state: usize) -> u64
    requires { state < 64 }
    ensures { (other : ℕ) → has_state result other ≡ (has_state set other || other == state) }
{
    set | 1 << state
}

/// Inserts a state, if it is in the set.
fn insert_one(set: u64, state: usize, now: &mut StateSet)
    requires { state < 64 }
    ensures width { now.new.width ≡ now.old.width }
    ensures kept { (s : ℕ) → Contains now.old.order s → Contains now.new.order s }
    ensures has { state < now.old.width → IsTrue (has_state set state) → Contains now.new.order state }
    ensures only { (s : ℕ) → Contains now.new.order s → Contains now.old.order s ⊎ ((s ≡ state) × IsTrue (has_state set state)) }
{
    if !has_state(set, state) {
        return;
    }
    now.insert(state);
}

/// Inserts the states of a set that are below a number.
fn insert_all(set: u64, below: usize, now: &mut StateSet)
    requires bits { below ≤ 64 }
    requires width { below ≤ now.old.width }
    ensures width { now.new.width ≡ now.old.width }
    ensures kept { (s : ℕ) → Contains now.old.order s → Contains now.new.order s }
    ensures has { (s : ℕ) → s < below → IsTrue (has_state set s) → Contains now.new.order s }
    ensures only { (s : ℕ) → Contains now.new.order s → Contains now.old.order s ⊎ ((s < below) × IsTrue (has_state set s)) }
{
    for state in 0..below {
        insert_one(set, state, now);
    }
}

/// The set of the reached states.
fn set_of(reached: &StateSet) -> u64
    requires { reached.now.width ≤ 64 }
    ensures { (s : ℕ) → (IsTrue (has_state result s) ↔ Contains reached.now.order s) }
{
    let mut set = 0;
    let mut k = 0;
    while k < reached.len() {
        set = with_state(set, reached.at(k));
        k += 1;
    }
    set
}

/// The set to which the states of a set and the first state lead by the byte at a place, none where the end is reached
/// there.
fn step<L: Ledger>(
    states: &States,
    set: u64,
    text: &[u8],
    at: usize,
    now: &mut StateSet,
    next: &mut StateSet,
    steps: &mut Steps<L>,
) -> Option<u64>
    requires place { at ≤ length text.now }
    requires few { length states.now < 64 }
    requires now_width { now.old.width ≡ length states.now + 1 }
    requires next_width { next.old.width ≡ length states.now + 1 }
    ensures now_width { now.new.width ≡ length states.now + 1 }
    ensures next_width { next.new.width ≡ length states.now + 1 }
    ensures value { Stepped states.now text.now at set result }
{
    now.clear();
    next.clear();
    now.insert(0);
    insert_all(set, states.len() + 1, now);
    if spread(states, text, at, now, next, steps) {
        return None;
    }
    Some(set_of(next))
}

/// The set to which a set leads by a byte, at the first place or at one further on.
fn following<L: Ledger>(
    states: &States,
    first: bool,
    byte: u8,
    set: u64,
    now: &mut StateSet,
    next: &mut StateSet,
    steps: &mut Steps<L>,
) -> Option<u64>
    requires few { length states.now < 64 }
    requires now_width { now.old.width ≡ length states.now + 1 }
    requires next_width { next.old.width ≡ length states.now + 1 }
    ensures now_width { now.new.width ≡ length states.now + 1 }
    ensures next_width { next.new.width ≡ length states.now + 1 }
    ensures value { Follows states.now first byte set result }
{
    if first {
        return step(states, set, &[byte], 0, now, next, steps);
    }
    step(states, set, &[0, byte], 1, now, next, steps)
}

/// Whether a set leads to the end at the last place, in the empty text or in another.
fn ends<L: Ledger>(
    states: &States,
    first: bool,
    set: u64,
    now: &mut StateSet,
    next: &mut StateSet,
    steps: &mut Steps<L>,
) -> bool
    requires few { length states.now < 64 }
    requires now_width { now.old.width ≡ length states.now + 1 }
    requires next_width { next.old.width ≡ length states.now + 1 }
    ensures now_width { now.new.width ≡ length states.now + 1 }
    ensures next_width { next.new.width ≡ length states.now + 1 }
    ensures value { Ends states.now first set result }
{
    if first {
        return step(states, set, &[], 0, now, next, steps).is_none();
    }
    step(states, set, &[0], 1, now, next, steps).is_none()
}

/// The number of a set among those after the first, which is added where it is new; none where there is no room.
fn number_of(sets: &mut Vec<u64>, set: u64) -> Result<Option<u8>, AllocError>
    requires some { 0 < length sets.old.items }
    requires room { length sets.old.items ≤ 128 }
    ensures grown { Grown sets.old.items sets.new.items }
    ensures few { length sets.new.items ≤ 128 }
    ensures longer { length sets.old.items ≤ length sets.new.items }
    ensures value { IfOk result (λ number. IfSome number (λ n. (0 < n) × (n < length sets.new.items) × (slice_get sets.new.items n ≡ Some set))) }
{
    let len = sets.len();
    for number in 1..len {
        if sets[number] == set {
            return Ok(Some(number as u8));
        }
    }
    if len >= MAX_SETS {
        return Ok(None);
    }
    sets.push(set)?;
    Ok(Some(len as u8))
}

/// What stands in a row for a byte, none where there is no room for a set more.
fn entry<L: Ledger>(
    states: &States,
    first: bool,
    byte: u8,
    set: u64,
    sets: &mut Vec<u64>,
    now: &mut StateSet,
    next: &mut StateSet,
    steps: &mut Steps<L>,
) -> Result<Option<u8>, AllocError>
    requires few { length states.now < 64 }
    requires now_width { now.old.width ≡ length states.now + 1 }
    requires next_width { next.old.width ≡ length states.now + 1 }
    requires some { 0 < length sets.old.items }
    requires room { length sets.old.items ≤ 128 }
    ensures now_width { now.new.width ≡ length states.now + 1 }
    ensures next_width { next.new.width ≡ length states.now + 1 }
    ensures grown { Grown sets.old.items sets.new.items }
    ensures few { length sets.new.items ≤ 128 }
    ensures longer { length sets.old.items ≤ length sets.new.items }
    ensures value { IfOk result (λ entry. IfSome entry (λ e. Entry states.now sets.new.items first byte set e)) }
{
    match following(states, first, byte, set, now, next, steps) {
        None => Ok(Some(FOUND)),
        Some(next_set) => number_of(sets, next_set),
    }
}

/// The row of a set, none where there is no room for a set more.
fn row<L: Ledger>(
    states: &States,
    number: usize,
    sets: &mut Vec<u64>,
    now: &mut StateSet,
    next: &mut StateSet,
    steps: &mut Steps<L>,
) -> Result<Option<Row>, AllocError>
    requires few { length states.now < 64 }
    requires now_width { now.old.width ≡ length states.now + 1 }
    requires next_width { next.old.width ≡ length states.now + 1 }
    requires some { number < length sets.old.items }
    requires room { length sets.old.items ≤ 128 }
    ensures now_width { now.new.width ≡ length states.now + 1 }
    ensures next_width { next.new.width ≡ length states.now + 1 }
    ensures grown { Grown sets.old.items sets.new.items }
    ensures few { length sets.new.items ≤ 128 }
    ensures longer { length sets.old.items ≤ length sets.new.items }
    ensures value { IfOk result (λ row. IfSome row (λ r. IsMade states.now sets.new.items number r)) }
{
    let set = sets[number];
    let end = ends(states, number == 0, set, now, next, steps);
    let mut entries = [FOUND; 256];
    for byte in 0..256usize {
        match entry(states, number == 0, byte as u8, set, sets, now, next, steps)? {
            None => return Ok(None),
            Some(next_entry) => entries[byte] = next_entry,
        }
    }
    Ok(Some(Row::new(number as u8, entries, end)))
}

/// The rows of a table, none where there is no room for a set more. It counts steps of its own.
fn rows<L: Ledger>(
    alloc: Global,
    blank: Blank,
    states: &States,
    now: &mut StateSet,
    next: &mut StateSet,
) -> Result<Option<Vec<Row>>, AllocError>
    requires name { blank.name ≡ L.name }
    requires parts { blank.parts ≡ L.parts }
    requires some { 0 < L.parts }
    requires few { length states.now < 64 }
    requires now_width { now.old.width ≡ length states.now + 1 }
    requires next_width { next.old.width ≡ length states.now + 1 }
    ensures now_width { now.new.width ≡ length states.now + 1 }
    ensures next_width { next.new.width ≡ length states.now + 1 }
    ensures value { IfOk result (λ rows. IfSome rows (λ r. IsTable states.now r.items)) }
{
    let mut steps = Steps::<L>::new(blank);
    let mut sets = vec![in alloc; 0u64; 1]?;
    let mut rows = Vec::new(alloc);
    while rows.len() < sets.len() {
        let number = rows.len();
        match row(states, number, &mut sets, now, next, &mut steps)? {
            None => return Ok(None),
            Some(made) => rows.push(made)?,
        }
    }
    Ok(Some(rows))
}

/// The rows of a table for the states, none where they are too many or lead to too many sets.
pub(crate) fn table_of(
    alloc: Global,
    states: &States,
    now: &mut StateSet,
    next: &mut StateSet,
) -> Result<Option<Vec<Row>>, AllocError>
    requires now_width { now.old.width ≡ length states.now + 1 }
    requires next_width { next.old.width ≡ length states.now + 1 }
    ensures now_width { now.new.width ≡ length states.now + 1 }
    ensures next_width { next.new.width ≡ length states.now + 1 }
    ensures value { IfOk result (λ rows. IfSome rows (λ r. IsTable states.now r.items)) }
{
    if states.len() > MAX_STATES {
        return Ok(None);
    }
    rows::<Brand>(alloc, Blank::new(1), states, now, next)
}

/// Whether the states reach their end somewhere in the text, by their table.
pub(crate) fn search_by<L: Ledger>(
    states: &States,
    rows: &[Row],
    text: &[u8],
    steps: &mut Steps<L>,
) -> bool
    requires { IsTable states.now rows.now }
    ensures value { IsTrue result ↔ ReachesEnd states.now text.now }
    ensures rising { steps.old ≤ steps.new }
    ensures bound { steps.new ≤ steps.old + length text.now }
{
    let mut number = 0;
    let mut at = 0;
    while at < text.len() {
        let entry = rows[number].after(text[at], steps);
        if entry == FOUND {
            return true;
        }
        number = entry as usize;
        at = rows[number].next_place(text, at + 1);
    }
    rows[number].ends()
}
