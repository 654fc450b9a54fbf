//! The order in which a database of mlocate has its paths.
ghost use Rattle.std.specs.Prelude.{◌≡◌, true, ◌≤◌, ◌<◌, ◌++◌, OnOk, OnErr, IfOk, IsPermutation, length};
ghost use Rattle.std.specs.List.{dedup, flat_map, range_with_len};
ghost use Rattle.std.specs.List.Sorted.{IsSortedByKey};
ghost use Rattle.std.specs.Ordering.{eq_by_cmp, is_lt};
ghost use Rattle.db_convert.specs.Blocks.{entry_cmp, entry_of};
ghost use Rattle.db_convert.specs.Orders.{entry_at, HasSame, IsOrder, Rises};
ghost use Rattle.db_convert.specs.Runs.{places_in};

use crate::entry::{
    base, compare_directories, compare_entries, compare_names, is_same_entry, parent,
};
use crate::paths::Paths;
use std::alloc::{AllocError, Global};
use std::cmp::Ordering;

/// Paths of one directory that stand side by side: the place of the first, and the one behind the last.
#[derive(Clone, Copy)]
pub(crate) struct Run {
    pub(crate) first: usize,
    pub(crate) end: usize,
}

/// The place behind the paths that stand side by side from this one on in its directory.
fn run_end(paths: &Paths, first: usize) -> usize
    requires { first < length paths.now }
    ensures behind { first < result }
    ensures within { result ≤ length paths.now }
{
    let count = paths.len();
    let dir = parent(paths.at(first));
    let mut end = first + 1;
    'same: while end < count && parent(paths.get(end)) == dir {
        end += 1;
    }
    end
}

/// All paths in runs, one after another.
fn all_runs(alloc: Global, paths: &Paths) -> Result<Vec<Run>, AllocError>
    ensures { IfOk result (λ runs. flat_map places_in runs.items ≡ range_with_len 0 (length paths.now)) }
{
    let mut runs = Vec::new(alloc);
    let mut first = 0;
    'runs: while first < paths.len() {
        let end = run_end(paths, first);
        runs.push(Run { first, end })?;
        first = end;
    }
    Ok(runs)
}

/// Puts runs in the order of their directories, where runs of the same stay as they were.
fn sort_runs(paths: &Paths, runs: &mut Vec<Run>) -> Result<(), AllocError>
    ensures { IsPermutation runs.old.items runs.new.items }
{
    runs.sort_by(|a, b| {
        compare_directories(parent(paths.get(a.first)), parent(paths.get(b.first)))
    })?;
    Ok(())
}

/// Appends the places of a run.
fn push_places(places: &mut Vec<usize>, run: Run) -> Result<(), AllocError>
    ensures { OnOk result (places.new.items ≡ places.old.items ++ places_in run) }
{
    'places: for at in run.first..run.end {
        places.push(at)?;
    }
    Ok(())
}

/// The places of all these runs.
fn places_of(alloc: Global, runs: &[Run]) -> Result<Vec<usize>, AllocError>
    ensures { IfOk result (λ places. places.items ≡ flat_map places_in runs.now) }
{
    let mut places = Vec::new(alloc);
    'runs: for run in runs {
        push_places(&mut places, *run)?;
    }
    Ok(places)
}

/// The places of all paths, by their directories in path order.
fn all_places(alloc: Global, paths: &Paths) -> Result<Vec<usize>, AllocError>
    ensures { IfOk result (λ places. HasSame places.items (range_with_len 0 (length paths.now))) }
{
    let mut runs = all_runs(alloc, paths)?;
    sort_runs(paths, &mut runs)?;
    let places = places_of(alloc, &runs)?;
    Ok(places)
}

/// Whether the first of two paths comes before the other.
#[inline(always)]
fn is_below(a: &[u8], b: &[u8]) -> bool
    ensures { result ≡ is_lt (entry_cmp (entry_of a.now) (entry_of b.now)) }
{
    compare_entries(a, b) == Ordering::Less
}

/// Whether the paths at these places stand in order, each once.
fn is_in_order(paths: &Paths, places: &[usize]) -> bool
    ensures { result ≡ true → Rises paths.now places.now (length places.now) }
{
    'places: for at in 1..places.len() {
        let before = paths.get(places[at - 1]);
        let here = paths.get(places[at]);
        if !is_below(before, here) {
            return false;
        }
    }
    true
}

/// The end of the places from this one on whose paths are in one directory.
fn stretch_end(paths: &Paths, places: &[usize], first: usize) -> usize
    requires { first < length places.now }
    ensures behind { first < result }
    ensures within { result ≤ length places.now }
{
    let dir = parent(paths.get(places[first]));
    let mut end = first + 1;
    'same: while end < places.len() && parent(paths.get(places[end])) == dir {
        end += 1;
    }
    end
}

/// Puts the places from one to another in the order of the names there.
fn sort_names(
    alloc: Global,
    paths: &Paths,
    places: &mut [usize],
    first: usize,
    end: usize,
) -> Result<(), AllocError>
    requires forth { first ≤ end }
    requires within { end ≤ length places.old }
    ensures { IsPermutation places.old places.new }
{
    places[first..end].sort_by(alloc, |a, b| {
        compare_names(base(paths.get(*a)), base(paths.get(*b)))
    })
}

/// Puts the places of each directory, which stand side by side, in the order of the names there. Few are then out of order.
fn sort_stretches(alloc: Global, paths: &Paths, places: &mut [usize]) -> Result<(), AllocError>
    ensures { IsPermutation places.old places.new }
{
    let mut first = 0;
    'stretches: while first < places.len() {
        let end = stretch_end(paths, places, first);
        sort_names(alloc, paths, places, first, end)?;
        first = end;
    }
    Ok(())
}

/// The same of all places.
fn sort_directories(alloc: Global, paths: &Paths, places: &mut Vec<usize>) -> Result<(), AllocError>
    ensures { IsPermutation places.old.items places.new.items }
{
    sort_stretches(alloc, paths, places.as_mut_slice())
}

/// Puts places in the order of the paths that stand there, where equal paths stay side by side.
fn sort_places(paths: &Paths, places: &mut Vec<usize>) -> Result<(), AllocError>
    ensures same { IsPermutation places.old.items places.new.items }
    ensures sorted { OnOk result (IsSortedByKey (entry_at paths.now) entry_cmp places.new.items) }
{
    places.sort_by(|a, b| compare_entries(paths.get(*a), paths.get(*b)))?;
    Ok(())
}

/// Keeps the first of the equal paths that stand side by side.
fn drop_repeats(paths: &Paths, places: &mut Vec<usize>)
    ensures { places.new.items ≡ dedup (λ next kept. eq_by_cmp entry_cmp (entry_at paths.now next) (entry_at paths.now kept)) places.old.items }
{
    let same = |next: &mut usize, kept: &mut usize| -> bool
        ensures { (result ≡ eq_by_cmp entry_cmp (entry_at paths.entry.now next.entry.now) (entry_at paths.entry.now kept.entry.now)) × ((next.exit.now ≡ next.entry.now) × (kept.exit.now ≡ kept.entry.now)) }
    { is_same_entry(paths.get(*next), paths.get(*kept)) };
    places.dedup_by(same);
}

/// The places of the paths by their directories in path order and then by their names, each path once.
pub(crate) fn order_of(alloc: Global, paths: &Paths) -> Result<Vec<usize>, AllocError>
    ensures { IfOk result (λ places. IsOrder paths.now places.items) }
{
    let mut places = all_places(alloc, paths)?;
    if is_in_order(paths, &places) {
        return Ok(places);
    }
    sort_directories(alloc, paths, &mut places)?;
    if is_in_order(paths, &places) {
        return Ok(places);
    }
    sort_places(paths, &mut places)?;
    drop_repeats(paths, &mut places);
    Ok(places)
}
