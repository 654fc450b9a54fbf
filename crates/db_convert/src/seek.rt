//! Where a directory is among the paths of a list, which stand in order.
ghost use Rattle.std.specs.Prelude.{◌≡◌, ◌<◌, ◌≤◌, false, length};
ghost use Rattle.db_convert.specs.Blocks.{kind_in};
ghost use Rattle.db_convert.specs.Orders.{IsAhead, IsOrder, IsPast, is_before as before};

use crate::entry::{compare_directories, parent};
use crate::paths::Paths;
use path_order::Kind;
use std::cmp::Ordering;

/// Whether the directory of the path at this place of the order comes before another.
#[inline(always)]
fn is_before(paths: &Paths, places: &[usize], dir: &[u8], at: usize) -> bool
    requires { at < length places.now }
    ensures { result ≡ before paths.now places.now dir.now at }
{
    compare_directories(parent(paths.get(places[at])), dir) == Ordering::Less
}

/// A place of the order that is past no more than it may be: the one that is guessed, or the first.
#[inline(always)]
fn place_near(paths: &Paths, places: &[usize], dir: &[u8], near: usize) -> usize
    ensures within { result ≤ length places.now }
    ensures past { IsPast paths.now places.now dir.now result }
{
    if near > 0 && near <= places.len() && is_before(paths, places, dir, near - 1) {
        near
    } else {
        0
    }
}

/// A place from here on that is far enough, found in steps that double.
fn place_ahead(paths: &Paths, places: &[usize], dir: &[u8], low: usize) -> usize
    requires { low ≤ length places.now }
    ensures from { low ≤ result }
    ensures within { result ≤ length places.now }
    ensures ahead { IsAhead paths.now places.now dir.now result }
{
    let mut high = low;
    let mut step = 1;
    'steps: while high < places.len() && is_before(paths, places, dir, high) {
        let left = places.len() - high;
        if step < left {
            high += step;
            step += step;
        } else {
            high = places.len();
        }
    }
    high
}

/// The place between two where the directory would stand, found by halving.
fn place_between(
    paths: &Paths,
    places: &[usize],
    dir: &[u8],
    mut low: usize,
    mut high: usize,
) -> usize
    requires within { high ≤ length places.now }
    requires order { low ≤ high }
    requires past { IsPast paths.now places.now dir.now low }
    requires ahead { IsAhead paths.now places.now dir.now high }
    ensures within { result ≤ length places.now }
    ensures past { IsPast paths.now places.now dir.now result }
    ensures ahead { IsAhead paths.now places.now dir.now result }
{
    'halves: while low < high {
        let middle = low + (high - low) / 2;
        if is_before(paths, places, dir, middle) {
            low = middle + 1;
        } else {
            high = middle;
        }
    }
    low
}

/// The first place of the order whose path isn't in a directory before this one. It is sought from a place on that is
/// guessed: the nearer that is, the sooner it is found.
#[inline(always)]
pub(crate) fn seek(paths: &Paths, places: &[usize], dir: &[u8], near: usize) -> usize
    ensures within { result ≤ length places.now }
    ensures past { IsPast paths.now places.now dir.now result }
    ensures ahead { IsAhead paths.now places.now dir.now result }
{
    let low = place_near(paths, places, dir, near);
    let high = place_ahead(paths, places, dir, low);
    place_between(paths, places, dir, low, high)
}

/// Whether the path is the directory of one of the paths. The place is where that is sought in their order.
#[inline(always)]
pub(crate) fn kind_at(paths: &Paths, places: &[usize], path: &[u8], place: usize) -> Kind
    requires order { IsOrder paths.now places.now }
    requires within { place ≤ length places.now }
    requires past { IsPast paths.now places.now path.now place }
    requires ahead { IsAhead paths.now places.now path.now place }
    ensures { result ≡ kind_in paths.now path.now }
{
    if place < places.len() && parent(paths.get(places[place])) == path {
        Kind::Directory
    } else {
        Kind::File
    }
}
