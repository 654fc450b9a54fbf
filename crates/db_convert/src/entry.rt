//! A path as its directory and its name.
ghost use Rattle.std.specs.Prelude.{◌≡◌, ◌+◌, drop, length};
ghost use Rattle.std.specs.Ordering.{eq_by_cmp};
ghost use Rattle.std.specs.Str.{bytes_eq};
ghost use Rattle.path_order.specs.Order.{path_cmp};
ghost use Rattle.path_order.specs.Path.{parent_of, base_of};
ghost use Rattle.db_convert.specs.Blocks.{byte_cmp, entry_of, entry_cmp};

use byte_feed::common_prefix;
use path_order::{base_start, compare_paths};
use std::cmp::Ordering;

/// The path's directory: what stands before its last slash, or the root where that is nothing.
#[inline(always)]
pub(crate) fn parent(path: &[u8]) -> &[u8]
    ensures { result.now ≡ parent_of path.now }
{
    let start = base_start(path);
    if start > 1 { &path[..start - 1] } else { b"/" }
}

/// The path's name: what stands after its last slash.
#[inline(always)]
pub(crate) fn base(path: &[u8]) -> &[u8]
    ensures { result.now ≡ base_of path.now }
{
    &path[base_start(path)..]
}

/// The path's directory and its name.
#[inline(always)]
pub(crate) fn split(path: &[u8]) -> (&[u8], &[u8])
    ensures dir { result.0.now ≡ parent_of path.now }
    ensures name { result.1.now ≡ base_of path.now }
{
    let start = base_start(path);
    let dir = if start > 1 {
        &path[..start - 1]
    } else {
        b"/".as_slice()
    };
    (dir, &path[start..])
}

/// Compares two texts in path order. What both begin with is skipped in blocks.
#[inline(always)]
pub(crate) fn compare_directories(a: &[u8], b: &[u8]) -> Ordering
    ensures { result ≡ path_cmp a.now b.now }
{
    let same = common_prefix(a, b);
    compare_paths(&a[same..], &b[same..])
}

/// Compares two texts by their bytes, in the same way.
#[inline(always)]
pub(crate) fn compare_names(a: &[u8], b: &[u8]) -> Ordering
    ensures { result ≡ byte_cmp a.now b.now }
{
    let same = common_prefix(a, b);
    a[same..].cmp(&b[same..])
}

/// Compares two paths by their directories in path order, and by their names where these are equal. Most paths that are
/// compared have the same directory.
#[inline(always)]
pub(crate) fn compare_entries(a: &[u8], b: &[u8]) -> Ordering
    ensures { result ≡ entry_cmp (entry_of a.now) (entry_of b.now) }
{
    let (a_dir, a_name) = split(a);
    let (b_dir, b_name) = split(b);
    if a_dir == b_dir {
        return compare_names(a_name, b_name);
    }
    match compare_directories(a_dir, b_dir) {
        Ordering::Equal => compare_names(a_name, b_name),
        other => other,
    }
}

/// Whether two paths have the same directory and the same name.
#[inline(always)]
pub(crate) fn is_same_entry(a: &[u8], b: &[u8]) -> bool
    ensures { result ≡ eq_by_cmp entry_cmp (entry_of a.now) (entry_of b.now) }
{
    let (a_dir, a_name) = split(a);
    let (b_dir, b_name) = split(b);
    a_name == b_name && a_dir == b_dir
}
