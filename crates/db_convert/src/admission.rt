//! Which paths a format can hold.
ghost use Rattle.std.specs.Prelude.{◌≡◌, ℕ, List, ◌==◌, ◌<◌, ◌-◌, true, [], length, slice_index_or};
ghost use Rattle.std.specs.List.{list_any};
ghost use Rattle.db_convert.specs.declared.format.Format.TheVariants.{Mlocate};
ghost use Rattle.db_convert.specs.Admission.{is_admitted as admitted, refusal as refusal_of, first_refused as refused_first};

use crate::format::{AdmitCause, Format};
use crate::paths::Paths;
use memchr::memchr;
use path_order::{MAX_PATH, base_start, is_name, is_normal};

/// Whether the format can hold the path, which is one that a reader gives.
pub fn is_admitted(to: Format, path: &[u8]) -> bool
    ensures { result ≡ admitted to path.now }
{
    match to {
        Format::List => !has_newline(path),
        Format::Mlocate => is_normal(path) && path != b"/".as_slice(),
        Format::Locate02 => true,
        Format::Bigram => true,
        Format::List0 => true,
    }
}

/// Whether the path holds a newline.
fn has_newline(path: &[u8]) -> bool
    ensures { result ≡ list_any (λ b. b == 10) path.now }
{
    memchr(b'\n', path).is_some()
}

/// Whether a database of mlocate can hold the path, where it can hold the one before it. Where that begins with all that
/// stands before the path's name, the name alone is left to be tested.
#[inline(always)]
fn is_admitted_behind(before: &[u8], path: &[u8]) -> bool
    requires { admitted Mlocate before.now ≡ true }
    ensures { result ≡ admitted Mlocate path.now }
{
    let start = base_start(path);
    if start == 0 || before.len() < start || before[..start] != path[..start] {
        return is_admitted(Format::Mlocate, path);
    }
    path.len() <= MAX_PATH && is_name(&path[start..])
}

/// Whether the format can hold the path at this place, where it can hold the one before it.
#[inline(always)]
fn is_admitted_at(to: Format, paths: &Paths, at: usize) -> bool
    requires there { at < length paths.now }
    requires before { 0 < at → admitted to (slice_index_or paths.now (at - 1) []) ≡ true }
    ensures { result ≡ admitted to (slice_index_or paths.now at []) }
{
    let path = paths.at(at);
    match to {
        Format::Mlocate if at > 0 => is_admitted_behind(paths.at(at - 1), path),
        _ => is_admitted(to, path),
    }
}

/// Why the format refuses a path that it can't hold.
fn refusal(to: Format) -> AdmitCause
    ensures { result ≡ refusal_of to }
{
    match to {
        Format::List => AdmitCause::Newline,
        _ => AdmitCause::NotNormal,
    }
}

/// Whether the format is one that can hold every path.
fn holds_all(to: Format) -> bool
    ensures { result ≡ true → (path : List ℕ) → admitted to path ≡ true }
{
    match to {
        Format::List => false,
        Format::Mlocate => false,
        Format::Locate02 => true,
        Format::Bigram => true,
        Format::List0 => true,
    }
}

/// The first path that the format can't hold, by its place from 0, and why. `None` where it can hold all.
pub fn first_refused(to: Format, paths: &Paths) -> Option<(usize, AdmitCause)>
    ensures { result ≡ refused_first to paths.now }
{
    if holds_all(to) {
        return None;
    }
    'paths: for at in 0..paths.len() {
        if !is_admitted_at(to, paths, at) {
            return Some((at, refusal(to)));
        }
    }
    None
}
