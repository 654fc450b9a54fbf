//! Records of an old database that are kept.
ghost use Rattle.std.specs.Prelude.{◌≡◌, ◌<◌, ◌&&◌, ◌==◌, length, HoldsAt, IfSome, None, OnOk, true, false};
ghost use Rattle.std.specs.Option.{option_map_or};
ghost use Rattle.std.specs.Str.{bytes_eq};
ghost use Rattle.tree_scan.specs.Records.{Fitting, bears, is_vouched};

use crate::cursor::is_zero;
use path_order::{NameList, Stamp};
use std::alloc::AllocError;
use std::marker::Model;

/// A record with names that fit its path. A contract sees the record.
#[derive(Drop)]
pub(crate) struct Kept {
    path: Vec<u8>,
    stamp: Stamp,
    device: Option<u32>,
    names: NameList,
}

impl Model for Kept {
    ghost use Rattle.tree_scan.specs.Records.{Fitting, Record};

    ghost Value = { Record };

    ghost view = { λ kept. record { path = kept.path.items; stamp = kept.stamp; device = kept.device; names = kept.names } };

    ghost invariant = { λ kept. Fitting kept.path.items kept.names };
}

/// Whether a record that lies on this device, or on none, may vouch on that one.
fn is_on(known: Option<u32>, device: u32) -> bool
    ensures { result ≡ option_map_or (λ d. d == device) known true }
{
    match known {
        Some(known) => known == device,
        None => true,
    }
}

/// Puts names in place of those that are there.
fn copy_names(from: &NameList, into: &mut NameList) -> Result<(), AllocError>
    ensures { OnOk result (into.new ≡ from.now) }
{
    into.clear();
    for at in 0..from.len() {
        into.push(from.name(at), from.kind(at))?;
    }
    Ok(())
}

impl Kept {
    pub(crate) fn new(path: Vec<u8>, stamp: Stamp, device: Option<u32>, names: NameList) -> Kept
        requires { Fitting path.items names }
        ensures { result ≡ record { path = path.items; stamp = stamp; device = device; names = names } }
    {
        Kept {
            path,
            stamp,
            device,
            names,
        }
    }

    /// Whether it is of this path and bears this time, which is not zero, and no device or this one.
    fn vouches(&self, dir: &[u8], stamp: Stamp, device: u32) -> bool
        ensures { result ≡ (bytes_eq self.now.path dir.now && bears self.now stamp device) }
    {
        if is_zero(stamp) || !is_on(self.device, device) {
            return false;
        }
        if self.stamp.seconds() != stamp.seconds() || self.stamp.nanos() != stamp.nanos() {
            return false;
        }
        self.path.as_slice() == dir
    }

    /// Puts its names in place of those that are there.
    pub(crate) fn hand_out(&self, into: &mut NameList) -> Result<(), AllocError>
        ensures names { OnOk result (into.new ≡ self.now.names) }
        ensures fitting { Fitting self.now.path self.now.names }
    {
        copy_names(&self.names, into)
    }
}

/// Where the first of the records stands that vouches for a directory.
pub(crate) fn first_that_vouches(
    kept: &[Kept],
    dir: &[u8],
    stamp: Stamp,
    device: u32,
) -> Option<usize>
    ensures found { IfSome result (λ at. (at < length kept.now) × HoldsAt (λ r. (bytes_eq r.path dir.now && bears r stamp device) ≡ true) kept.now at) }
    ensures none { result ≡ None → is_vouched kept.now dir.now stamp device ≡ false }
{
    for at in 0..kept.len() {
        if kept[at].vouches(dir, stamp, device) {
            return Some(at);
        }
    }
    None
}
