//! The row that a line of a mount table is.
ghost use Rattle.std.specs.Prelude.{◌≡◌, ◌≢◌, ◌+◌, ◌<◌, length, drop, slice_get, bytes_eq, codes, Ok, Err, IfOk, IfErr, IfNone, IfSome};
ghost use Rattle.std.specs.List.{after_first};
ghost use Rattle.std.specs.Option.{option_copied};
ghost use Rattle.mount_table.specs.Device.{packed_device};
ghost use Rattle.mount_table.specs.Line.{fields};
ghost use Rattle.mount_table.specs.Lookup.{shows_elsewhere};
ghost use Rattle.mount_table.specs.Row.{MountRow, nth_field, row_of};
ghost use Rattle.mount_table.specs.declared.fault.MountCause.TheVariants.{OutOfMemory};

use crate::device::{pack_device, read_device};
use crate::escape::unescape;
use crate::fault::MountCause;
use crate::line::split_field;
use crate::prefix::{begins_at_root, leads_elsewhere};
use std::alloc::Global;
use std::marker::Model;

/// A row of a mount table, with its escapes read.
#[derive(Drop)]
pub(crate) struct Row {
    major: u32,
    minor: u32,
    root: Vec<u8>,
    point: Vec<u8>,
    kind: Vec<u8>,
}

impl Model for Row {
    ghost use Rattle.mount_table.specs.Row.{MountRow};

    ghost Value = { MountRow };

    ghost view = { λ r. record { major = r.major; minor = r.minor; root = r.root.items; point = r.point.items; kind = r.kind.items } };
}

impl Row {
    /// The mount point, with its escapes read.
    pub(crate) fn point(&self) -> &[u8]
        ensures { result.now ≡ self.now.point }
    {
        self.point.as_slice()
    }

    /// The type of the file system.
    pub(crate) fn kind(&self) -> &[u8]
        ensures { result.now ≡ self.now.kind }
    {
        self.kind.as_slice()
    }

    /// The device in one number of 32 bits, or 0.
    pub(crate) fn device(&self) -> u32
        ensures { result ≡ packed_device self.now.major self.now.minor }
    {
        pack_device(self.major, self.minor)
    }

    /// Whether an earlier row shows, at another path than this, what this row shows there.
    #[tactic(auto, unfolding(crate::specs::Lookup::shows_elsewhere))]
    pub(crate) fn is_elsewhere(&self, path: &[u8], earlier: &Row) -> bool
        ensures { result ≡ shows_elsewhere path.now self.now earlier.now }
    {
        earlier.major == self.major
            && earlier.minor == self.minor
            && leads_elsewhere(&earlier.root, &self.root, &earlier.point, path)
    }
}

/// The fields of a line that a row needs, and what follows the sixth field.
#[derive(Clone, Copy)]
struct Parts<'a> {
    device: &'a [u8],
    root: &'a [u8],
    point: &'a [u8],
    rest: &'a [u8],
}

/// The third, fourth and fifth field, and what follows the sixth. `None` where there are fewer than six.
fn split_parts(line: &[u8]) -> Option<Parts<'_>>
    ensures none { IfNone result (length (fields line.now) < 6) }
    ensures some { IfSome result (λ p. (length (fields line.now) ≡ 6 + length (fields p.rest.now))
        × (nth_field (fields line.now) 3 ≡ p.device.now) × (nth_field (fields line.now) 4 ≡ p.root.now)
        × (nth_field (fields line.now) 5 ≡ p.point.now) × (drop 6 (fields line.now) ≡ fields p.rest.now)) }
{
    let (_id, rest) = split_field(line)?;
    let (_parent, rest) = split_field(rest)?;
    let (device, rest) = split_field(rest)?;
    let (root, rest) = split_field(rest)?;
    let (point, rest) = split_field(rest)?;
    let (_options, rest) = split_field(rest)?;
    Some(Parts {
        device,
        root,
        point,
        rest,
    })
}

/// The field after the first `-`.
fn read_kind(text: &[u8]) -> Option<&[u8]>
    ensures { option_copied result ≡ slice_get (after_first (bytes_eq (codes "-")) (fields text.now)) 0 }
{
    let mut rest = text;
    while let Some((field, after)) = split_field(rest) {
        if field == b"-".as_slice() {
            let (kind, _source) = split_field(after)?;
            return Some(kind);
        }
        rest = after;
    }
    None
}

/// The row of a line, or the first rule that it breaks.
pub(crate) fn read_row(alloc: Global, line: &[u8]) -> Result<Row, MountCause>
    ensures ok { IfOk result (λ row. row_of line.now ≡ Ok row) }
    ensures err { IfErr result (λ cause. cause ≢ OutOfMemory → row_of line.now ≡ Err cause) }
{
    let Some(parts) = split_parts(line) else {
        return Err(MountCause::FewFields);
    };
    let Some(kind) = read_kind(parts.rest) else {
        return Err(MountCause::NoSeparator);
    };
    let Some((major, minor)) = read_device(parts.device) else {
        return Err(MountCause::BadDevice);
    };
    let root = match unescape(alloc, parts.root) {
        Ok(root) => root,
        Err(cause) => return Err(cause),
    };
    let point = match unescape(alloc, parts.point) {
        Ok(point) => point,
        Err(cause) => return Err(cause),
    };
    if !begins_at_root(&point) {
        return Err(MountCause::BadPath);
    }
    let kind = Vec::from_slice(alloc, kind)?;
    Ok(Row {
        major,
        minor,
        root,
        point,
        kind,
    })
}
