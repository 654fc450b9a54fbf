//! Reading a mount table.
ghost use Rattle.std.specs.Prelude.{◌≡◌, ◌≢◌, Ok, Err, IfOk, IfErr, OnOk};
ghost use Rattle.mount_table.specs.Part.{rows_of_line, with_rows};
ghost use Rattle.mount_table.specs.Table.{mounts_of};
ghost use Rattle.mount_table.specs.declared.fault.MountCause.TheVariants.{OutOfMemory, LongText};

use crate::fault::{MountCause, MountFault};
use crate::line::first_line;
use crate::row::{Row, read_row};
use crate::table::Mounts;
use std::alloc::{AllocError, Global};

/// Pushes the row of a line that is not empty.
fn push_line(alloc: Global, rows: &mut Vec<Row>, line: &[u8]) -> Result<(), MountCause>
    ensures ok { OnOk result (with_rows rows.old.items (rows_of_line line.now) ≡ Ok rows.new.items) }
    ensures err { IfErr result (λ cause. cause ≢ OutOfMemory → rows_of_line line.now ≡ Err cause) }
{
    if line.is_empty() {
        return Ok(());
    }
    let row = read_row(alloc, line)?;
    rows.push(row).map_err(AllocError::from)?;
    Ok(())
}

/// The rows of a text.
fn read_rows(alloc: Global, text: &[u8]) -> Result<Vec<Row>, MountFault>
    ensures ok { IfOk result (λ rows. mounts_of text.now ≡ Ok rows.items) }
    ensures refused { IfErr result (λ fault. fault.cause ≢ OutOfMemory → mounts_of text.now ≡ Err fault) }
{
    let mut rows = Vec::new(alloc);
    let mut at = 0;
    let mut count = 0u64;
    while at < text.len() {
        let line = first_line(&text[at..]);
        count += 1;
        if let Err(cause) = push_line(alloc, &mut rows, line) {
            return Err(MountFault { line: count, cause });
        }
        at += line.len() + 1;
    }
    Ok(rows)
}

/// Reads a mount table of the form of /proc/PID/mountinfo (proc(5)): one line for each mount, of fields that are separated
/// by spaces and tabs. Empty lines are left out, but counted. The first line that breaks a rule is refused, by the first
/// rule that it breaks. Where memory ran out, `line` tells nothing.
pub fn read_mounts(alloc: Global, text: &[u8]) -> Result<Mounts, MountFault>
    ensures ok { IfOk result (λ mounts. mounts_of text.now ≡ Ok mounts) }
    ensures refused { IfErr result (λ fault. fault.cause ≢ OutOfMemory → mounts_of text.now ≡ Err fault) }
    ensures no_limit { IfErr result (λ fault. fault.cause ≢ LongText) }
{
    let rows = match read_rows(alloc, text) {
        Ok(rows) => rows,
        Err(fault) => return Err(fault),
    };
    match Mounts::from_rows(alloc, rows) {
        Ok(mounts) => Ok(mounts),
        Err(_) => Err(MountFault {
            line: 0,
            cause: MountCause::OutOfMemory,
        }),
    }
}
