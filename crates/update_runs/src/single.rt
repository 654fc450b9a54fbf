//! One update, over an old database in memory.
ghost use Rattle.std.specs.Prelude.{◌≡◌, ◌+◌, ◌≤◌, ◌<◌, ◌^◌, [], length, IfOk, IfErr, IsTrue};
ghost use Rattle.path_order.specs.Path.{is_normal};
ghost use Rattle.tree_scan.specs.Plans.{plan_of};
ghost use Rattle.tree_scan.specs.Scans.{Found, usual};
ghost use Rattle.dir_reuse.specs.Usable.{is_ordered};
ghost use Rattle.update_runs.specs.Faults.{fault_of, in_scan};
ghost use Rattle.update_runs.specs.Single.{IsHonest, Refuses, Updates, opened_in, openings_in, shown_by};

use crate::UpdateStep;
use crate::outcome::ListFault;
use crate::silence::Silence;
use dir_reuse::StreamVoucher;
use loc_outside::{MemOutput, SliceSource};
use std::alloc::Global;
use tree_scan::{Limits, Rules, ScanFault, scan};

/// How many directories an update has opened, and how many its database has.
#[derive(Clone, Copy, Debug, PartialEq, Eq)]
pub(crate) struct StepCounts {
    pub(crate) opened: u64,
    pub(crate) directories: u64,
}

/// The answer to a scan's fault. A write to memory fails only if memory runs out.
fn fault_of_scan(fault: ScanFault) -> ListFault
    ensures { result ≡ fault_of fault }
{
    match fault {
        ScanFault::RootMissing => ListFault::RootMissing,
        ScanFault::TreeFault => ListFault::OutOfMemory,
        ScanFault::WriteFault => ListFault::OutOfMemory,
        ScanFault::TooManyNames => ListFault::TooManyNames,
        ScanFault::TooManyDirectories => ListFault::TooManyDirectories,
        ScanFault::OutOfMemory => ListFault::OutOfMemory,
    }
}

/// Scans the tree of a step into `into`, in which nothing is pending, with the records of an old database.
pub(crate) fn update_step(
    alloc: Global,
    rules: &Rules,
    block: &[u8],
    old: &[u8],
    step: &mut UpdateStep,
    into: &mut MemOutput,
) -> Result<StepCounts, ListFault>
    requires root { IsTrue (is_normal rules.now.root) }
    requires version { rules.now.version < 2 }
    requires same { block.now ≡ (plan_of rules.now).block }
    requires block { length (plan_of rules.now).block < 2 ^ 32 }
    requires steady { step.old.tree.failures.due ≡ [] }
    requires openings { step.old.tree.openings ≤ 2 ^ 63 }
    requires empty { into.old.held.pending ≡ [] }
    ensures done { IfOk result (λ counts. IsHonest (plan_of rules.now) old.now step.old.tree.dirs → Updates (plan_of rules.now) old.now step.old counts into.new.held.pending) }
    ensures few { IfOk result (λ counts. counts.opened ≤ 4294967295) }
    ensures counted { IfOk result (λ counts. openings_in step.new ≤ openings_in step.old + counts.opened) }
    ensures asked { IsHonest (plan_of rules.now) old.now step.old.tree.dirs → IsTrue (is_ordered (plan_of rules.now).root (plan_of rules.now).block old.now) → openings_in step.new ≤ openings_in step.old + opened_in (plan_of rules.now) old.now step.old.tree.dirs }
    ensures same { shown_by step.new ≡ shown_by step.old }
    ensures found { IfErr result (λ fault. Found (in_scan fault) usual rules.now.root step.old.tree.dirs) }
    ensures refused { IfErr result (λ fault. IsHonest (plan_of rules.now) old.now step.old.tree.dirs → Refuses (plan_of rules.now) old.now step.old.tree.dirs fault) }
{
    let before = step.tree.openings();
    let now = step.now;
    let mut source = SliceSource::new(old);
    let mut voucher = StreamVoucher::open_on(&mut source, rules, block);
    let scanned = scan(
        alloc,
        rules,
        now,
        &Limits::standard(),
        &mut step.tree,
        &mut voucher,
        into,
        &mut Silence,
    );
    match scanned {
        Ok(counts) => Ok(StepCounts {
            opened: step.tree.openings().saturating_sub(before),
            directories: counts.directories,
        }),
        Err(fault) => Err(fault_of_scan(fault)),
    }
}
