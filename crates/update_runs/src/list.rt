//! A list of updates.
ghost use Rattle.std.specs.Prelude.{◌≡◌, ◌+◌, ◌≤◌, ◌<◌, ◌^◌, All, length, IfOk, IfErr, IsTrue};
ghost use Rattle.path_order.specs.Path.{is_normal};
ghost use Rattle.tree_scan.specs.Plans.{plan_of};
ghost use Rattle.update_runs.specs.Runs.{Asks, Comes, IsReady, IsSeen, Kept, StopsAt, openings_of, trees_of};

use crate::UpdateStep;
use crate::outcome::{ListFault, ListResult};
use crate::single::update_step;
use byte_feed::Bytes;
use loc_outside::{MemOutput, put_all};
use std::alloc::Global;
use tree_scan::Rules;
use updatedb_conf::conf_block;

/// Updates a database step by step, each time over what the step before has made, and the first time over `start`, which
/// may be any bytes. Answers the last database, which is `start` where there is no step. It ends at the first refusal.
/// No call of a tree is to be set to fail. `verbose` has no effect.
pub fn update_list(
    alloc: Global,
    rules: &Rules,
    start: &[u8],
    steps: &mut [UpdateStep],
) -> Result<ListResult, ListFault>
    requires root { IsTrue (is_normal rules.now.root) }
    requires version { rules.now.version < 2 }
    requires block { length (plan_of rules.now).block < 2 ^ 32 }
    requires count { length steps.old ≤ 4294967295 }
    requires ready { All IsReady steps.old }
    ensures done { IfOk result (λ list. Kept (plan_of rules.now) start.now steps.old → Comes (plan_of rules.now) start.now steps.old list) }
    ensures counted { IfOk result (λ list. openings_of steps.new ≤ openings_of steps.old + list.openings) }
    ensures asks { Asks (plan_of rules.now) start.now steps.old steps.new }
    ensures seen { IfErr result (λ fault. IsSeen fault rules.now.root (trees_of steps.old)) }
    ensures stopped { IfErr result (λ fault. StopsAt fault (plan_of rules.now) start.now steps.old) }
{
    let Ok(block) = conf_block(alloc, &rules.conf) else {
        return Err(ListFault::OutOfMemory);
    };
    let mut old = MemOutput::new(alloc);
    let Ok(()) = put_all(&mut old, start) else {
        return Err(ListFault::OutOfMemory);
    };
    let mut directories = 0;
    let mut openings = 0;
    for step in steps.iter_mut() {
        let mut made = MemOutput::new(alloc);
        let counts = match update_step(
            alloc,
            rules,
            block.as_slice(),
            old.pending(),
            step,
            &mut made,
        ) {
            Ok(counts) => counts,
            Err(fault) => return Err(fault),
        };
        directories = counts.directories;
        openings += counts.opened;
        old = made;
    }
    let Ok(bytes) = Vec::from_slice(alloc, old.pending()) else {
        return Err(ListFault::OutOfMemory);
    };
    Ok(ListResult {
        bytes: Bytes::from_vec(bytes),
        directories,
        openings,
    })
}
