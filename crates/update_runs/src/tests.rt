//! Known numbers of samples, and lists that come to known bytes.

ghost use Rattle.std.specs.Prelude.{IfOk};
ghost use Rattle.update_runs.specs.Runs.{IsReady};

use crate::exercising::sample_rules;
use crate::silence::Silence;
use crate::{Exercised, UpdateStep, exercise, update_list};
use loc_outside::{MemOutput, MemTree, Times};
use path_order::{Kind, Stamp, is_name, is_normal};
use sample_trees::sample_steps;
use std::alloc::{AllocError, Global};
use std::test::Fail;
use tree_scan::{Limits, NoVoucher, scan};

// Whether an exercise comes to so many openings and bytes.
fn shows(
    alloc: Global,
    number: u64,
    rounds: u8,
    opened: u64,
    bytes: u64,
) -> Result<bool, AllocError> {
    let shown = exercise(alloc, number, rounds)?;
    let known = Exercised {
        rounds,
        directories: 2001,
        opened,
        bytes,
    };
    Ok(shown == known)
}

#[test]
fn known_samples(rt: HostRuntime) -> Result<(), AllocError> {
    assert!(rt; shows(rt.alloc(), 1, 0, 2001, 107_777)?);
    assert!(rt; shows(rt.alloc(), 1, 1, 2011, 107_789)?);
    assert!(rt; shows(rt.alloc(), 7, 3, 2041, 108_473)?);
    Ok(())
}

#[test]
fn the_last_database_is_a_scan_without_records(rt: HostRuntime) -> Result<(), Fail> {
    let rules = sample_rules(rt.alloc());
    let mut steps = sample_steps(rt.alloc(), 7, 3)?;
    let list = update_list(rt.alloc(), &rules, b"", &mut steps)?;
    let Some(last) = steps.pop() else {
        return Ok(());
    };
    let mut tree = last.tree;
    let mut scanned = MemOutput::new(rt.alloc());
    scan(
        rt.alloc(),
        &rules,
        last.now,
        &Limits::standard(),
        &mut tree,
        &mut NoVoucher,
        &mut scanned,
        &mut Silence,
    )?;
    assert!(rt; list.bytes.as_slice() == scanned.pending());
    Ok(())
}

#[test]
fn no_step_leaves_the_bytes(rt: HostRuntime) -> Result<(), Fail> {
    let rules = sample_rules(rt.alloc());
    let list = update_list(rt.alloc(), &rules, b"x", &mut [])?;
    assert!(rt; list.bytes.as_slice() == b"x".as_slice());
    assert_eq!(rt; (list.directories, list.openings), (0, 0));
    Ok(())
}

fn put(tree: &mut MemTree, path: &[u8]) -> Result<(), AllocError> {
    let time = Stamp::new(1_000, 0).unwrap_or(Stamp::zero());
    let times = Times {
        modified: time,
        changed: Stamp::zero(),
    };
    if is_normal(path) {
        tree.put_dir(path, times, false)?;
    }
    Ok(())
}

fn name(tree: &mut MemTree, dir: &[u8], name: &[u8]) -> Result<(), AllocError> {
    if is_name(name) && name.len() <= 4_096 {
        tree.put_name(dir, name, Kind::Directory)?;
    }
    Ok(())
}

/// `/` has the directories `a` and `a.b`, `/a` has `z`; all have the time 1,000 s. It is updated at this second.
fn three_levels(alloc: Global, second: u64) -> Result<UpdateStep, AllocError>
    ensures { IfOk result (λ step. IsReady step) }
{
    let mut tree = MemTree::new(alloc);
    put(&mut tree, b"/")?;
    put(&mut tree, b"/a")?;
    put(&mut tree, b"/a/z")?;
    put(&mut tree, b"/a.b")?;
    name(&mut tree, b"/", b"a")?;
    name(&mut tree, b"/", b"a.b")?;
    name(&mut tree, b"/a", b"z")?;
    Ok(UpdateStep {
        tree: tree.copy(alloc)?,
        now: Stamp::new(second, 0).unwrap_or(Stamp::zero()),
    })
}

#[test]
fn the_second_step_opens_nothing(rt: HostRuntime) -> Result<(), Fail> {
    let rules = sample_rules(rt.alloc());
    let first = three_levels(rt.alloc(), 2_000)?;
    let second = three_levels(rt.alloc(), 3_000)?;
    let mut steps = [first, second];
    let list = update_list(rt.alloc(), &rules, b"", &mut steps)?;
    assert_eq!(rt; list.bytes.as_slice().len(), 166);
    assert_eq!(rt; (list.directories, list.openings), (4, 4));
    Ok(())
}
