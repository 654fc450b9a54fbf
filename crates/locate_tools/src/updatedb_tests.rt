//! Whole runs of `updatedb` over what is in memory.
use crate::run::run;
use crate::tests::{TREE, call_of, report};
use loc_outside::{MemFiles, MemGate, MemOutput, MemSink, MemTree, Times};
use path_order::{Kind, Stamp, is_name, is_normal};
use std::alloc::{AllocError, Global};

pub fn put(tree: &mut MemTree, path: &[u8]) -> Result<(), AllocError> {
    let times = Times {
        modified: Stamp::new(1_000, 0).unwrap_or(Stamp::zero()),
        changed: Stamp::zero(),
    };
    if is_normal(path) {
        tree.put_dir(path, times, false)?;
    }
    Ok(())
}

fn name(tree: &mut MemTree, dir: &[u8], name: &[u8]) -> Result<(), AllocError> {
    if is_name(name) && name.len() <= 4096 {
        tree.put_name(dir, name, Kind::Directory)?;
    }
    Ok(())
}

/// `/` with the directories `a` and `a.b`, and `/a` with `z`.
fn small_tree(alloc: Global) -> Result<MemTree, AllocError> {
    let mut tree = MemTree::new(alloc);
    put(&mut tree, b"/")?;
    put(&mut tree, b"/a")?;
    put(&mut tree, b"/a/z")?;
    put(&mut tree, b"/a.b")?;
    name(&mut tree, b"/", b"a")?;
    name(&mut tree, b"/", b"a.b")?;
    name(&mut tree, b"/a", b"z")?;
    Ok(tree)
}

/// The report of a run over these.
pub fn updated_from(
    alloc: Global,
    line: &str,
    files: &mut MemFiles,
    tree: &mut MemTree,
    output: &mut MemOutput,
) -> Result<Vec<u8>, AllocError> {
    let mut gate = MemGate::new(alloc);
    let mut out = MemSink::with_room(alloc, 1_000)?;
    let mut err = MemSink::with_room(alloc, 1_000)?;
    let call = call_of(alloc, line, None)?;
    let ending = run(
        alloc, &call, files, tree, &mut gate, output, &mut out, &mut err,
    );
    report(alloc, &ending, out.taken(), err.taken())
}

/// The report of a run over the small tree and this configuration.
pub fn updated(
    alloc: Global,
    conf: &str,
    line: &str,
    output: &mut MemOutput,
) -> Result<Vec<u8>, AllocError> {
    let mut files = MemFiles::new(alloc);
    if !conf.is_empty() {
        files.put("/etc/updatedb.conf", conf.as_bytes())?;
    }
    let mut tree = small_tree(alloc)?;
    updated_from(alloc, line, &mut files, &mut tree, output)
}

/// Whether a run over the small tree has this report.
fn stores(
    alloc: Global,
    line: &str,
    expected: &str,
    output: &mut MemOutput,
) -> Result<bool, AllocError> {
    let found = updated(alloc, "", line, output)?;
    Ok(found.as_slice() == expected.as_bytes())
}

pub fn stored_bytes(output: &MemOutput) -> &[u8] {
    output.stored("/db").unwrap_or(b"")
}

#[test]
fn stores_a_scan(rt: HostRuntime) -> Result<(), AllocError> {
    let mut output = MemOutput::new(rt.alloc());
    let line = "updatedb -v -l no -o /db";
    assert!(rt; stores(rt.alloc(), line, "0 |/a,/a.b,/a/z,|", &mut output)?);
    assert!(rt; stored_bytes(&output) == TREE);
    Ok(())
}

#[test]
fn prunes_the_root(rt: HostRuntime) -> Result<(), AllocError> {
    let mut output = MemOutput::new(rt.alloc());
    assert!(rt; stores(rt.alloc(), "updatedb -e / -o /db", "0 ||", &mut output)?);
    assert!(rt; stored_bytes(&output).len() == 74);
    Ok(())
}

/// Whether a run over this configuration is refused with this report, and stores nothing.
fn is_refused(alloc: Global, conf: &str, line: &str, expected: &str) -> Result<bool, AllocError> {
    let mut output = MemOutput::new(alloc);
    let found = updated(alloc, conf, line, &mut output)?;
    Ok(found.as_slice() == expected.as_bytes() && stored_bytes(&output).is_empty())
}

#[test]
fn refusals(rt: HostRuntime) -> Result<(), AllocError> {
    let alloc = rt.alloc();
    let unequal = "1 ||updatedb: /etc/updatedb.conf:1: no equals sign,";
    assert!(rt; is_refused(alloc, "PRUNEFS \"x\"", "updatedb -o /db", unequal)?);
    let missing = "1 ||updatedb: /none: no such directory,";
    assert!(rt; is_refused(alloc, "", "updatedb -U /none -o /db", missing)?);
    assert!(rt;
        is_refused(
            alloc,
            "",
            "updatedb -U a -o /db",
            "1 ||updatedb: bad usage,"
        )?
    );
    assert!(rt; is_refused(alloc, "", "updatedb -l maybe", "1 ||updatedb: bad usage,")?);
    Ok(())
}

fn failing_files(alloc: Global, at: u64) -> Result<MemFiles, AllocError> {
    let mut files = MemFiles::new(alloc);
    files.fail_at(at)?;
    Ok(files)
}

fn failing_tree(alloc: Global, at: u64) -> Result<MemTree, AllocError> {
    let mut tree = small_tree(alloc)?;
    tree.fail_at(at)?;
    Ok(tree)
}

fn failing_output(alloc: Global, at: u64) -> Result<MemOutput, AllocError> {
    let mut output = MemOutput::new(alloc);
    output.fail_at(at)?;
    Ok(output)
}

/// Whether a run over these has this report, and stores nothing.
fn has_report(
    alloc: Global,
    files: &mut MemFiles,
    tree: &mut MemTree,
    output: &mut MemOutput,
    expected: &str,
) -> Result<bool, AllocError> {
    let found = updated_from(alloc, "updatedb -o /db", files, tree, output)?;
    Ok(found.as_slice() == expected.as_bytes() && stored_bytes(output).is_empty())
}

/// Whether a run in which these calls of the tree, the reader and the output fail has this report, and stores nothing.
fn fails(
    alloc: Global,
    of_tree: u64,
    of_reader: u64,
    of_output: u64,
    expected: &str,
) -> Result<bool, AllocError> {
    let mut files = failing_files(alloc, of_reader)?;
    let mut tree = failing_tree(alloc, of_tree)?;
    let mut output = failing_output(alloc, of_output)?;
    has_report(alloc, &mut files, &mut tree, &mut output, expected)
}

#[test]
fn a_call_of_each_that_fails(rt: HostRuntime) -> Result<(), AllocError> {
    let alloc = rt.alloc();
    assert!(rt; fails(alloc, 11, 99, 99, "4 ||updatedb: tree fault,")?);
    assert!(rt;
        fails(
            alloc,
            99,
            1,
            99,
            "1 ||updatedb: /etc/updatedb.conf: read fault,"
        )?
    );
    assert!(rt;
        fails(
            alloc,
            99,
            2,
            99,
            "1 ||updatedb: /proc/self/mountinfo: read fault,"
        )?
    );
    assert!(rt; fails(alloc, 99, 99, 1, "2 ||updatedb: write fault,")?);
    Ok(())
}
