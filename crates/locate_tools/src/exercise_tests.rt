//! Whole runs of `exercise`.
use crate::run::run;
use crate::tests::{call_of, report};
use loc_outside::{MemFiles, MemGate, MemOutput, MemSink, MemTree};
use std::alloc::{AllocError, Global};

/// Whether a run of this line has this report, where standard output has so much room, and touches nothing else.
fn reports(alloc: Global, line: &str, room: usize, expected: &str) -> Result<bool, AllocError> {
    let mut files = MemFiles::new(alloc);
    let mut tree = MemTree::new(alloc);
    let mut gate = MemGate::new(alloc);
    let mut output = MemOutput::new(alloc);
    let mut out = MemSink::with_room(alloc, room)?;
    let mut err = MemSink::with_room(alloc, 1_000)?;
    let call = call_of(alloc, line, None)?;
    let ending = run(
        alloc,
        &call,
        &mut files,
        &mut tree,
        &mut gate,
        &mut output,
        &mut out,
        &mut err,
    );
    let found = report(alloc, &ending, out.taken(), err.taken())?;
    Ok(found.as_slice() == expected.as_bytes() && tree.openings() == 0 && files.given() == 0)
}

#[test]
fn four_lines_are_printed(rt: HostRuntime) -> Result<(), AllocError> {
    let none = "0 |rounds 0,directories 2001,opened 2001,bytes 107777,|";
    assert!(rt; reports(rt.alloc(), "exercise 1 0", 1_000, none)?);
    let three = "0 |rounds 3,directories 2001,opened 2041,bytes 108473,|";
    assert!(rt; reports(rt.alloc(), "exercise 7 3", 1_000, three)?);
    Ok(())
}

#[test]
fn words_that_are_refused(rt: HostRuntime) -> Result<(), AllocError> {
    let usage = "1 ||exercise: bad usage,";
    assert!(rt; reports(rt.alloc(), "exercise 1 101", 1_000, usage)?);
    assert!(rt; reports(rt.alloc(), "exercise 1", 1_000, usage)?);
    assert!(rt; reports(rt.alloc(), "exercise -1 1", 1_000, usage)?);
    assert!(rt; reports(rt.alloc(), "exercise 18446744073709551616 1", 1_000, usage)?);
    assert!(rt; reports(rt.alloc(), "exercise 1 1 1", 1_000, usage)?);
    Ok(())
}

#[test]
fn a_failed_write_ends_it(rt: HostRuntime) -> Result<(), AllocError> {
    let cut = "2 |rounds 0,direct|exercise: write fault,";
    assert!(rt; reports(rt.alloc(), "exercise 1 0", 15, cut)?);
    Ok(())
}
