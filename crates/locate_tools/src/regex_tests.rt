//! Whole runs of `locate` for regular expressions.
use crate::locate_matcher::wanted_is_found;
use crate::tests::{call_of, plain_rows_hold, rows_hold};
use loc_outside::{MemFiles, MemGate};
use std::alloc::AllocError;
use tool_words::Request;

/// A LOCATE02 database of `/lib/libc.so.6`, `/lib/libc.so.x` and `/lib/libm.so`.
const LIBRARIES: &[u8] = b"\0LOCATE02\0\0/lib/libc.so.6\0\x0Dx\0\xFBm.so\0";

#[test]
fn expressions_of_both_syntaxes(rt: HostRuntime) -> Result<(), AllocError> {
    let rows = r"locate --regex -d /db ^/a(.b)?$>0 W|/a,/a.b,|
locate -d /db -r ^/a\(.b\)*$>0 W|/a,/a.b,|
locate --regex -d /db [/.][bz]$>0 W|/a.b,/a/z,|
locate -d /db -r a|z>1 W||
locate -d /db --regexp /z*$>0 W|/a/z,|";
    assert!(rt; plain_rows_hold(rt.alloc(), rows)?);
    Ok(())
}

#[test]
fn libraries_by_their_names(rt: HostRuntime) -> Result<(), AllocError> {
    let mut files = MemFiles::new(rt.alloc());
    files.put("/db", LIBRARIES)?;
    let mut gate = MemGate::new(rt.alloc());
    let rows = r"locate --regex -d /db lib[a-z]+\.so(\.[0-9]+)*$>0 W|/lib/libc.so.6,/lib/libm.so,|
locate --regex -d /db -b ^lib>0 W|/lib/libc.so.6,/lib/libc.so.x,/lib/libm.so,|
locate --regex -d /db -b ^/lib>1 W||";
    assert!(rt; rows_hold(rt.alloc(), rows, &mut files, &mut gate)?);
    Ok(())
}

#[test]
fn expressions_with_other_options(rt: HostRuntime) -> Result<(), AllocError> {
    let rows = r"locate -b --regex -d /db ^a>0 W|/a,/a.b,|
locate -i --regex -d /db A$>0 W|/a,|
locate -i -d /db -r A$>0 W|/a,|
locate --regex -d /db z$ b$>0 W|/a.b,/a/z,|
locate -A --regex -d /db ^/a z$>0 W|/a/z,|
locate -A --regex -d /db ^/a q>1 W||
locate -c --regex -d /db:/usr a$>0 WW|1,|
locate -l 2 --regex -d /db:/usr .>0 L|/a,/a.b,|
locate -l 0 --regex -d /db .>0 ||";
    assert!(rt; plain_rows_hold(rt.alloc(), rows)?);
    Ok(())
}

#[test]
fn expressions_that_are_refused(rt: HostRuntime) -> Result<(), AllocError> {
    let rows =
        r"locate --regex -d /db a{2,1}>1 ||locate: bad regular expression: bad repetition at byte 1,
locate --regex -d /db (a>1 ||locate: bad regular expression: bad group at byte 0,
locate -d /db -r \(a\)\1>1 ||locate: bad regular expression: unsupported construct at byte 5,
locate -d /db -r \(foo\|bar\)>1 ||locate: bad regular expression: unsupported construct at byte 5,
locate --regex -q -d /x a a[ )>1 ||locate: bad regular expression: bad bracket at byte 1,
locate --regex -l 0 -d /db (>1 ||locate: bad regular expression: bad group at byte 0,
locate -d /db -r a b>1 ||locate: bad usage,
locate -d /db -r a --regex>1 ||locate: bad usage,
locate --regex -d /db>1 ||locate: bad usage,";
    assert!(rt; plain_rows_hold(rt.alloc(), rows)?);
    Ok(())
}

#[test]
fn statistics_read_no_expression(rt: HostRuntime) -> Result<(), AllocError> {
    let rows = "locate -S --regex -d /x (>0 M||locate: /x: no such database,
locate -S -d /none -r (>0 N||locate: /none: not a database,";
    assert!(rt; plain_rows_hold(rt.alloc(), rows)?);
    Ok(())
}

#[test]
fn what_expressions_want(rt: HostRuntime) -> Result<(), AllocError> {
    let call = call_of(rt.alloc(), "locate --regex a", None)?;
    let request = call.request(rt.alloc());
    let mut seeks = false;
    if let Ok(Request::Locate(asked)) = &request {
        wanted_is_found(asked, b"/a");
        seeks = asked.seeks_expressions();
    }
    assert!(rt; seeks);
    Ok(())
}
