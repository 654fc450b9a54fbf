//! Databases that are cut short, changed or made longer, through `locate`.
use crate::tests::{USR, call_of, located};
use loc_outside::{MemFiles, MemGate};
use std::alloc::{AllocError, Global};

/// The database of a tree that is an empty `/`, whose paths are shown only to those who may list their directories.
pub const EMPTY: &[u8] =
    b"\0mlocate\0\0\06\0\x01\0\0/\0prune_bind_mounts\00\0\0prunefs\0\0prunenames\0\0prunepaths\0\0\0\0\0\0\0\0\x03\xe8\0\0\0\0\0\0\0\0/\0\x02";

/// A bigram database of these pairs and entries.
pub fn bigram(alloc: Global, pairs: &[u8], entries: &[u8]) -> Result<Vec<u8>, AllocError> {
    let mut bytes = Vec::new(alloc);
    bytes.extend_from_slice(pairs)?;
    bytes.resize(256, 0)?;
    bytes.extend_from_slice(entries)?;
    Ok(bytes)
}

fn digit(of: u8) -> u8 {
    match of {
        b'0'..=b'9' => of - b'0',
        b'A'..=b'F' => of - b'A' + 10,
        _ => 0,
    }
}

/// The byte that two hexadecimal digits tell.
fn byte(digits: &str) -> u8 {
    let mut value: u8 = 0;
    for of in digits.as_bytes() {
        value = value.wrapping_mul(16) | digit(*of);
    }
    value
}

/// The first bytes of a database, so many, then the bytes that are told in hexadecimal digits, then the database's from
/// there on. Where no digits are told, nothing follows.
fn altered(
    alloc: Global,
    database: &[u8],
    count: usize,
    digits: &str,
) -> Result<Vec<u8>, AllocError> {
    let mut bytes = Vec::new(alloc);
    bytes.extend_from_slice(database.get(..count).unwrap_or(b""))?;
    if digits.is_empty() {
        return Ok(bytes);
    }
    for pair in digits.split(' ') {
        bytes.push(byte(pair))?;
    }
    let len = bytes.len();
    bytes.extend_from_slice(database.get(len..).unwrap_or(b""))?;
    Ok(bytes)
}

/// Whether a run over this database, `/x`, all of whose paths may be shown, has this report.
pub fn has_report(
    alloc: Global,
    bytes: &[u8],
    line: &str,
    expected: &str,
) -> Result<bool, AllocError> {
    let mut files = MemFiles::new(alloc);
    files.put("/x", bytes)?;
    let mut gate = MemGate::new(alloc);
    let call = call_of(alloc, line, None)?;
    let found = located(alloc, &mut files, &mut gate, &call)?;
    Ok(found.as_slice() == expected.as_bytes())
}

/// Whether each row holds: a count of bytes, behind `>` the hexadecimal digits of the bytes that stand behind so many of
/// the database in place of its own, or none where it ends there, and behind `>` the report of a run over all its paths.
fn rows_hold(alloc: Global, database: &[u8], rows: &str) -> Result<bool, AllocError> {
    for row in rows.split('\n') {
        let mut parts = row.split('>');
        let count = parts.next().unwrap_or("").parse::<usize>().unwrap_or(0);
        let digits = parts.next().unwrap_or("");
        let expected = parts.next().unwrap_or("");
        let bytes = altered(alloc, database, count, digits)?;
        if !has_report(alloc, &bytes, "locate -d /x ", expected)? {
            return Ok(false);
        }
    }
    Ok(true)
}

#[test]
fn damage_of_mlocate(rt: HostRuntime) -> Result<(), AllocError> {
    let rows = "0>>1 N||locate: /x: not a database,
7>>1 N||locate: /x: not a database,
20>>1 D||locate: /x: damaged at byte 0: cut short,
12>02>1 D||locate: /x: damaged at byte 0: unknown version,
13>07>1 D||locate: /x: damaged at byte 0: bad visibility flag,
72>>1 W||
80>>1 D||locate: /x: damaged at byte 72: cut short,
80>3B 9A CA 00>1 D||locate: /x: damaged at byte 72: bad nanoseconds,
88>00>1 D||locate: /x: damaged at byte 72: empty path,
90>>1 D||locate: /x: damaged at byte 90: cut short,
90>03>1 D||locate: /x: damaged at byte 90: unknown entry type,
90>00 00 02>1 D||locate: /x: damaged at byte 90: empty name,
91>>1 W||";
    assert!(rt; rows_hold(rt.alloc(), EMPTY, rows)?);
    Ok(())
}

#[test]
fn damage_of_locate02(rt: HostRuntime) -> Result<(), AllocError> {
    let rows = "9>>1 N||locate: /x: not a database,
10>>1 W||
57>>0 D|/usr/src,/usr/src/cmd/aardvark.c,/usr/src/cmd/armadillo.c,|locate: /x: damaged at byte 49: cut short,
37>7F>0 D|/usr/src,/usr/src/cmd/aardvark.c,|locate: /x: damaged at byte 37: bad prefix count,
49>F0>0 D|/usr/src,/usr/src/cmd/aardvark.c,/usr/src/cmd/armadillo.c,|locate: /x: damaged at byte 49: bad prefix count,
58>FB 00>0 D|/usr/src,/usr/src/cmd/aardvark.c,/usr/src/cmd/armadillo.c,/usr/tmp/zoo,|locate: /x: damaged at byte 58: empty path,
58>00 00>0 W|/usr/src,/usr/src/cmd/aardvark.c,/usr/src/cmd/armadillo.c,/usr/tmp/zoo,/usr/,|
58>>0 W|/usr/src,/usr/src/cmd/aardvark.c,/usr/src/cmd/armadillo.c,/usr/tmp/zoo,|";
    assert!(rt; rows_hold(rt.alloc(), USR, rows)?);
    Ok(())
}

#[test]
fn damage_of_bigram(rt: HostRuntime) -> Result<(), AllocError> {
    let rows = "255>>1 N||locate: /x: not a database,
5>07>1 N||locate: /x: not a database,
256>>1 W||
257>>1 D||locate: /x: damaged at byte 256: empty path,
256>1F>1 D||locate: /x: damaged at byte 256: prefix count missing,
257>81>1 D||locate: /x: damaged at byte 256: unused pair,
258>10 62>0 W|/a,/ab,|
258>11 62>0 D|/a,|locate: /x: damaged at byte 258: bad prefix count,
258>1E 00 00>0 D|/a,|locate: /x: damaged at byte 258: cut short,
258>1E 0F 27 00 00>0 D|/a,|locate: /x: damaged at byte 258: bad count word,
258>1E 00 00 00 0E 62>0 W|/a,b,|
258>0E 1F 00>0 D|/a,|locate: /x: damaged at byte 258: zero byte in path,
258>>0 W|/a,|";
    let database = bigram(rt.alloc(), b"/a", b"\x0E\x80")?;
    assert!(rt; rows_hold(rt.alloc(), &database, rows)?);
    Ok(())
}
