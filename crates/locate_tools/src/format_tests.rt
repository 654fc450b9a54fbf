//! What `locate` prints of databases of each format, and the bytes that `updatedb` stores.
use crate::damage_tests::{EMPTY, bigram, has_report};
use crate::tests::{USR, front};
use crate::updatedb_tests::{put, stored_bytes, updated, updated_from};
use loc_outside::{MemFiles, MemOutput, MemTree};
use std::alloc::{AllocError, Global};

/// A LOCATE02 database of this path.
fn locate02(alloc: Global, path: &str) -> Result<Vec<u8>, AllocError> {
    let mut bytes = Vec::new(alloc);
    bytes.extend_from_slice(b"\0LOCATE02\0\0")?;
    bytes.extend_from_slice(path.as_bytes())?;
    bytes.push(0)?;
    Ok(bytes)
}

/// Whether each row, a line of words and behind `>` the report of its run, holds over this database, `/x`.
fn lines_hold(alloc: Global, database: &[u8], rows: &str) -> Result<bool, AllocError> {
    for row in rows.split('\n') {
        let mut parts = row.split('>');
        let line = parts.next().unwrap_or("");
        let expected = parts.next().unwrap_or("");
        if !has_report(alloc, database, line, expected)? {
            return Ok(false);
        }
    }
    Ok(true)
}

#[test]
fn four_paths_of_locate02(rt: HostRuntime) -> Result<(), AllocError> {
    let rows = "locate -d /x arm>0 W|/usr/src/cmd/armadillo.c,|
locate -S -d /x>0 W|Database /x:,\t0 directories,\t4 files,\t67 bytes in file names,\t58 bytes used to store database,|";
    assert!(rt; lines_hold(rt.alloc(), USR, rows)?);
    Ok(())
}

#[test]
fn a_path_of_bigram(rt: HostRuntime) -> Result<(), AllocError> {
    let alloc = rt.alloc();
    let short = bigram(alloc, b"/a", b"\x0E\x80")?;
    assert!(rt; has_report(alloc, &short, "locate -d /x a", "0 W|/a,|")?);
    let tied = bigram(alloc, b"/a/b", b"\x0E\x80\x81")?;
    assert!(rt; has_report(alloc, &tied, "locate -d /x a", "0 W|/a/b,|")?);
    let escaped = bigram(alloc, b"", b"\x0E/\x1F\xE9")?;
    assert!(rt; has_report(alloc, &escaped, "locate -d /x a", "1 W||")?);
    assert!(rt; has_report(alloc, &escaped, "locate -c -d /x /?", "0 W|1,|")?);
    Ok(())
}

/// The report of a run that prints this path, where the answer is `yes`, or else none.
fn report_of(alloc: Global, path: &str, answer: &str) -> Result<String, AllocError> {
    if answer == "yes" {
        format!(in alloc; "0 W|{path},|")
    } else {
        String::from_str(alloc, "1 W||")
    }
}

/// Whether the words and a pattern behind them find this path as the answer says.
fn answers(
    alloc: Global,
    words: &str,
    pattern: &str,
    path: &str,
    answer: &str,
) -> Result<bool, AllocError> {
    let database = locate02(alloc, path)?;
    let line = format!(in alloc; "{words} {pattern}")?;
    let expected = report_of(alloc, path, answer)?;
    has_report(alloc, &database, line.as_str(), expected.as_str())
}

/// Whether each row holds: a pattern, a path, whether the pattern finds the path, and whether it does with `-i`.
fn patterns_hold(alloc: Global, rows: &str) -> Result<bool, AllocError> {
    for row in rows.split('\n') {
        let mut words = row.split(' ');
        let pattern = words.next().unwrap_or("");
        let path = words.next().unwrap_or("");
        let plain = words.next().unwrap_or("");
        let folded = words.next().unwrap_or("");
        if !answers(alloc, "locate -d /x", pattern, path, plain)? {
            return Ok(false);
        }
        if !answers(alloc, "locate -i -d /x", pattern, path, folded)? {
            return Ok(false);
        }
    }
    Ok(true)
}

#[test]
fn patterns_with_and_without_case(rt: HostRuntime) -> Result<(), AllocError> {
    let rows = "b /x/Bc no yes
*b /x/ab yes yes
*b /x/Bc no no
[!a-c]* Bc yes no
[!a-c]* /b yes yes
\\* * yes yes
\\* c* no no
[ [ yes yes
[ /[ no no
[]x] ] yes yes
a\\ a\\ yes yes
[[:digit:]]? 7/ yes yes";
    assert!(rt; patterns_hold(rt.alloc(), rows)?);
    Ok(())
}

/// The database of a tree whose one directory below `/` has a name of 4,093 bytes, and in it a file of this name.
fn deep(alloc: Global, name: &[u8]) -> Result<Vec<u8>, AllocError> {
    let head = b"\0\0\0\0\0\0\x03\xe8\0\0\0\0\0\0\0\0/";
    let mut long = Vec::new(alloc);
    long.resize(4_093, b'd')?;
    let mut bytes = Vec::new(alloc);
    bytes.extend_from_slice(front(72))?;
    bytes.extend_from_slice(head)?;
    bytes.extend_from_slice(b"\0\x01")?;
    bytes.extend_from_slice(&long)?;
    bytes.extend_from_slice(b"\0\x02")?;
    bytes.extend_from_slice(head)?;
    bytes.extend_from_slice(&long)?;
    bytes.extend_from_slice(b"\0\0")?;
    bytes.extend_from_slice(name)?;
    bytes.extend_from_slice(b"\0\x02")?;
    Ok(bytes)
}

#[test]
fn the_longest_path(rt: HostRuntime) -> Result<(), AllocError> {
    let rows = "locate -c -d /x >0 W|2,|
locate -c -b -d /x e>0 W|1,|
locate -S -d /x>0 W|Database /x:,\t2 directories,\t2 files,\t4094 bytes in file names,\t8301 bytes used to store database,|";
    let database = deep(rt.alloc(), b"e")?;
    assert!(rt; lines_hold(rt.alloc(), &database, rows)?);
    Ok(())
}

#[test]
fn a_path_too_long(rt: HostRuntime) -> Result<(), AllocError> {
    let rows = "locate -c -d /x >0 D|1,|locate: /x: damaged at byte 8297: path too long,
locate -c -b -d /x e>1 D|0,|locate: /x: damaged at byte 8297: path too long,
locate -S -d /x>0 D|Database /x:,\t2 directories,\t1 files,\t4093 bytes in file names,\t8297 bytes used to store database,|locate: /x: damaged at byte 8297: path too long,";
    let database = deep(rt.alloc(), b"ee")?;
    assert!(rt; lines_hold(rt.alloc(), &database, rows)?);
    Ok(())
}

/// Whether `updatedb` stores the database of a tree that is an empty `/`.
fn stores_empty(alloc: Global) -> Result<bool, AllocError> {
    let mut files = MemFiles::new(alloc);
    let mut tree = MemTree::new(alloc);
    put(&mut tree, b"/")?;
    let mut output = MemOutput::new(alloc);
    let found = updated_from(alloc, "updatedb -o /db", &mut files, &mut tree, &mut output)?;
    Ok(found.as_slice() == b"0 ||".as_slice() && stored_bytes(&output) == EMPTY)
}

#[test]
fn an_empty_tree_is_stored(rt: HostRuntime) -> Result<(), AllocError> {
    assert!(rt; stores_empty(rt.alloc())?);
    Ok(())
}

/// Whether a run of `updatedb` over this configuration stores so many bytes, in which this is the length of the
/// configuration block.
fn stores_sizes(alloc: Global, conf: &str, bytes: usize, block: &[u8]) -> Result<bool, AllocError> {
    let mut output = MemOutput::new(alloc);
    let found = updated(alloc, conf, "updatedb -o /db", &mut output)?;
    let stored = stored_bytes(&output);
    let length = stored.get(8..12).unwrap_or(b"");
    Ok(found.as_slice() == b"0 ||".as_slice() && stored.len() == bytes && length == block)
}

#[test]
fn a_pruned_name_is_stored(rt: HostRuntime) -> Result<(), AllocError> {
    assert!(rt; stores_sizes(rt.alloc(), "PRUNENAMES = \".git\"", 171, b"\0\0\0\x3B")?);
    Ok(())
}
