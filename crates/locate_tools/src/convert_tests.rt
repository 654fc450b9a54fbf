//! Whole runs of `convert` over what is in memory.
use crate::damage_tests::{EMPTY, bigram};
use crate::run::run;
use crate::tests::{USR, call_of, front, report};
use loc_outside::{MemFiles, MemGate, MemOutput, MemSink, MemTree};
use std::alloc::{AllocError, Global};

/// The paths of `USR`, each on a line.
const USR_LINES: &[u8] =
    b"/usr/src\n/usr/src/cmd/aardvark.c\n/usr/src/cmd/armadillo.c\n/usr/tmp/zoo\n";

/// The paths of the usual machine, each on a line, in the order of directories and names.
const USUAL: &[u8] =
    b"/home\n/mnt\n/proc\n/run\n/srv\n/tmp\n/vmlinuz\n/home/ann\n/home/ann/.git\n/home/ann/notes.txt\n/mnt/ann\n/srv/x\n/srv/x/page.html\n";

/// What of the database of these paths stands behind its header: a block for each directory.
const USUAL_BLOCKS: &[u8] =
    b"\0\0\0\0\0\0\0\0\0\0\0\0\0\0\0\0/\0\x01home\0\x01mnt\0\0proc\0\0run\0\x01srv\0\0tmp\0\0vmlinuz\0\x02\
    \0\0\0\0\0\0\0\0\0\0\0\0\0\0\0\0/home\0\x01ann\0\x02\
    \0\0\0\0\0\0\0\0\0\0\0\0\0\0\0\0/home/ann\0\0.git\0\0notes.txt\0\x02\
    \0\0\0\0\0\0\0\0\0\0\0\0\0\0\0\0/mnt\0\0ann\0\x02\
    \0\0\0\0\0\0\0\0\0\0\0\0\0\0\0\0/srv\0\x01x\0\x02\
    \0\0\0\0\0\0\0\0\0\0\0\0\0\0\0\0/srv/x\0\0page.html\0\x02";

/// The report of a run over these files and this output.
fn converted_from(
    alloc: Global,
    line: &str,
    files: &mut MemFiles,
    output: &mut MemOutput,
) -> Result<Vec<u8>, AllocError> {
    let mut tree = MemTree::new(alloc);
    let mut gate = MemGate::new(alloc);
    let mut out = MemSink::with_room(alloc, 1_000)?;
    let mut err = MemSink::with_room(alloc, 1_000)?;
    let call = call_of(alloc, line, None)?;
    let ending = run(
        alloc, &call, files, &mut tree, &mut gate, output, &mut out, &mut err,
    );
    report(alloc, &ending, out.taken(), err.taken())
}

/// The report of a run with these words over this input.
fn converted(
    alloc: Global,
    words: &str,
    input: &[u8],
    output: &mut MemOutput,
) -> Result<Vec<u8>, AllocError> {
    let mut files = MemFiles::new(alloc);
    files.put("/in", input)?;
    let line = format!(in alloc; "convert {words} /in /out")?;
    converted_from(alloc, line.as_str(), &mut files, output)
}

/// Whether a run over this input is done, tells nothing, and stores these bytes.
fn stores(alloc: Global, words: &str, input: &[u8], expected: &[u8]) -> Result<bool, AllocError> {
    let mut output = MemOutput::new(alloc);
    let found = converted(alloc, words, input, &mut output)?;
    Ok(found.as_slice() == b"0 ||".as_slice() && output.stored("/out") == Some(expected))
}

/// Whether a run over this input has this report, and stores nothing.
fn refuses(alloc: Global, words: &str, input: &[u8], expected: &str) -> Result<bool, AllocError> {
    let mut output = MemOutput::new(alloc);
    let found = converted(alloc, words, input, &mut output)?;
    Ok(found.as_slice() == expected.as_bytes() && output.stored("/out").is_none())
}

/// Whether each row holds: words, an input, and what is stored.
fn all_store(alloc: Global, rows: &[(&str, &[u8], &[u8])]) -> Result<bool, AllocError> {
    for (words, input, expected) in rows {
        if !stores(alloc, words, input, expected)? {
            return Ok(false);
        }
    }
    Ok(true)
}

/// Whether each row holds: words, an input, and the report of a run that stores nothing.
fn all_refuse(alloc: Global, rows: &[(&str, &[u8], &str)]) -> Result<bool, AllocError> {
    for (words, input, expected) in rows {
        if !refuses(alloc, words, input, expected)? {
            return Ok(false);
        }
    }
    Ok(true)
}

#[test]
fn lists_and_locate02(rt: HostRuntime) -> Result<(), AllocError> {
    let rows: &[(&str, &[u8], &[u8])] = &[
        ("--from list --to locate02", USR_LINES, USR),
        ("--from locate02 --to list", USR, USR_LINES),
        ("--to list", USR, USR_LINES),
        ("--from list --to list0", b"/a\n/b", b"/a\0/b\0"),
        ("--from list0 --to list0", b"/a\0/b\nc\0", b"/a\0/b\nc\0"),
        (
            "--from list0 --to locate02",
            b"x\0x\0",
            b"\0LOCATE02\0\0x\0\x01\0",
        ),
        ("--from list --to list", b"", b""),
        ("--from list --to locate02", b"", b"\0LOCATE02\0"),
        ("--from list --to mlocate", b"", front(72)),
        ("--to list", EMPTY, b""),
    ];
    assert!(rt; all_store(rt.alloc(), rows)?);
    Ok(())
}

/// Whether each row holds: a list, and the pairs and the entries of its bigram database, which gives the list back.
fn all_spell(alloc: Global, rows: &[(&[u8], &[u8], &[u8])]) -> Result<bool, AllocError> {
    for (list, pairs, entries) in rows {
        let database = bigram(alloc, pairs, entries)?;
        if !stores(alloc, "--from list --to bigram", list, &database)? {
            return Ok(false);
        }
        if !stores(alloc, "--to list", &database, list)? {
            return Ok(false);
        }
    }
    Ok(true)
}

#[test]
fn bigrams(rt: HostRuntime) -> Result<(), AllocError> {
    let rows: &[(&[u8], &[u8], &[u8])] = &[
        (b"", b"", b""),
        (b"/a\n", b"/a", b"\x0E\x80"),
        (b"/a/b\n", b"/a/b", b"\x0E\x80\x81"),
        (b"/\xE9\n", b"", b"\x0E/\x1F\xE9"),
        (
            b"/aaaaaaaaaaaaa\n/aaaaaaaaaaaaab\n",
            b"aa/a",
            b"\x0E\x81\x80\x80\x80\x80\x80\x80\x1Cb",
        ),
        (
            b"/aaaaaaaaaaaaaa\n/aaaaaaaaaaaaaab\n",
            b"aa/a",
            b"\x0E\x81\x80\x80\x80\x80\x80\x80a\x1E\x1D\0\0\0b",
        ),
    ];
    assert!(rt; all_spell(rt.alloc(), rows)?);
    Ok(())
}

/// These pieces, one behind another.
fn joined(alloc: Global, pieces: &[&[u8]]) -> Result<Vec<u8>, AllocError> {
    let mut bytes = Vec::new(alloc);
    for piece in pieces {
        bytes.extend_from_slice(piece)?;
    }
    Ok(bytes)
}

/// A path of so many bytes.
fn long_path(alloc: Global, len: usize) -> Result<Vec<u8>, AllocError> {
    let mut path = Vec::new(alloc);
    path.push(b'/')?;
    path.resize(len, b'a')?;
    Ok(path)
}

/// Whether the LOCATE02 database of a path of so many bytes, the same with `b` behind it, and `x` spells the two changes of the
/// shared length so.
fn spells_changes(alloc: Global, len: usize, up: &[u8], down: &[u8]) -> Result<bool, AllocError> {
    let path = long_path(alloc, len)?;
    let list = joined(alloc, &[&path, b"\n", &path, b"b\nx\n"])?;
    let database = joined(
        alloc,
        &[b"\0LOCATE02\0\0", &path, b"\0", up, b"b\0", down, b"x\0"],
    )?;
    stores(alloc, "--from list --to locate02", &list, &database)
}

/// What is answered of a list of one path of so many bytes.
fn of_long_path(alloc: Global, len: usize, expected: &str) -> Result<bool, AllocError> {
    let path = long_path(alloc, len)?;
    let mut output = MemOutput::new(alloc);
    let found = converted(alloc, "--from list --to list", &path, &mut output)?;
    Ok(found.as_slice() == expected.as_bytes())
}

#[test]
fn long_paths(rt: HostRuntime) -> Result<(), AllocError> {
    let alloc = rt.alloc();
    assert!(rt; spells_changes(alloc, 127, b"\x7F", b"\x81")?);
    assert!(rt; spells_changes(alloc, 128, b"\x80\0\x80", b"\x80\xFF\x80")?);
    assert!(rt; of_long_path(alloc, 4_096, "0 ||")?);
    let long = "1 ||convert: /in: damaged at byte 0: path too long,";
    assert!(rt; of_long_path(alloc, 4_097, long)?);
    Ok(())
}

/// Whether the list of the usual machine becomes a database of this project's own, which gives the list back, and the
/// LOCATE02 database of both is the same, of 108 bytes.
fn goes_around(alloc: Global) -> Result<bool, AllocError> {
    let database = joined(alloc, &[front(72), USUAL_BLOCKS])?;
    let mut from_list = MemOutput::new(alloc);
    converted(alloc, "--from list --to locate02", USUAL, &mut from_list)?;
    let locate02 = from_list.stored("/out").unwrap_or(b"");
    Ok(
        database.len() == 291
            && locate02.len() == 108
            && stores(alloc, "--from list --to mlocate", USUAL, &database)?
            && stores(alloc, "--to list", &database, USUAL)?
            && stores(alloc, "--to locate02", &database, locate02)?,
    )
}

#[test]
fn a_usual_machine(rt: HostRuntime) -> Result<(), AllocError> {
    assert!(rt; goes_around(rt.alloc())?);
    let unordered = b"/srv/x\n/tmp\n/home/ann/notes.txt\n/srv\n/tmp\n";
    let ordered = b"/srv\n/tmp\n/home/ann/notes.txt\n/srv/x\n";
    let mut output = MemOutput::new(rt.alloc());
    converted(
        rt.alloc(),
        "--from list --to mlocate",
        unordered,
        &mut output,
    )?;
    let database = output.stored("/out").unwrap_or(b"");
    assert!(rt; stores(rt.alloc(), "--to list", database, ordered)?);
    Ok(())
}

#[test]
fn refused_inputs(rt: HostRuntime) -> Result<(), AllocError> {
    let rows: &[(&str, &[u8], &str)] = &[
        (
            "--from list --to list0",
            b"/a\n\n",
            "1 ||convert: /in: damaged at byte 3: empty path,",
        ),
        (
            "--from list --to list0",
            b"\n",
            "1 ||convert: /in: damaged at byte 0: empty path,",
        ),
        (
            "--from list --to list0",
            b"/a\0\n",
            "1 ||convert: /in: damaged at byte 0: zero byte in path,",
        ),
        (
            "--from list --to mlocate",
            b"a\n\n",
            "1 ||convert: /in: damaged at byte 2: empty path,",
        ),
        (
            "--from list0 --to list",
            b"/a\0/b\nc\0",
            "1 ||convert: path 1: newline in path,",
        ),
        (
            "--from list --to mlocate",
            b"a\n",
            "1 ||convert: path 0: not a normal path below the root,",
        ),
        (
            "--from list --to mlocate",
            b"/a\n/\n/b/\n",
            "1 ||convert: path 1: not a normal path below the root,",
        ),
        (
            "--to list",
            front(130),
            "1 ||convert: /in: damaged at byte 122: cut short,",
        ),
        (
            "--to list",
            b"\0LOCATE02\0\0/a",
            "1 ||convert: /in: damaged at byte 10: cut short,",
        ),
        (
            "--from mlocate --to list",
            USR,
            "1 ||convert: /in: not a database,",
        ),
        (
            "--from locate02 --to list",
            EMPTY,
            "1 ||convert: /in: not a database,",
        ),
        (
            "--from bigram --to list",
            USR,
            "1 ||convert: /in: not a database,",
        ),
        ("--to list", b"/a\n", "1 ||convert: /in: not a database,"),
        ("--to list", b"", "1 ||convert: /in: not a database,"),
        ("--from list", b"/a\n", "1 ||convert: bad usage,"),
        ("--from list --to tar", b"/a\n", "1 ||convert: bad usage,"),
    ];
    assert!(rt; all_refuse(rt.alloc(), rows)?);
    Ok(())
}

/// Whether a run with these words has this report, and this is stored as `/in` then. There is the input `/in`, a list of `/a`,
/// and the reader's call of this number fails.
fn has_report(
    alloc: Global,
    words: &str,
    of_reader: u64,
    expected: &str,
    stored: Option<&[u8]>,
) -> Result<bool, AllocError> {
    let mut files = MemFiles::new(alloc);
    files.put("/in", b"/a\n")?;
    files.fail_at(of_reader)?;
    let mut output = MemOutput::new(alloc);
    let line = format!(in alloc; "convert --from list {words}")?;
    let found = converted_from(alloc, line.as_str(), &mut files, &mut output)?;
    Ok(found.as_slice() == expected.as_bytes() && output.stored("/in") == stored)
}

#[test]
fn names_of_files(rt: HostRuntime) -> Result<(), AllocError> {
    let alloc = rt.alloc();
    assert!(rt; has_report(alloc, "--to list0 /in /in", 99, "0 ||", Some(b"/a\0"))?);
    let missing = "1 ||convert: /none: no such database,";
    assert!(rt; has_report(alloc, "--to list0 /none /in", 99, missing, None)?);
    let unread = "1 ||convert: /in: read fault,";
    assert!(rt; has_report(alloc, "--to list0 /in /in", 1, unread, None)?);
    assert!(rt; has_report(alloc, "--to list0 /in /in", 2, unread, None)?);
    assert!(rt; has_report(alloc, "--to list0 /in", 99, "1 ||convert: bad usage,", None)?);
    Ok(())
}

/// Whether each call of the output that fails is a write fault after which nothing is stored, until a run has no more calls,
/// and is done.
fn stores_at_last(alloc: Global, words: &str) -> Result<bool, AllocError> {
    for at in 1..100u64 {
        let mut output = MemOutput::new(alloc);
        output.fail_at(at)?;
        let found = converted(alloc, words, USR_LINES, &mut output)?;
        if found.as_slice() == b"0 ||".as_slice() {
            return Ok(at > 3 && output.stored("/out").is_some());
        }
        let told = found.as_slice() == b"2 ||convert: write fault,".as_slice();
        if !told || output.stored("/out").is_some() {
            return Ok(false);
        }
    }
    Ok(false)
}

#[test]
fn a_call_of_the_output_that_fails(rt: HostRuntime) -> Result<(), AllocError> {
    let alloc = rt.alloc();
    assert!(rt; stores_at_last(alloc, "--from list --to mlocate")?);
    assert!(rt; stores_at_last(alloc, "--from list --to locate02")?);
    assert!(rt; stores_at_last(alloc, "--from list --to bigram")?);
    assert!(rt; stores_at_last(alloc, "--from list --to list0")?);
    Ok(())
}
