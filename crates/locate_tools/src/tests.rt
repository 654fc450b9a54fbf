//! Whole runs of `locate` over what is in memory.
use crate::answer::Ending;
use crate::call::Call;
use crate::run::run;
use loc_outside::{MemFiles, MemGate, MemOutput, MemSink, MemTree};
use locate_engine::Outcome;
use path_order::Stamp;
use std::alloc::{AllocError, Global};

/// The database of a tree with `/`, `/a`, `/a.b` and `/a/z`, whose paths all may be shown.
pub const TREE: &[u8] =
    b"\0mlocate\0\0\06\0\0\0\0/\0prune_bind_mounts\00\0\0prunefs\0\0prunenames\0\0prunepaths\0\0\0\0\0\0\0\0\x03\xe8\0\0\0\0\0\0\0\0/\0\x01a\0\x01a.b\0\x02\0\0\0\0\0\0\x03\xe8\0\0\0\0\0\0\0\0/a\0\x01z\0\x02\0\0\0\0\0\0\x03\xe8\0\0\0\0\0\0\0\0/a/z\0\x02\0\0\0\0\0\0\x03\xe8\0\0\0\0\0\0\0\0/a.b\0\x02";

/// A LOCATE02 database of `/usr/src`, `/usr/src/cmd/aardvark.c`, `/usr/src/cmd/armadillo.c` and `/usr/tmp/zoo`.
pub const USR: &[u8] =
    b"\0LOCATE02\0\0/usr/src\0\x08/cmd/aardvark.c\0\x06rmadillo.c\0\xF7tmp/zoo\0";

/// The words of a line, which a space stands between.
pub fn call_of(alloc: Global, line: &str, locate_path: Option<&str>) -> Result<Call, AllocError> {
    let mut words = Vec::new(alloc);
    if !line.is_empty() {
        for word in line.split(' ') {
            words.push(String::from_str(alloc, word)?)?;
        }
    }
    let path = match locate_path {
        Some(path) => Some(String::from_str(alloc, path)?),
        None => None,
    };
    Ok(Call::new(words, moment(), path))
}

fn moment() -> Stamp {
    Stamp::new(2_000, 0).unwrap_or(Stamp::zero())
}

fn letter(outcome: Outcome) -> u8 {
    match outcome {
        Outcome::Whole => b'W',
        Outcome::Missing => b'M',
        Outcome::NotADatabase => b'N',
        Outcome::Damage(_) => b'D',
        Outcome::ReadFault => b'R',
        Outcome::GateFault => b'G',
        Outcome::TooLarge => b'T',
        Outcome::LimitReached => b'L',
        Outcome::WriteFault => b'F',
    }
}

/// A newline is shown as a comma, and byte 0 as a semicolon.
fn push_shown(text: &mut Vec<u8>, bytes: &[u8]) -> Result<(), AllocError> {
    for byte in bytes {
        let shown = match *byte {
            b'\n' => b',',
            0 => b';',
            other => other,
        };
        text.push(shown)?;
    }
    Ok(())
}

/// The status, a letter for each outcome, what standard output took, and what the error stream took.
pub fn report(
    alloc: Global,
    ending: &Ending,
    out: &[u8],
    err: &[u8],
) -> Result<Vec<u8>, AllocError> {
    let mut text = Vec::new(alloc);
    text.push(b'0' + ending.status.min(9))?;
    text.push(b' ')?;
    for outcome in ending.outcomes.as_slice() {
        text.push(letter(*outcome))?;
    }
    text.push(b'|')?;
    push_shown(&mut text, out)?;
    text.push(b'|')?;
    push_shown(&mut text, err)?;
    Ok(text)
}

/// The report of a run over these files and this gate.
pub fn located(
    alloc: Global,
    files: &mut MemFiles,
    gate: &mut MemGate,
    call: &Call,
) -> Result<Vec<u8>, AllocError> {
    located_within(alloc, files, gate, call, 1_000, 1_000)
}

/// The same, with sinks of so much room.
fn located_within(
    alloc: Global,
    files: &mut MemFiles,
    gate: &mut MemGate,
    call: &Call,
    out_room: usize,
    err_room: usize,
) -> Result<Vec<u8>, AllocError> {
    let mut tree = MemTree::new(alloc);
    let mut output = MemOutput::new(alloc);
    let mut out = MemSink::with_room(alloc, out_room)?;
    let mut err = MemSink::with_room(alloc, err_room)?;
    let ending = run(
        alloc,
        call,
        files,
        &mut tree,
        gate,
        &mut output,
        &mut out,
        &mut err,
    );
    report(alloc, &ending, out.taken(), err.taken())
}

fn put(
    files: &mut MemFiles,
    name: &str,
    pieces: &[&[u8]],
    alloc: Global,
) -> Result<(), AllocError> {
    let mut bytes = Vec::new(alloc);
    for piece in pieces {
        bytes.extend_from_slice(piece)?;
    }
    files.put(name, &bytes)
}

/// The first bytes of the tree's database.
pub fn front(count: usize) -> &'static [u8] {
    TREE.get(..count).unwrap_or(b"")
}

/// The bytes of the tree's database that stand behind so many.
fn behind(count: usize) -> &'static [u8] {
    TREE.get(count..).unwrap_or(b"")
}

/// The files `/db`, with the tree, `/gated`, the same whose paths are shown only to those who may list their
/// directories, `/cut`, its first 130 bytes, `/usr`, in LOCATE02, `/big`, a bigram database of `/a`, and `/none`, which is
/// no database.
fn stored(alloc: Global) -> Result<MemFiles, AllocError> {
    let mut files = MemFiles::new(alloc);
    put(&mut files, "/db", &[TREE], alloc)?;
    put(
        &mut files,
        "/gated",
        &[front(13), b"\x01", behind(14)],
        alloc,
    )?;
    put(&mut files, "/cut", &[front(130)], alloc)?;
    put(&mut files, "/usr", &[USR], alloc)?;
    put(&mut files, "/big", &[b"/a", &[0; 254], b"\x0E\x80"], alloc)?;
    put(&mut files, "/none", &[b"x"], alloc)?;
    Ok(files)
}

/// Whether each row, a line of words and behind `>` the report of its run, holds.
pub fn rows_hold(
    alloc: Global,
    rows: &str,
    files: &mut MemFiles,
    gate: &mut MemGate,
) -> Result<bool, AllocError> {
    for row in rows.split('\n') {
        let mut parts = row.split('>');
        let line = parts.next().unwrap_or("");
        let expected = parts.next().unwrap_or("");
        let call = call_of(alloc, line, None)?;
        let found = located(alloc, files, gate, &call)?;
        if found.as_slice() != expected.as_bytes() {
            return Ok(false);
        }
    }
    Ok(true)
}

/// The same, over the stored files and a gate that shows all.
pub fn plain_rows_hold(alloc: Global, rows: &str) -> Result<bool, AllocError> {
    let mut files = stored(alloc)?;
    let mut gate = MemGate::new(alloc);
    rows_hold(alloc, rows, &mut files, &mut gate)
}

#[test]
fn patterns_and_options(rt: HostRuntime) -> Result<(), AllocError> {
    let rows = "locate -d /db a>0 W|/a,/a.b,/a/z,|
locate -d /db -b a>0 W|/a,/a.b,|
locate -d /db -A a z>0 W|/a/z,|
locate -d /db -i A>0 W|/a,/a.b,/a/z,|
locate -d /db *b>0 W|/a.b,|
locate -d /db >0 W|/a,/a.b,/a/z,|
locate -d /db -0 z>0 W|/a/z;|
locate -d /db q>1 W||
locate -d /db>1 ||locate: bad usage,
locate -d /db -l 0 a>0 ||
locate -d /db -l 3 a>0 L|/a,/a.b,/a/z,|
locate -d /db:/usr -l 4 -b *a*>0 WL|/a,/a.b,/usr/src/cmd/aardvark.c,/usr/src/cmd/armadillo.c,|
locate -c -d /db:/x a>0 WM|3,|locate: /x: no such database,
locate -q -c -d /db:/x a>0 WM|3,|
locate -c -d /db q>1 W|0,|
locate -c -l 0 a>0 |0,|";
    assert!(rt; plain_rows_hold(rt.alloc(), rows)?);
    Ok(())
}

#[test]
fn formats_and_endings(rt: HostRuntime) -> Result<(), AllocError> {
    let rows = "locate -d /usr arm>0 W|/usr/src/cmd/armadillo.c,|
locate -d /big a>0 W|/a,|
locate -d /cut a>0 D|/a,/a.b,/a/z,|locate: /cut: damaged at byte 122: cut short,
locate -d /cut -l 1 a>0 L|/a,|
locate -d /none a>1 N||locate: /none: not a database,
locate -q -d /none a>1 N||
locate -d /x:/cut:/db /a/>0 MDW|/a/z,/a/z,|locate: /x: no such database,locate: /cut: damaged at byte 122: cut short,
find a>1 ||locate_tools: bad usage,
>1 ||locate_tools: bad usage,
convert --to list /none /out>1 ||convert: /none: not a database,
exercise 1>1 ||exercise: bad usage,";
    assert!(rt; plain_rows_hold(rt.alloc(), rows)?);
    Ok(())
}

#[test]
fn statistics_of_three_formats(rt: HostRuntime) -> Result<(), AllocError> {
    let rows =
        "locate -S -d /db>0 W|Database /db:,\t4 directories,\t3 files,\t5 bytes in file names,\t166 bytes used to store database,|
locate -S -l 0 -c -d /usr>0 W|Database /usr:,\t0 directories,\t4 files,\t67 bytes in file names,\t58 bytes used to store database,|
locate -S -d /big:/x:/none>0 WMN|Database /big:,\t0 directories,\t1 files,\t2 bytes in file names,\t258 bytes used to store database,|locate: /x: no such database,locate: /none: not a database,
locate -S -q -d /cut a>0 D|Database /cut:,\t2 directories,\t3 files,\t5 bytes in file names,\t122 bytes used to store database,|";
    assert!(rt; plain_rows_hold(rt.alloc(), rows)?);
    Ok(())
}

/// Whether a run with this `LOCATE_PATH` has this report.
fn finds_by_path(
    alloc: Global,
    line: &str,
    locate_path: &str,
    expected: &str,
) -> Result<bool, AllocError> {
    let mut files = stored(alloc)?;
    let mut gate = MemGate::new(alloc);
    let call = call_of(alloc, line, Some(locate_path))?;
    let found = located(alloc, &mut files, &mut gate, &call)?;
    Ok(found.as_slice() == expected.as_bytes())
}

#[test]
fn databases_of_the_environment(rt: HostRuntime) -> Result<(), AllocError> {
    let both = "0 MW|/a,/a.b,/a/z,|locate: /var/lib/mlocate/mlocate.db: no such database,";
    assert!(rt; finds_by_path(rt.alloc(), "locate a", "/db", both)?);
    assert!(rt; finds_by_path(rt.alloc(), "locate -d /db a", "", "0 W|/a,/a.b,/a/z,|")?);
    Ok(())
}

/// Whether these rows hold over a gate that hides `/a` and has lost `/a.b`, and it is asked so often.
fn gate_rows_hold(alloc: Global, rows: &str, asks: u64) -> Result<bool, AllocError> {
    let mut files = stored(alloc)?;
    let mut gate = MemGate::new(alloc);
    gate.hide(b"/a")?;
    gate.lose(b"/a.b")?;
    let hold = rows_hold(alloc, rows, &mut files, &mut gate)?;
    Ok(hold && gate.asks() == asks)
}

#[test]
fn what_the_gate_shows(rt: HostRuntime) -> Result<(), AllocError> {
    let rows = "locate -d /gated a>0 W|/a,/a.b,|
locate -d /db a>0 W|/a,/a.b,/a/z,|
locate -d /db -e a>0 W|/a,/a/z,|
locate -d /gated -e a>0 W|/a,|";
    assert!(rt; gate_rows_hold(rt.alloc(), rows, 9)?);
    Ok(())
}

/// Whether each row, a number and behind `>` a report, holds of a run in which the gate's call of this number fails, or
/// else the reader's.
fn failing_rows_hold(
    alloc: Global,
    rows: &str,
    line: &str,
    of_gate: bool,
) -> Result<bool, AllocError> {
    let call = call_of(alloc, line, None)?;
    for row in rows.split('\n') {
        let mut parts = row.split('>');
        let at = parts.next().unwrap_or("").parse::<u64>().unwrap_or(0);
        let expected = parts.next().unwrap_or("");
        let mut files = stored(alloc)?;
        let mut gate = MemGate::new(alloc);
        if of_gate {
            gate.fail_at(at)?;
        } else {
            files.fail_at(at)?;
        }
        let found = located(alloc, &mut files, &mut gate, &call)?;
        if found.as_slice() != expected.as_bytes() {
            return Ok(false);
        }
    }
    Ok(true)
}

#[test]
fn calls_that_fail(rt: HostRuntime) -> Result<(), AllocError> {
    let of_gate = "1>1 G||locate: /gated: visibility check failed,
2>0 G|/a,/a.b,|locate: /gated: visibility check failed,
3>0 W|/a,/a.b,/a/z,|";
    assert!(rt; failing_rows_hold(rt.alloc(), of_gate, "locate -d /gated a", true)?);
    let of_reader = "1>1 R||locate: /db: read fault,
2>1 R||locate: /db: read fault,
3>0 R|/a,/a.b,/a/z,|locate: /db: read fault,";
    assert!(rt; failing_rows_hold(rt.alloc(), of_reader, "locate -d /db a", false)?);
    let twice = "2>0 RW|/a,/a.b,/a/z,|locate: /db: read fault,";
    assert!(rt; failing_rows_hold(rt.alloc(), twice, "locate -d /db:/db a", false)?);
    Ok(())
}

/// Whether a run whose sinks have so much room has this report.
fn cramped(
    alloc: Global,
    line: &str,
    out_room: usize,
    err_room: usize,
    expected: &str,
) -> Result<bool, AllocError> {
    let mut files = stored(alloc)?;
    let mut gate = MemGate::new(alloc);
    let call = call_of(alloc, line, None)?;
    let found = located_within(alloc, &mut files, &mut gate, &call, out_room, err_room)?;
    Ok(found.as_slice() == expected.as_bytes())
}

#[test]
fn writes_that_fail(rt: HostRuntime) -> Result<(), AllocError> {
    let alloc = rt.alloc();
    assert!(rt;
        cramped(
            alloc,
            "locate -d /db:/usr a",
            5,
            99,
            "1 F|/a,/a|locate: write fault,"
        )?
    );
    assert!(rt;
        cramped(
            alloc,
            "locate -c -d /db a",
            1,
            99,
            "1 W|3|locate: write fault,"
        )?
    );
    assert!(rt;
        cramped(
            alloc,
            "locate -S -d /db",
            12,
            99,
            "1 F|Database /db|locate: write fault,"
        )?
    );
    Ok(())
}

#[test]
fn messages_that_fail(rt: HostRuntime) -> Result<(), AllocError> {
    let alloc = rt.alloc();
    assert!(rt;
        cramped(
            alloc,
            "locate -d /x:/db a",
            99,
            4,
            "0 MW|/a,/a.b,/a/z,|loca"
        )?
    );
    let two = "1 MD||locate: /x: no such database,locate: /cu";
    assert!(rt; cramped(alloc, "locate -d /x:/cut q", 99, 40, two)?);
    Ok(())
}
