//! Scans of small trees in memory.
use crate::{Counts, Limits, NoVoucher, Rules, ScanFault, Voucher, scan};
use loc_outside::{MemSink, MemTree, Times};
use mount_table::read_mounts;
use path_order::{Kind, NameList, PathBuf, Stamp, is_normal};
use std::alloc::{AllocError, Global};
use updatedb_conf::{conf_block, read_conf};

const NOTHING: &[u8] = b"";

/// The header of a scan of `/` with nothing pruned.
const FRONT: &[u8] = b"\0mlocate\0\0\x006\0\x01\0\0/\0\
    prune_bind_mounts\x000\0\0prunefs\0\0prunenames\0\0prunepaths\0\0";

/// `/` has the directories `a` and `a.b`, `/a` has `z`; all changed at 1,000 s.
const TREE: &[u8] = b"\0mlocate\0\0\x006\0\x01\0\0/\0\
    prune_bind_mounts\x000\0\0prunefs\0\0prunenames\0\0prunepaths\0\0\
    \0\0\0\0\0\0\x03\xE8\0\0\0\0\0\0\0\0/\0\x01a\0\x01a.b\0\x02\
    \0\0\0\0\0\0\x03\xE8\0\0\0\0\0\0\0\0/a\0\x01z\0\x02\
    \0\0\0\0\0\0\x03\xE8\0\0\0\0\0\0\0\0/a/z\0\x02\
    \0\0\0\0\0\0\x03\xE8\0\0\0\0\0\0\0\0/a.b\0\x02";

fn stamp(seconds: u64, nanos: u32) -> Stamp {
    Stamp::new(seconds, nanos).unwrap_or(Stamp::zero())
}

fn put(tree: &mut MemTree, path: &[u8], time: Stamp, hidden: bool) -> Result<(), AllocError> {
    let times = Times {
        modified: time,
        changed: Stamp::zero(),
    };
    if is_normal(path) {
        tree.put_dir(path, times, hidden)?;
    }
    Ok(())
}

fn name(tree: &mut MemTree, dir: &[u8], name: &[u8], kind: Kind) -> Result<(), AllocError> {
    if path_order::is_name(name) && name.len() <= 4096 {
        tree.put_name(dir, name, kind)?;
    }
    Ok(())
}

fn three_levels(alloc: Global, hidden: bool) -> Result<MemTree, AllocError> {
    let mut tree = MemTree::new(alloc);
    put(&mut tree, b"/", stamp(1_000, 0), false)?;
    put(&mut tree, b"/a", stamp(1_000, 0), hidden)?;
    put(&mut tree, b"/a/z", stamp(1_000, 0), false)?;
    put(&mut tree, b"/a.b", stamp(1_000, 0), false)?;
    name(&mut tree, b"/", b"a.b", Kind::Directory)?;
    name(&mut tree, b"/", b"a", Kind::Directory)?;
    name(&mut tree, b"/a", b"z", Kind::Directory)?;
    Ok(tree)
}

/// How a scan of `/` is asked for.
#[derive(Clone, Copy)]
struct Asked<'a> {
    conf: &'a [u8],
    mounts: &'a [u8],
    version: u8,
    verbose: bool,
    limits: Limits,
}

fn plain() -> Asked<'static> {
    Asked {
        conf: NOTHING,
        mounts: NOTHING,
        version: 0,
        verbose: false,
        limits: Limits::standard(),
    }
}

/// Scans `/` at 2,000 s.
fn scan_root(
    alloc: Global,
    asked: &Asked<'_>,
    tree: &mut MemTree,
    sink: &mut MemSink,
    echo: &mut MemSink,
) -> Result<Counts, ScanFault> {
    let Ok(conf) = read_conf(alloc, asked.conf) else {
        return Err(ScanFault::OutOfMemory);
    };
    let Ok(mounts) = read_mounts(alloc, asked.mounts) else {
        return Err(ScanFault::OutOfMemory);
    };
    let Ok(block) = conf_block(alloc, &conf) else {
        return Err(ScanFault::OutOfMemory);
    };
    let mut root = PathBuf::new();
    let _ = root.set(b"/");
    if block.as_slice().len() >= 4_294_967_296 || !is_normal(root.bytes()) {
        return Err(ScanFault::OutOfMemory);
    }
    if asked.version > 1 {
        return Err(ScanFault::OutOfMemory);
    }
    if asked.limits.names > 16_777_216 || asked.limits.directories > 4_294_967_295 {
        return Err(ScanFault::OutOfMemory);
    }
    let rules = Rules {
        root,
        conf,
        mounts,
        flag: true,
        verbose: asked.verbose,
        version: asked.version,
    };
    scan(
        alloc,
        &rules,
        stamp(2_000, 0),
        &asked.limits,
        tree,
        &mut NoVoucher,
        sink,
        echo,
    )
}

fn counts(directories: u64, entries: u64) -> Result<Counts, ScanFault> {
    Ok(Counts {
        directories,
        entries,
    })
}

#[test]
fn a_tree_in_path_order(rt: HostRuntime) -> Result<(), AllocError> {
    let mut tree = three_levels(rt.alloc(), false)?;
    let mut sink = MemSink::with_room(rt.alloc(), 1_000)?;
    let mut echo = MemSink::with_room(rt.alloc(), 100)?;
    let asked = Asked {
        verbose: true,
        ..plain()
    };
    let answer = scan_root(rt.alloc(), &asked, &mut tree, &mut sink, &mut echo);
    assert_eq!(rt; answer, counts(4, 3));
    assert_eq!(rt; sink.taken(), TREE);
    assert_eq!(rt; echo.taken(), b"/a\n/a.b\n/a/z\n".as_slice());
    assert_eq!(rt; (tree.openings(), tree.stats()), (4, 4));
    Ok(())
}

#[test]
fn a_hidden_directory_has_no_block(rt: HostRuntime) -> Result<(), AllocError> {
    let mut tree = three_levels(rt.alloc(), true)?;
    let mut sink = MemSink::with_room(rt.alloc(), 1_000)?;
    let mut echo = MemSink::with_room(rt.alloc(), 100)?;
    let answer = scan_root(rt.alloc(), &plain(), &mut tree, &mut sink, &mut echo);
    assert_eq!(rt; answer, counts(2, 2));
    assert_eq!(rt; (sink.taken().len(), tree.openings()), (121, 3));
    assert_eq!(rt; echo.taken(), NOTHING);
    Ok(())
}

#[test]
fn what_is_pruned_is_not_opened(rt: HostRuntime) -> Result<(), AllocError> {
    for (conf, mounts, length, openings) in [
        (b"PRUNEPATHS = \"/\"".as_slice(), NOTHING, 74, 0),
        (b"PRUNEPATHS = \"/a\"".as_slice(), NOTHING, 124, 2),
        (b"PRUNENAMES = \"z\"".as_slice(), NOTHING, 146, 3),
        (
            b"PRUNEFS = \"Proc\"".as_slice(),
            b"1 0 8:1 / / rw - ext4 a rw\n2 1 0:5 / /a rw - proc p rw\n".as_slice(),
            126,
            2,
        ),
    ] {
        let asked = Asked {
            conf,
            mounts,
            ..plain()
        };
        let mut tree = three_levels(rt.alloc(), false)?;
        let mut sink = MemSink::with_room(rt.alloc(), 1_000)?;
        let mut echo = MemSink::with_room(rt.alloc(), 100)?;
        let answer = scan_root(rt.alloc(), &asked, &mut tree, &mut sink, &mut echo);
        assert!(rt; answer.is_ok());
        assert_eq!(rt; (sink.taken().len(), tree.openings()), (length, openings));
    }
    Ok(())
}

#[test]
fn limits_and_what_was_written_then(rt: HostRuntime) -> Result<(), AllocError> {
    for (names, directories, fault, length) in [
        (1, 9, ScanFault::TooManyNames, 72),
        (9, 3, ScanFault::TooManyDirectories, 144),
        (9, 0, ScanFault::TooManyDirectories, 72),
    ] {
        let asked = Asked {
            limits: Limits { names, directories },
            ..plain()
        };
        let mut tree = three_levels(rt.alloc(), false)?;
        let mut sink = MemSink::with_room(rt.alloc(), 1_000)?;
        let mut echo = MemSink::with_room(rt.alloc(), 100)?;
        let answer = scan_root(rt.alloc(), &asked, &mut tree, &mut sink, &mut echo);
        assert_eq!(rt; answer, Err(fault));
        assert_eq!(rt; sink.taken().len(), length);
    }
    Ok(())
}

/// How many bytes are written before the call of this number.
fn written_before(call: u64) -> usize {
    match call {
        1 => 0,
        2..=5 => 72,
        6..=9 => 99,
        10..=12 => 122,
        13..=15 => 144,
        _ => 166,
    }
}

// The n-th call on the tree fails: the blocks of the directories before the one in hand were written.
#[test]
fn faults_of_the_tree(rt: HostRuntime) -> Result<(), AllocError> {
    for call in 1..17 {
        let mut tree = three_levels(rt.alloc(), false)?;
        tree.fail_at(call)?;
        let mut sink = MemSink::with_room(rt.alloc(), 1_000)?;
        let mut echo = MemSink::with_room(rt.alloc(), 100)?;
        let answer = scan_root(rt.alloc(), &plain(), &mut tree, &mut sink, &mut echo);
        if call == 16 {
            assert_eq!(rt; answer, counts(4, 3));
        } else {
            assert_eq!(rt; answer, Err(ScanFault::TreeFault));
        }
        assert_eq!(rt; sink.taken().len(), written_before(call));
    }
    Ok(())
}

// The line of an entry is echoed after the entry was written.
#[test]
fn faults_of_the_sink_and_the_echo(rt: HostRuntime) -> Result<(), AllocError> {
    let asked = Asked {
        verbose: true,
        ..plain()
    };
    for (room, echo_room, taken, echoed) in [
        (93, 100, 93, 3),
        (94, 100, 94, 3),
        (1_000, 5, 98, 5),
    ] {
        let mut tree = three_levels(rt.alloc(), false)?;
        let mut sink = MemSink::with_room(rt.alloc(), room)?;
        let mut echo = MemSink::with_room(rt.alloc(), echo_room)?;
        let answer = scan_root(rt.alloc(), &asked, &mut tree, &mut sink, &mut echo);
        assert_eq!(rt; answer, Err(ScanFault::WriteFault));
        assert_eq!(rt; (sink.taken().len(), echo.taken().len()), (taken, echoed));
    }
    Ok(())
}

/// The directories of a usual machine.
const DIRECTORIES: &[u8] =
    b"/\n/home\n/home/ann\n/home/ann/.git\n/mnt\n/mnt/ann\n/proc\n/proc/1\n/run\n/srv\n/srv/x\n/tmp";

/// The directories that they name.
const NAMED: &[u8] =
    b"/ home\n/ mnt\n/ proc\n/ run\n/ srv\n/ tmp\n/home ann\n/home/ann .git\n/mnt ann\n/proc 1\n/srv x";

/// Their files.
const FILES: &[u8] =
    b"/ vmlinuz\n/home/ann notes.txt\n/home/ann/.git HEAD\n/mnt/ann notes.txt\n/run pid\n\
    /srv/x page.html\n/tmp scratch";

const USUAL: &[u8] = b"# usual\nPRUNE_BIND_MOUNTS = \"yes\"\nPRUNEFS = \"proc tmpfs NFS\"\n\
    PRUNENAMES = \".git .svn\"\nPRUNEPATHS =\t\"/var/spool /tmp\"\n";

const MOUNTS: &[u8] = b"20 1 8:1 / / rw,relatime shared:1 - ext4 /dev/sda1 rw\n\
    21 20 0:20 / /proc rw,nosuid - proc proc rw\n\
    22 20 0:21 / /run rw - tmpfs tmpfs rw,size=1000k\n\
    23 20 8:1 /home/ann /mnt/ann rw shared:1 - ext4 /dev/sda1 rw\n\
    24 20 8:1 /srv/x /srv/x rw shared:1 - ext4 /dev/sda1 rw\n";

fn put_rows(tree: &mut MemTree, rows: &[u8]) -> Result<(), AllocError> {
    for path in rows.split(|byte| *byte == b'\n') {
        put(tree, path, stamp(1_000, 0), false)?;
    }
    Ok(())
}

fn name_rows(tree: &mut MemTree, rows: &[u8], kind: Kind) -> Result<(), AllocError> {
    for row in rows.split(|byte| *byte == b'\n') {
        let mut parts = row.split(|byte| *byte == b' ');
        let Some(dir) = parts.next() else {
            return Ok(());
        };
        let Some(base) = parts.next() else {
            return Ok(());
        };
        name(tree, dir, base, kind)?;
    }
    Ok(())
}

#[test]
fn a_usual_machine(rt: HostRuntime) -> Result<(), AllocError> {
    let mut tree = MemTree::new(rt.alloc());
    put_rows(&mut tree, DIRECTORIES)?;
    name_rows(&mut tree, NAMED, Kind::Directory)?;
    name_rows(&mut tree, FILES, Kind::File)?;
    let mut sink = MemSink::with_room(rt.alloc(), 1_000)?;
    let mut echo = MemSink::with_room(rt.alloc(), 100)?;
    let asked = Asked {
        conf: USUAL,
        mounts: MOUNTS,
        ..plain()
    };
    let answer = scan_root(rt.alloc(), &asked, &mut tree, &mut sink, &mut echo);
    assert_eq!(rt; answer, counts(6, 13));
    assert_eq!(rt; (sink.taken().len(), tree.openings()), (332, 6));
    Ok(())
}

#[test]
fn recent_times_and_devices(rt: HostRuntime) -> Result<(), AllocError> {
    for (conf, seconds, nanos, version, last) in [
        (
            NOTHING,
            1_997,
            0,
            0,
            b"\0\0\0\0\0\0\0\0\0\0\0\0\0\0\0\0/\0\x02".as_slice(),
        ),
        (
            NOTHING,
            1_996,
            999_999_999,
            0,
            b"\0\0\0\0\0\0\x07\xCC\x3B\x9A\xC9\xFF\0\0\0\0/\0\x02".as_slice(),
        ),
        (
            NOTHING,
            2_001,
            0,
            0,
            b"\0\0\0\0\0\0\0\0\0\0\0\0\0\0\0\0/\0\x02".as_slice(),
        ),
        (
            NOTHING,
            0,
            0,
            0,
            b"\0\0\0\0\0\0\0\0\0\0\0\0\0\0\0\0/\0\x02".as_slice(),
        ),
        (
            NOTHING,
            1_000,
            0,
            1,
            b"\0\0\0\0\0\0\x03\xE8\0\0\0\0\0\x80\0\x01/\0\x02".as_slice(),
        ),
        (
            b"RECENT_MARGIN = \"10\"".as_slice(),
            1_990,
            0,
            0,
            b"\0\0\0\0\0\0\0\0\0\0\0\0\0\0\0\0/\0\x02".as_slice(),
        ),
        (
            b"RECENT_MARGIN = \"0\"".as_slice(),
            1_999,
            999_999_999,
            0,
            b"\0\0\0\0\0\0\x07\xCF\x3B\x9A\xC9\xFF\0\0\0\0/\0\x02".as_slice(),
        ),
    ] {
        let asked = Asked {
            conf,
            mounts: b"20 1 8:1 / / rw - ext4 /dev/sda1 rw",
            version,
            ..plain()
        };
        let mut tree = MemTree::new(rt.alloc());
        put(&mut tree, b"/", stamp(seconds, nanos), false)?;
        let mut sink = MemSink::with_room(rt.alloc(), 1_000)?;
        let mut echo = MemSink::with_room(rt.alloc(), 100)?;
        let answer = scan_root(rt.alloc(), &asked, &mut tree, &mut sink, &mut echo);
        assert_eq!(rt; answer, counts(1, 0));
        assert!(rt; sink.taken().ends_with(last));
    }
    Ok(())
}

#[test]
fn no_root_and_no_room(rt: HostRuntime) -> Result<(), AllocError> {
    let mut tree = MemTree::new(rt.alloc());
    let mut sink = MemSink::with_room(rt.alloc(), 80)?;
    let mut echo = MemSink::with_room(rt.alloc(), 100)?;
    let answer = scan_root(rt.alloc(), &plain(), &mut tree, &mut sink, &mut echo);
    assert_eq!(rt; answer, Err(ScanFault::RootMissing));
    assert_eq!(rt; sink.taken(), NOTHING);
    let mut tree = three_levels(rt.alloc(), false)?;
    let answer = scan_root(rt.alloc(), &plain(), &mut tree, &mut sink, &mut echo);
    assert_eq!(rt; answer, Err(ScanFault::WriteFault));
    assert!(rt; sink.taken().starts_with(FRONT));
    Ok(())
}

// A path of 4,096 bytes is stored, and one of 4,097 is not.
#[test]
fn names_that_do_not_fit(rt: HostRuntime) -> Result<(), AllocError> {
    let alloc = rt.alloc();
    let mut long = Vec::new(alloc);
    for _ in 0..4_093 {
        long.push(b'd')?;
    }
    let mut path = Vec::new(alloc);
    path.push(b'/')?;
    path.extend_from_slice(&long)?;
    let mut tree = MemTree::new(alloc);
    put(&mut tree, b"/", stamp(1_000, 0), false)?;
    put(&mut tree, &path, stamp(1_000, 0), false)?;
    name(&mut tree, b"/", &long, Kind::Directory)?;
    name(&mut tree, &path, b"e", Kind::File)?;
    name(&mut tree, &path, b"ee", Kind::File)?;
    let mut sink = MemSink::with_room(alloc, 9_000)?;
    let mut echo = MemSink::with_room(alloc, 100)?;
    let answer = scan_root(alloc, &plain(), &mut tree, &mut sink, &mut echo);
    assert_eq!(rt; answer, counts(2, 2));
    assert_eq!(rt; sink.taken().len(), 8_301);
    assert!(rt; sink.taken().ends_with(b"d\0\0e\0\x02"));
    Ok(())
}

#[test]
fn no_record_vouches(rt: HostRuntime) -> Result<(), AllocError> {
    let mut names = NameList::new(rt.alloc());
    names.push(b"x", Kind::File)?;
    assert_eq!(rt;
        NoVoucher.vouch(b"/", stamp(1, 0), 0, &mut names),
        Ok(false)
    );
    assert_eq!(rt; names.len(), 0);
    Ok(())
}
