//! Updates over files, trees and outputs in memory.
ghost use Rattle.std.specs.Prelude.{◌-◌, ⊤, Some, length, min};
ghost use Rattle.std.proofs.Math.Nat.{min-le_right};
ghost use Rattle.loc_outside.specs.Causes.{last_count, stays_below};

use crate::{SettingsFile, UpdateFault, update};
use loc_outside::{
    BufferedSink, Failed, MemFiles, MemOutput, MemSink, MemTree, Sink, Times, put_all,
};
use mount_table::MountCause;
use path_order::{Kind, Stamp, is_name, is_normal};
use std::alloc::{AllocError, Global};
use tool_words::UpdatedbSettings;
use tree_scan::Counts;
use updatedb_conf::ConfCause;

/// A database of `/`, which is empty and changed at 1,000 s.
const EMPTY_ROOT: &[u8] = b"\0mlocate\0\0\x006\0\x01\0\0/\0\
    prune_bind_mounts\x000\0\0prunefs\0\0prunenames\0\0prunepaths\0\0\
    \0\0\0\0\0\0\x03\xE8\0\0\0\0\0\0\0\0/\0\x02";

/// What an update is run over.
#[derive(Drop)]
pub(crate) struct World {
    pub(crate) files: MemFiles,
    pub(crate) tree: MemTree,
    pub(crate) output: MemOutput,
    pub(crate) out: MemSink,
}

pub(crate) fn stamp(seconds: u64, nanos: u32) -> Stamp {
    Stamp::new(seconds, nanos).unwrap_or(Stamp::zero())
}

pub(crate) fn put(
    tree: &mut MemTree,
    path: &[u8],
    time: Stamp,
    hidden: bool,
) -> Result<(), AllocError> {
    let times = Times {
        modified: time,
        changed: Stamp::zero(),
    };
    if is_normal(path) {
        tree.put_dir(path, times, hidden)?;
    }
    Ok(())
}

fn name(tree: &mut MemTree, dir: &[u8], name: &[u8]) -> Result<(), AllocError> {
    if is_name(name) && name.len() <= 4096 {
        tree.put_name(dir, name, Kind::Directory)?;
    }
    Ok(())
}

/// No file, and a tree of an empty root, which changed at this time.
pub(crate) fn changed_at(alloc: Global, time: Stamp) -> Result<World, AllocError> {
    let mut tree = MemTree::new(alloc);
    put(&mut tree, b"/", time, false)?;
    Ok(World {
        files: MemFiles::new(alloc),
        tree,
        output: MemOutput::new(alloc),
        out: MemSink::with_room(alloc, 100)?,
    })
}

pub(crate) fn empty_root(alloc: Global) -> Result<World, AllocError> {
    changed_at(alloc, stamp(1_000, 0))
}

/// `/` has the directories `a` and `a.b`, `/a` has `z`.
pub(crate) fn three_levels(alloc: Global, hidden: bool) -> Result<World, AllocError> {
    let mut world = empty_root(alloc)?;
    put(&mut world.tree, b"/a", stamp(1_000, 0), hidden)?;
    put(&mut world.tree, b"/a/z", stamp(1_000, 0), false)?;
    put(&mut world.tree, b"/a.b", stamp(1_000, 0), false)?;
    name(&mut world.tree, b"/", b"a")?;
    name(&mut world.tree, b"/", b"a.b")?;
    name(&mut world.tree, b"/a", b"z")?;
    Ok(world)
}

/// `updatedb -o /db`
pub(crate) fn plain() -> UpdatedbSettings<'static> {
    UpdatedbSettings {
        root: "/",
        output: "/db",
        visibility: true,
        verbose: false,
        version: 0,
        margin: None,
        prune_bind_mounts: None,
        prunefs: None,
        prunenames: None,
        prunepaths: None,
        add_prunefs: "",
        add_prunenames: "",
        add_prunepaths: "",
    }
}

/// Updates at 2,000 s.
fn run(
    alloc: Global,
    asked: &UpdatedbSettings<'_>,
    world: &mut World,
) -> Result<Counts, UpdateFault> {
    run_at(alloc, asked, 2_000, world)
}

/// Updates at so many seconds.
pub(crate) fn run_at(
    alloc: Global,
    asked: &UpdatedbSettings<'_>,
    seconds: u64,
    world: &mut World,
) -> Result<Counts, UpdateFault> {
    update(
        alloc,
        asked,
        stamp(seconds, 0),
        &mut world.files,
        &mut world.tree,
        &mut world.output,
        &mut world.out,
    )
}

/// A sink that holds back the bytes that it takes, up to 100, until it is flushed. Where it is stuck, a flush fails.
#[derive(Drop)]
struct LateSink {
    all: MemSink,
    passed: usize,
    stuck: bool,
    faults: u64,
}

impl LateSink {
    fn new(alloc: Global, stuck: bool) -> Result<LateSink, AllocError> {
        Ok(LateSink {
            all: MemSink::with_room(alloc, 100)?,
            passed: 0,
            stuck,
            faults: 0,
        })
    }

    /// The bytes that it has passed on.
    fn passed(&self) -> &[u8] {
        self.all.taken().get(..self.passed).unwrap_or(b"")
    }
}

impl Sink for LateSink {
    ghost taken = { λ s. Some s.all.taken };

    ghost faults = { λ s. min s.faults last_count };

    ghost kept = { λ s t. ⊤ };

    ghost keeps_itself = { λ s. tt };

    ghost keeps_on = { λ s t u first then. tt };

    ghost faults_below = { λ s. stays_below s.faults };

    fn write(&mut self, piece: &[u8]) -> Result<usize, Failed> {
        let Ok(count) = self.all.write(piece) else {
            self.faults = self.faults.saturating_add(1);
            return Err(Failed);
        };
        Ok(count)
    }
}

impl BufferedSink for LateSink {
    ghost buffer_size = { 100 };

    ghost held_back = { λ s. min (length s.all.taken - s.passed) 100 };

    ghost held_within = { λ s. min-le_right (length s.all.taken - s.passed) 100 };

    fn flush(&mut self) -> Result<(), Failed> {
        if self.stuck {
            self.faults = self.faults.saturating_add(1);
            return Err(Failed);
        }
        self.passed = self.all.taken().len();
        Ok(())
    }
}

/// Updates at 2,000 s with verbose, into this sink.
fn echo_into(alloc: Global, world: &mut World, out: &mut LateSink) -> Result<Counts, UpdateFault> {
    let mut asked = plain();
    asked.verbose = true;
    update(
        alloc,
        &asked,
        stamp(2_000, 0),
        &mut world.files,
        &mut world.tree,
        &mut world.output,
        out,
    )
}

/// The bytes that are stored under the output's name, or none.
pub(crate) fn stored(world: &World) -> &[u8] {
    match world.output.stored("/db") {
        Some(bytes) => bytes,
        None => &[],
    }
}

pub(crate) fn counts(directories: u64, entries: u64) -> Result<Counts, UpdateFault> {
    Ok(Counts {
        directories,
        entries,
    })
}

#[test]
fn an_empty_root(rt: HostRuntime) -> Result<(), AllocError> {
    let mut world = empty_root(rt.alloc())?;
    assert_eq!(rt; run(rt.alloc(), &plain(), &mut world), counts(1, 0));
    assert_eq!(rt; stored(&world), EMPTY_ROOT);
    assert_eq!(rt; (world.tree.openings(), world.tree.stats()), (1, 1));
    Ok(())
}

#[test]
fn a_pruned_root_is_not_opened(rt: HostRuntime) -> Result<(), AllocError> {
    let mut world = empty_root(rt.alloc())?;
    let mut asked = plain();
    asked.add_prunepaths = "/";
    assert_eq!(rt; run(rt.alloc(), &asked, &mut world), counts(0, 0));
    assert_eq!(rt; (stored(&world).len(), world.tree.openings()), (74, 0));
    Ok(())
}

#[test]
fn entries_are_echoed(rt: HostRuntime) -> Result<(), AllocError> {
    let mut world = three_levels(rt.alloc(), false)?;
    let mut asked = plain();
    asked.verbose = true;
    assert_eq!(rt; run(rt.alloc(), &asked, &mut world), counts(4, 3));
    assert_eq!(rt; (stored(&world).len(), world.tree.openings()), (166, 4));
    assert_eq!(rt; world.out.taken(), b"/a\n/a.b\n/a/z\n".as_slice());
    Ok(())
}

#[test]
fn a_hidden_directory(rt: HostRuntime) -> Result<(), AllocError> {
    let mut world = three_levels(rt.alloc(), true)?;
    assert_eq!(rt; run(rt.alloc(), &plain(), &mut world), counts(2, 2));
    assert_eq!(rt; (stored(&world).len(), world.tree.openings()), (121, 3));
    assert!(rt; world.out.taken().is_empty());
    Ok(())
}

#[test]
fn an_unknown_root(rt: HostRuntime) -> Result<(), AllocError> {
    let mut world = empty_root(rt.alloc())?;
    let mut asked = plain();
    asked.root = "/none";
    assert_eq!(rt;
        run(rt.alloc(), &asked, &mut world),
        Err(UpdateFault::RootMissing)
    );
    assert!(rt; world.output.stored("/db").is_none());
    assert!(rt; world.output.pending().is_empty());
    Ok(())
}

#[test]
fn a_tree_fault_stores_nothing(rt: HostRuntime) -> Result<(), AllocError> {
    let mut world = three_levels(rt.alloc(), false)?;
    world.tree.fail_at(11)?;
    assert_eq!(rt;
        run(rt.alloc(), &plain(), &mut world),
        Err(UpdateFault::TreeFault)
    );
    assert!(rt; world.output.stored("/db").is_none());
    assert_eq!(rt; world.output.pending().len(), 122);
    Ok(())
}

#[test]
fn lines_are_passed_on_after_a_fault(rt: HostRuntime) -> Result<(), AllocError> {
    let mut done = 0;
    for n in 1..40u64 {
        let mut world = three_levels(rt.alloc(), false)?;
        let mut out = LateSink::new(rt.alloc(), false)?;
        world.tree.fail_at(n)?;
        let answer = echo_into(rt.alloc(), &mut world, &mut out);
        assert_eq!(rt; out.passed(), out.all.taken());
        if answer.is_ok() {
            done = n;
            break;
        }
        assert_eq!(rt; answer, Err(UpdateFault::TreeFault));
        if n == 11 {
            assert_eq!(rt; out.passed(), b"/a\n/a.b\n/a/z\n".as_slice());
        }
    }
    assert!(rt; done > 11);
    Ok(())
}

#[test]
fn a_flush_that_fails(rt: HostRuntime) -> Result<(), AllocError> {
    for (n, fault) in [(11, UpdateFault::TreeFault), (100, UpdateFault::WriteFault)] {
        let mut world = three_levels(rt.alloc(), false)?;
        let mut out = LateSink::new(rt.alloc(), true)?;
        world.tree.fail_at(n)?;
        assert_eq!(rt; echo_into(rt.alloc(), &mut world, &mut out), Err(fault));
        assert_eq!(rt; (out.passed(), out.faults), (b"".as_slice(), 1));
        assert!(rt; world.output.stored("/db").is_none());
    }
    Ok(())
}

#[test]
fn nothing_is_passed_on_where_the_root_is_missing(rt: HostRuntime) -> Result<(), AllocError> {
    let mut world = empty_root(rt.alloc())?;
    world.tree = MemTree::new(rt.alloc());
    let mut out = LateSink::new(rt.alloc(), false)?;
    assert_eq!(rt; put_all(&mut out, b"before"), Ok(()));
    assert_eq!(rt;
        echo_into(rt.alloc(), &mut world, &mut out),
        Err(UpdateFault::RootMissing)
    );
    assert_eq!(rt; out.passed(), b"".as_slice());
    Ok(())
}

#[test]
fn each_failing_call_of_the_output(rt: HostRuntime) -> Result<(), AllocError> {
    let mut done = 0;
    for n in 1..40u64 {
        let mut world = empty_root(rt.alloc())?;
        world.output.fail_at(n)?;
        if run(rt.alloc(), &plain(), &mut world).is_ok() {
            done = n;
            break;
        }
        assert!(rt; world.output.stored("/db").is_none());
        assert!(rt; EMPTY_ROOT.starts_with(world.output.pending()));
        assert_eq!(rt; world.output.faults(), 1);
    }
    assert!(rt; done > 2);
    Ok(())
}

#[test]
fn each_failing_call_of_the_reader(rt: HostRuntime) -> Result<(), AllocError> {
    for (n, answer) in [
        (1, Err(UpdateFault::ReadFault(SettingsFile::Configuration))),
        (2, Err(UpdateFault::ReadFault(SettingsFile::Mounts))),
        (3, counts(1, 0)),
    ] {
        let mut world = empty_root(rt.alloc())?;
        world.files.fail_at(n)?;
        assert_eq!(rt; run(rt.alloc(), &plain(), &mut world), answer);
        assert_eq!(rt; world.output.stored("/db").is_some(), answer.is_ok());
    }
    Ok(())
}

/// How an update ends with this configuration.
fn with_conf(alloc: Global, text: &[u8]) -> Result<Result<Counts, UpdateFault>, AllocError> {
    let mut world = empty_root(alloc)?;
    world.files.put("/etc/updatedb.conf", text)?;
    Ok(run(alloc, &plain(), &mut world))
}

/// How an update ends with these mounts.
fn with_mounts(alloc: Global, text: &[u8]) -> Result<Result<Counts, UpdateFault>, AllocError> {
    let mut world = empty_root(alloc)?;
    world.files.put("/proc/self/mountinfo", text)?;
    Ok(run(alloc, &plain(), &mut world))
}

#[test]
fn refused_configurations(rt: HostRuntime) -> Result<(), AllocError> {
    let mut texts =
        b"PRUNEFS \"x\"|PRUNEFS = x|FOO = \"x\"|PRUNENAMES = \"a/b\"|RECENT_MARGIN = \"3601\"".split(
            |byte| *byte == b'|',
        );
    for cause in [
        ConfCause::NoEquals,
        ConfCause::NoQuote,
        ConfCause::Unknown,
        ConfCause::BadName,
        ConfCause::BadMargin,
    ] {
        let text = texts.next().unwrap_or(b"");
        let fault = UpdateFault::BadConf { line: 1, cause };
        assert_eq!(rt; with_conf(rt.alloc(), text)?, Err(fault));
    }
    Ok(())
}

#[test]
fn refused_mounts(rt: HostRuntime) -> Result<(), AllocError> {
    let mut texts =
        b"20 1 8:1 / /|20 1 8:1 / / rw ext4 a b|20 1 8 / / rw - ext4 a rw|20 1 8:1 / x rw - ext4 a rw".split(
            |byte| *byte == b'|',
        );
    for cause in [
        MountCause::FewFields,
        MountCause::NoSeparator,
        MountCause::BadDevice,
        MountCause::BadPath,
    ] {
        let text = texts.next().unwrap_or(b"");
        let fault = UpdateFault::BadMount { line: 1, cause };
        assert_eq!(rt; with_mounts(rt.alloc(), text)?, Err(fault));
    }
    Ok(())
}

/// How an update ends with a configuration of so many spaces.
fn with_spaces(alloc: Global, count: usize) -> Result<Result<Counts, UpdateFault>, AllocError> {
    let spaces = vec![in alloc; b' '; count]?;
    with_conf(alloc, &spaces)
}

#[test]
fn a_long_configuration(rt: HostRuntime) -> Result<(), AllocError> {
    let fault = UpdateFault::BadConf {
        line: 0,
        cause: ConfCause::LongText,
    };
    assert_eq!(rt; with_spaces(rt.alloc(), 1_048_576)?, counts(1, 0));
    assert_eq!(rt; with_spaces(rt.alloc(), 1_048_577)?, Err(fault));
    Ok(())
}

#[test]
fn the_words_change_the_margin(rt: HostRuntime) -> Result<(), AllocError> {
    for (margin, length) in [(10, 109), (0, 108), (3, 91)] {
        let mut world = empty_root(rt.alloc())?;
        let mut asked = plain();
        if margin <= 3600 {
            asked.margin = Some(margin);
        }
        assert_eq!(rt; run(rt.alloc(), &asked, &mut world), counts(1, 0));
        assert_eq!(rt; stored(&world).len(), length);
    }
    Ok(())
}

#[test]
fn the_device_of_a_mount(rt: HostRuntime) -> Result<(), AllocError> {
    let mut world = empty_root(rt.alloc())?;
    let mounts = b"20 1 8:1 / / rw - ext4 /dev/sda1 rw";
    world.files.put("/proc/self/mountinfo", mounts)?;
    let mut asked = plain();
    asked.version = 1;
    assert_eq!(rt; run(rt.alloc(), &asked, &mut world), counts(1, 0));
    let bytes = stored(&world);
    assert_eq!(rt; (bytes.len(), bytes.get(12).copied()), (91, Some(1)));
    assert!(rt; bytes.ends_with(b"\0\x80\0\x01/\0\x02"));
    Ok(())
}

#[test]
fn a_recent_time_is_not_written(rt: HostRuntime) -> Result<(), AllocError> {
    for (seconds, nanos, zero) in [
        (1_997, 0, true),
        (1_996, 999_999_999, false),
        (2_001, 0, true),
    ] {
        let mut world = changed_at(rt.alloc(), stamp(seconds, nanos))?;
        assert_eq!(rt; run(rt.alloc(), &plain(), &mut world), counts(1, 0));
        let time = if zero {
            b"\0\0\0\0\0\0\0\0\0\0\0\0".as_slice()
        } else {
            b"\0\0\0\0\0\0\x07\xCC\x3B\x9A\xC9\xFF"
        };
        let bytes = stored(&world);
        assert_eq!(rt; bytes.get(72..84).unwrap_or(b""), time);
    }
    Ok(())
}
