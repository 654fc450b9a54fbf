//! Updates with an old database.
use crate::UpdateFault;
use crate::tests::{
    World, changed_at, counts, empty_root, plain, put, run_at, stamp, stored, three_levels,
};
use loc_outside::MemTree;
use path_order::Kind;
use std::alloc::{AllocError, Global};
use tool_words::UpdatedbSettings;

/// The database of `/`, `/a`, `/a/z` and `/a.b`, which changed at 1,000 s.
fn four() -> &'static [u8] {
    b"\0mlocate\0\0\0\x36\0\x01\0\0/\0prune_bind_mounts\x000\0\0prunefs\0\0prunenames\0\0prunepaths\0\0\
    \0\0\0\0\0\0\x03\xE8\0\0\0\0\0\0\0\0/\0\x01a\0\x01a.b\0\x02\
    \0\0\0\0\0\0\x03\xE8\0\0\0\0\0\0\0\0/a\0\x01z\0\x02\
    \0\0\0\0\0\0\x03\xE8\0\0\0\0\0\0\0\0/a/z\0\x02\
    \0\0\0\0\0\0\x03\xE8\0\0\0\0\0\0\0\0/a.b\0\x02"
}

/// The same, with `/a.b` before `/a/z`.
fn out_of_order() -> &'static [u8] {
    b"\0mlocate\0\0\0\x36\0\x01\0\0/\0prune_bind_mounts\x000\0\0prunefs\0\0prunenames\0\0prunepaths\0\0\
    \0\0\0\0\0\0\x03\xE8\0\0\0\0\0\0\0\0/\0\x01a\0\x01a.b\0\x02\
    \0\0\0\0\0\0\x03\xE8\0\0\0\0\0\0\0\0/a\0\x01z\0\x02\
    \0\0\0\0\0\0\x03\xE8\0\0\0\0\0\0\0\0/a.b\0\x02\
    \0\0\0\0\0\0\x03\xE8\0\0\0\0\0\0\0\0/a/z\0\x02"
}

/// The tree of that database, which is old.
fn unchanged(alloc: Global) -> Result<World, AllocError> {
    let mut world = three_levels(alloc, false)?;
    world.files.put("/db", four())?;
    Ok(world)
}

#[test]
fn whole_records_are_reused(rt: HostRuntime) -> Result<(), AllocError> {
    for (kept, openings) in [(166, 0), (130, 2), (118, 3), (72, 4), (20, 4), (0, 4)] {
        let mut world = unchanged(rt.alloc())?;
        world.files.put("/db", four().get(..kept).unwrap_or(b""))?;
        assert_eq!(rt;
            run_at(rt.alloc(), &plain(), 3_000, &mut world),
            counts(4, 3)
        );
        assert_eq!(rt; stored(&world), four());
        assert_eq!(rt; (world.tree.openings(), world.tree.stats()), (openings, 4));
    }
    Ok(())
}

#[test]
fn a_changed_directory_is_listed(rt: HostRuntime) -> Result<(), AllocError> {
    let mut world = unchanged(rt.alloc())?;
    put(&mut world.tree, b"/a", stamp(2_500, 0), false)?;
    world.tree.put_name(b"/a", b"k", Kind::File)?;
    world.tree.put_name(b"/a", b"z", Kind::Directory)?;
    assert_eq!(rt;
        run_at(rt.alloc(), &plain(), 3_000, &mut world),
        counts(4, 4)
    );
    assert_eq!(rt; (stored(&world).len(), world.tree.openings()), (169, 1));
    let block = b"\0\0\0\0\0\0\x09\xC4\0\0\0\0\0\0\0\0/a\0\0k\0\x01z\0\x02".as_slice();
    assert_eq!(rt; stored(&world).get(99..125).unwrap_or(b""), block);
    assert_eq!(rt; stored(&world).get(..99), four().get(..99));
    assert_eq!(rt; stored(&world).get(125..), four().get(122..));
    Ok(())
}

#[test]
fn a_zero_time_is_not_reused(rt: HostRuntime) -> Result<(), AllocError> {
    let mut first = changed_at(rt.alloc(), stamp(0, 0))?;
    assert_eq!(rt;
        run_at(rt.alloc(), &plain(), 2_000, &mut first),
        counts(1, 0)
    );
    let mut second = changed_at(rt.alloc(), stamp(0, 0))?;
    second.files.put("/db", stored(&first))?;
    assert_eq!(rt;
        run_at(rt.alloc(), &plain(), 3_000, &mut second),
        counts(1, 0)
    );
    assert_eq!(rt; stored(&second), stored(&first));
    assert_eq!(rt; second.tree.openings(), 1);
    Ok(())
}

#[test]
fn another_configuration_reuses_nothing(rt: HostRuntime) -> Result<(), AllocError> {
    let mut world = unchanged(rt.alloc())?;
    world
        .files
        .put("/etc/updatedb.conf", b"PRUNENAMES = \".git\"")?;
    assert_eq!(rt;
        run_at(rt.alloc(), &plain(), 3_000, &mut world),
        counts(4, 3)
    );
    assert_eq!(rt; (stored(&world).len(), world.tree.openings()), (171, 4));
    assert_eq!(rt;
        stored(&world).get(8..12).unwrap_or(b""),
        b"\0\0\0\x3B".as_slice()
    );
    let mut world = unchanged(rt.alloc())?;
    let mut asked = plain();
    asked.margin = Some(10);
    assert_eq!(rt; run_at(rt.alloc(), &asked, 3_000, &mut world), counts(4, 3));
    assert_eq!(rt; (stored(&world).len(), world.tree.openings()), (184, 4));
    Ok(())
}

#[test]
fn recent_times_are_reused_and_not_written(rt: HostRuntime) -> Result<(), AllocError> {
    let mut world = unchanged(rt.alloc())?;
    assert_eq!(rt; run_at(rt.alloc(), &plain(), 500, &mut world), counts(4, 3));
    assert_eq!(rt; (stored(&world).len(), world.tree.openings()), (166, 0));
    for at in [72, 99, 122, 144usize] {
        let time = stored(&world).get(at..at + 12).unwrap_or(b"");
        assert_eq!(rt; time, b"\0\0\0\0\0\0\0\0\0\0\0\0".as_slice());
    }
    Ok(())
}

#[test]
fn records_out_of_order_change_no_byte(rt: HostRuntime) -> Result<(), AllocError> {
    let mut world = unchanged(rt.alloc())?;
    world.files.put("/db", out_of_order())?;
    assert_eq!(rt;
        run_at(rt.alloc(), &plain(), 3_000, &mut world),
        counts(4, 3)
    );
    assert_eq!(rt; stored(&world), four());
    Ok(())
}

#[test]
fn a_failed_read_of_the_old_database_is_no_fault(rt: HostRuntime) -> Result<(), AllocError> {
    for n in 3..8u64 {
        let mut world = unchanged(rt.alloc())?;
        world.files.fail_at(n)?;
        assert_eq!(rt;
            run_at(rt.alloc(), &plain(), 3_000, &mut world),
            counts(4, 3)
        );
        assert_eq!(rt; stored(&world), four());
        assert_eq!(rt; world.files.faults() == 1, world.tree.openings() == 4);
        assert_eq!(rt; n > 4, world.tree.openings() == 0);
    }
    Ok(())
}

/// A database of `/`, which has one directory, whose name has 4,093 bytes. Its header ends at 72, and it has 8,301 bytes.
fn long(alloc: Global) -> Result<Vec<u8>, AllocError> {
    let name = vec![in alloc; b'd'; 4_093]?;
    let mut old = Vec::new(alloc);
    old.extend_from_slice(four().get(..90).unwrap_or(b""))?;
    old.push(1)?;
    old.extend_from_slice(&name)?;
    old.extend_from_slice(b"\0\x02")?;
    old.extend_from_slice(four().get(72..89).unwrap_or(b""))?;
    old.extend_from_slice(&name)?;
    old.extend_from_slice(b"\0\0e\0\x02")?;
    Ok(old)
}

#[test]
fn without_a_root_the_header_alone_is_read(rt: HostRuntime) -> Result<(), AllocError> {
    let mut world = unchanged(rt.alloc())?;
    world.files.put("/db", &long(rt.alloc())?)?;
    world.tree = MemTree::new(rt.alloc());
    assert_eq!(rt;
        run_at(rt.alloc(), &plain(), 3_000, &mut world),
        Err(UpdateFault::RootMissing)
    );
    assert!(rt; world.files.given() <= 72 + 4_096);
    Ok(())
}

/// Runs over the tree of three levels, where that is the old database.
fn over_long(alloc: Global, asked: &UpdatedbSettings<'_>) -> Result<World, AllocError> {
    let mut world = unchanged(alloc)?;
    world.files.put("/db", &long(alloc)?)?;
    let _ = run_at(alloc, asked, 3_000, &mut world);
    Ok(world)
}

#[test]
fn behind_a_foreign_header_nothing_is_read(rt: HostRuntime) -> Result<(), AllocError> {
    let mut asked = plain();
    asked.margin = Some(10);
    let world = over_long(rt.alloc(), &asked)?;
    assert!(rt; world.tree.openings() == 4 && world.files.given() <= 72 + 4_096);
    let mut asked = plain();
    asked.root = "/a";
    let world = over_long(rt.alloc(), &asked)?;
    assert!(rt; world.tree.openings() == 2 && world.files.given() <= 72 + 4_096);
    let world = over_long(rt.alloc(), &plain())?;
    assert!(rt; world.files.given() > 72 + 4_096);
    Ok(())
}

#[test]
fn a_later_nanosecond_is_listed(rt: HostRuntime) -> Result<(), AllocError> {
    let mut world = unchanged(rt.alloc())?;
    let mut old = Vec::new(rt.alloc());
    old.extend_from_slice(four().get(..110).unwrap_or(b""))?;
    old.push(1)?;
    old.extend_from_slice(four().get(111..).unwrap_or(b""))?;
    world.files.put("/db", &old)?;
    assert_eq!(rt;
        run_at(rt.alloc(), &plain(), 3_000, &mut world),
        counts(4, 3)
    );
    assert_eq!(rt; stored(&world), four());
    assert_eq!(rt; world.tree.openings(), 1);
    Ok(())
}

/// Runs over an empty root with this old database, the root on this device, which is written where it is to be told.
fn on_device(alloc: Global, device: &[u8], told: bool, old: &[u8]) -> Result<World, AllocError> {
    let mut asked = plain();
    if told {
        asked.version = 1;
    }
    let mut world = empty_root(alloc)?;
    let mut mounts = Vec::new(alloc);
    mounts.extend_from_slice(b"20 1 ")?;
    mounts.extend_from_slice(device)?;
    mounts.extend_from_slice(b" / / rw - ext4 /dev/sda1 rw")?;
    world.files.put("/proc/self/mountinfo", &mounts)?;
    world.files.put("/db", old)?;
    let _ = run_at(alloc, &asked, 3_000, &mut world);
    Ok(world)
}

/// The openings of a run of version 0 on this device, after that first one, if it stores what the plain one did.
fn back_to_plain(
    alloc: Global,
    device: &[u8],
    first: &World,
    plain: &World,
) -> Result<Option<u64>, AllocError> {
    let back = on_device(alloc, device, false, stored(first))?;
    Ok((stored(&back) == stored(plain)).then_some(back.tree.openings()))
}

#[test]
fn the_version_changes_from_run_to_run(rt: HostRuntime) -> Result<(), AllocError> {
    let plain_world = on_device(rt.alloc(), b"8:1", false, b"")?;
    let first = on_device(rt.alloc(), b"8:1", true, b"")?;
    let again = on_device(rt.alloc(), b"8:1", true, stored(&plain_world))?;
    assert_eq!(rt; again.tree.openings(), 0);
    assert_eq!(rt; stored(&again), stored(&first));
    assert_eq!(rt;
        back_to_plain(rt.alloc(), b"8:1", &first, &plain_world)?,
        Some(0)
    );
    assert_eq!(rt;
        back_to_plain(rt.alloc(), b"8:2", &first, &plain_world)?,
        Some(1)
    );
    let other = on_device(rt.alloc(), b"8:2", true, stored(&first))?;
    assert_eq!(rt; other.tree.openings(), 1);
    assert_eq!(rt;
        stored(&other).get(84..88).unwrap_or(b""),
        b"\0\x80\0\x02".as_slice()
    );
    Ok(())
}
