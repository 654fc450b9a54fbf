//! Tests of the host's files that are written, in /tmp.

use crate::{Failed, HostOutput, Output, Sink, put_all};
use std::fs::Permissions;
use std::os::unix::fs::{MetadataExt, PermissionsExt, chown, symlink};
use std::test::Fail;
use std::{fs, process};

/// A name of this process alone.
fn own_name(rt: HostRuntime, end: &str) -> Result<String, Fail> {
    Ok(format!(in rt.alloc(); "/tmp/host_output_{}_{end}", process::id(rt.process()))?)
}

/// Whether the file has these bytes.
fn has(rt: HostRuntime, name: &str, bytes: &[u8]) -> bool {
    match fs::read(&rt, name) {
        Ok(found) => found.as_slice() == bytes,
        Err(_) => false,
    }
}

/// Whether there is anything of this name, links not followed.
fn is_there(rt: HostRuntime, name: &str) -> bool {
    fs::symlink_metadata(&rt, name).is_ok()
}

/// The permissions of a file, as a number.
fn mode(rt: HostRuntime, name: &str) -> Result<u32, Fail> {
    Ok(fs::metadata(&rt, name)?.mode() & 0o777)
}

/// Writes a whole file.
fn store(output: &mut HostOutput, name: &str, bytes: &[u8]) -> Result<(), Failed> {
    output.begin(name)?;
    put_all(output, bytes)?;
    output.commit()
}

#[test]
fn a_commit_replaces_the_file(rt: HostRuntime) -> Result<(), Fail> {
    let name = own_name(rt, "a")?;
    let aside = own_name(rt, "a.new")?;
    let mut output = HostOutput::new(rt);
    output.begin(&name)?;
    put_all(&mut output, b"whole")?;
    assert!(rt; !is_there(rt, &name));
    output.commit()?;
    assert!(rt; has(rt, &name, b"whole"));
    assert!(rt; !is_there(rt, &aside));
    fs::remove_file(&rt, &name)?;
    Ok(())
}

#[test]
fn nothing_stays_of_what_was_not_committed(rt: HostRuntime) -> Result<(), Fail> {
    let name = own_name(rt, "b")?;
    let aside = own_name(rt, "b.new")?;
    let mut output = HostOutput::new(rt);
    // More than is held back, so some of it is in the file by the second `begin`.
    let long = [b'l'; 50_000];
    output.begin(&name)?;
    put_all(&mut output, &long)?;
    store(&mut output, &name, b"x")?;
    assert!(rt; has(rt, &name, b"x"));
    output.begin(&name)?;
    put_all(&mut output, b"a part")?;
    drop(output);
    assert!(rt; !is_there(rt, &aside));
    assert!(rt; has(rt, &name, b"x"));
    fs::remove_file(&rt, &name)?;
    Ok(())
}

#[test]
fn calls_that_fail(rt: HostRuntime) {
    let mut output = HostOutput::new(rt);
    assert_eq!(rt; output.begin("/nowhere/at/all"), Err(Failed));
    assert_eq!(rt; output.write(b"x"), Err(Failed));
    assert_eq!(rt; output.commit(), Err(Failed));
}

#[test]
fn one_output_at_a_time(rt: HostRuntime) -> Result<(), Fail> {
    let name = own_name(rt, "c")?;
    let mut first = HostOutput::new(rt);
    let mut second = HostOutput::new(rt);
    first.begin(&name)?;
    put_all(&mut first, b"the first's")?;
    assert_eq!(rt; second.begin(&name), Err(Failed));
    put_all(&mut first, b" file")?;
    // What was refused has nothing to remove.
    drop(second);
    first.commit()?;
    assert!(rt; has(rt, &name, b"the first's file"));

    let mut third = HostOutput::new(rt);
    store(&mut third, &name, b"the third's")?;
    assert!(rt; has(rt, &name, b"the third's"));
    fs::remove_file(&rt, &name)?;
    Ok(())
}

#[test]
fn a_name_is_free_after_another_and_after_the_drop(rt: HostRuntime) -> Result<(), Fail> {
    let name = own_name(rt, "d")?;
    let other = own_name(rt, "e")?;
    let mut first = HostOutput::new(rt);
    let mut second = HostOutput::new(rt);
    first.begin(&name)?;
    first.begin(&other)?;
    store(&mut second, &name, b"second")?;
    assert_eq!(rt; second.begin(&other), Err(Failed));
    drop(first);
    store(&mut second, &other, b"second")?;
    fs::remove_file(&rt, &name)?;
    fs::remove_file(&rt, &other)?;
    Ok(())
}

// Someone removes the file of a run, and another run makes its own.
#[test]
fn a_file_that_is_gone_takes_no_other_along(rt: HostRuntime) -> Result<(), Fail> {
    let name = own_name(rt, "f")?;
    let aside = own_name(rt, "f.new")?;
    let mut first = HostOutput::new(rt);
    let mut second = HostOutput::new(rt);
    first.begin(&name)?;
    put_all(&mut first, b"first")?;
    fs::remove_file(&rt, &aside)?;
    second.begin(&name)?;
    put_all(&mut second, b"second")?;
    assert_eq!(rt; first.commit(), Err(Failed));
    assert_eq!(rt; first.begin(&name), Err(Failed));
    drop(first);
    assert!(rt; is_there(rt, &aside));
    second.commit()?;
    assert!(rt; has(rt, &name, b"second"));
    fs::remove_file(&rt, &name)?;
    Ok(())
}

#[test]
fn a_file_that_is_gone_is_made_again(rt: HostRuntime) -> Result<(), Fail> {
    let name = own_name(rt, "g")?;
    let aside = own_name(rt, "g.new")?;
    let mut output = HostOutput::new(rt);
    output.begin(&name)?;
    put_all(&mut output, b"lost")?;
    fs::remove_file(&rt, &aside)?;
    store(&mut output, &name, b"kept")?;
    assert!(rt; has(rt, &name, b"kept"));
    fs::remove_file(&rt, &name)?;
    Ok(())
}

#[test]
fn what_a_killed_run_left_is_removed(rt: HostRuntime) -> Result<(), Fail> {
    let name = own_name(rt, "h")?;
    let aside = own_name(rt, "h.new")?;
    fs::write(&rt, &aside, "more bytes than the new file has")?;
    fs::set_permissions(&rt, &aside, Permissions::from_mode(0o666))?;
    let left = fs::open(&rt, &aside)?;
    let mut output = HostOutput::new(rt);
    store(&mut output, &name, b"new")?;
    assert!(rt; has(rt, &name, b"new"));
    // It is another file, so who has the old one open can't write to the new one.
    assert_eq!(rt; (left.metadata()?.nlink(), left.metadata()?.len()), (0, 32));
    assert_ne!(rt; mode(rt, &name)?, 0o666);
    fs::remove_file(&rt, &name)?;
    Ok(())
}

#[test]
fn what_is_no_file_of_one_name_is_refused(rt: HostRuntime) -> Result<(), Fail> {
    let name = own_name(rt, "i")?;
    let aside = own_name(rt, "i.new")?;
    let target = own_name(rt, "i.target")?;
    let mut output = HostOutput::new(rt);
    fs::write(&rt, &target, "untouched")?;

    symlink(&rt, &target, &aside)?;
    assert_eq!(rt; output.begin(&name), Err(Failed));
    assert!(rt; is_there(rt, &aside));
    fs::remove_file(&rt, &aside)?;

    fs::hard_link(&rt, &target, &aside)?;
    assert_eq!(rt; output.begin(&name), Err(Failed));
    assert!(rt; has(rt, &aside, b"untouched"));
    fs::remove_file(&rt, &aside)?;

    fs::create_dir(&rt, &aside)?;
    assert_eq!(rt; output.begin(&name), Err(Failed));
    assert!(rt; is_there(rt, &aside));
    fs::remove_dir(&rt, &aside)?;

    // A link to nothing makes no file.
    let nowhere = own_name(rt, "i.nowhere")?;
    symlink(&rt, &nowhere, &aside)?;
    assert_eq!(rt; output.begin(&name), Err(Failed));
    assert!(rt; !is_there(rt, &nowhere));
    fs::remove_file(&rt, &aside)?;

    assert!(rt; has(rt, &target, b"untouched"));
    fs::remove_file(&rt, &target)?;
    Ok(())
}

#[test]
fn a_new_file_may_be_read_by_all(rt: HostRuntime) -> Result<(), Fail> {
    let name = own_name(rt, "j")?;
    let plain = own_name(rt, "j.plain")?;
    // The umask is known by what it leaves of 0666.
    fs::write(&rt, &plain, "")?;
    store(&mut HostOutput::new(rt), &name, b"new")?;
    assert_eq!(rt; mode(rt, &name)?, mode(rt, &plain)? & 0o644);
    fs::remove_file(&rt, &name)?;
    fs::remove_file(&rt, &plain)?;
    Ok(())
}

#[test]
fn a_file_keeps_the_mode_of_the_one_before(rt: HostRuntime) -> Result<(), Fail> {
    let name = own_name(rt, "k")?;
    let aside = own_name(rt, "k.new")?;
    let mut output = HostOutput::new(rt);
    store(&mut output, &name, b"old")?;
    for kept in [0o600, 0o640, 0o664] {
        fs::set_permissions(&rt, &name, Permissions::from_mode(kept))?;
        output.begin(&name)?;
        assert_eq!(rt; mode(rt, &aside)?, 0o600);
        output.commit()?;
        assert_eq!(rt; mode(rt, &name)?, kept);
    }
    fs::remove_file(&rt, &name)?;
    Ok(())
}

// Only root can give a file away.
#[test]
fn a_file_keeps_the_owner_of_the_one_before(rt: HostRuntime) -> Result<(), Fail> {
    let name = own_name(rt, "l")?;
    let mut output = HostOutput::new(rt);
    store(&mut output, &name, b"old")?;
    let given = chown(&rt, &name, Some(1), Some(2)).is_ok();
    let before = fs::metadata(&rt, &name)?;
    store(&mut output, &name, b"new")?;
    let after = fs::metadata(&rt, &name)?;
    assert_eq!(rt; (after.uid(), after.gid()), (before.uid(), before.gid()));
    assert!(rt; !given || after.uid() == 1);
    fs::remove_file(&rt, &name)?;
    Ok(())
}
