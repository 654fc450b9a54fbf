//! Questions to old databases, one table for each.
use crate::{MapVoucher, StreamVoucher};
use loc_outside::SliceSource;
use mount_table::Mounts;
use path_order::{NameList, PathBuf, Stamp};
use std::alloc::Global;
use std::test::Fail;
use tree_scan::{Rules, Voucher};
use updatedb_conf::{conf_block, read_conf};

/// A header for the root `/` and the default configuration, the directories `/`, `/a`, `/a/z` and `/a.b`, each of
/// 1,000 s, in version 0.
const FOUR: &[u8] =
    b"\0mlocate\0\0\0\x36\0\x01\0\0/\0prune_bind_mounts\x000\0\0prunefs\0\0prunenames\0\0prunepaths\0\0\
    \0\0\0\0\0\0\x03\xE8\0\0\0\0\0\0\0\0/\0\x01a\0\x01a.b\0\x02\
    \0\0\0\0\0\0\x03\xE8\0\0\0\0\0\0\0\0/a\0\x01z\0\x02\
    \0\0\0\0\0\0\x03\xE8\0\0\0\0\0\0\0\0/a/z\0\x02\
    \0\0\0\0\0\0\x03\xE8\0\0\0\0\0\0\0\0/a.b\0\x02";

/// The same header, `/` with two entries `a`, and `/a`.
const TWICE: &[u8] =
    b"\0mlocate\0\0\0\x36\0\x01\0\0/\0prune_bind_mounts\x000\0\0prunefs\0\0prunenames\0\0prunepaths\0\0\
    \0\0\0\0\0\0\x03\xE8\0\0\0\0\0\0\0\0/\0\0a\0\x01a\0\x02\
    \0\0\0\0\0\0\x03\xE8\0\0\0\0\0\0\0\0/a\0\x01z\0\x02";

/// A header of version 1 for the root `/` and the default configuration, `/` on device 0 and `/a` on device 7.
const ON_DEVICES: &[u8] =
    b"\0mlocate\0\0\0\x36\x01\x01\0\0/\0prune_bind_mounts\x000\0\0prunefs\0\0prunenames\0\0prunepaths\0\0\
    \0\0\0\0\0\0\x03\xE8\0\0\0\0\0\0\0\0/\0\x01a\0\x02\
    \0\0\0\0\0\0\x03\xE8\0\0\0\0\0\0\0\x07/a\0\0k\0\x02";

/// The first header, and two blocks with the path `/`, of 1,000 s and of 2,000 s.
const TWO_ROOTS: &[u8] =
    b"\0mlocate\0\0\0\x36\0\x01\0\0/\0prune_bind_mounts\x000\0\0prunefs\0\0prunenames\0\0prunepaths\0\0\
    \0\0\0\0\0\0\x03\xE8\0\0\0\0\0\0\0\0/\0\x01a\0\x02\
    \0\0\0\0\0\0\x07\xD0\0\0\0\0\0\0\0\0/\0\x01a\0\x01b\0\x02";

/// The first header, `/` of 0 s, and `/a` of 1,000 s.
const ZERO: &[u8] =
    b"\0mlocate\0\0\0\x36\0\x01\0\0/\0prune_bind_mounts\x000\0\0prunefs\0\0prunenames\0\0prunepaths\0\0\
    \0\0\0\0\0\0\0\0\0\0\0\0\0\0\0\0/\0\x01a\0\x02\
    \0\0\0\0\0\0\x03\xE8\0\0\0\0\0\0\0\0/a\0\x02";

/// What is asked of a directory, and what is answered: whether a record vouches, and with how many names.
#[derive(Clone, Copy)]
struct Question {
    dir: &'static [u8],
    seconds: u64,
    nanos: u32,
    device: u32,
    vouched: bool,
    names: usize,
}

fn ask(dir: &'static [u8], seconds: u64, nanos: u32, vouched: bool, names: usize) -> Question {
    Question {
        dir,
        seconds,
        nanos,
        device: 0,
        vouched,
        names,
    }
}

/// The same of a directory on this device.
fn on(device: u32, question: Question) -> Question {
    Question {
        dir: question.dir,
        seconds: question.seconds,
        nanos: question.nanos,
        device,
        vouched: question.vouched,
        names: question.names,
    }
}

/// Rules for a root and the configuration of a text.
fn rules_of(alloc: Global, root: &[u8], conf: &[u8]) -> Result<Rules, Fail> {
    let mut path = PathBuf::new();
    let _ = path.set(root);
    Ok(Rules {
        root: path,
        conf: read_conf(alloc, conf)?,
        mounts: Mounts::none(alloc),
        flag: true,
        verbose: false,
        version: 0,
    })
}

/// The time that a question asks for.
fn stamp_of(question: &Question) -> Stamp {
    Stamp::new(question.seconds, question.nanos).unwrap_or(Stamp::zero())
}

/// Whether a voucher that reads forward answers each of the questions so, one after the other.
fn stream_answers(
    alloc: Global,
    old: &[u8],
    rules: &Rules,
    questions: &[Question],
) -> Result<bool, Fail> {
    let block = conf_block(alloc, &rules.conf)?;
    let mut src = SliceSource::new(old);
    let mut voucher = StreamVoucher::open_on(&mut src, rules, block.as_slice());
    let mut names = NameList::new(alloc);
    for question in questions {
        let stamp = stamp_of(question);
        let vouched = voucher.vouch(question.dir, stamp, question.device, &mut names)?;
        if vouched != question.vouched || names.len() != question.names {
            return Ok(false);
        }
    }
    Ok(true)
}

/// Whether a voucher that keeps the records answers them so, the last of them first.
fn map_answers(
    alloc: Global,
    old: &[u8],
    rules: &Rules,
    questions: &[Question],
) -> Result<bool, Fail> {
    let block = conf_block(alloc, &rules.conf)?;
    let mut src = SliceSource::new(old);
    let mut voucher = MapVoucher::open_on(alloc, &mut src, rules, block.as_slice())?;
    let mut names = NameList::new(alloc);
    for question in questions.iter().rev() {
        let stamp = stamp_of(question);
        let vouched = voucher.vouch(question.dir, stamp, question.device, &mut names)?;
        if vouched != question.vouched || names.len() != question.names {
            return Ok(false);
        }
    }
    Ok(true)
}

/// Whether both do, for the default configuration.
fn answers(alloc: Global, old: &[u8], root: &[u8], questions: &[Question]) -> Result<bool, Fail> {
    let rules = rules_of(alloc, root, b"")?;
    let kept = map_answers(alloc, old, &rules, questions)?;
    Ok(kept && stream_answers(alloc, old, &rules, questions)?)
}

#[test]
fn a_later_nanosecond_does_not_vouch(rt: HostRuntime) -> Result<(), Fail> {
    assert!(rt;
        answers(
            rt.alloc(),
            FOUR,
            b"/",
            &[
                ask(b"/a", 1000, 0, true, 1),
                ask(b"/a.b", 1000, 1, false, 0)
            ]
        )?
    );
    Ok(())
}

#[test]
fn directories_before_are_passed(rt: HostRuntime) -> Result<(), Fail> {
    assert!(rt; answers(rt.alloc(), FOUR, b"/", &[ask(b"/a.b", 1000, 0, true, 0)])?);
    assert!(rt;
        answers(
            rt.alloc(),
            FOUR,
            b"/",
            &[
                ask(b"/", 1000, 0, true, 2),
                ask(b"/0", 1000, 0, false, 0),
                ask(b"/a", 1000, 0, true, 1)
            ]
        )?
    );
    Ok(())
}

#[test]
fn a_zero_time_never_vouches(rt: HostRuntime) -> Result<(), Fail> {
    assert!(rt;
        answers(
            rt.alloc(),
            FOUR,
            b"/",
            &[ask(b"/", 0, 0, false, 0), ask(b"/", 1000, 0, true, 2)]
        )?
    );
    Ok(())
}

#[test]
fn another_root_has_no_records(rt: HostRuntime) -> Result<(), Fail> {
    assert!(rt;
        answers(
            rt.alloc(),
            FOUR,
            b"/x",
            &[ask(b"/", 1000, 0, false, 0), ask(b"/a", 1000, 0, false, 0)]
        )?
    );
    Ok(())
}

#[test]
fn a_directory_without_its_end_is_no_record(rt: HostRuntime) -> Result<(), Fail> {
    assert!(rt;
        answers(
            rt.alloc(),
            &FOUR[..118],
            b"/",
            &[ask(b"/", 1000, 0, true, 2), ask(b"/a", 1000, 0, false, 0)]
        )?
    );
    Ok(())
}

#[test]
fn names_that_do_not_rise_are_no_record(rt: HostRuntime) -> Result<(), Fail> {
    assert!(rt;
        answers(
            rt.alloc(),
            TWICE,
            b"/",
            &[ask(b"/", 1000, 0, false, 0), ask(b"/a", 1000, 0, true, 1)]
        )?
    );
    Ok(())
}

#[test]
fn what_was_passed_does_not_come_back(rt: HostRuntime) -> Result<(), Fail> {
    let rules = rules_of(rt.alloc(), b"/", b"")?;
    assert!(rt;
        stream_answers(
            rt.alloc(),
            FOUR,
            &rules,
            &[
                ask(b"/a.b", 1000, 0, true, 0),
                ask(b"/a", 1000, 0, false, 0)
            ]
        )?
    );
    Ok(())
}

#[test]
fn each_of_two_blocks_is_kept(rt: HostRuntime) -> Result<(), Fail> {
    let rules = rules_of(rt.alloc(), b"/", b"")?;
    assert!(rt;
        map_answers(
            rt.alloc(),
            TWO_ROOTS,
            &rules,
            &[
                ask(b"/", 1000, 0, true, 1),
                ask(b"/", 2000, 0, true, 2),
                ask(b"/", 1000, 0, true, 1),
                ask(b"/", 3000, 0, false, 0)
            ]
        )?
    );
    Ok(())
}

#[test]
fn a_recorded_zero_time_never_vouches(rt: HostRuntime) -> Result<(), Fail> {
    assert!(rt;
        answers(
            rt.alloc(),
            ZERO,
            b"/",
            &[ask(b"/", 0, 0, false, 0), ask(b"/a", 1000, 0, true, 0)]
        )?
    );
    Ok(())
}

#[test]
fn a_device_that_is_known_has_to_be_the_same(rt: HostRuntime) -> Result<(), Fail> {
    assert!(rt;
        answers(
            rt.alloc(),
            ON_DEVICES,
            b"/",
            &[
                on(7, ask(b"/", 1000, 0, false, 0)),
                ask(b"/", 1000, 0, true, 1),
                ask(b"/a", 1000, 0, false, 0),
                on(7, ask(b"/a", 1000, 0, true, 1))
            ]
        )?
    );
    assert!(rt;
        answers(
            rt.alloc(),
            FOUR,
            b"/",
            &[on(7, ask(b"/a", 1000, 0, true, 1))]
        )?
    );
    Ok(())
}

#[test]
fn a_head_that_is_cut_off_is_no_record(rt: HostRuntime) -> Result<(), Fail> {
    assert!(rt;
        answers(
            rt.alloc(),
            &FOUR[..105],
            b"/",
            &[ask(b"/", 1000, 0, true, 2), ask(b"/a", 1000, 0, false, 0)]
        )?
    );
    Ok(())
}

#[test]
fn another_configuration_has_no_records(rt: HostRuntime) -> Result<(), Fail> {
    let rules = rules_of(rt.alloc(), b"/", b"PRUNENAMES = \".git\"\n")?;
    let questions = [ask(b"/", 1000, 0, false, 0), ask(b"/a", 1000, 0, false, 0)];
    assert!(rt; stream_answers(rt.alloc(), FOUR, &rules, &questions)?);
    assert!(rt; map_answers(rt.alloc(), FOUR, &rules, &questions)?);
    Ok(())
}
