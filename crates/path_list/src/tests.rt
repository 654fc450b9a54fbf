//! Small lists, written and read, and how they end.
ghost use Rattle.std.specs.Prelude.{None, ⊤, min};
ghost use Rattle.loc_outside.specs.Causes.{last_count, stays_below};
ghost use Rattle.loc_outside.specs.Memory.{fault_count};

use crate::{Mark, ReaderList, put_path};
use byte_feed::{Damage, DamageCause, DbFault, Feed, PathStream};
use loc_outside::{Failed, MemFiles, MemSink, Reader, SliceSource, Source};
use std::alloc::{AllocError, Global};

fn damage(place: u64, cause: DamageCause) -> Result<(), DbFault> {
    Err(DbFault::Damage(Damage { place, cause }))
}

/// How many paths a list gives, at most a thousand, how many bytes they have, and how it ends.
fn read_list<S: Source>(src: &mut S, mark: Mark) -> (u64, usize, Result<(), DbFault>) {
    let mut reader = ReaderList::new(mark);
    if let Err(fault) = reader.begin_paths(src) {
        return (0, 0, Err(fault));
    }
    let mut bytes = 0;
    for count in 0..1000 {
        if !reader.live() {
            break;
        }
        match reader.next_path(src) {
            Ok(true) => bytes = reader.path().len().saturating_add(bytes),
            Ok(false) => return (count, bytes, Ok(())),
            Err(fault) => return (count, bytes, Err(fault)),
        }
    }
    (1000, bytes, Ok(()))
}

#[test]
fn reads_lists(rt: HostRuntime) {
    for (list, lines, zeros) in [
        (b"".as_slice(), (0, 0, Ok(())), (0, 0, Ok(()))),
        (
            b"\n",
            (0, 0, damage(0, DamageCause::EmptyPath)),
            (1, 1, Ok(())),
        ),
        (b"/a\n/b", (2, 4, Ok(())), (1, 5, Ok(()))),
        (b"/a\n/b\n", (2, 4, Ok(())), (1, 6, Ok(()))),
        (
            b"/a\n\n",
            (1, 2, damage(3, DamageCause::EmptyPath)),
            (1, 4, Ok(())),
        ),
        (
            b"/a\n\n/b\n",
            (1, 2, damage(3, DamageCause::EmptyPath)),
            (1, 7, Ok(())),
        ),
        (
            b"/a\0\n",
            (0, 0, damage(0, DamageCause::ZeroChar)),
            (2, 3, Ok(())),
        ),
        (
            b"/a\n\0",
            (1, 2, damage(3, DamageCause::ZeroChar)),
            (1, 3, Ok(())),
        ),
        (
            b"/a\0/b\0",
            (0, 0, damage(0, DamageCause::ZeroChar)),
            (2, 4, Ok(())),
        ),
        (
            b"/a\0\0",
            (0, 0, damage(0, DamageCause::ZeroChar)),
            (1, 2, damage(3, DamageCause::EmptyPath)),
        ),
    ] {
        assert_eq!(rt;
            read_list(&mut SliceSource::new(list), Mark::Newline),
            lines
        );
        assert_eq!(rt; read_list(&mut SliceSource::new(list), Mark::Zero), zeros);
    }
}

/// So many times `a`, and a text behind them.
fn long_list(alloc: Global, count: u16, end: &[u8]) -> Result<Vec<u8>, AllocError> {
    let mut list = Vec::new(alloc);
    list.resize(usize::from(count), b'a')?;
    list.extend_from_slice(end)?;
    Ok(list)
}

#[test]
fn reads_the_longest_paths(rt: HostRuntime) -> Result<(), AllocError> {
    for (count, end, lines) in [
        (4096, b"".as_slice(), (1, 4096, Ok(()))),
        (4096, b"\n", (1, 4096, Ok(()))),
        (4096, b"\n/b", (2, 4098, Ok(()))),
        (
            4096,
            b"\n\n",
            (1, 4096, damage(4097, DamageCause::EmptyPath)),
        ),
        (4096, b"a", (0, 0, damage(0, DamageCause::LongPath))),
        (4096, b"a\n", (0, 0, damage(0, DamageCause::LongPath))),
        (4096, b"\0\n", (0, 0, damage(0, DamageCause::ZeroChar))),
        (4097, b"\0\n", (0, 0, damage(0, DamageCause::LongPath))),
        (4095, b"\0\n", (0, 0, damage(0, DamageCause::ZeroChar))),
        (4000, b"\n/c", (2, 4002, Ok(()))),
    ] {
        let list = long_list(rt.alloc(), count, end)?;
        assert_eq!(rt;
            read_list(&mut SliceSource::new(&list), Mark::Newline),
            lines
        );
    }
    Ok(())
}

#[test]
fn gives_each_path_with_its_place(rt: HostRuntime) {
    let mut src = SliceSource::new(b"/usr/lib\nhome\n/b");
    let mut reader = ReaderList::on(Feed::new(), Mark::Newline);
    assert_eq!(rt; reader.begin_paths(&mut src), Ok(()));
    assert_eq!(rt;
        (reader.place(), reader.heads(), reader.asks_gate()),
        (0, 0, false)
    );
    for (path, dir_len, place) in [
        (b"/usr/lib".as_slice(), 5, 9),
        (b"home", 0, 14),
        (b"/b", 1, 16),
    ] {
        assert!(rt; reader.live());
        assert_eq!(rt; reader.next_path(&mut src), Ok(true));
        assert_eq!(rt; reader.path(), path);
        assert_eq!(rt; (reader.dir_len(), reader.place()), (dir_len, place));
    }
    assert!(rt; reader.live());
    assert_eq!(rt; reader.next_path(&mut src), Ok(false));
    assert!(rt; !reader.live());
    assert_eq!(rt; reader.into_feed().offset(), 16);
}

#[test]
fn writes_lists(rt: HostRuntime) -> Result<(), AllocError> {
    let mut sink = MemSink::with_room(rt.alloc(), 8)?;
    assert!(rt; put_path(&mut sink, Mark::Newline, b"/a").is_ok());
    assert!(rt; put_path(&mut sink, Mark::Zero, b"/b").is_ok());
    assert_eq!(rt; sink.taken(), b"/a\n/b\0".as_slice());
    assert_eq!(rt; put_path(&mut sink, Mark::Zero, b"/c"), Err(Failed));
    assert_eq!(rt; sink.taken(), b"/a\n/b\0/c".as_slice());
    Ok(())
}

/// A file that is read one byte at a time.
#[derive(Drop)]
struct ByteByByte {
    files: MemFiles,
}

impl Source for ByteByByte {
    ghost left = { λ s. None };

    ghost given = { λ s. min s.files.given last_count };

    ghost faults = { λ s. fault_count s.files.failures };

    ghost kept = { λ s t. ⊤ };

    ghost keeps_itself = { λ s. tt };

    ghost keeps_on = { λ s t u first then. tt };

    ghost given_below = { λ s. stays_below s.files.given };

    ghost faults_below = { λ s. stays_below s.files.failures.faults };

    fn read(&mut self, into: &mut [u8]) -> Result<usize, Failed> {
        self.files.read(&mut into[..1])
    }
}

/// A list, read one byte at a time, where the `n`-th read fails.
fn failing(alloc: Global, n: u32) -> Result<ByteByByte, AllocError> {
    let mut files = MemFiles::new(alloc);
    files.put("/x", b"/usr/lib\nhome\n/b")?;
    files.fail_at(u64::from(n) + 1)?;
    let _ = files.open_file("/x");
    Ok(ByteByByte { files })
}

#[test]
fn tells_each_read_that_fails(rt: HostRuntime) -> Result<(), AllocError> {
    for n in 1..18 {
        let mut src = failing(rt.alloc(), n)?;
        let count = [9, 14].iter().filter(|end| **end < n).count() as u64;
        let (paths, _, ending) = read_list(&mut src, Mark::Newline);
        assert_eq!(rt; (paths, ending), (count, Err(DbFault::ReadFault)));
        assert_eq!(rt; src.files.faults(), 1);
    }
    let mut src = failing(rt.alloc(), 18)?;
    assert_eq!(rt; read_list(&mut src, Mark::Newline), (3, 14, Ok(())));
    Ok(())
}

#[test]
fn reads_what_was_written(rt: HostRuntime) -> Result<(), AllocError> {
    for mark in [Mark::Newline, Mark::Zero] {
        let mut sink = MemSink::with_room(rt.alloc(), 20_000)?;
        for _ in 0..900 {
            assert!(rt; put_path(&mut sink, mark, b"/usr/share/doc/x").is_ok());
        }
        assert_eq!(rt;
            read_list(&mut SliceSource::new(sink.taken()), mark),
            (900, 14_400, Ok(()))
        );
    }
    Ok(())
}
