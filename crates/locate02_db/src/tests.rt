//! Small databases, written and read, and what damage to them is told.
ghost use Rattle.std.specs.Prelude.{◌<◌};

use crate::{Reader02, Writer02};
use byte_feed::{Damage, DamageCause, DbFault, Feed, PathStream};
use loc_outside::{ByteByByte, Failed, MemFiles, MemSink, Reader, SliceSource, Source};
use path_order::PathBuf;
use std::alloc::{AllocError, Global};

/// The example of locatedb(5), with its four paths.
const FOUR: [u8; 58] =
    *b"\0LOCATE02\0\0/usr/src\0\x08/cmd/aardvark.c\0\x06rmadillo.c\0\xF7tmp/zoo\0";

/// The first bytes of that example, with one of them changed and some added.
#[derive(Clone, Copy)]
struct Variation<'a> {
    len: usize,
    at: usize,
    byte: u8,
    added: &'a [u8],
}

impl<'a> Variation<'a> {
    fn bytes(&self, alloc: Global) -> Result<Vec<u8>, AllocError> {
        let mut bytes = Vec::new(alloc);
        bytes.extend_from_slice(FOUR.get(..self.len).unwrap_or(&FOUR))?;
        if let Some(byte) = bytes.get_mut(self.at) {
            *byte = self.byte;
        }
        bytes.extend_from_slice(self.added)?;
        Ok(bytes)
    }
}

fn first(len: usize) -> Variation<'static> {
    Variation {
        len,
        at: 0,
        byte: 0,
        added: b"",
    }
}

fn changed(at: usize, byte: u8) -> Variation<'static> {
    Variation {
        len: 58,
        at,
        byte,
        added: b"",
    }
}

fn longer(added: &[u8]) -> Variation<'_> {
    Variation {
        len: 58,
        at: 0,
        byte: 0,
        added,
    }
}

fn damage(place: u64, cause: DamageCause) -> Result<(), DbFault> {
    Err(DbFault::Damage(Damage { place, cause }))
}

/// How many paths a stream still gives, at most so many, and how it ends.
fn count_paths<P: PathStream, S: Source>(
    stream: &mut P,
    src: &mut S,
    most: u64,
) -> (u64, Result<(), DbFault>) {
    for count in 0..most {
        if !stream.live() {
            break;
        }
        match stream.next_path(src) {
            Ok(true) => {}
            Ok(false) => return (count, Ok(())),
            Err(fault) => return (count, Err(fault)),
        }
    }
    (most, Ok(()))
}

/// How many paths a file gives, at most a thousand, and how it ends.
fn read_file<S: Source>(src: &mut S) -> (u64, Result<(), DbFault>) {
    let mut reader = Reader02::new();
    match reader.begin_paths(src) {
        Ok(()) => count_paths(&mut reader, src, 1000),
        Err(fault) => (0, Err(fault)),
    }
}

#[test]
fn writes_the_example(rt: HostRuntime) -> Result<(), AllocError> {
    let mut sink = MemSink::with_room(rt.alloc(), 58)?;
    let mut writer = Writer02::new();
    assert!(rt; writer.start(&mut sink).is_ok());
    assert!(rt; writer.put(b"/usr/src", &mut sink).is_ok());
    assert!(rt; writer.put(b"/usr/src/cmd/aardvark.c", &mut sink).is_ok());
    assert!(rt; writer.put(b"/usr/src/cmd/armadillo.c", &mut sink).is_ok());
    assert!(rt; writer.put(b"/usr/tmp/zoo", &mut sink).is_ok());
    assert_eq!(rt; sink.taken(), FOUR.as_slice());
    assert_eq!(rt; writer.put(b"/usr", &mut sink), Err(Failed));
    Ok(())
}

#[test]
fn reads_the_example(rt: HostRuntime) {
    let mut src = SliceSource::new(&FOUR);
    let mut reader = Reader02::on(Feed::new());
    assert_eq!(rt; reader.begin_paths(&mut src), Ok(()));
    assert_eq!(rt;
        (reader.place(), reader.heads(), reader.asks_gate()),
        (10, 0, false)
    );
    for (path, dir_len, place) in [
        (b"/usr/src".as_slice(), 5, 20),
        (b"/usr/src/cmd/aardvark.c".as_slice(), 13, 37),
        (b"/usr/src/cmd/armadillo.c".as_slice(), 13, 49),
        (b"/usr/tmp/zoo".as_slice(), 9, 58),
    ] {
        assert!(rt; reader.live());
        assert_eq!(rt; reader.next_path(&mut src), Ok(true));
        assert_eq!(rt; reader.path(), path);
        assert_eq!(rt; (reader.dir_len(), reader.place()), (dir_len, place));
    }
    assert!(rt; reader.live());
    assert_eq!(rt; reader.next_path(&mut src), Ok(false));
    assert!(rt; !reader.live());
}

#[test]
fn tells_damage(rt: HostRuntime) -> Result<(), AllocError> {
    for (file, paths, ending) in [
        (first(0), 0, Err(DbFault::NotADatabase)),
        (first(9), 0, Err(DbFault::NotADatabase)),
        (first(10), 0, Ok(())),
        (first(57), 3, damage(49, DamageCause::Cut)),
        (changed(37, 0x7F), 2, damage(37, DamageCause::BadCount)),
        (changed(49, 0xF0), 3, damage(49, DamageCause::BadCount)),
        (longer(b"\xFB\0"), 4, damage(58, DamageCause::EmptyPath)),
        (longer(b"\0\0"), 5, Ok(())),
        (longer(b"\x80\0"), 4, damage(58, DamageCause::Cut)),
        (longer(b"\x80\xFF\xFB"), 4, damage(58, DamageCause::Cut)),
        (longer(b"\x80\xFF\xFBx\0"), 5, Ok(())),
        (longer(b"\x80\x80\0"), 4, damage(58, DamageCause::BadCount)),
    ] {
        let bytes = file.bytes(rt.alloc())?;
        assert_eq!(rt; read_file(&mut SliceSource::new(&bytes)), (paths, ending));
    }
    Ok(())
}

/// A path of `/`, so many times `a`, and a text behind them.
fn long_path(alloc: Global, count: u16, end: &[u8]) -> Result<Vec<u8>, AllocError> {
    let mut path = Vec::new(alloc);
    path.push(b'/')?;
    path.resize(usize::from(count) + 1, b'a')?;
    path.extend_from_slice(end)?;
    Ok(path)
}

/// Writes a path where it is one.
fn put(writer: &mut Writer02, path: &[u8], sink: &mut MemSink) -> Result<(), Failed> {
    if path.is_empty() || path.len() > 4096 || path.contains(&0) {
        return Err(Failed);
    }
    writer.put(path, sink)
}

#[test]
fn spells_changes(rt: HostRuntime) -> Result<(), AllocError> {
    for (count, len, end) in [
        (126, 145, b"\x7Fb\0\x81x\0".as_slice()),
        (127, 150, b"\x80\0\x80b\0\x80\xFF\x80x\0".as_slice()),
    ] {
        let mut sink = MemSink::with_room(rt.alloc(), 200)?;
        let mut writer = Writer02::new();
        assert!(rt; writer.start(&mut sink).is_ok());
        assert!(rt; put(&mut writer, &long_path(rt.alloc(), count, b"")?, &mut sink).is_ok());
        assert!(rt; put(&mut writer, &long_path(rt.alloc(), count, b"b")?, &mut sink).is_ok());
        assert!(rt; writer.put(b"x", &mut sink).is_ok());
        assert_eq!(rt; sink.taken().len(), len);
        assert!(rt; sink.taken().ends_with(end));
    }
    Ok(())
}

#[test]
fn reads_the_longest_paths(rt: HostRuntime) -> Result<(), AllocError> {
    for (added, paths, ending) in [
        (b"".as_slice(), 1, Ok(())),
        (b"\x80\x10\0\0".as_slice(), 2, Ok(())),
        (b"\x80\x10\0".as_slice(), 1, damage(4108, DamageCause::Cut)),
        (
            b"\x80\x10\0b".as_slice(),
            1,
            damage(4108, DamageCause::LongPath),
        ),
        (b"\x80\x0F\xFFb\0".as_slice(), 2, Ok(())),
        (
            b"\x80\x10\x01\0".as_slice(),
            1,
            damage(4108, DamageCause::BadCount),
        ),
    ] {
        let mut bytes = Vec::new(rt.alloc());
        bytes.extend_from_slice(&FOUR[..10])?;
        bytes.push(0)?;
        bytes.extend_from_slice(&long_path(rt.alloc(), 4095, b"\0")?)?;
        bytes.extend_from_slice(added)?;
        assert_eq!(rt; read_file(&mut SliceSource::new(&bytes)), (paths, ending));
    }
    Ok(())
}

/// The example, read one byte at a time, where the `n`-th read fails.
fn failing(alloc: Global, n: u32) -> Result<ByteByByte, AllocError> {
    let mut files = MemFiles::new(alloc);
    files.put("/x", &FOUR)?;
    files.fail_at(u64::from(n) + 1)?;
    let _ = files.open_file("/x");
    Ok(ByteByByte { files })
}

#[test]
fn tells_each_read_that_fails(rt: HostRuntime) -> Result<(), AllocError> {
    for n in 1..60 {
        let mut src = failing(rt.alloc(), n)?;
        let came = n - 1;
        let paths = [20, 37, 49, 58].iter().filter(|end| **end <= came).count() as u64;
        assert_eq!(rt; read_file(&mut src), (paths, Err(DbFault::ReadFault)));
        assert_eq!(rt; src.files.faults(), 1);
    }
    let mut src = failing(rt.alloc(), 60)?;
    assert_eq!(rt; read_file(&mut src), (4, Ok(())));
    Ok(())
}

/// Numbers in a fixed order.
#[derive(Drop)]
struct Draws {
    state: u64,
}

impl Draws {
    fn below(&mut self, most: u64) -> u64
        requires { 0 < most }
        ensures { result < most }
    {
        self.state = self
            .state
            .wrapping_mul(6364136223846793005)
            .wrapping_add(1442695040888963407);
        (self.state >> 33) % most
    }
}

/// Paths that share a part of the path before, in a fixed order.
#[derive(Drop)]
struct Paths {
    draws: Draws,
    path: PathBuf,
}

impl Paths {
    fn new() -> Paths {
        Paths {
            draws: Draws { state: 1 },
            path: PathBuf::new(),
        }
    }

    fn next(&mut self) -> &[u8] {
        let kept = self.draws.below(self.path.bytes().len() as u64 + 1);
        self.path.cut(kept as usize);
        let most = if self.draws.below(50) == 0 { 400 } else { 20 };
        let added = 1 + self.draws.below(most);
        for _ in 0..added {
            let byte = if self.draws.below(6) == 0 {
                b'/'
            } else {
                128 + self.draws.below(100) as u8
            };
            let _ = self.path.push_byte(byte);
        }
        self.path.bytes()
    }
}

#[test]
fn reads_what_was_written(rt: HostRuntime) -> Result<(), AllocError> {
    let mut sink = MemSink::with_room(rt.alloc(), 1_000_000)?;
    let mut writer = Writer02::new();
    assert!(rt; writer.start(&mut sink).is_ok());
    let mut paths = Paths::new();
    for _ in 0..10_000 {
        assert!(rt; put(&mut writer, paths.next(), &mut sink).is_ok());
    }
    let mut src = SliceSource::new(sink.taken());
    let mut reader = Reader02::new();
    assert_eq!(rt; reader.begin_paths(&mut src), Ok(()));
    let mut paths = Paths::new();
    for _ in 0..10_000 {
        assert!(rt; reader.live());
        assert_eq!(rt; reader.next_path(&mut src), Ok(true));
        assert_eq!(rt; reader.path(), paths.next());
    }
    assert!(rt; reader.live());
    assert_eq!(rt; reader.next_path(&mut src), Ok(false));
    assert_eq!(rt; reader.place(), sink.taken().len() as u64);
    Ok(())
}
