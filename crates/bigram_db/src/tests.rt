//! Small databases, written and read, and what damage to them is told.
ghost use Rattle.std.specs.Prelude.{◌<◌};

use crate::table::is_table;
use crate::{PairCounts, PairTable, ReaderBigram, WriterBigram};
use byte_feed::{Damage, DamageCause, DbFault, Feed, PathStream};
use loc_outside::{ByteByByte, Failed, MemFiles, MemSink, Reader, SliceSource, Source};
use path_order::PathBuf;
use std::alloc::{AllocError, Global};
use std::marker::Model;

/// Counts of so many paths.
#[derive(Drop)]
struct Counted {
    counts: PairCounts,
    paths: u32,
}

impl Model for Counted {
    ghost use Rattle.std.specs.Prelude.{ℕ, ◌≤◌, ◌*◌};
    ghost use Rattle.bigram_db.specs.Pairs.{Pair};
    ghost use Rattle.bigram_db.specs.Counts.{times_of};

    ghost Value = { ℕ };

    ghost view = { λ c. c.paths };

    ghost invariant = { λ c. (p : Pair) → times_of c.counts p ≤ c.paths * 4096 };
}

impl Counted {
    fn new(alloc: Global) -> Result<Counted, AllocError> {
        Ok(Counted {
            counts: PairCounts::new(alloc)?,
            paths: 0,
        })
    }

    fn add(&mut self, before: &[u8], path: &[u8]) {
        if path.len() > 4096 || self.paths == u32::MAX {
            return;
        }
        self.counts.add(before, path);
        self.paths += 1;
    }
}

/// Writes a path where it is one.
fn put(writer: &mut WriterBigram, path: &[u8], sink: &mut MemSink) -> Result<(), Failed> {
    if path.is_empty() || path.len() > 4096 || path.contains(&0) {
        return Err(Failed);
    }
    writer.put(path, sink)
}

/// The database of some paths, with zero bytes between them.
fn written(alloc: Global, paths: &[u8], room: usize) -> Result<MemSink, AllocError> {
    let mut counted = Counted::new(alloc)?;
    let mut before = b"".as_slice();
    for path in paths.split(|byte| *byte == 0) {
        counted.add(before, path);
        before = path;
    }
    let mut sink = MemSink::with_room(alloc, room)?;
    let mut writer = WriterBigram::new(counted.counts.choose_table());
    let _ = writer.start(&mut sink);
    for path in paths.split(|byte| *byte == 0) {
        let _ = put(&mut writer, path, &mut sink);
    }
    Ok(sink)
}

#[test]
fn writes_small_databases(rt: HostRuntime) -> Result<(), AllocError> {
    for (paths, table, entries) in [
        (b"/a".as_slice(), b"/a".as_slice(), b"\x0E\x80".as_slice()),
        (
            b"/a/b".as_slice(),
            b"/a/b".as_slice(),
            b"\x0E\x80\x81".as_slice(),
        ),
        (
            b"/\xE9".as_slice(),
            b"".as_slice(),
            b"\x0E/\x1F\xE9".as_slice(),
        ),
        (
            b"/aaaaaaaaaaaaa\0/aaaaaaaaaaaaab".as_slice(),
            b"aa/a".as_slice(),
            b"\x0E\x81\x80\x80\x80\x80\x80\x80\x1Cb".as_slice(),
        ),
        (
            b"/aaaaaaaaaaaaaa\0/aaaaaaaaaaaaaab".as_slice(),
            b"aa/a".as_slice(),
            b"\x0E\x81\x80\x80\x80\x80\x80\x80a\x1E\x1D\0\0\0b".as_slice(),
        ),
    ] {
        let mut expected = Vec::new(rt.alloc());
        expected.extend_from_slice(table)?;
        expected.resize(256, 0)?;
        expected.extend_from_slice(entries)?;
        let sink = written(rt.alloc(), paths, 300)?;
        assert!(rt; sink.taken() == expected.as_slice());
        let sink = written(rt.alloc(), paths, 257)?;
        assert_eq!(rt; sink.taken().len(), 257);
        assert!(rt; expected.starts_with(sink.taken()));
    }
    Ok(())
}

#[test]
fn counts_a_list_of_paths(rt: HostRuntime) -> Result<(), AllocError> {
    // `/usr` has the pairs `/u` and `sr`, and what is left of each later path the pair `/u` and an odd byte.
    let table = PairTable::for_paths(rt.alloc(), &[b"/usr", b"/usr/us", b"/us/us"])?;
    assert!(rt; table.bytes().starts_with(b"/usr\0\0"));
    // Behind `zz` the pair `zz` comes once, and `sr` no more often: the smaller one goes first.
    let table = PairTable::for_paths(rt.alloc(), &[b"zzsr", b"zz"])?;
    assert!(rt; table.bytes().starts_with(b"srzz\0\0"));
    Ok(())
}

#[test]
fn numbers_pairs(rt: HostRuntime) -> Result<(), AllocError> {
    let mut bytes = [0; 256];
    assert!(rt; is_table(&bytes));
    let table = PairTable::new(bytes);
    assert_eq!(rt; table.number_of(32, 32), None);
    assert_eq!(rt; table.number_of(0, 0), Some(0));
    bytes[0] = 32;
    bytes[1] = 32;
    bytes[2] = b'/';
    bytes[3] = b'a';
    bytes[4] = 127;
    bytes[5] = 127;
    // The pair `/a` stands twice: its first number counts.
    bytes[6] = b'/';
    bytes[7] = b'a';
    bytes[8] = b'a';
    bytes[254] = b'z';
    bytes[255] = b'z';
    assert!(rt; is_table(&bytes));
    let table = PairTable::new(bytes);
    assert_eq!(rt; table.number_of(32, 32), Some(0));
    assert_eq!(rt; table.number_of(b'/', b'a'), Some(1));
    assert_eq!(rt; table.number_of(127, 127), Some(2));
    assert_eq!(rt; table.number_of(b'a', 0), Some(4));
    assert_eq!(rt; table.number_of(0, 0), Some(5));
    assert_eq!(rt; table.number_of(b'z', b'z'), Some(127));
    assert_eq!(rt; table.number_of(b'a', b'/'), None);
    assert_eq!(rt; table.number_of(32, 31), None);
    assert_eq!(rt; table.number_of(128, b'a'), None);
    assert_eq!(rt; table.number_of(255, 255), None);
    Ok(())
}

/// The first bytes of the database of `/a`, with one of them changed and some added.
#[derive(Clone, Copy)]
struct Variation<'a> {
    len: usize,
    at: usize,
    byte: u8,
    added: &'a [u8],
}

impl<'a> Variation<'a> {
    fn bytes(&self, alloc: Global) -> Result<Vec<u8>, AllocError> {
        let mut bytes = Vec::new(alloc);
        bytes.extend_from_slice(b"/a")?;
        bytes.resize(256, 0)?;
        bytes.extend_from_slice(b"\x0E\x80")?;
        bytes.truncate(self.len);
        if let Some(byte) = bytes.get_mut(self.at) {
            *byte = self.byte;
        }
        bytes.extend_from_slice(self.added)?;
        Ok(bytes)
    }
}

fn first(len: usize) -> Variation<'static> {
    Variation {
        len,
        at: 0,
        byte: b'/',
        added: b"",
    }
}

fn changed(at: usize, byte: u8) -> Variation<'static> {
    Variation {
        len: 258,
        at,
        byte,
        added: b"",
    }
}

fn longer(added: &[u8]) -> Variation<'_> {
    Variation {
        len: 258,
        at: 0,
        byte: b'/',
        added,
    }
}

fn damage(place: u64, cause: DamageCause) -> Result<(), DbFault> {
    Err(DbFault::Damage(Damage { place, cause }))
}

/// The paths that a file gives, a zero byte behind each, and how it ends.
fn listed<S: Source>(
    alloc: Global,
    src: &mut S,
) -> Result<(Vec<u8>, Option<Result<(), DbFault>>), AllocError> {
    let mut list = Vec::new(alloc);
    let mut reader = ReaderBigram::new();
    if let Err(fault) = reader.begin_paths(src) {
        return Ok((list, Some(Err(fault))));
    }
    for _ in 0..10 {
        if !reader.live() {
            break;
        }
        match reader.next_path(src) {
            Ok(true) => {
                list.extend_from_slice(reader.path())?;
                list.push(0)?;
            }
            Ok(false) => return Ok((list, Some(Ok(())))),
            Err(fault) => return Ok((list, Some(Err(fault)))),
        }
    }
    Ok((list, None))
}

#[test]
fn tells_damage(rt: HostRuntime) -> Result<(), AllocError> {
    for (file, paths, ending) in [
        (first(0), b"".as_slice(), Err(DbFault::NotADatabase)),
        (first(255), b"".as_slice(), Err(DbFault::NotADatabase)),
        (changed(5, 7), b"".as_slice(), Err(DbFault::NotADatabase)),
        (
            changed(255, 128),
            b"".as_slice(),
            Err(DbFault::NotADatabase),
        ),
        (first(256), b"".as_slice(), Ok(())),
        (
            first(257),
            b"".as_slice(),
            damage(256, DamageCause::EmptyPath),
        ),
        (
            changed(256, 0x1F),
            b"".as_slice(),
            damage(256, DamageCause::NoCount),
        ),
        (
            changed(257, 0x81),
            b"".as_slice(),
            damage(256, DamageCause::EmptyPair),
        ),
        (longer(b"\x10b"), b"/a\0/ab\0".as_slice(), Ok(())),
        (
            longer(b"\x11b"),
            b"/a\0".as_slice(),
            damage(258, DamageCause::BadCount),
        ),
        (
            longer(b"\x1E\0\0"),
            b"/a\0".as_slice(),
            damage(258, DamageCause::Cut),
        ),
        (
            longer(b"\x1E\x0F\x27\0\0"),
            b"/a\0".as_slice(),
            damage(258, DamageCause::BadWord),
        ),
        (longer(b"\x1E\0\0\0\x0Eb"), b"/a\0b\0".as_slice(), Ok(())),
        (
            longer(b"\x0E\x1F\0"),
            b"/a\0".as_slice(),
            damage(258, DamageCause::ZeroChar),
        ),
        (
            longer(b"\x0E\x1F"),
            b"/a\0".as_slice(),
            damage(258, DamageCause::Cut),
        ),
        (longer(b"\x0E\x1F\x0A"), b"/a\0\x0A\0".as_slice(), Ok(())),
        (
            longer(b"\x0Eaaaaaaaaaaaaaaa\x1Db"),
            b"/a\0aaaaaaaaaaaaaaa\0aaaaaaaaaaaaaaab\0".as_slice(),
            Ok(()),
        ),
        (
            longer(b"\x10b\x1E\x0C\0\0\0c"),
            b"/a\0/ab\0c\0".as_slice(),
            Ok(()),
        ),
        (
            longer(b"\x10b\x1E\xFF\xFF\xFF\xFFc"),
            b"/a\0/ab\0".as_slice(),
            damage(260, DamageCause::BadCount),
        ),
    ] {
        let bytes = file.bytes(rt.alloc())?;
        let (list, end) = listed(rt.alloc(), &mut SliceSource::new(&bytes))?;
        assert!(rt; list.as_slice() == paths);
        assert_eq!(rt; end, Some(ending));
    }
    Ok(())
}

#[test]
fn reads_on_from_a_look(rt: HostRuntime) -> Result<(), AllocError> {
    let bytes = longer(b"\x10/x").bytes(rt.alloc())?;
    let mut src = SliceSource::new(&bytes);
    let mut feed = Feed::new();
    assert_eq!(rt; feed.look(&mut src, 16), Ok(16));
    let mut reader = ReaderBigram::on(feed);
    assert_eq!(rt; reader.begin_paths(&mut src), Ok(()));
    assert_eq!(rt;
        (reader.place(), reader.heads(), reader.asks_gate()),
        (256, 0, false)
    );
    for (path, dir_len, place) in [(b"/a".as_slice(), 1, 258), (b"/a/x".as_slice(), 3, 261)] {
        assert!(rt; reader.live());
        assert_eq!(rt; reader.next_path(&mut src), Ok(true));
        assert_eq!(rt; reader.path(), path);
        assert_eq!(rt; (reader.dir_len(), reader.place()), (dir_len, place));
    }
    assert!(rt; reader.live());
    assert_eq!(rt; reader.next_path(&mut src), Ok(false));
    assert!(rt; !reader.live());
    Ok(())
}

#[test]
fn reads_the_longest_paths(rt: HostRuntime) -> Result<(), AllocError> {
    for (added, len, ending) in [
        (b"".as_slice(), 4097, Ok(())),
        (b"a".as_slice(), 0, damage(256, DamageCause::LongPath)),
        (b"\x80".as_slice(), 0, damage(256, DamageCause::LongPath)),
        (b"\x81".as_slice(), 0, damage(256, DamageCause::EmptyPair)),
        (b"\x1F".as_slice(), 0, damage(256, DamageCause::Cut)),
        (b"\x1F\0".as_slice(), 0, damage(256, DamageCause::ZeroChar)),
        (
            b"\x1F\xE9".as_slice(),
            0,
            damage(256, DamageCause::LongPath),
        ),
        (b"\x1E\x0E\x10\0\0".as_slice(), 8194, Ok(())),
        (b"\x1E\0\0\x10\x0E".as_slice(), 8194, Ok(())),
        (
            b"\x1E\x0F\x10\0\0".as_slice(),
            4097,
            damage(4353, DamageCause::BadWord),
        ),
        (
            b"\x1E\x0D\x10\0\0\x80".as_slice(),
            4097,
            damage(4353, DamageCause::LongPath),
        ),
        (b"\x1E\x0D\x10\0\0b".as_slice(), 8194, Ok(())),
    ] {
        let mut bytes = first(256).bytes(rt.alloc())?;
        bytes.push(14)?;
        bytes.resize(257 + 4096, b'a')?;
        bytes.extend_from_slice(added)?;
        let (list, end) = listed(rt.alloc(), &mut SliceSource::new(&bytes))?;
        assert_eq!(rt; list.len(), len);
        assert_eq!(rt; end, Some(ending));
    }
    Ok(())
}

/// Three paths, read one byte at a time, where the `n`-th read fails.
fn failing(alloc: Global, n: u32) -> Result<ByteByByte, AllocError> {
    let mut files = MemFiles::new(alloc);
    files.put("/x", &longer(b"\x10\x1F\xE9\x1E\x0F\0\0\0c").bytes(alloc)?)?;
    files.fail_at(u64::from(n) + 1)?;
    let _ = files.open_file("/x");
    Ok(ByteByByte { files })
}

#[test]
fn tells_each_read_that_fails(rt: HostRuntime) -> Result<(), AllocError> {
    for n in 1..269 {
        let mut src = failing(rt.alloc(), n)?;
        let (list, end) = listed(rt.alloc(), &mut src)?;
        let paths = match n {
            0..260 => b"".as_slice(),
            260..263 => b"/a\0".as_slice(),
            _ => b"/a\0/a\xE9\0".as_slice(),
        };
        assert!(rt; list.as_slice() == paths);
        assert_eq!(rt; end, Some(Err(DbFault::ReadFault)));
        assert_eq!(rt; src.files.faults(), 1);
    }
    let mut src = failing(rt.alloc(), 1000)?;
    let (list, end) = listed(rt.alloc(), &mut src)?;
    assert!(rt; list.as_slice() == b"/a\0/a\xE9\0/a\xE9c\0".as_slice());
    assert_eq!(rt; end, Some(Ok(())));
    Ok(())
}

/// Numbers in a fixed order.
#[derive(Drop)]
struct Draws {
    state: u64,
}

impl Draws {
    fn below(&mut self, most: u64) -> u64
        requires { 0 < most }
        ensures { result < most }
    {
        self.state = self
            .state
            .wrapping_mul(6364136223846793005)
            .wrapping_add(1442695040888963407);
        (self.state >> 33) % most
    }
}

/// Paths that share a part of the path before, in a fixed order.
#[derive(Drop)]
struct Paths {
    draws: Draws,
    path: PathBuf,
}

impl Paths {
    fn new() -> Paths {
        Paths {
            draws: Draws { state: 1 },
            path: PathBuf::new(),
        }
    }

    fn next(&mut self) -> &[u8] {
        let kept = self.draws.below(self.path.bytes().len() as u64 + 1);
        self.path.cut(kept as usize);
        let most = if self.draws.below(50) == 0 { 400 } else { 20 };
        let added = 1 + self.draws.below(most);
        for _ in 0..added {
            let byte = match self.draws.below(40) {
                0..6 => b'/',
                6 => 128 + self.draws.below(128) as u8,
                7 => 1 + self.draws.below(31) as u8,
                _ => 97 + self.draws.below(26) as u8,
            };
            let _ = self.path.push_byte(byte);
        }
        self.path.bytes()
    }
}

#[test]
fn reads_what_was_written(rt: HostRuntime) -> Result<(), AllocError> {
    let mut counted = Counted::new(rt.alloc())?;
    let mut paths = Paths::new();
    let mut before = PathBuf::new();
    for _ in 0..10_000 {
        counted.add(before.bytes(), paths.next());
        let _ = before.set(paths.path.bytes());
    }
    let mut sink = MemSink::with_room(rt.alloc(), 1_000_000)?;
    let mut writer = WriterBigram::new(counted.counts.choose_table());
    assert!(rt; writer.start(&mut sink).is_ok());
    let mut paths = Paths::new();
    for _ in 0..10_000 {
        assert!(rt; put(&mut writer, paths.next(), &mut sink).is_ok());
    }
    let mut src = SliceSource::new(sink.taken());
    let mut reader = ReaderBigram::new();
    assert_eq!(rt; reader.begin_paths(&mut src), Ok(()));
    let mut paths = Paths::new();
    for _ in 0..10_000 {
        assert!(rt; reader.live());
        assert_eq!(rt; reader.next_path(&mut src), Ok(true));
        assert_eq!(rt; reader.path(), paths.next());
    }
    assert!(rt; reader.live());
    assert_eq!(rt; reader.next_path(&mut src), Ok(false));
    assert_eq!(rt; reader.place(), sink.taken().len() as u64);
    Ok(())
}
