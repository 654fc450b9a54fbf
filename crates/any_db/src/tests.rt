//! Small databases of each format, what tells them apart, and reads that fail.

use crate::{AnyReader, DatabaseFormat};
use byte_feed::{Damage, DamageCause, DbFault, PathStream};
use loc_outside::{ByteByByte, MemFiles, Reader, SliceSource, Source};
use std::alloc::{AllocError, Global};

/// A database of mlocate whose paths are shown to those alone who may list `/usr`, with `/usr/bin`.
const MLOCATE: [u8; 45] =
    *b"\0mlocate\0\0\0\0\0\x01\0\0/\0\0\0\0\0\0\0\x03\xE8\0\0\0\0\0\0\0\0/usr\0\0bin\0\x02";

/// A LOCATE02 database with `/usr`.
const LOCATE02: [u8; 16] = *b"\0LOCATE02\0\0/usr\0";

/// A bigram database with `/a`, whose table has no pair.
fn bigram(alloc: Global) -> Result<Vec<u8>, AllocError> {
    let mut bytes = Vec::new(alloc);
    bytes.resize(256, 0)?;
    bytes.extend_from_slice(b"\x0E/a")?;
    Ok(bytes)
}

#[test]
fn finds_each_format(rt: HostRuntime) -> Result<(), AllocError> {
    let bigram = bigram(rt.alloc())?;
    for (file, format, gated, path, numbers) in [
        (
            MLOCATE.as_slice(),
            DatabaseFormat::Mlocate,
            true,
            b"/usr/bin".as_slice(),
            (4, 44, 1),
        ),
        (
            LOCATE02.as_slice(),
            DatabaseFormat::Locate02,
            false,
            b"/usr".as_slice(),
            (1, 16, 0),
        ),
        (
            bigram.as_slice(),
            DatabaseFormat::Bigram,
            false,
            b"/a".as_slice(),
            (1, 259, 0),
        ),
    ] {
        let mut src = SliceSource::new(file);
        let mut reader = AnyReader::new();
        assert_eq!(rt; (reader.format(), reader.live()), (None, false));
        assert_eq!(rt; reader.begin_paths(&mut src), Ok(()));
        assert_eq!(rt;
            (reader.format(), reader.asks_gate()),
            (Some(format), gated)
        );
        assert!(rt; reader.live());
        assert_eq!(rt; reader.next_path(&mut src), Ok(true));
        assert_eq!(rt; reader.path(), path);
        assert_eq!(rt; (reader.dir_len(), reader.place(), reader.heads()), numbers);
        assert!(rt; reader.live());
        assert_eq!(rt; reader.next_path(&mut src), Ok(false));
        assert_eq!(rt; (reader.format(), reader.live()), (Some(format), false));
    }
    Ok(())
}

fn damage(place: u64, cause: DamageCause) -> Result<(), DbFault> {
    Err(DbFault::Damage(Damage { place, cause }))
}

/// How many paths a stream still gives, at most ten, and how it ends.
fn count_paths<S: Source>(reader: &mut AnyReader, src: &mut S) -> (u64, Result<(), DbFault>) {
    for count in 0..10 {
        if !reader.live() {
            break;
        }
        match reader.next_path(src) {
            Ok(true) => {}
            Ok(false) => return (count, Ok(())),
            Err(fault) => return (count, Err(fault)),
        }
    }
    (10, Ok(()))
}

/// The format that was told of a file, how many paths it gives, at most ten, and how it ends.
fn read_file<S: Source>(src: &mut S) -> (Option<DatabaseFormat>, u64, Result<(), DbFault>) {
    let mut reader = AnyReader::new();
    match reader.begin_paths(src) {
        Ok(()) => {
            let (paths, ending) = count_paths(&mut reader, src);
            (reader.format(), paths, ending)
        }
        Err(fault) => (reader.format(), 0, Err(fault)),
    }
}

/// The first bytes of a file, with one of them changed.
fn varied(
    alloc: Global,
    file: &[u8],
    len: usize,
    at: usize,
    byte: u8,
) -> Result<Vec<u8>, AllocError> {
    let mut bytes = Vec::new(alloc);
    bytes.extend_from_slice(file)?;
    bytes.truncate(len);
    if let Some(changed) = bytes.get_mut(at) {
        *changed = byte;
    }
    Ok(bytes)
}

#[test]
fn tells_mlocate_apart(rt: HostRuntime) -> Result<(), AllocError> {
    for (len, at, byte, format, paths, ending) in [
        (0, 0, 0, None, 0, Err(DbFault::NotADatabase)),
        (7, 0, 0, None, 0, Err(DbFault::NotADatabase)),
        (
            8,
            0,
            0,
            Some(DatabaseFormat::Mlocate),
            0,
            damage(0, DamageCause::Cut),
        ),
        (
            9,
            0,
            0,
            Some(DatabaseFormat::Mlocate),
            0,
            damage(0, DamageCause::Cut),
        ),
        (
            17,
            0,
            0,
            Some(DatabaseFormat::Mlocate),
            0,
            damage(0, DamageCause::Cut),
        ),
        (18, 0, 0, Some(DatabaseFormat::Mlocate), 0, Ok(())),
        (45, 7, b'E', None, 0, Err(DbFault::NotADatabase)),
        (
            45,
            12,
            2,
            Some(DatabaseFormat::Mlocate),
            0,
            damage(0, DamageCause::BadVersion),
        ),
    ] {
        let bytes = varied(rt.alloc(), &MLOCATE, len, at, byte)?;
        assert_eq!(rt;
            read_file(&mut SliceSource::new(&bytes)),
            (format, paths, ending)
        );
    }
    Ok(())
}

#[test]
fn tells_locate02_apart(rt: HostRuntime) -> Result<(), AllocError> {
    for (len, at, byte, format, paths, ending) in [
        (1, 0, 0, None, 0, Err(DbFault::NotADatabase)),
        (9, 0, 0, None, 0, Err(DbFault::NotADatabase)),
        (10, 0, 0, Some(DatabaseFormat::Locate02), 0, Ok(())),
        (
            15,
            0,
            0,
            Some(DatabaseFormat::Locate02),
            0,
            damage(10, DamageCause::Cut),
        ),
        (16, 0, 0, Some(DatabaseFormat::Locate02), 1, Ok(())),
        (16, 0, 1, None, 0, Err(DbFault::NotADatabase)),
        (16, 8, b'3', None, 0, Err(DbFault::NotADatabase)),
        (16, 9, 1, None, 0, Err(DbFault::NotADatabase)),
    ] {
        let bytes = varied(rt.alloc(), &LOCATE02, len, at, byte)?;
        assert_eq!(rt;
            read_file(&mut SliceSource::new(&bytes)),
            (format, paths, ending)
        );
    }
    Ok(())
}

#[test]
fn tells_bigram_apart(rt: HostRuntime) -> Result<(), AllocError> {
    let bigram = bigram(rt.alloc())?;
    for (len, at, byte, format, paths, ending) in [
        (255, 0, 0, None, 0, Err(DbFault::NotADatabase)),
        (259, 5, 7, None, 0, Err(DbFault::NotADatabase)),
        (256, 0, 0, Some(DatabaseFormat::Bigram), 0, Ok(())),
        (
            257,
            0,
            0,
            Some(DatabaseFormat::Bigram),
            0,
            damage(256, DamageCause::EmptyPath),
        ),
        (
            259,
            256,
            0x1F,
            Some(DatabaseFormat::Bigram),
            0,
            damage(256, DamageCause::NoCount),
        ),
        (259, 1, b'm', Some(DatabaseFormat::Bigram), 1, Ok(())),
    ] {
        let bytes = varied(rt.alloc(), &bigram, len, at, byte)?;
        assert_eq!(rt;
            read_file(&mut SliceSource::new(&bytes)),
            (format, paths, ending)
        );
    }
    Ok(())
}

/// A file whose first 256 bytes could be those of a bigram database, but that begins as another format does.
fn table_behind(alloc: Global, magic: &[u8]) -> Result<Vec<u8>, AllocError> {
    let mut bytes = Vec::new(alloc);
    bytes.extend_from_slice(magic)?;
    bytes.resize(256, b' ')?;
    Ok(bytes)
}

#[test]
fn the_first_bytes_go_before_a_table(rt: HostRuntime) -> Result<(), AllocError> {
    let mlocate = table_behind(rt.alloc(), b"\0mlocate")?;
    assert_eq!(rt;
        read_file(&mut SliceSource::new(&mlocate)),
        (
            Some(DatabaseFormat::Mlocate),
            0,
            damage(0, DamageCause::BadVersion)
        )
    );
    let locate02 = table_behind(rt.alloc(), b"\0LOCATE02\0")?;
    assert_eq!(rt;
        read_file(&mut SliceSource::new(&locate02)),
        (
            Some(DatabaseFormat::Locate02),
            0,
            damage(10, DamageCause::BadCount)
        )
    );
    let bigram = table_behind(rt.alloc(), b"\0LOCATE02 ")?;
    assert_eq!(rt;
        read_file(&mut SliceSource::new(&bigram)),
        (Some(DatabaseFormat::Bigram), 0, Ok(()))
    );
    Ok(())
}

/// A file that is read one byte at a time, where the read behind so many fails.
fn failing(alloc: Global, file: &[u8], came: u32) -> Result<ByteByByte, AllocError> {
    let mut files = MemFiles::new(alloc);
    files.put("/x", file)?;
    files.fail_at(u64::from(came) + 2)?;
    let _ = files.open_file("/x");
    Ok(ByteByByte { files })
}

#[test]
fn tells_each_read_that_fails(rt: HostRuntime) -> Result<(), AllocError> {
    let bigram = bigram(rt.alloc())?;
    for (file, format, known, whole, len) in [
        (MLOCATE.as_slice(), DatabaseFormat::Mlocate, 10, 44, 45),
        (LOCATE02.as_slice(), DatabaseFormat::Locate02, 10, 16, 16),
        (bigram.as_slice(), DatabaseFormat::Bigram, 256, 260, 259),
    ] {
        for came in 0..len + 1 {
            let mut src = failing(rt.alloc(), file, came)?;
            let told = if came < known { None } else { Some(format) };
            let paths = if came < whole { 0 } else { 1 };
            assert_eq!(rt; read_file(&mut src), (told, paths, Err(DbFault::ReadFault)));
            assert_eq!(rt;
                (src.files.faults(), src.files.given()),
                (1, u64::from(came))
            );
        }
        let mut src = failing(rt.alloc(), file, 1000)?;
        assert_eq!(rt; read_file(&mut src), (Some(format), 1, Ok(())));
    }
    Ok(())
}
