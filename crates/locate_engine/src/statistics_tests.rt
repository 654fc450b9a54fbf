//! Statistics of files in memory.
use crate::{Outcome, Stats, statistics};
use byte_feed::{Damage, DamageCause};
use loc_outside::MemFiles;
use std::alloc::{AllocError, Global};

/// A database of version 0 with the directories `/`, `/a`, `/a/z` and `/a.b`.
const FOUR_DIRECTORIES: &[u8] = b"\0mlocate\0\0\0\x36\0\0\0\0/\0\
    prune_bind_mounts\00\0\0prunefs\0\0prunenames\0\0prunepaths\0\0\
    \0\0\0\0\0\0\x03\xE8\0\0\0\0\0\0\0\0/\0\x01a\0\x01a.b\0\x02\
    \0\0\0\0\0\0\x03\xE8\0\0\0\0\0\0\0\0/a\0\x01z\0\x02\
    \0\0\0\0\0\0\x03\xE8\0\0\0\0\0\0\0\0/a/z\0\x02\
    \0\0\0\0\0\0\x03\xE8\0\0\0\0\0\0\0\0/a.b\0\x02";

/// The LOCATE02 database of `/usr/src`, `/usr/src/cmd/aardvark.c`, `/usr/src/cmd/armadillo.c` and `/usr/tmp/zoo`.
const LOCATE02: &[u8] =
    b"\0LOCATE02\0\0/usr/src\0\x08/cmd/aardvark.c\0\x06rmadillo.c\0\xF7tmp/zoo\0";

fn counts(directories: u64, files: u64, name_bytes: u64, stored: u64) -> Stats {
    Stats {
        directories,
        files,
        name_bytes,
        stored,
    }
}

fn damaged(place: u64, cause: DamageCause) -> Outcome {
    Outcome::Damage(Damage { place, cause })
}

// The statistics of the file, where the reader's call of this number fails.
fn answer(alloc: Global, file: &[u8], failing: u64) -> Result<(Stats, Outcome), AllocError> {
    let mut files = MemFiles::new(alloc);
    files.put("db", file)?;
    files.fail_at(failing)?;
    Ok(statistics("db", &mut files))
}

#[test]
fn counts_an_mlocate_database(rt: HostRuntime) -> Result<(), AllocError> {
    let got = answer(rt.alloc(), FOUR_DIRECTORIES, 9)?;
    assert_eq!(rt; got, (counts(4, 3, 5, 166), Outcome::Whole));
    Ok(())
}

#[test]
fn counts_up_to_the_damage(rt: HostRuntime) -> Result<(), AllocError> {
    let cut = FOUR_DIRECTORIES.get(..130).unwrap_or(b"");
    let got = answer(rt.alloc(), cut, 9)?;
    assert_eq!(rt; got, (counts(2, 3, 5, 122), damaged(122, DamageCause::Cut)));
    // The head in hand is counted, and an entry that is cut is not.
    let cut = FOUR_DIRECTORIES.get(..119).unwrap_or(b"");
    let got = answer(rt.alloc(), cut, 9)?;
    assert_eq!(rt; got, (counts(2, 2, 4, 118), damaged(118, DamageCause::Cut)));
    Ok(())
}

#[test]
fn counts_what_was_given(rt: HostRuntime) -> Result<(), AllocError> {
    let none = (counts(0, 0, 0, 0), Outcome::ReadFault);
    assert_eq!(rt; answer(rt.alloc(), FOUR_DIRECTORIES, 1)?, none);
    assert_eq!(rt; answer(rt.alloc(), FOUR_DIRECTORIES, 2)?, none);
    let got = answer(rt.alloc(), FOUR_DIRECTORIES, 3)?;
    assert_eq!(rt; got, (counts(4, 3, 5, 166), Outcome::ReadFault));
    Ok(())
}

#[test]
fn counts_whole_paths_of_other_formats(rt: HostRuntime) -> Result<(), AllocError> {
    let got = answer(rt.alloc(), LOCATE02, 9)?;
    assert_eq!(rt; got, (counts(0, 4, 67, 58), Outcome::Whole));
    let mut bigram = [0; 258];
    bigram[0] = b'/';
    bigram[1] = b'a';
    bigram[256] = 0x0E;
    bigram[257] = 0x80;
    let got = answer(rt.alloc(), &bigram, 9)?;
    assert_eq!(rt; got, (counts(0, 1, 2, 258), Outcome::Whole));
    Ok(())
}

#[test]
fn counts_nothing_of_no_database(rt: HostRuntime) -> Result<(), AllocError> {
    let none = counts(0, 0, 0, 0);
    assert_eq!(rt;
        answer(rt.alloc(), b"no", 9)?,
        (none, Outcome::NotADatabase)
    );
    assert_eq!(rt; answer(rt.alloc(), b"", 9)?, (none, Outcome::NotADatabase));
    let mut files = MemFiles::new(rt.alloc());
    files.put("other", FOUR_DIRECTORIES)?;
    assert_eq!(rt; statistics("db", &mut files), (none, Outcome::Missing));
    Ok(())
}
