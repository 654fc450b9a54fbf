//! Conversions over files and outputs in memory.

use crate::{AdmitCause, ConvertFault, Format, convert};
use byte_feed::{Damage, DamageCause};
use loc_outside::{MemFiles, MemOutput};
use std::alloc::{AllocError, Global};

/// What a database of mlocate begins with, if it has the default configuration and shows its paths to all.
const FRONT: &[u8] = b"\0mlocate\0\0\x006\0\0\0\0/\0\
    prune_bind_mounts\x000\0\0prunefs\0\0prunenames\0\0prunepaths\0\0";

/// An input with these bytes, and an output.
#[derive(Drop)]
struct World {
    files: MemFiles,
    output: MemOutput,
}

fn world_of(alloc: Global, input: &[u8]) -> Result<World, AllocError> {
    let mut files = MemFiles::new(alloc);
    files.put("/in", input)?;
    Ok(World {
        files,
        output: MemOutput::new(alloc),
    })
}

fn run(
    alloc: Global,
    from: Option<Format>,
    to: Format,
    world: &mut World,
) -> Result<u64, ConvertFault> {
    convert(
        alloc,
        from,
        to,
        "/in",
        "/out",
        &mut world.files,
        &mut world.output,
    )
}

/// The bytes that are stored, or none.
fn stored(world: &World) -> &[u8] {
    match world.output.stored("/out") {
        Some(bytes) => bytes,
        None => &[],
    }
}

fn damage(place: u64, cause: DamageCause) -> Result<u64, ConvertFault> {
    Err(ConvertFault::Damage(Damage { place, cause }))
}

fn refused(index: u64, cause: AdmitCause) -> Result<u64, ConvertFault> {
    Err(ConvertFault::NotAdmitted { index, cause })
}

#[test]
fn writes_each_format(rt: HostRuntime) -> Result<(), AllocError> {
    for (from, to, input, count, output) in [
        (
            Format::List,
            Format::Locate02,
            b"/usr/src\n/usr/src/cmd/aardvark.c\n/usr/src/cmd/armadillo.c\n/usr/tmp/zoo\n".as_slice(),
            4,
            b"\0LOCATE02\0\0/usr/src\0\x08/cmd/aardvark.c\0\x06rmadillo.c\0\xF7tmp/zoo\0".as_slice(),
        ),
        (Format::List, Format::Locate02, b"", 0, b"\0LOCATE02\0"),
        (
            Format::List0,
            Format::List0,
            b"/a\0/b\nc\0",
            2,
            b"/a\0/b\nc\0",
        ),
        (Format::List, Format::List0, b"/a\n/b", 2, b"/a\0/b\0"),
        (Format::List0, Format::List, b"/a\0b", 2, b"/a\nb\n"),
        (Format::List, Format::List, b"", 0, b""),
        (
            Format::Locate02,
            Format::List,
            b"\0LOCATE02\0\0/a\0\x02/b\0",
            2,
            b"/a\n/a/b\n",
        ),
    ] {
        let mut world = world_of(rt.alloc(), input)?;
        assert_eq!(rt; run(rt.alloc(), Some(from), to, &mut world), Ok(count));
        assert_eq!(rt; stored(&world), output);
    }
    Ok(())
}

/// The blocks of the database that is written for a list of lines.
fn written(alloc: Global, list: &[u8]) -> Result<Vec<u8>, AllocError> {
    let mut world = world_of(alloc, list)?;
    let mut blocks = Vec::new(alloc);
    let _ = run(alloc, Some(Format::List), Format::Mlocate, &mut world);
    match stored(&world).strip_prefix(FRONT) {
        Some(rest) => blocks.extend_from_slice(rest)?,
        None => blocks.extend_from_slice(b"none")?,
    }
    Ok(blocks)
}

#[test]
fn writes_the_blocks_of_mlocate(rt: HostRuntime) -> Result<(), AllocError> {
    for (list, blocks) in [
        (b"".as_slice(), b"".as_slice()),
        (b"/a\n", b"\0\0\0\0\0\0\0\0\0\0\0\0\0\0\0\0/\0\0a\0\x02"),
        (
            b"/a/b\n/a\n/a/b\n",
            b"\0\0\0\0\0\0\0\0\0\0\0\0\0\0\0\0/\0\x01a\0\x02\
            \0\0\0\0\0\0\0\0\0\0\0\0\0\0\0\0/a\0\0b\0\x02",
        ),
        (
            b"/a.b/z\n/b\n/a-/y\n/a/z/q\n/a/z\n/a/c\n",
            b"\0\0\0\0\0\0\0\0\0\0\0\0\0\0\0\0/\0\0b\0\x02\
            \0\0\0\0\0\0\0\0\0\0\0\0\0\0\0\0/a\0\0c\0\x01z\0\x02\
            \0\0\0\0\0\0\0\0\0\0\0\0\0\0\0\0/a/z\0\0q\0\x02\
            \0\0\0\0\0\0\0\0\0\0\0\0\0\0\0\0/a-\0\0y\0\x02\
            \0\0\0\0\0\0\0\0\0\0\0\0\0\0\0\0/a.b\0\0z\0\x02",
        ),
    ] {
        assert_eq!(rt; written(rt.alloc(), list)?.as_slice(), blocks);
    }
    Ok(())
}

#[test]
fn tells_the_format_of_a_database(rt: HostRuntime) -> Result<(), AllocError> {
    for to in [Format::Mlocate, Format::Locate02, Format::Bigram] {
        let mut first = world_of(rt.alloc(), b"/a\n/a/b\n/c")?;
        assert_eq!(rt; run(rt.alloc(), Some(Format::List), to, &mut first), Ok(3));
        let mut second = world_of(rt.alloc(), stored(&first))?;
        assert_eq!(rt; run(rt.alloc(), None, Format::List0, &mut second), Ok(3));
        assert_eq!(rt; stored(&second).len(), 11);
    }
    Ok(())
}

#[test]
fn refuses_inputs(rt: HostRuntime) -> Result<(), AllocError> {
    for (from, to, input, answer) in [
        (
            Some(Format::List0),
            Format::List,
            b"/a\0/b\nc\0".as_slice(),
            refused(1, AdmitCause::Newline),
        ),
        (
            Some(Format::List),
            Format::Mlocate,
            b"a",
            refused(0, AdmitCause::NotNormal),
        ),
        (
            Some(Format::List),
            Format::Mlocate,
            b"/a\n/\n",
            refused(1, AdmitCause::NotNormal),
        ),
        (
            Some(Format::List),
            Format::Mlocate,
            b"/a\n/a/\n",
            refused(1, AdmitCause::NotNormal),
        ),
        (
            Some(Format::List),
            Format::List0,
            b"/a\n\n",
            damage(3, DamageCause::EmptyPath),
        ),
        (
            Some(Format::List),
            Format::List0,
            b"/a\0\n",
            damage(0, DamageCause::ZeroChar),
        ),
        (
            None,
            Format::List,
            b"\0LOCATE02\0\0/a\0\x02/b",
            damage(14, DamageCause::Cut),
        ),
        (None, Format::List, b"/a\n", Err(ConvertFault::NotADatabase)),
        (
            Some(Format::Mlocate),
            Format::List,
            b"\0LOCATE02\0",
            Err(ConvertFault::NotADatabase),
        ),
    ] {
        let mut world = world_of(rt.alloc(), input)?;
        assert_eq!(rt; run(rt.alloc(), from, to, &mut world), answer);
        assert!(rt; world.output.stored("/out").is_none());
        assert!(rt; world.output.pending().is_empty());
    }
    let mut world = World {
        files: MemFiles::new(rt.alloc()),
        output: MemOutput::new(rt.alloc()),
    };
    assert_eq!(rt;
        run(rt.alloc(), None, Format::List, &mut world),
        Err(ConvertFault::Missing)
    );
    Ok(())
}

#[test]
fn a_failed_call_stores_nothing(rt: HostRuntime) -> Result<(), AllocError> {
    let mut done = 0;
    for n in 1..40u64 {
        let mut world = world_of(rt.alloc(), b"/a/b\n/a\n/c\n")?;
        world.output.fail_at(n)?;
        let answer = run(rt.alloc(), Some(Format::List), Format::Mlocate, &mut world);
        if answer.is_ok() {
            done = n;
            break;
        }
        assert_eq!(rt; answer, Err(ConvertFault::WriteFault));
        assert!(rt; world.output.stored("/out").is_none());
    }
    assert!(rt; done > 10);
    let mut world = world_of(rt.alloc(), b"/a\n")?;
    world.files.fail_at(2)?;
    assert_eq!(rt;
        run(rt.alloc(), Some(Format::List), Format::List0, &mut world),
        Err(ConvertFault::ReadFault)
    );
    assert!(rt; world.output.pending().is_empty());
    Ok(())
}
