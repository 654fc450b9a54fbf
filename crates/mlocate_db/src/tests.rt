//! Items as a sink takes them and as a reader gives them.
use crate::{DbReader, Step, put_directory, put_end, put_entry, put_header};
use loc_outside::{MemSink, SliceSource};
use path_order::{Kind, Stamp};
use std::alloc::AllocError;

/// A database of version 1 with the directory `/`, a file and a directory in it, and its device 8:1.
const TWO_ENTRIES: &[u8] = b"\0mlocate\0\0\0\x02\x01\x01\0\0/\0ab\
    \0\0\0\0\0\0\x03\xE8\0\0\0\x05\0\x80\0\x01/\0\
    \0f\0\x01dir\0\x02";

#[test]
fn writes_every_item(rt: HostRuntime) -> Result<(), AllocError> {
    let mut sink = MemSink::with_room(rt.alloc(), 64)?;
    let stamp = Stamp::new(1000, 5).unwrap_or(Stamp::zero());
    assert!(rt; put_header(&mut sink, 1, true, b"/", b"ab").is_ok());
    assert!(rt; put_directory(&mut sink, stamp, 8_388_609, b"/").is_ok());
    assert!(rt; put_entry(&mut sink, Kind::File, b"f").is_ok());
    assert!(rt; put_entry(&mut sink, Kind::Directory, b"dir").is_ok());
    assert!(rt; put_end(&mut sink).is_ok());
    assert_eq!(rt; sink.taken(), TWO_ENTRIES);
    Ok(())
}

#[test]
fn reads_every_item(rt: HostRuntime) {
    let mut src = SliceSource::new(TWO_ENTRIES);
    let mut reader = DbReader::new();
    assert_eq!(rt; reader.start_matching(&mut src, b"/", b"ab"), Ok(true));
    assert_eq!(rt;
        (reader.version(), reader.flag(), reader.place()),
        (1, true, 20)
    );
    for (step, path, directory_len, place) in [
        (Step::Directory, b"/".as_slice(), 1, 38),
        (Step::Entry(Kind::File), b"/f".as_slice(), 1, 41),
        (Step::Entry(Kind::Directory), b"/dir".as_slice(), 1, 46),
        (Step::EndDirectory, b"/dir".as_slice(), 1, 47),
        (Step::End, b"/dir".as_slice(), 1, 47),
    ] {
        assert!(rt; reader.live());
        assert_eq!(rt; reader.advance(&mut src), Ok(step));
        assert_eq!(rt; reader.path(), path);
        assert_eq!(rt;
            (reader.directory_len(), reader.place()),
            (directory_len, place)
        );
    }
    assert!(rt; !reader.live());
    assert_eq!(rt;
        (
            reader.stamp().seconds(),
            reader.stamp().nanos(),
            reader.device()
        ),
        (1000, 5, 8_388_609)
    );
}

#[test]
fn compares_root_and_block(rt: HostRuntime) {
    for (root, block, same) in [
        (b"/".as_slice(), b"ab".as_slice(), true),
        (b"/x".as_slice(), b"ab".as_slice(), false),
        (b"".as_slice(), b"ab".as_slice(), false),
        (b"/".as_slice(), b"a".as_slice(), false),
        (b"/".as_slice(), b"abc".as_slice(), false),
    ] {
        let mut reader = DbReader::new();
        assert_eq!(rt;
            reader.start_matching(&mut SliceSource::new(TWO_ENTRIES), root, block),
            Ok(same)
        );
    }
}
