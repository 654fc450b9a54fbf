//! Mount tables whose answers were worked out by hand.
use crate::{MountCause, MountFault, Mounts, read_mounts};
use path_order::is_normal;
use std::alloc::{AllocError, Global};

// A table, a normal path, and what the table tells of it: the type, the device, whether it is a bind mount.
type Case = (
    &'static [u8],
    &'static [u8],
    Option<&'static [u8]>,
    u32,
    bool,
);

// The device 8:1.
const DISK: u32 = 8_388_609;

const EXT4: Option<&[u8]> = Some(b"ext4");

const XFS: Option<&[u8]> = Some(b"xfs");

fn is_told(alloc: Global, case: &Case) -> bool {
    let (table, path, kind, device, bind) = *case;
    let Ok(mounts) = read_mounts(alloc, table) else {
        return false;
    };
    is_normal(path)
        && mounts.type_of(path) == kind
        && mounts.device_of(path) == device
        && mounts.is_bind(path) == bind
}

// The place of the first case that is told otherwise.
fn first_wrong(alloc: Global, cases: &[Case]) -> Option<usize> {
    cases.iter().position(|case| !is_told(alloc, case))
}

// The place of the first text that is not refused in this line for this cause.
fn first_taken(alloc: Global, texts: &[&[u8]], line: u64, cause: MountCause) -> Option<usize> {
    texts.iter().position(|text| match read_mounts(alloc, text) {
        Ok(_) => true,
        Err(fault) => fault != MountFault { line, cause },
    })
}

// A usual machine: a root, two file systems without a disk, and two directories of the root that are mounted, of which
// the second is mounted over itself.
const USUAL: &[u8] = b"20 1 8:1 / / rw,relatime shared:1 - ext4 /dev/sda1 rw
21 20 0:20 / /proc rw,nosuid - proc proc rw
22 20 0:21 / /run rw - tmpfs tmpfs rw,size=1000k
23 20 8:1 /home/ann /mnt/ann rw shared:1 - ext4 /dev/sda1 rw
24 20 8:1 /srv/x /srv/x rw shared:1 - ext4 /dev/sda1 rw
";

const USUAL_ANSWERS: [Case; 10] = [
    (USUAL, b"/", EXT4, DISK, false),
    (USUAL, b"/proc", Some(b"proc"), 20, false),
    (USUAL, b"/proc/1", Some(b"proc"), 20, false),
    (USUAL, b"/procession", EXT4, DISK, false),
    (USUAL, b"/run", Some(b"tmpfs"), 21, false),
    (USUAL, b"/home/ann", EXT4, DISK, false),
    (USUAL, b"/mnt", EXT4, DISK, false),
    (USUAL, b"/mnt/ann", EXT4, DISK, true),
    (USUAL, b"/mnt/ann/notes.txt", EXT4, DISK, false),
    (USUAL, b"/srv/x", EXT4, DISK, false),
];

#[test]
fn tells_of_a_usual_machine(rt: HostRuntime) {
    assert_eq!(rt; first_wrong(rt.alloc(), &USUAL_ANSWERS), None);
    assert_eq!(rt; DISK.to_be_bytes(), [0, 0x80, 0, 1]);
}

// One line in many forms: optional fields, separators, blanks, escapes.
const LINES: [Case; 15] = [
    (b"20 1 8:1 / / rw - ext4 a rw", b"/", EXT4, DISK, false),
    (
        b"20 1 8:1 / / rw shared:1 master:2 x y:z unbindable - xfs a rw",
        b"/",
        XFS,
        DISK,
        false,
    ),
    (b"20 1 8:1 / / - - ext4 a rw", b"/", EXT4, DISK, false),
    (b"20 1 8:1 / / rw - - a rw", b"/", Some(b"-"), DISK, false),
    (b"20 1 8:1 / / rw -- -x - xfs a rw", b"/", XFS, DISK, false),
    (b"20 1 8:1 / / rw - ext4", b"/", EXT4, DISK, false),
    (
        b"\t20\t 1  8:1\t/ /  rw\t-\text4 \ta rw \t",
        b"/",
        EXT4,
        DISK,
        false,
    ),
    (
        b"\n\n20 1 8:1 / / rw - ext4 a rw\n\n",
        b"/",
        EXT4,
        DISK,
        false,
    ),
    (b"- x 8:1 / / rw - ext4 a rw", b"/", EXT4, DISK, false),
    (
        b"20 1 8:1 / / rw - fuse.a\\040b a rw",
        b"/",
        Some(b"fuse.a\\040b"),
        DISK,
        false,
    ),
    (
        b"20 1 8:1 / /a\\040b rw - ext4 a rw",
        b"/a b/c",
        EXT4,
        DISK,
        false,
    ),
    (b"20 1 8:1 / /a\\040b rw - ext4 a rw", b"/a", None, 0, false),
    (
        b"20 1 8:1 / \\057a\\134040\\012 rw - ext4 a rw",
        b"/a\\040\n",
        EXT4,
        DISK,
        false,
    ),
    (
        b"20 1 8:1 / /\xff\x80 rw - \xfe a rw",
        b"/\xff\x80",
        Some(b"\xfe"),
        DISK,
        false,
    ),
    (
        b"20 1 8:1 / /\\377\\001 rw - ext4 a rw",
        b"/\xff\x01",
        EXT4,
        DISK,
        false,
    ),
];

#[test]
fn reads_fields_and_escapes(rt: HostRuntime) {
    assert_eq!(rt; first_wrong(rt.alloc(), &LINES), None);
}

// Mount points over one another, some of them not normal, and devices.
const POINTS: [Case; 17] = [
    (b"", b"/", None, 0, false),
    (
        b"20 1 8:1 / /a rw - ext4 a rw\n21 1 8:2 / /a rw - xfs b rw",
        b"/a/b",
        XFS,
        8_388_610,
        false,
    ),
    (
        b"20 1 8:1 / /a rw - ext4 a rw\n21 1 8:2 / /a rw - xfs b rw",
        b"/",
        None,
        0,
        false,
    ),
    (
        b"20 1 8:1 / /a rw - ext4 a rw\n21 1 8:2 / /a rw - xfs b rw",
        b"/ab",
        None,
        0,
        false,
    ),
    (
        b"20 1 8:1 / /a/b rw - ext4 a rw\n21 1 8:2 / /a rw - xfs b rw",
        b"/a/b/c",
        EXT4,
        DISK,
        false,
    ),
    (
        b"20 1 8:1 / /a/b rw - ext4 a rw\n21 1 8:2 / /a rw - xfs b rw",
        b"/a/c",
        XFS,
        8_388_610,
        false,
    ),
    (
        b"1 1 0:2 / / rw - rootfs rootfs rw\n20 1 8:1 / / rw - ext4 a rw",
        b"/x",
        EXT4,
        DISK,
        false,
    ),
    (
        b"20 1 8:1 / / rw - ext4 a rw\n21 1 8:2 / /a/ rw - xfs b rw",
        b"/a",
        EXT4,
        DISK,
        false,
    ),
    (
        b"20 1 8:1 / / rw - ext4 a rw\n21 1 8:2 / // rw - xfs b rw",
        b"/a",
        EXT4,
        DISK,
        false,
    ),
    (
        b"20 1 8:1 / / rw - ext4 a rw\n21 1 8:2 / /a//b rw - xfs b rw",
        b"/a/b",
        EXT4,
        DISK,
        false,
    ),
    (
        b"20 1 8:1 / / rw - ext4 a rw\n21 1 8:2 / /a/../b rw - xfs b rw",
        b"/b",
        EXT4,
        DISK,
        false,
    ),
    (b"20 1 8:1 / /. rw - ext4 a rw", b"/", None, 0, false),
    (
        b"20 1 4095:1048575 / / rw - ext4 a rw",
        b"/",
        EXT4,
        4_294_967_295,
        false,
    ),
    (b"20 1 4096:0 / / rw - ext4 a rw", b"/", EXT4, 0, false),
    (b"20 1 0:1048576 / / rw - ext4 a rw", b"/", EXT4, 0, false),
    (
        b"20 1 4294967295:4294967295 / / rw - ext4 a rw",
        b"/",
        EXT4,
        0,
        false,
    ),
    (b"20 1 0:0 / / rw - ext4 a rw", b"/", EXT4, 0, false),
];

#[test]
fn the_last_of_the_longest_mount_points_decides(rt: HostRuntime) {
    assert_eq!(rt; first_wrong(rt.alloc(), &POINTS), None);
}

// Roots and mount points of one device.
const BINDS: [Case; 18] = [
    (b"20 1 8:1 / / rw - ext4 a rw", b"/", EXT4, DISK, false),
    (
        b"20 1 8:1 / / rw - ext4 a rw\n20 1 8:1 / / rw - ext4 a rw",
        b"/",
        EXT4,
        DISK,
        false,
    ),
    (
        b"20 1 8:1 / / rw - ext4 a rw\n20 1 8:1 / /m rw - ext4 a rw",
        b"/m",
        EXT4,
        DISK,
        true,
    ),
    (
        b"20 1 8:1 / /m rw - ext4 a rw\n20 1 8:1 / / rw - ext4 a rw",
        b"/m",
        EXT4,
        DISK,
        false,
    ),
    (
        b"20 1 8:1 /x /y rw - ext4 a rw\n20 1 8:1 / / rw - ext4 a rw",
        b"/",
        EXT4,
        DISK,
        false,
    ),
    (
        b"20 1 8:1 / /sysroot rw - ext4 a rw\n20 1 8:1 /ostree/deploy/x / rw - ext4 a rw",
        b"/",
        EXT4,
        DISK,
        true,
    ),
    (
        b"20 1 8:1 /x /m rw - ext4 a rw\n20 1 8:1 /x/d /m/d rw - ext4 a rw",
        b"/m/d",
        EXT4,
        DISK,
        false,
    ),
    (
        b"20 1 8:1 / / rw - ext4 a rw\n20 1 8:1 /x /m rw - ext4 a rw\n20 1 8:1 /x/d /m/d rw - ext4 a rw",
        b"/m/d",
        EXT4,
        DISK,
        true,
    ),
    (
        b"20 1 8:1 / / rw - ext4 a rw\n20 1 8:1 /x /m rw - ext4 a rw\n20 1 8:1 /x /m rw - ext4 a rw",
        b"/m",
        EXT4,
        DISK,
        true,
    ),
    (
        b"20 1 8:1 / / rw - ext4 a rw\n20 1 8:1 /q /m rw - ext4 a rw\n20 1 8:2 / /m rw - ext4 a rw",
        b"/m",
        EXT4,
        8_388_610,
        false,
    ),
    (
        b"20 1 8:1 /a / rw - ext4 a rw\n20 1 8:1 /ab /m rw - ext4 a rw",
        b"/m",
        EXT4,
        DISK,
        false,
    ),
    (
        b"20 1 8:1 /a / rw - ext4 a rw\n20 1 8:1 /a/b /m rw - ext4 a rw",
        b"/m",
        EXT4,
        DISK,
        true,
    ),
    (
        b"20 1 8:1 /@ / rw - ext4 a rw\n20 1 8:1 /@home /home rw - ext4 a rw",
        b"/home",
        EXT4,
        DISK,
        false,
    ),
    (
        b"20 1 8:1 / / rw - ext4 a rw\n20 1 8:1 //m /m rw - ext4 a rw",
        b"/m",
        EXT4,
        DISK,
        true,
    ),
    (
        b"20 1 8:1 net:[1] /n rw - ext4 a rw\n20 1 8:1 net:[1] /o rw - ext4 a rw",
        b"/o",
        EXT4,
        DISK,
        true,
    ),
    (
        b"20 1 8:1 / /a/../b rw - ext4 a rw\n20 1 8:1 / /c rw - ext4 a rw",
        b"/c",
        EXT4,
        DISK,
        true,
    ),
    (
        b"20 1 8:2 / / rw - ext4 a rw\n20 1 8:1 / /m rw - ext4 a rw",
        b"/m",
        EXT4,
        DISK,
        false,
    ),
    (
        b"20 1 1:8 / / rw - ext4 a rw\n20 1 8:1 / /m rw - ext4 a rw",
        b"/m",
        EXT4,
        DISK,
        false,
    ),
];

#[test]
fn an_earlier_mount_makes_a_bind_mount(rt: HostRuntime) {
    assert_eq!(rt; first_wrong(rt.alloc(), &BINDS), None);
}

const FEW_FIELDS: [&[u8]; 5] = [b"20 1 8:1 / /", b"x", b" \t ", b"\r", b"20 1 8 / x\\9"];

const NO_SEPARATOR: [&[u8]; 7] = [
    b"20 1 8:1 / / rw ext4 a b",
    b"20 1 8:1 / / rw",
    b"20 1 8:1 / / rw -",
    b"20 1 8:1 / / - ext4 a rw",
    b"20 1 8:1 / / rw shared:1 -",
    b"20 1 8:1 / / rw -- ext4",
    b"20 1 8 / x\\9 rw",
];

const BAD_DEVICES: [&[u8]; 17] = [
    b"20 1 8 / / rw - ext4 a rw",
    b"20 1 01:1 / / rw - ext4 a rw",
    b"20 1 1:01 / / rw - ext4 a rw",
    b"20 1 00:0 / / rw - ext4 a rw",
    b"20 1 +1:1 / / rw - ext4 a rw",
    b"20 1 -1:1 / / rw - ext4 a rw",
    b"20 1 :1 / / rw - ext4 a rw",
    b"20 1 8: / / rw - ext4 a rw",
    b"20 1 : / / rw - ext4 a rw",
    b"20 1 8::1 / / rw - ext4 a rw",
    b"20 1 8:1:1 / / rw - ext4 a rw",
    b"20 1 8,1 / / rw - ext4 a rw",
    b"20 1 0x8:1 / / rw - ext4 a rw",
    b"20 1 4294967296:0 / / rw - ext4 a rw",
    b"20 1 0:4294967296 / / rw - ext4 a rw",
    b"20 1 8:99999999999999999999 / / rw - ext4 a rw",
    b"20 1 8 / x\\9 rw - ext4 a rw",
];

const BAD_ESCAPES: [&[u8]; 10] = [
    b"20 1 8:1 / /a\\9 rw - ext4 a rw",
    b"20 1 8:1 / /\\000 rw - ext4 a rw",
    b"20 1 8:1 / /\\400 rw - ext4 a rw",
    b"20 1 8:1 / /\\777 rw - ext4 a rw",
    b"20 1 8:1 / /a\\4 rw - ext4 a rw",
    b"20 1 8:1 / /a\\40 rw - ext4 a rw",
    b"20 1 8:1 / /a\\ rw - ext4 a rw",
    b"20 1 8:1 / /\\08x rw - ext4 a rw",
    b"20 1 8:1 / x\\9 rw - ext4 a rw",
    b"20 1 8:1 /\\9 / rw - ext4 a rw",
];

const BAD_PATHS: [&[u8]; 3] = [
    b"20 1 8:1 / x rw - ext4 a rw",
    b"20 1 8:1 / - rw - ext4 a rw",
    b"20 1 8:1 / \\141/ rw - ext4 a rw",
];

#[test]
fn refuses_each_broken_rule(rt: HostRuntime) {
    assert_eq!(rt;
        first_taken(rt.alloc(), &FEW_FIELDS, 1, MountCause::FewFields),
        None
    );
    assert_eq!(rt;
        first_taken(rt.alloc(), &NO_SEPARATOR, 1, MountCause::NoSeparator),
        None
    );
    assert_eq!(rt;
        first_taken(rt.alloc(), &BAD_DEVICES, 1, MountCause::BadDevice),
        None
    );
    assert_eq!(rt;
        first_taken(rt.alloc(), &BAD_ESCAPES, 1, MountCause::BadEscape),
        None
    );
    assert_eq!(rt;
        first_taken(rt.alloc(), &BAD_PATHS, 1, MountCause::BadPath),
        None
    );
}

const THIRD_LINE: [&[u8]; 3] = [
    b"\n\nx",
    b"20 1 8:1 / / rw - ext4 a rw\n\n \n20",
    b"20 1 8:1 / / rw - ext4 a rw\n20 1 8:1 / / rw - ext4 a rw\n8:1\nx\n",
];

#[test]
fn counts_empty_lines(rt: HostRuntime) {
    assert_eq!(rt;
        first_taken(rt.alloc(), &THIRD_LINE, 3, MountCause::FewFields),
        None
    );
}

#[test]
fn no_mount_covers_no_path(rt: HostRuntime) {
    let mounts = Mounts::none(rt.alloc());
    let root = b"/".as_slice();
    assert!(rt; is_normal(root));
    assert_eq!(rt; mounts.type_of(root), None);
    assert_eq!(rt; mounts.device_of(root), 0);
    assert!(rt; !mounts.is_bind(root));
}

// A line of a mebibyte, a mebibyte of newlines, and 200,000 lines.
#[test]
fn reads_large_texts(rt: HostRuntime) -> Result<(), AllocError> {
    let long = vec![in rt.alloc(); b'x'; 1_048_576]?;
    assert_eq!(rt;
        first_taken(rt.alloc(), &[long.as_slice()], 1, MountCause::FewFields),
        None
    );
    let newlines = vec![in rt.alloc(); b'\n'; 1_048_576]?;
    assert!(rt; read_mounts(rt.alloc(), &newlines).is_ok());
    let mut many = Vec::new(rt.alloc());
    for _ in 0..200_000u32 {
        many.extend_from_slice(b"20 1 8:1 / /a/b rw - ext4 a rw\n")?;
    }
    assert!(rt; read_mounts(rt.alloc(), &many).is_ok());
    many.push(b'x')?;
    assert_eq!(rt;
        first_taken(
            rt.alloc(),
            &[many.as_slice()],
            200_001,
            MountCause::FewFields
        ),
        None
    );
    Ok(())
}
