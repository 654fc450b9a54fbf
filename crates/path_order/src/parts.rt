//! Names, and the parts of a path.
ghost use Rattle.std.specs.Prelude.{◌≡◌, ◌+◌, ◌<◌, ◌≤◌, IsTrue, false, length, take, drop};
ghost use Rattle.path_order.specs.Names.{is_name as names};
ghost use Rattle.path_order.specs.NameStarts.{IsNameStart};
ghost use Rattle.std.specs.List.{list_all, slice_split};
ghost use Rattle.path_order.specs.Path.{is_root, is_slash, is_normal as normal, base_of, parent_of};

use crate::MAX_PATH;
use memchr::memrchr;

/// Whether the text names something in a directory: it has a byte, holds neither `/` nor byte 0, and is neither `.` nor `..`.
pub fn is_name(text: &[u8]) -> bool
    ensures { result ≡ names text.now }
{
    !text.is_empty()
        && !text.contains(&b'/')
        && !text.contains(&0)
        && text != b".".as_slice()
        && text != b"..".as_slice()
}

/// Whether the text has at most `MAX_PATH` bytes, and is `/` or a name after each of its slashes, of which the first begins it.
pub fn is_normal(text: &[u8]) -> bool
    ensures { result ≡ normal text.now }
{
    match text {
        [b'/'] => true,
        [b'/', rest @ ..] => text.len() <= MAX_PATH && are_names(rest),
        _ => false,
    }
}

/// Whether each of the parts between slashes is a name.
fn are_names(text: &[u8]) -> bool
    ensures { result ≡ list_all names (slice_split is_slash text.now) }
{
    text.split(|byte| *byte == b'/').all(is_name)
}

/// The place after the last `/`, or 0.
#[inline(always)]
fn after_slash(path: &[u8]) -> usize
    ensures { IsNameStart path.now result }
{
    match memrchr(b'/', path) {
        Some(slash) => slash + 1,
        None => 0,
    }
}

/// Where the base name begins: the place after the last `/`, or 0.
#[inline(always)]
pub fn base_start(path: &[u8]) -> usize
    ensures start { IsNameStart path.now result }
    ensures base { drop result path.now ≡ base_of path.now }
    ensures place { result + length (base_of path.now) ≡ length path.now }
{
    after_slash(path)
}

/// The length of the parent's text, of a normal path other than `/`. It is 1 for `/a`.
pub fn parent_len(path: &[u8]) -> usize
    requires normal { IsTrue (normal path.now) }
    requires below_root { is_root path.now ≡ false }
    ensures parent { take result path.now ≡ parent_of path.now }
    ensures place { result ≡ length (parent_of path.now) }
{
    let start = base_start(path);
    if start <= 1 { 1 } else { start - 1 }
}

#[cfg(test)]
mod tests {
    use super::*;

    #[test]
    fn normal_paths(rt: HostRuntime) {
        for text in [
            b"/".as_slice(),
            b"/usr/..bin/.x".as_slice(),
            b"/...".as_slice(),
        ] {
            assert!(rt; is_normal(text));
        }
        for text in [
            b"".as_slice(),
            b"usr".as_slice(),
            b"//".as_slice(),
            b"/usr/".as_slice(),
            b"/usr//x".as_slice(),
            b"/usr/.".as_slice(),
            b"/../usr".as_slice(),
        ] {
            assert!(rt; !is_normal(text));
        }
    }

    #[test]
    fn bases_and_parents(rt: HostRuntime) {
        assert_eq!(rt; (base_start(b"/usr/bin"), base_start(b"bin")), (5, 0));
        let path = b"/a".as_slice();
        assert_eq!(rt; parent_len(path), 1);
        let path = b"/usr/bin".as_slice();
        assert_eq!(rt; parent_len(path), 4);
    }
}
