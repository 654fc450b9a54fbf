//! The order of paths.
ghost use Rattle.std.specs.Prelude.{◌≡◌, ◌↔◌, ◌<◌};
ghost use Rattle.path_order.specs.Order.{rank as rank_of, path_cmp};

use std::cmp::Ordering;

/// The place of a byte in the order: a slash comes before all others.
fn rank(byte: u8) -> u16
    ensures { result ≡ rank_of byte }
{
    if byte == b'/' { 0 } else { u16::from(byte) + 1 }
}

/// Compares two texts byte by byte, where the end of a text is least and `/` comes next.
/// On normal paths this is the order of their lists of names.
pub fn compare_paths(a: &[u8], b: &[u8]) -> Ordering
    ensures order { result ≡ path_cmp a.now b.now }
    ensures equal { result ≡ Ordering.Equal ↔ (a.now ≡ b.now) }
{
    let shorter = a.len().min(b.len());
    for i in 0..shorter {
        if a[i] != b[i] {
            return rank(a[i]).cmp(&rank(b[i]));
        }
    }
    a.len().cmp(&b.len())
}

#[cfg(test)]
mod tests {
    use super::*;

    #[test]
    fn a_slash_comes_before_other_bytes(rt: HostRuntime) {
        assert_eq!(rt; compare_paths(b"/a/z", b"/a.b"), Ordering::Less);
        assert_eq!(rt; compare_paths(b"/a", b"/a/z"), Ordering::Less);
        assert_eq!(rt; compare_paths(b"/b", b"/a/z"), Ordering::Greater);
    }
}
