//! What front compression shares between two texts.
ghost use Rattle.std.specs.Prelude.{◌≡◌, ◌≤◌, take, length};
ghost use Rattle.byte_feed.specs.Prefix.{common_prefix as prefix_of};

/// How many bytes two texts have in common from the front on.
pub fn common_prefix(a: &[u8], b: &[u8]) -> usize
    ensures value { result ≡ prefix_of a.now b.now }
    ensures left { result ≤ length a.now }
    ensures right { result ≤ length b.now }
{
    let len = a.len().min(b.len());
    let mut same = common_blocks(a, b);
    while same < len && a[same] == b[same] {
        same += 1;
    }
    same
}

/// The number of bytes in the blocks of sixteen that two texts have in common from the front on.
fn common_blocks(a: &[u8], b: &[u8]) -> usize
    ensures same { take result a.now ≡ take result b.now }
    ensures left { result ≤ length a.now }
    ensures right { result ≤ length b.now }
{
    let len = a.len().min(b.len());
    let mut same = 0;
    while len - same >= 16 && a[same..same + 16] == b[same..same + 16] {
        same += 16;
    }
    same
}
