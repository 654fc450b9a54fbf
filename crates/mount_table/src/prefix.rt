//! Path prefixes, and what follows them.
ghost use Rattle.std.specs.Prelude.{◌≡◌, ◌≢◌, ℕ, ◌<◌, ◌≤◌, length, not, bytes_eq, slice_index};
ghost use Rattle.std.specs.List.{list_any};
ghost use Rattle.path_order.specs.Path.{begins_at_root as begins, is_root as root};
ghost use Rattle.mount_table.specs.Part.{EndsPrefix};
ghost use Rattle.mount_table.specs.Prefix.{rests, with_rest};

/// Whether the text begins with `/`.
pub(crate) fn begins_at_root(text: &[u8]) -> bool
    ensures { result ≡ begins text.now }
{
    matches!(text, [b'/', ..])
}

/// Whether the text is `/`.
fn is_root(text: &[u8]) -> bool
    ensures { result ≡ root text.now }
{
    matches!(text, [b'/'])
}

/// Whether the path is not that of the rest put after the mount point.
fn differs(point: &[u8], rest: &[u8], path: &[u8]) -> bool
    ensures { result ≡ not (bytes_eq (with_rest point.now rest.now) path.now) }
{
    if rest.is_empty() {
        return point != path;
    }
    if is_root(point) {
        return rest != path;
    }
    match path.strip_prefix(point) {
        Some(after) => after != rest,
        None => true,
    }
}

/// Whether some rest, with which one root is a path prefix of the other, put after the mount point makes another path.
#[tactic(auto, unfolding(crate::specs::Prefix::rests))]
pub(crate) fn leads_elsewhere(root: &[u8], of: &[u8], point: &[u8], path: &[u8]) -> bool
    ensures { result ≡ list_any (λ rest. not (bytes_eq (with_rest point.now rest) path.now)) (rests root.now of.now) }
{
    if root == of && differs(point, b"", path) {
        return true;
    }
    if is_root(root) && begins_at_root(of) && of.len() > 1 && differs(point, of, path) {
        return true;
    }
    match of.strip_prefix(root) {
        Some(rest) => begins_at_root(rest) && differs(point, rest, path),
        None => false,
    }
}

/// The length of the next shorter path prefix of a path, of which the front of this length is one; 0 after the root.
pub(crate) fn shorter_prefix(path: &[u8], len: usize) -> usize
    requires some { 0 < len }
    requires within { len ≤ length path.now }
    ensures shorter { result < len }
    ensures prefix { 0 < result → EndsPrefix path.now result }
    ensures others { (k : ℕ) → result < k → k < len → (k ≢ 1) × (slice_index path.now k ≢ 47) }
{
    let mut end = len - 1;
    while end > 1 && path[end] != b'/' {
        end -= 1;
    }
    end
}
