//! A mount table, and what it tells of a path.
ghost use Rattle.std.specs.Prelude.{◌≡◌, ◌↔◌, ◌<◌, ◌≤◌, [], IsTrue, IsNone, IfOk, All, false, length, slice_index};
ghost use Rattle.std.specs.List.{list_any};
ghost use Rattle.std.specs.Option.{option_copied};
ghost use Rattle.path_order.specs.Path.{is_normal as normal};
ghost use Rattle.mount_table.specs.Index.{IsIndex, Indexes, Marks, Tops, mark_place as place_of_mark, is_marked as marked, is_top as top_of};
ghost use Rattle.mount_table.specs.Lookup.{covers, deciding, type_of, device_of, shows_elsewhere, is_bind};
ghost use Rattle.mount_table.specs.Part.{EndsPrefix, NoneLonger};

use crate::prefix::shorter_prefix;
use crate::row::Row;
use path_order::is_normal;
use std::alloc::{AllocError, Global};
use std::collections::HashMap;
use std::marker::Model;

/// A mount table: the rows of its lines, in order. A contract sees it as the list of the rows.
#[derive(Drop)]
pub struct Mounts {
    rows: Vec<Row>,
    index: HashMap<Vec<u8>, usize>,
    marks: Vec<bool>,
    tops: Vec<bool>,
}

impl Model for Mounts {
    ghost use Rattle.std.specs.Prelude.{List};
    ghost use Rattle.mount_table.specs.Row.{MountRow};
    ghost use Rattle.mount_table.specs.Index.{IsIndex, Marks, Tops};

    ghost Value = { List MountRow };

    ghost view = { λ m. m.rows.items };

    ghost invariant = { λ m. IsIndex m.rows.items m.index × Marks m.rows.items m.marks.items × Tops m.rows.items m.tops.items };
}

/// The places of the last rows at each normal mount point.
fn index_rows(alloc: Global, rows: &[Row]) -> Result<HashMap<Vec<u8>, usize>, AllocError>
    ensures { IfOk result (λ index. IsIndex rows.now index) }
{
    let mut index = HashMap::with_capacity(alloc, rows.len())?;
    for (place, row) in rows.iter().enumerate() {
        if is_normal(row.point()) {
            let point = Vec::from_slice(alloc, row.point())?;
            index.insert(point, place)?;
        }
    }
    Ok(index)
}

/// The place of a path's mark among 256, by its length and its last byte.
#[tactic(auto, unfolding(crate::specs::Index::mark_place))]
fn mark_place(path: &[u8]) -> usize
    ensures value { result ≡ place_of_mark path.now }
    ensures within { result < 256 }
{
    if path.is_empty() {
        return 0;
    }
    path.len() % 64 * 4 + usize::from(path[path.len() - 1]) % 4
}

/// Marks the mount points of the rows, so that few other paths have a mark.
fn mark_rows(alloc: Global, rows: &[Row]) -> Result<Vec<bool>, AllocError>
    ensures { IfOk result (λ marks. Marks rows.now marks.items) }
{
    let mut marks = vec![in alloc; false; 256]?;
    for row in rows {
        marks[mark_place(row.point())] = true;
    }
    Ok(marks)
}

/// Whether a path has a mark.
fn is_marked(marks: &[bool], path: &[u8]) -> bool
    ensures { result ≡ marked marks.now path.now }
{
    marks.get(mark_place(path)).copied().unwrap_or(false)
}

/// The second byte of a path.
fn second_byte(path: &[u8]) -> usize
    requires { 1 < length path.now }
    ensures value { result ≡ slice_index path.now 1 }
    ensures within { result < 256 }
{
    usize::from(path[1])
}

/// Whether a mark stands for the second byte of a path.
fn is_top(tops: &[bool], path: &[u8]) -> bool
    requires { 1 < length path.now }
    ensures { result ≡ top_of tops.now path.now }
{
    tops.get(second_byte(path)).copied().unwrap_or(false)
}

/// Marks the second bytes of the mount points.
fn mark_tops(alloc: Global, rows: &[Row]) -> Result<Vec<bool>, AllocError>
    ensures { IfOk result (λ tops. Tops rows.now tops.items) }
{
    let mut tops = vec![in alloc; false; 256]?;
    for row in rows {
        let point = row.point();
        if point.len() > 1 {
            tops[second_byte(point)] = true;
        }
    }
    Ok(tops)
}

/// Whether an earlier row shows, at another path than this, what the row shows there.
fn is_shown_elsewhere(row: &Row, path: &[u8], before: &[Row]) -> bool
    ensures { result ≡ list_any (shows_elsewhere path.now row.now) before.now }
{
    before.iter().any(|earlier| row.is_elsewhere(path, earlier))
}

impl Mounts {
    /// The table with no mount.
    pub fn none(alloc: Global) -> Mounts
        ensures { result ≡ [] }
    {
        Mounts {
            rows: Vec::new(alloc),
            index: HashMap::new(alloc),
            marks: Vec::new(alloc),
            tops: Vec::new(alloc),
        }
    }

    /// The table of the rows.
    pub(crate) fn from_rows(alloc: Global, rows: Vec<Row>) -> Result<Mounts, AllocError>
        ensures { IfOk result (λ mounts. mounts ≡ rows.items) }
    {
        let index = index_rows(alloc, &rows)?;
        let marks = mark_rows(alloc, &rows)?;
        let tops = mark_tops(alloc, &rows)?;
        Ok(Mounts {
            rows,
            index,
            marks,
            tops,
        })
    }

    /// The place of the last row at a normal path. Most paths without one have no mark and are not looked up.
    fn place_at(&self, path: &[u8]) -> Option<usize>
        ensures { Indexes self.now path.now result }
    {
        if !is_marked(&self.marks, path) {
            return None;
        }
        self.index.get(path).copied()
    }

    /// The length of a prefix of a path. No mount point that covers the path is longer. It is that of the root where no
    /// mount point has the path's second byte.
    fn longest_front(&self, path: &[u8]) -> usize
        ensures within { result ≤ length path.now }
        ensures prefix { 0 < result → EndsPrefix path.now result }
        ensures none_longer { NoneLonger path.now result self.now }
    {
        if path.len() < 2 || is_top(&self.tops, path) {
            return path.len();
        }
        1
    }

    /// The row that decides for a path.
    fn deciding(&self, path: &[u8]) -> Option<&Row>
        requires { IsTrue (normal path.now) }
        ensures value { option_copied result ≡ deciding self.now path.now }
        ensures none { IsNone result ↔ All (λ row. covers path.now row ≡ false) self.now }
    {
        let mut len = self.longest_front(path);
        while len > 0 {
            if let Some(place) = self.place_at(&path[..len]) {
                return Some(&self.rows[place]);
            }
            len = shorter_prefix(path, len);
        }
        None
    }

    /// The type of the file system that a normal path lies in, as `ext4`: that of the last row among those with the
    /// longest normal mount point that is a path prefix of the path, as the table writes it. It takes no memory.
    pub fn type_of(&self, path: &[u8]) -> Option<&[u8]>
        requires { IsTrue (normal path.now) }
        ensures value { option_copied result ≡ type_of self.now path.now }
        ensures none { IsNone result ↔ All (λ row. covers path.now row ≡ false) self.now }
    {
        match self.deciding(path) {
            Some(row) => Some(row.kind()),
            None => None,
        }
    }

    /// The device that a normal path lies in, as major * 1,048,576 + minor of the row that decides the type. It is 0
    /// where the major number is above 4,095, the minor one above 1,048,575, or no row decides. It takes no memory.
    pub fn device_of(&self, path: &[u8]) -> u32
        requires { IsTrue (normal path.now) }
        ensures { result ≡ device_of self.now path.now }
    {
        match self.deciding(path) {
            Some(row) => row.device(),
            None => 0,
        }
    }

    /// Whether what is mounted at a normal path is a bind mount: an earlier mount shows the same at another path. The last
    /// row with that mount point is taken. Some row before it has the same device numbers and a root that is a path prefix
    /// of its root with a rest, and the earlier mount point joined with the rest is another path. It takes no memory.
    pub fn is_bind(&self, path: &[u8]) -> bool
        requires { IsTrue (normal path.now) }
        ensures { result ≡ is_bind self.now path.now }
    {
        let Some(place) = self.place_at(path) else {
            return false;
        };
        is_shown_elsewhere(&self.rows[place], path, &self.rows[..place])
    }
}
