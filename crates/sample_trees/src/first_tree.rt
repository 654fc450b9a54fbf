//! The tree before any edit.
ghost use Rattle.std.specs.Prelude.{◌≡◌, ◌<◌, ◌≤◌, ◌+◌, ◌^◌, [], false, None, IfOk, OnOk};
ghost use Rattle.std.specs.FinMap.{get, insert};
ghost use Rattle.loc_outside.specs.Edits.{changed_at};
ghost use Rattle.sample_trees.specs.FirstTree.{times_at as both_at, with_more, first_dir, first_dirs};
ghost use Rattle.sample_trees.specs.Naming.{numbered_from, directory_path};
ghost use Rattle.sample_trees.specs.Numbers.{state_after};

use crate::naming::{set_directory_path, set_numbered};
use crate::numbers::Numbers;
use loc_outside::{MemTree, Times};
use path_order::{Kind, PathBuf, Stamp};
use std::alloc::{AllocError, Global};

/// How many directories a sample has.
pub(crate) const DIRECTORIES: u64 = 2001;

/// Both times of a directory, in whole seconds.
pub(crate) fn times_at(seconds: u64) -> Times
    ensures { result ≡ both_at seconds }
{
    let moment = Stamp::new(seconds, 0).unwrap_or(Stamp::zero());
    Times {
        modified: moment,
        changed: moment,
    }
}

/// Puts names of a letter and a number each, for so many numbers from one on.
fn put_numbered(
    tree: &mut MemTree,
    dir: &[u8],
    letter: u8,
    kind: Kind,
    from: u64,
    count: u64,
) -> Result<(), AllocError>
    requires letter { 97 ≤ letter }
    requires few { from + count < 2 ^ 64 }
    ensures dirs { OnOk result (tree.new.dirs ≡ changed_at tree.old.dirs dir.now (with_more (numbered_from letter kind from count))) }
    ensures failures { tree.new.failures ≡ tree.old.failures }
{
    let mut name = PathBuf::new();
    for place in 0..count {
        set_numbered(&mut name, letter, from + place);
        tree.put_name(dir, name.bytes(), kind)?;
    }
    Ok(())
}

/// Puts the directory of this number, with its files and the names of the directories in it.
fn put_directory(tree: &mut MemTree, number: u64, files: u64) -> Result<(), AllocError>
    requires number { number < 2001 }
    requires few { files < 8 }
    requires absent { get tree.old.dirs (directory_path number) ≡ None }
    ensures dirs { OnOk result (tree.new.dirs ≡ insert tree.old.dirs (directory_path number) (first_dir number files)) }
    ensures failures { tree.new.failures ≡ tree.old.failures }
{
    let mut path = PathBuf::new();
    set_directory_path(&mut path, number);
    tree.put_dir(path.bytes(), times_at(1_000_000), false)?;
    put_numbered(tree, path.bytes(), b'f', Kind::File, 0, files)?;
    let below = (DIRECTORIES - 1).saturating_sub(8 * number).min(8);
    put_numbered(
        tree,
        path.bytes(),
        b'd',
        Kind::Directory,
        8 * number + 1,
        below,
    )
}

/// The tree before any edit.
pub(crate) fn first_tree(alloc: Global, numbers: &mut Numbers) -> Result<MemTree, AllocError>
    ensures dirs { IfOk result (λ tree. tree.dirs ≡ first_dirs numbers.old.state) }
    ensures safe { IfOk result (λ tree. tree.failures.due ≡ []) }
    ensures state { OnOk result (numbers.new.state ≡ state_after numbers.old.state 2001) }
{
    let mut tree = MemTree::new(alloc);
    for number in 0..DIRECTORIES {
        let files = numbers.draw(8);
        put_directory(&mut tree, number, files)?;
    }
    Ok(tree)
}
