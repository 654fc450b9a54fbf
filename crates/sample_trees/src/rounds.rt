//! Rounds of edits.
ghost use Rattle.std.specs.Prelude.{◌≡◌, ◌<◌, ◌≤◌, [], ◌∷◌, Some, None, length, MatchBool, OnOk, IsTrue};
ghost use Rattle.path_order.specs.Names.{is_name};
ghost use Rattle.loc_outside.specs.Edits.{changed_at, names_at};
ghost use Rattle.sample_trees.specs.Numbers.{state_after};
ghost use Rattle.sample_trees.specs.Rounds.{first_in, first_file as first_of, edit_drawn, seconds_of, with_change, after_edits, after_round};
ghost use Rattle.sample_trees.specs.Kept.{AllShown};

use crate::first_tree::{DIRECTORIES, times_at};
use crate::naming::{set_added_name, set_directory_path};
use crate::numbers::Numbers;
use loc_outside::{Listing, MemTree, Tree};
use path_order::{Kind, PathBuf};
use std::alloc::AllocError;

/// The edits of a round.
const EDITS: u64 = 10;

/// The moment of a round, in seconds.
#[tactic(auto, unfolding(crate::specs::Rounds::seconds_of))]
pub(crate) fn round_seconds(round: u8) -> u64
    ensures { result ≡ seconds_of round }
{
    2_000_000 + 100 * u64::from(round)
}

/// Sets `name` to that of the first file in the rest of the open listing. Answers false where it has none.
fn next_file(tree: &mut MemTree, name: &mut PathBuf) -> bool
    requires listing { IsTrue tree.old.listing }
    requires safe { tree.old.failures.due ≡ [] }
    ensures found { MatchBool result (first_in tree.old.rest ≡ Some name.new) (first_in tree.old.rest ≡ None) }
    ensures dirs { tree.new.dirs ≡ tree.old.dirs }
    ensures safe { tree.new.failures.due ≡ [] }
{
    'names: while let Ok(Some(kind)) = tree.next_name(name) {
        if kind == Kind::File {
            return true;
        }
    }
    false
}

/// Sets `name` to that of the directory's first file. Answers false where it has none.
fn find_first_file(tree: &mut MemTree, dir: &[u8], name: &mut PathBuf) -> bool
    requires shown { AllShown tree.old.dirs }
    requires safe { tree.old.failures.due ≡ [] }
    ensures found { MatchBool result (first_of (names_at tree.old.dirs dir.now) ≡ Some name.new) (first_of (names_at tree.old.dirs dir.now) ≡ None) }
    ensures dirs { tree.new.dirs ≡ tree.old.dirs }
    ensures safe { tree.new.failures.due ≡ [] }
{
    match tree.open_dir(dir) {
        Ok(Listing::Shown) => next_file(tree, name),
        Ok(Listing::Missing) => false,
        // No directory is hidden, and no call is set to fail.
        Ok(Listing::Hidden) => unreachable!(),
        Err(_) => unreachable!(),
    }
}

/// Adds this file to the directory for 0, and takes its first file away for 1.
fn change_names(tree: &mut MemTree, dir: &[u8], change: u64, added: &[u8]) -> Result<(), AllocError>
    requires shown { AllShown tree.old.dirs }
    requires safe { tree.old.failures.due ≡ [] }
    requires name { IsTrue (is_name added.now) }
    requires fits { length added.now ≤ 4096 }
    ensures dirs { OnOk result (tree.new.dirs ≡ changed_at tree.old.dirs dir.now (with_change change added.now)) }
    ensures safe { tree.new.failures.due ≡ [] }
{
    if change == 0 {
        tree.put_name(dir, added, Kind::File)?;
        return Ok(());
    }
    if change != 1 {
        return Ok(());
    }
    let mut name = PathBuf::new();
    if !find_first_file(tree, dir, &mut name) {
        return Ok(());
    }
    tree.drop_name(dir, name.bytes())?;
    Ok(())
}

/// Draws an edit of a round, and makes it.
fn edit(tree: &mut MemTree, numbers: &mut Numbers, round: u8, place: u64) -> Result<(), AllocError>
    requires shown { AllShown tree.old.dirs }
    requires safe { tree.old.failures.due ≡ [] }
    requires place { place < 10 }
    ensures dirs { OnOk result (tree.new.dirs ≡ after_edits (edit_drawn numbers.old.state 0 round place ∷ []) tree.old.dirs) }
    ensures state { OnOk result (numbers.new.state ≡ state_after numbers.old.state 3) }
    ensures safe { tree.new.failures.due ≡ [] }
{
    let mut path = PathBuf::new();
    let mut added = PathBuf::new();
    set_directory_path(&mut path, numbers.draw(DIRECTORIES));
    set_added_name(&mut added, round.into(), place);
    let change = numbers.draw(3);
    let early = numbers.draw(8);
    change_names(tree, path.bytes(), change, added.bytes())?;
    tree.set_times(path.bytes(), times_at(round_seconds(round) - early))?;
    Ok(())
}

/// Makes the edits of a round.
pub(crate) fn edit_round(
    tree: &mut MemTree,
    numbers: &mut Numbers,
    round: u8,
) -> Result<(), AllocError>
    requires shown { AllShown tree.old.dirs }
    requires safe { tree.old.failures.due ≡ [] }
    ensures dirs { OnOk result (tree.new.dirs ≡ after_round numbers.old.state 0 round tree.old.dirs) }
    ensures state { OnOk result (numbers.new.state ≡ state_after numbers.old.state 30) }
    ensures safe { tree.new.failures.due ≡ [] }
{
    for place in 0..EDITS {
        edit(tree, numbers, round, place)?;
    }
    Ok(())
}
