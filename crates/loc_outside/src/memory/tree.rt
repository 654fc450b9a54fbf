//! A tree in memory.
ghost use Rattle.std.specs.Prelude.{◌≡◌, ◌≤◌, ◌↔◌, ◌∷◌, ◌++◌, [], length, true, false, Some, OnOk, OnErr, IfOk, IfSome, IsOk, IsErr, IsTrue, MatchBool, min};
ghost use Rattle.std.proofs.Common.{refl, ap, ◌∙◌};
ghost use Rattle.std.specs.FinMap as fin;
ghost use Rattle.path_order.specs.Names.{is_name};
ghost use Rattle.path_order.specs.Path.{is_normal};
ghost use Rattle.loc_outside.specs.Causes.{HasCause, raised, last_count, stays_below};
ghost use Rattle.loc_outside.specs.Edits.{with_dir, changed_at, with_name, without_name, with_times};
ghost use Rattle.loc_outside.specs.Memory.{fresh_tree, with_dirs, looked_up, is_due, called, faulted, fault_count};
ghost use Rattle.loc_outside.specs.Trees.{StatsAs, ListsInOrder, GivesFirst, opens_listing, goes_on};

use crate::memory::dir_map::DirMap;
use crate::memory::failing::Failing;
use crate::{Failed, Listing, Times, Tree};
use path_order::{Kind, PathBuf};
use std::alloc::{AllocError, Global};
use std::marker::Model;

/// Directories in memory. A contract sees them as a map from paths, the names that the open listing has still to give,
/// whether one is open, how often a directory was opened and looked up, and the calls that are to fail.
/// A call of the trait fails only where that was asked for. Every path is priced, and names are listed in the order of their bytes.
/// What changes a directory, or puts one, closes the listing that is open.
#[derive(Drop)]
pub struct MemTree {
    dirs: DirMap,
    current: Option<usize>,
    at: usize,
    openings: u64,
    stats: u64,
    failing: Failing,
}

impl Model for MemTree {
    ghost use Rattle.std.specs.Prelude.{is_some};
    ghost use Rattle.loc_outside.specs.DirMap.{rest_of};
    ghost use Rattle.loc_outside.specs.Memory.{TreeState};
    ghost use Rattle.loc_outside.specs.TreeCodes.{tree_state_code};

    ghost Value = { TreeState };

    ghost coded = { tree_state_code };

    ghost view = { λ t. record { dirs = t.dirs; rest = rest_of t.dirs t.current t.at; listing = is_some t.current; openings = t.openings; stats = t.stats; failures = t.failing } };
}

impl MemTree {
    /// A tree of no directory.
    pub fn new(alloc: Global) -> MemTree
        ensures { result ≡ fresh_tree fin.empty }
    {
        MemTree {
            dirs: DirMap::new(alloc),
            current: None,
            at: 0,
            openings: 0,
            stats: 0,
            failing: Failing::new(alloc),
        }
    }

    /// Puts a directory of no names at this normal path. Where one is there, it keeps its names, and its times and mark are replaced.
    pub fn put_dir(&mut self, path: &[u8], times: Times, hidden: bool) -> Result<(), AllocError>
        requires { IsTrue (is_normal path.now) }
        ensures ok { OnOk result (self.new ≡ with_dirs (with_dir self.old.dirs path.now times hidden) self.old) }
        ensures err { OnErr result (self.new ≡ self.old) }
    {
        self.dirs.put(path, times, hidden)?;
        self.current = None;
        Ok(())
    }

    /// Puts a name of at most 4,096 bytes in the directory, or gives the name this kind where it is there.
    /// Answers false, and changes nothing, where the directory isn't there.
    pub fn put_name(&mut self, dir: &[u8], name: &[u8], kind: Kind) -> Result<bool, AllocError>
        requires name { IsTrue (is_name name.now) }
        requires fits { length name.now ≤ 4096 }
        ensures there { IfOk result (λ there. there ≡ fin.contains_key self.old.dirs dir.now) }
        ensures ok { IfOk result (λ there. MatchBool there (self.new ≡ with_dirs (changed_at self.old.dirs dir.now (with_name name.now kind)) self.old) (self.new ≡ self.old)) }
        ensures err { OnErr result (self.new ≡ self.old) }
    {
        if !self.dirs.put_name(dir, name, kind)? {
            return Ok(false);
        }
        self.current = None;
        Ok(true)
    }

    /// Drops a name of the directory, if it is there. It takes no memory.
    /// Answers false, and changes nothing, where the directory isn't there.
    pub fn drop_name(&mut self, dir: &[u8], name: &[u8]) -> Result<bool, AllocError>
        ensures done { IsOk result }
        ensures there { IfOk result (λ there. there ≡ fin.contains_key self.old.dirs dir.now) }
        ensures ok { IfOk result (λ there. MatchBool there (self.new ≡ with_dirs (changed_at self.old.dirs dir.now (without_name name.now)) self.old) (self.new ≡ self.old)) }
    {
        if !self.dirs.drop_name(dir, name) {
            return Ok(false);
        }
        self.current = None;
        Ok(true)
    }

    /// Changes the times of the directory. It takes no memory. Answers false, and changes nothing, where the directory isn't there.
    pub fn set_times(&mut self, dir: &[u8], times: Times) -> Result<bool, AllocError>
        ensures done { IsOk result }
        ensures there { IfOk result (λ there. there ≡ fin.contains_key self.old.dirs dir.now) }
        ensures ok { IfOk result (λ there. MatchBool there (self.new ≡ with_dirs (changed_at self.old.dirs dir.now (with_times times)) self.old) (self.new ≡ self.old)) }
    {
        if !self.dirs.set_times(dir, times) {
            return Ok(false);
        }
        self.current = None;
        Ok(true)
    }

    /// A tree of the same directories, of which none was opened or looked up. No call of it is set to fail.
    pub fn copy(&self, alloc: Global) -> Result<MemTree, AllocError>
        ensures { IfOk result (λ copy. copy ≡ fresh_tree self.now.dirs) }
    {
        Ok(MemTree {
            dirs: self.dirs.copy(alloc)?,
            current: None,
            at: 0,
            openings: 0,
            stats: 0,
            failing: Failing::new(alloc),
        })
    }

    /// How often a directory was opened.
    pub fn openings(&self) -> u64
        ensures value { result ≡ self.now.openings }
        ensures told { result ≡ min self.now.openings last_count }
    {
        self.openings
    }

    /// How often a path was looked up.
    pub fn stats(&self) -> u64
        ensures value { result ≡ self.now.stats }
        ensures told { result ≡ min self.now.stats last_count }
    {
        self.stats
    }

    /// Lets the `n`-th call fail, counted from 1 over `stat`, `open_dir` and `next_name`.
    pub fn fail_at(&mut self, n: u64) -> Result<(), AllocError>
        ensures ok { OnOk result (self.new ≡ record self.old { failures = record self.old.failures { due = self.old.failures.due ++ n ∷ [] } }) }
        ensures err { OnErr result (self.new ≡ self.old) }
    {
        self.failing.fail_at(n)
    }

    /// How many calls have failed.
    pub fn faults(&self) -> u64
        ensures value { result ≡ self.now.failures.faults }
        ensures told { result ≡ fault_count self.now.failures }
    {
        self.failing.faults()
    }
}

impl Tree for MemTree {
    ghost dirs = { λ t. Some t.dirs };

    ghost rest = { λ t. Some t.rest };

    ghost is_listing = { λ t. t.listing };

    ghost openings = { λ t. min t.openings last_count };

    ghost stats = { λ t. min t.stats last_count };

    ghost priced = { λ t path. true };

    ghost faults = { λ t. fault_count t.failures };

    ghost kept = { λ t u. u.dirs ≡ t.dirs };

    ghost keeps_itself = { λ t. refl };

    ghost keeps_on = { λ t u v first then. then ∙ first };

    ghost keeps_dirs = { λ t u kept. ap (λ d. Some d) kept };

    ghost keeps_priced = { λ t u path kept. refl };

    ghost openings_below = { λ t. stays_below t.openings };

    ghost stats_below = { λ t. stays_below t.stats };

    ghost faults_below = { λ t. stays_below t.failures.faults };

    fn stat(&mut self, dir: &[u8]) -> Result<Option<Times>, Failed>
        ensures found { StatsAs (Some self.old.dirs) dir.now result }
        ensures cause { HasCause (fault_count self.old.failures) (fault_count self.new.failures) result }
        // It fails exactly where that was asked for, and changes nothing else.
        ensures due { IsErr result ↔ IsTrue (is_due self.old.failures) }
        ensures ok { OnOk result (self.new ≡ record (looked_up self.old) { failures = called self.old.failures }) }
        ensures err { OnErr result (self.new ≡ record (looked_up self.old) { failures = faulted (called self.old.failures) }) }
    {
        self.stats = self.stats.saturating_add(1);
        self.failing.call()?;
        let Some(place) = self.dirs.place(dir) else {
            return Ok(None);
        };
        let Some(dir) = self.dirs.at(place) else {
            unreachable!();
        };
        Ok(Some(dir.times))
    }

    fn open_dir(&mut self, dir: &[u8]) -> Result<Listing, Failed>
        ensures found { ListsInOrder self.old.dirs dir.now result self.new.rest }
        ensures listing { self.new.listing ≡ opens_listing result }
        ensures openings { min self.new.openings last_count ≡ raised (min self.old.openings last_count) 1 }
        ensures closed { self.new.listing ≡ false → self.new.rest ≡ [] }
        ensures dirs { self.new.dirs ≡ self.old.dirs }
        ensures stats { self.new.stats ≡ self.old.stats }
        ensures cause { HasCause (fault_count self.old.failures) (fault_count self.new.failures) result }
        // It fails exactly where that was asked for.
        ensures due { IsErr result ↔ IsTrue (is_due self.old.failures) }
        ensures ok { OnOk result (self.new.failures ≡ called self.old.failures) }
        ensures err { OnErr result (self.new.failures ≡ faulted (called self.old.failures)) }
    {
        self.current = None;
        self.at = 0;
        self.openings = self.openings.saturating_add(1);
        self.failing.call()?;
        let Some(place) = self.dirs.place(dir) else {
            return Ok(Listing::Missing);
        };
        let Some(dir) = self.dirs.at(place) else {
            unreachable!();
        };
        if dir.hidden {
            return Ok(Listing::Hidden);
        }
        self.current = Some(place);
        Ok(Listing::Shown)
    }

    fn next_name(&mut self, into: &mut PathBuf) -> Result<Option<Kind>, Failed>
        requires { IsTrue self.old.listing }
        ensures name { IfOk result (λ given. IfSome given (λ kind. IsTrue (is_name into.new))) }
        ensures first { GivesFirst (Some self.old.rest) (Some self.new.rest) result into.new }
        ensures listing { self.new.listing ≡ goes_on result }
        ensures closed { self.new.listing ≡ false → self.new.rest ≡ [] }
        ensures dirs { self.new.dirs ≡ self.old.dirs }
        ensures openings { self.new.openings ≡ self.old.openings }
        ensures stats { self.new.stats ≡ self.old.stats }
        ensures cause { HasCause (fault_count self.old.failures) (fault_count self.new.failures) result }
        // It fails exactly where that was asked for.
        ensures due { IsErr result ↔ IsTrue (is_due self.old.failures) }
        ensures ok { OnOk result (self.new.failures ≡ called self.old.failures) }
        ensures err { OnErr result (self.new.failures ≡ faulted (called self.old.failures)) }
    {
        let Some(place) = self.current else {
            unreachable!();
        };
        if let Err(failed) = self.failing.call() {
            self.current = None;
            return Err(failed);
        }
        let Some(dir) = self.dirs.at(place) else {
            self.current = None;
            return Ok(None);
        };
        if self.at >= dir.names.len() {
            self.current = None;
            return Ok(None);
        }
        let (name, kind) = dir.names.at(self.at);
        let _ = into.set(name);
        self.at += 1;
        Ok(Some(kind))
    }
}

#[cfg(test)]
mod tests {
    use super::*;
    use path_order::{NameList, Stamp};

    // The names of a directory, in the order in which any tree lists them.
    fn list<T: Tree>(tree: &mut T, dir: &[u8], names: &mut NameList) -> Result<Listing, Failed> {
        names.clear();
        let Listing::Shown = tree.open_dir(dir)? else {
            return Ok(Listing::Hidden);
        };
        let mut name = PathBuf::new();
        'names: for _ in 0..9u8 {
            let Some(kind) = tree.next_name(&mut name)? else {
                return Ok(Listing::Shown);
            };
            if names.push(name.bytes(), kind).is_err() {
                return Err(Failed);
            }
        }
        Err(Failed)
    }

    fn at(seconds: u64) -> Times {
        let modified = Stamp::new(seconds, 0).unwrap_or(Stamp::zero());
        Times {
            modified,
            changed: Stamp::zero(),
        }
    }

    fn has(names: &NameList, place: usize, name: &[u8], kind: Kind) -> bool {
        place < names.len() && names.name(place) == name && names.kind(place) == kind
    }

    // A tree of `/` and `/b`, in which one name was dropped and one has another kind than at first.
    fn sample(alloc: Global) -> Result<MemTree, AllocError> {
        let mut tree = MemTree::new(alloc);
        tree.put_dir(b"/", at(1), false)?;
        tree.put_dir(b"/b", at(2), true)?;
        tree.put_name(b"/", b"b", Kind::File)?;
        tree.put_name(b"/", b"c", Kind::File)?;
        tree.put_name(b"/", b"a.b", Kind::Directory)?;
        tree.put_name(b"/", b"b", Kind::Directory)?;
        tree.drop_name(b"/", b"c")?;
        Ok(tree)
    }

    #[test]
    fn names_are_listed_in_byte_order(rt: HostRuntime) -> Result<(), AllocError> {
        let mut tree = sample(rt.alloc())?;
        let mut names = NameList::new(rt.alloc());
        assert_eq!(rt; list(&mut tree, b"/", &mut names), Ok(Listing::Shown));
        assert_eq!(rt; names.len(), 2);
        assert!(rt; has(&names, 0, b"a.b", Kind::Directory));
        assert!(rt; has(&names, 1, b"b", Kind::Directory));
        Ok(())
    }

    #[test]
    fn a_directory_that_is_not_there(rt: HostRuntime) -> Result<(), AllocError> {
        let mut tree = MemTree::new(rt.alloc());
        assert!(rt; !tree.put_name(b"/c", b"a", Kind::File)?);
        assert!(rt; !tree.drop_name(b"/c", b"a")?);
        assert!(rt; !tree.set_times(b"/c", at(7))?);
        assert!(rt; matches!(tree.stat(b"/c"), Ok(None)));
        assert!(rt; matches!(tree.open_dir(b"/c"), Ok(Listing::Missing)));
        Ok(())
    }

    // How often a tree was opened and looked up, and has failed.
    fn counts(tree: &MemTree) -> (u64, u64, u64) {
        (tree.openings(), tree.stats(), tree.faults())
    }

    #[test]
    fn a_copy_begins_anew(rt: HostRuntime) -> Result<(), AllocError> {
        let mut tree = sample(rt.alloc())?;
        tree.fail_at(1)?;
        assert!(rt; tree.set_times(b"/b", at(4))?);
        assert!(rt; tree.open_dir(b"/b").is_err());
        let mut copy = tree.copy(rt.alloc())?;
        assert_eq!(rt; counts(&copy), (0, 0, 0));
        assert!(rt; matches!(copy.open_dir(b"/b"), Ok(Listing::Hidden)));
        assert_eq!(rt; copy.stat(b"/b"), Ok(Some(at(4))));
        assert_eq!(rt; (counts(&copy), counts(&tree)), ((1, 1, 0), (1, 0, 1)));
        Ok(())
    }

    // The calls are 1 stat, 2 open_dir, 3 and 4 next_name.
    fn look_and_list(tree: &mut MemTree, names: &mut NameList) -> (bool, bool) {
        let looked = tree.stat(b"/a").is_ok();
        (looked, list(tree, b"/a", names).is_ok())
    }

    #[test]
    fn the_call_that_is_due_fails(rt: HostRuntime) -> Result<(), AllocError> {
        for n in 1..5u64 {
            let mut tree = MemTree::new(rt.alloc());
            tree.put_dir(b"/a", at(1), false)?;
            tree.put_name(b"/a", b"x", Kind::File)?;
            tree.fail_at(n)?;
            let mut names = NameList::new(rt.alloc());
            assert_eq!(rt; look_and_list(&mut tree, &mut names), (n > 1, n == 1));
            assert_eq!(rt; names.len(), usize::from(n == 1 || n == 4));
            assert_eq!(rt; counts(&tree), (1, 1, 1));
        }
        Ok(())
    }
}
