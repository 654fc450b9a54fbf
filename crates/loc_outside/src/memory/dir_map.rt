//! Directories in memory.
ghost use Rattle.std.specs.Prelude.{◌≡◌, ◌<◌, length, None, Some, OnOk, OnErr, IfOk, IsTrue, IfNone, IfSome, IsSomeAnd};
ghost use Rattle.std.specs.Option.{option_map};
ghost use Rattle.std.specs.FinMap as fin;
ghost use Rattle.loc_outside.specs.DirMap.{dir_of, dir_at};
ghost use Rattle.loc_outside.specs.Edits.{fits, with_dir, changed_at, with_name, without_name, with_times};

use crate::Times;
use crate::memory::keyed::{Keyed, place_of};
use crate::memory::name_map::NameMap;
use path_order::Kind;
use std::alloc::{AllocError, Global};
use std::marker::Model;

/// A directory: its times, whether it hides its names, and these.
#[derive(Drop)]
pub(crate) struct TreeDir {
    pub(crate) times: Times,
    pub(crate) hidden: bool,
    pub(crate) names: NameMap,
}

/// Directories by their paths, in the order of their bytes. A contract sees the map from paths to directories.
#[derive(Drop)]
pub(crate) struct DirMap {
    alloc: Global,
    items: Vec<Keyed<TreeDir>>,
}

impl Model for DirMap {
    ghost use Rattle.loc_outside.specs.DirMap.{dirs_of};
    ghost use Rattle.loc_outside.specs.Keyed.{KeysRise};
    ghost use Rattle.loc_outside.specs.TreeCodes.{dirs_code};
    ghost use Rattle.loc_outside.specs.Trees.{Dirs};

    ghost Value = { Dirs };

    ghost coded = { dirs_code };

    ghost view = { λ map. dirs_of map.items.items };

    ghost invariant = { λ map. KeysRise map.items.items };
}

impl DirMap {
    pub(crate) fn new(alloc: Global) -> DirMap
        ensures { result ≡ fin.empty }
    {
        DirMap {
            alloc,
            items: Vec::new(alloc),
        }
    }

    /// The place of the directory in the order of paths by their bytes.
    pub(crate) fn place(&self, path: &[u8]) -> Option<usize>
        ensures absent { IfNone result (fin.get self.now path.now ≡ None) }
        ensures found { IfSome result (λ place. IsSomeAnd (dir_at self.now place) (λ dir. fin.get self.now path.now ≡ Some dir)) }
    {
        match place_of(&self.items, path) {
            Ok(place) => Some(place),
            Err(_) => None,
        }
    }

    /// The directory at this place.
    pub(crate) fn at(&self, place: usize) -> Option<&TreeDir>
        ensures { option_map (λ dir. dir_of dir.now) result ≡ dir_at self.now place }
    {
        let item = self.items.get(place)?;
        Some(&item.value)
    }

    /// Puts a directory of no names, or changes the times and the mark of the one that is there.
    pub(crate) fn put(&mut self, path: &[u8], times: Times, hidden: bool) -> Result<(), AllocError>
        ensures ok { OnOk result (self.new ≡ with_dir self.old path.now times hidden) }
        ensures err { OnErr result (self.new ≡ self.old) }
    {
        match place_of(&self.items, path) {
            Ok(place) => {
                let dir = &mut self.items[place].value;
                dir.times = times;
                dir.hidden = hidden;
                Ok(())
            }
            Err(place) => {
                let key = path.to_vec(self.alloc)?;
                let names = NameMap::new(self.alloc);
                let value = TreeDir {
                    times,
                    hidden,
                    names,
                };
                self.items.insert(place, Keyed { key, value })?;
                Ok(())
            }
        }
    }

    /// Puts a name in the directory, or gives it this kind. Answers whether the directory is there.
    pub(crate) fn put_name(
        &mut self,
        path: &[u8],
        name: &[u8],
        kind: Kind,
    ) -> Result<bool, AllocError>
        requires { IsTrue (fits name.now) }
        ensures there { IfOk result (λ there. there ≡ fin.contains_key self.old path.now) }
        ensures ok { OnOk result (self.new ≡ changed_at self.old path.now (with_name name.now kind)) }
        ensures err { OnErr result (self.new ≡ self.old) }
    {
        let Ok(place) = place_of(&self.items, path) else {
            return Ok(false);
        };
        self.items[place].value.names.put(name, kind)?;
        Ok(true)
    }

    /// Drops a name of the directory. Answers whether the directory is there.
    pub(crate) fn drop_name(&mut self, path: &[u8], name: &[u8]) -> bool
        ensures there { result ≡ fin.contains_key self.old path.now }
        ensures after { self.new ≡ changed_at self.old path.now (without_name name.now) }
    {
        let Ok(place) = place_of(&self.items, path) else {
            return false;
        };
        self.items[place].value.names.remove(name);
        true
    }

    /// Changes the times of the directory. Answers whether it is there.
    pub(crate) fn set_times(&mut self, path: &[u8], times: Times) -> bool
        ensures there { result ≡ fin.contains_key self.old path.now }
        ensures after { self.new ≡ changed_at self.old path.now (with_times times) }
    {
        let Ok(place) = place_of(&self.items, path) else {
            return false;
        };
        self.items[place].value.times = times;
        true
    }

    /// The same directories.
    pub(crate) fn copy(&self, alloc: Global) -> Result<DirMap, AllocError>
        ensures { IfOk result (λ copy. copy ≡ self.now) }
    {
        let mut items = Vec::new(alloc);
        for item in &self.items {
            let key = item.key.to_vec(alloc)?;
            let value = TreeDir {
                times: item.value.times,
                hidden: item.value.hidden,
                names: item.value.names.copy(alloc)?,
            };
            items.push(Keyed { key, value })?;
        }
        Ok(DirMap { alloc, items })
    }
}
