//! The names of a directory in memory.
ghost use Rattle.std.specs.Prelude.{◌≡◌, ◌<◌, length, OnOk, OnErr, IfOk, IsTrue, Some, slice_get};
ghost use Rattle.std.specs.FinMap as fin;
ghost use Rattle.loc_outside.specs.Edits.{fits};

use crate::memory::keyed::{Keyed, place_of};
use path_order::Kind;
use std::alloc::{AllocError, Global};
use std::marker::Model;

/// Names with their kinds, in the order of their bytes. Each is a name of at most 4,096 bytes.
/// A contract sees the map from names to kinds.
#[derive(Drop)]
pub(crate) struct NameMap {
    alloc: Global,
    items: Vec<Keyed<Kind>>,
}

impl Model for NameMap {
    ghost use Rattle.loc_outside.specs.Keyed.{names_of, AreNames};
    ghost use Rattle.loc_outside.specs.TreeCodes.{names_code};
    ghost use Rattle.loc_outside.specs.Trees.{Names};

    ghost Value = { Names };

    ghost coded = { names_code };

    ghost view = { λ map. names_of map.items.items };

    ghost invariant = { λ map. AreNames map.items.items };
}

impl NameMap {
    pub(crate) fn new(alloc: Global) -> NameMap
        ensures { result ≡ fin.empty }
    {
        NameMap {
            alloc,
            items: Vec::new(alloc),
        }
    }

    /// Puts the name, or gives it this kind where it is there.
    pub(crate) fn put(&mut self, name: &[u8], kind: Kind) -> Result<(), AllocError>
        requires { IsTrue (fits name.now) }
        ensures ok { OnOk result (self.new ≡ fin.insert self.old name.now kind) }
        ensures err { OnErr result (self.new ≡ self.old) }
    {
        match place_of(&self.items, name) {
            Ok(place) => {
                self.items[place].value = kind;
                Ok(())
            }
            Err(place) => {
                let key = name.to_vec(self.alloc)?;
                self.items.insert(place, Keyed { key, value: kind })?;
                Ok(())
            }
        }
    }

    /// Drops the name, if it is there.
    pub(crate) fn remove(&mut self, name: &[u8])
        ensures { self.new ≡ fin.remove self.old name.now }
    {
        if let Ok(place) = place_of(&self.items, name) {
            self.items.remove(place);
        }
    }

    /// The number of names.
    pub(crate) fn len(&self) -> usize
        ensures { result ≡ length (fin.entries self.now) }
    {
        self.items.len()
    }

    /// The name at this place in the order of bytes, and its kind.
    pub(crate) fn at(&self, place: usize) -> (&[u8], Kind)
        requires { place < length (fin.entries self.now) }
        ensures entry { slice_get (fin.entries self.now) place ≡ Some (result.0.now, result.1) }
        ensures fits { IsTrue (fits result.0.now) }
    {
        let item = &self.items[place];
        (&item.key, item.value)
    }

    /// The same names.
    pub(crate) fn copy(&self, alloc: Global) -> Result<NameMap, AllocError>
        ensures { IfOk result (λ copy. copy ≡ self.now) }
    {
        let mut items = Vec::new(alloc);
        for item in &self.items {
            let key = item.key.to_vec(alloc)?;
            items.push(Keyed {
                key,
                value: item.value,
            })?;
        }
        Ok(NameMap { alloc, items })
    }
}
