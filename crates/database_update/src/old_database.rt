//! The old database: whether there is one.
ghost use Rattle.std.specs.Prelude.{◌≡◌, ◌≤◌, ◌⊎◌, false, None, Some, IsSome, IsTrue};
ghost use Rattle.std.specs.FinMap.{get};
ghost use Rattle.loc_outside.specs.Causes.{Rose};
ghost use Rattle.loc_outside.specs.Files.{Files};

use loc_outside::{Opened, Reader};

/// Opens the old database, and answers whether there is one that can be read.
pub(crate) fn open_old<R: Reader>(reader: &mut R, name: &str) -> bool
    ensures found { IsTrue result → (files : Files) → R.files reader.old ≡ Some files → IsSome (R.left reader.new) × (R.left reader.new ≡ get files name.now) }
    ensures missing { result ≡ false → (files : Files) → R.files reader.old ≡ Some files → (get files name.now ≡ None) ⊎ Rose (R.faults reader.old) (R.faults reader.new) }
    ensures given { R.given reader.new ≡ R.given reader.old }
    ensures later { R.faults reader.old ≤ R.faults reader.new }
    ensures files { R.files reader.new ≡ R.files reader.old }
{
    match reader.open_file(name) {
        Ok(Opened::Found) => true,
        Ok(Opened::Missing) => false,
        Err(_) => false,
    }
}
