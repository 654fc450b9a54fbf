//! Names and paths of a sample.
ghost use Rattle.std.specs.Prelude.{◌≡◌, ◌<◌, IsTrue};
ghost use Rattle.path_order.specs.Path.{is_normal};
ghost use Rattle.sample_trees.specs.Naming.{numbered, added_name, directory_path};

use itoa::Buffer;
use path_order::{PathBuf, join};

/// Sets `name` to a letter and a number in decimal.
#[tactic(auto, unfolding(crate::specs::Naming::numbered))]
pub(crate) fn set_numbered(name: &mut PathBuf, letter: u8, number: u64)
    ensures { name.new ≡ numbered letter number }
{
    let mut digits = Buffer::new();
    name.cut(0);
    let _ = name.push_byte(letter);
    let _ = name.append(digits.format(number).as_bytes());
}

/// Sets `name` to that of a file that an edit adds.
#[tactic(auto, unfolding(crate::specs::Naming::added_name, crate::specs::Naming::numbered))]
pub(crate) fn set_added_name(name: &mut PathBuf, round: u64, edit: u64)
    ensures { name.new ≡ added_name round edit }
{
    let mut digits = Buffer::new();
    set_numbered(name, b'n', round);
    let _ = name.push_byte(b'_');
    let _ = name.append(digits.format(edit).as_bytes());
}

/// Sets `path` to that of the directory of this number.
pub(crate) fn set_directory_path(path: &mut PathBuf, number: u64)
    requires { number < 2001 }
    ensures path { path.new ≡ directory_path number }
    ensures normal { IsTrue (is_normal path.new) }
{
    if number == 0 {
        let _ = path.set(b"/");
        return;
    }
    set_directory_path(path, (number - 1) / 8);
    let mut name = PathBuf::new();
    set_numbered(&mut name, b'd', number);
    let _ = join(path, name.bytes());
}
