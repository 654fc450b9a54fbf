//! A plain list is written.
ghost use Rattle.std.specs.Prelude.{◌≡◌, OnOk, OnErr, All};
ghost use Rattle.std.specs.Io.KnownBytes.{Appends};
ghost use Rattle.loc_outside.specs.Causes.{HasCause};
ghost use Rattle.loc_outside.specs.Outside.{AppendsShort};
ghost use Rattle.path_list.specs.Items.{IsListed};
ghost use Rattle.path_list.specs.Marks.{byte_of};
ghost use Rattle.path_list.specs.Spelled.{encode_list};

use crate::paths::Paths;
use loc_outside::{Failed, Sink};
use path_list::{Mark, put_path};

/// Writes each path and its mark. No path holds the mark. After `Failed` a first part of the list was taken, and not all.
pub fn put_list<K: Sink>(sink: &mut K, mark: Mark, paths: &Paths) -> Result<(), Failed>
    requires listed { All (IsListed (byte_of mark)) paths.now }
    ensures ok { OnOk result (Appends (K.taken sink.old) (K.taken sink.new) (encode_list (byte_of mark) paths.now)) }
    ensures err { OnErr result (AppendsShort (K.taken sink.old) (K.taken sink.new) (encode_list (byte_of mark) paths.now)) }
    ensures cause { HasCause (K.faults sink.old) (K.faults sink.new) result }
    ensures kept { K.kept sink.old sink.new }
{
    'paths: for at in 0..paths.len() {
        put_path(sink, mark, paths.at(at))?;
    }
    Ok(())
}
