//! A list, written path by path.
ghost use Rattle.std.specs.Prelude.{◌≡◌, OnOk, OnErr};
ghost use Rattle.std.specs.Io.KnownBytes.{Appends};
ghost use Rattle.loc_outside.specs.Causes.{HasCause};
ghost use Rattle.loc_outside.specs.Outside.{AppendsShort};
ghost use Rattle.path_list.specs.Items.{IsListed, marked};
ghost use Rattle.path_list.specs.Marks.{byte_of};

use crate::mark::Mark;
use loc_outside::{Failed, Sink, put_all};

/// Writes a path of 1 to 4,096 bytes, none of them zero or the mark, and the mark. After `Failed` a first part of the two was
/// taken, and not all; no further path is to be written then.
pub fn put_path<K: Sink>(sink: &mut K, mark: Mark, path: &[u8]) -> Result<(), Failed>
    requires path { IsListed (byte_of mark) path.now }
    ensures ok { OnOk result (Appends (K.taken sink.old) (K.taken sink.new) (marked (byte_of mark) path.now)) }
    ensures err { OnErr result (AppendsShort (K.taken sink.old) (K.taken sink.new) (marked (byte_of mark) path.now)) }
    ensures cause { HasCause (K.faults sink.old) (K.faults sink.new) result }
    ensures kept { K.kept sink.old sink.new }
{
    put_all(sink, path)?;
    put_all(sink, &[mark.byte()])
}
