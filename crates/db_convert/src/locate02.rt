//! A LOCATE02 database is written.
ghost use Rattle.std.specs.Prelude.{◌≡◌, OnOk, OnErr, All};
ghost use Rattle.std.specs.Io.KnownBytes.{Appends};
ghost use Rattle.loc_outside.specs.Causes.{HasCause};
ghost use Rattle.loc_outside.specs.Outside.{AppendsShort};
ghost use Rattle.byte_feed.specs.Paths.{IsPath};
ghost use Rattle.locate02_db.specs.Spelled.{encode02};

use crate::paths::Paths;
use loc_outside::{Failed, Sink};
use locate02_db::Writer02;

/// Writes a LOCATE02 database of these paths. After `Failed` a first part of it was taken, and not all.
pub fn put_locate02<K: Sink>(sink: &mut K, paths: &Paths) -> Result<(), Failed>
    requires readable { All IsPath paths.now }
    ensures ok { OnOk result (Appends (K.taken sink.old) (K.taken sink.new) (encode02 paths.now)) }
    ensures err { OnErr result (AppendsShort (K.taken sink.old) (K.taken sink.new) (encode02 paths.now)) }
    ensures cause { HasCause (K.faults sink.old) (K.faults sink.new) result }
    ensures kept { K.kept sink.old sink.new }
{
    let mut writer = Writer02::new();
    writer.start(sink)?;
    'paths: for at in 0..paths.len() {
        writer.put(paths.at(at), sink)?;
    }
    Ok(())
}
