//! A bigram database is written.
ghost use Rattle.std.specs.Prelude.{◌≡◌, OnOk, OnErr, IfOk, All};
ghost use Rattle.std.specs.Io.KnownBytes.{Appends};
ghost use Rattle.loc_outside.specs.Causes.{HasCause};
ghost use Rattle.loc_outside.specs.Outside.{AppendsShort};
ghost use Rattle.byte_feed.specs.Paths.{IsPath};
ghost use Rattle.bigram_db.specs.Chosen.{table_for as chosen_for};
ghost use Rattle.bigram_db.specs.Spelled.{encode_with};

use crate::paths::Paths;
use bigram_db::{PairCounts, PairTable, WriterBigram};
use loc_outside::{Failed, Sink};
use std::alloc::{AllocError, Global};

/// The table of the pairs that come most in these paths, each counted behind the prefix that it shares with the path before.
pub fn table_for(alloc: Global, paths: &Paths) -> Result<PairTable, AllocError>
    ensures { IfOk result (λ table. table ≡ chosen_for paths.now) }
{
    let _ = paths.size();
    let mut counts = PairCounts::new(alloc)?;
    let mut before = b"".as_slice();
    'paths: for at in 0..paths.len() {
        let path = paths.at(at);
        counts.add(before, path);
        before = path;
    }
    Ok(counts.choose_table())
}

/// Writes a bigram database of these paths with this table. After `Failed` a first part of it was taken, and not all.
pub fn put_bigram<K: Sink>(sink: &mut K, table: PairTable, paths: &Paths) -> Result<(), Failed>
    requires readable { All IsPath paths.now }
    ensures ok { OnOk result (Appends (K.taken sink.old) (K.taken sink.new) (encode_with table paths.now)) }
    ensures err { OnErr result (AppendsShort (K.taken sink.old) (K.taken sink.new) (encode_with table paths.now)) }
    ensures cause { HasCause (K.faults sink.old) (K.faults sink.new) result }
    ensures kept { K.kept sink.old sink.new }
{
    let mut writer = WriterBigram::new(table);
    writer.start(sink)?;
    'paths: for at in 0..paths.len() {
        writer.put(paths.at(at), sink)?;
    }
    Ok(())
}
