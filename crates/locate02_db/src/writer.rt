//! A database, written path by path.
ghost use Rattle.std.specs.Prelude.{◌≡◌, ◌≤◌, OnOk, OnErr};
ghost use Rattle.std.specs.Io.KnownBytes.{Appends};
ghost use Rattle.loc_outside.specs.Causes.{HasCause};
ghost use Rattle.loc_outside.specs.Outside.{AppendsShort};
ghost use Rattle.byte_feed.specs.Field.{ended};
ghost use Rattle.byte_feed.specs.Paths.{IsPath};
ghost use Rattle.locate02_db.specs.Items.{magic, spell_change};
ghost use Rattle.locate02_db.specs.Writer.{WriterState, nothing_put, piece, after_put};

use crate::change::{Change, MAGIC};
use byte_feed::common_prefix;
use byteorder::{BigEndian, ByteOrder};
use loc_outside::{Failed, Sink, put_all};
use path_order::PathBuf;
use std::marker::Model;

/// A writer of a database, path by path. It takes no memory: it holds the last path.
#[derive(Drop)]
pub struct Writer02 {
    path: PathBuf,
    shared: u16,
}

impl Model for Writer02 {
    ghost use Rattle.std.specs.Prelude.{◌≤◌};
    ghost use Rattle.locate02_db.specs.Writer.{WriterState};

    ghost Value = { WriterState };

    ghost view = { λ w. record { path = w.path; shared = w.shared } };

    ghost invariant = { λ w. w.shared ≤ 4096 };
}

impl Writer02 {
    /// A writer that has written nothing.
    pub fn new() -> Writer02
        ensures { result ≡ nothing_put }
    {
        Writer02 {
            path: PathBuf::new(),
            shared: 0,
        }
    }

    /// Writes what a database begins with, and forgets what was written before. After `Failed` a first part of it was
    /// taken, and not all.
    pub fn start<K: Sink>(&mut self, sink: &mut K) -> Result<(), Failed>
        ensures ok { OnOk result (Appends (K.taken sink.old) (K.taken sink.new) magic) }
        ensures err { OnErr result (AppendsShort (K.taken sink.old) (K.taken sink.new) magic) }
        ensures forgets { self.new ≡ nothing_put }
        ensures cause { HasCause (K.faults sink.old) (K.faults sink.new) result }
        ensures kept { K.kept sink.old sink.new }
    {
        self.path.cut(0);
        self.shared = 0;
        put_all(sink, &MAGIC)
    }

    /// Writes the entry of a path of 1 to 4,096 bytes, none of them zero: it shares the longest prefix with the path
    /// before. After `Failed` a first part of the entry was taken, and not all; no further path is to be written then.
    pub fn put<K: Sink>(&mut self, path: &[u8], sink: &mut K) -> Result<(), Failed>
        requires path { IsPath path.now }
        ensures ok { OnOk result (Appends (K.taken sink.old) (K.taken sink.new) (piece self.old path.now)) }
        ensures err { OnErr result (AppendsShort (K.taken sink.old) (K.taken sink.new) (piece self.old path.now)) }
        ensures goes_on { OnOk result (self.new ≡ after_put self.old path.now) }
        ensures stays { OnErr result (self.new ≡ self.old) }
        ensures cause { HasCause (K.faults sink.old) (K.faults sink.new) result }
        ensures kept { K.kept sink.old sink.new }
    {
        let shared = common_prefix(self.path.bytes(), path);
        let remainder = &path[shared..];
        put_change(sink, Change::between(self.shared, shared as u16))?;
        put_ended(sink, remainder)?;
        self.path.cut(shared);
        let _ = self.path.append(remainder);
        self.shared = shared as u16;
        Ok(())
    }
}

/// Writes a change.
fn put_change<K: Sink>(sink: &mut K, change: Change) -> Result<(), Failed>
    ensures ok { OnOk result (Appends (K.taken sink.old) (K.taken sink.new) (spell_change change)) }
    ensures err { OnErr result (AppendsShort (K.taken sink.old) (K.taken sink.new) (spell_change change)) }
    ensures cause { HasCause (K.faults sink.old) (K.faults sink.new) result }
    ensures kept { K.kept sink.old sink.new }
{
    match change {
        Change::Short(amount) => put_all(sink, &[amount.cast_unsigned()]),
        Change::Long(amount) => put_all(sink, &long_bytes(amount)),
    }
}

/// The long form of a change.
#[tactic(auto, unfolding(crate::specs::Items::word))]
fn long_bytes(amount: i16) -> [u8; 3]
    ensures { result ≡ spell_change (Change.Long amount) }
{
    let mut bytes = [128, 0, 0];
    BigEndian::write_i16(&mut bytes[1..], amount);
    bytes
}

/// Writes a text and its zero byte.
fn put_ended<K: Sink>(sink: &mut K, text: &[u8]) -> Result<(), Failed>
    ensures ok { OnOk result (Appends (K.taken sink.old) (K.taken sink.new) (ended text.now)) }
    ensures err { OnErr result (AppendsShort (K.taken sink.old) (K.taken sink.new) (ended text.now)) }
    ensures cause { HasCause (K.faults sink.old) (K.faults sink.new) result }
    ensures kept { K.kept sink.old sink.new }
{
    put_all(sink, text)?;
    put_all(sink, &[0])
}
