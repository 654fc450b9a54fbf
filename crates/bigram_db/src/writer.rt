//! A database, written path by path.
ghost use Rattle.std.specs.Prelude.{◌≡◌, ◌+◌, ◌*◌, ◌≤◌, ◌++◌, [], ◌∷◌, length, nat_le, ◌&&◌, OnOk, OnErr};
ghost use Rattle.std.specs.Io.KnownBytes.{Appends};
ghost use Rattle.arrayvec.specs.ArrayVec.{array_vec_len};
ghost use Rattle.loc_outside.specs.Causes.{HasCause};
ghost use Rattle.loc_outside.specs.Outside.{AppendsShort};
ghost use Rattle.byte_feed.specs.Paths.{IsPath};
ghost use Rattle.bigram_db.specs.Items.{spell_count, spell_units, spell_unit};
ghost use Rattle.bigram_db.specs.Spelled.{count_between, units_for, single, word_of};
ghost use Rattle.bigram_db.specs.Writer.{WriterState, nothing_put, piece, after_put};

use crate::table::{PairTable, is_plain};
use arrayvec::ArrayVec;
use byte_feed::common_prefix;
use loc_outside::{Failed, Sink, put_all};
use path_order::PathBuf;
use std::marker::Model;

/// The most bytes that an entry takes: a count of five, and two for each byte of a path.
const MAX_PIECE: usize = 8197;

/// A writer of a database, path by path. It takes no memory: it holds the table, the last path and one entry.
#[derive(Drop)]
pub struct WriterBigram {
    table: PairTable,
    path: PathBuf,
    shared: u16,
    piece: ArrayVec<u8, MAX_PIECE>,
}

impl Model for WriterBigram {
    ghost use Rattle.std.specs.Prelude.{◌≤◌};
    ghost use Rattle.bigram_db.specs.Writer.{WriterState};

    ghost Value = { WriterState };

    ghost view = { λ w. record { table = w.table; path = w.path; shared = w.shared } };

    ghost invariant = { λ w. w.shared ≤ 4096 };
}

impl WriterBigram {
    /// A writer with this table, which has written nothing.
    pub fn new(table: PairTable) -> WriterBigram
        ensures { result ≡ nothing_put table }
    {
        WriterBigram {
            table,
            path: PathBuf::new(),
            shared: 0,
            piece: ArrayVec::new(),
        }
    }

    /// Writes the table, and forgets what was written before. After `Failed` a first part of it was taken, and not all.
    pub fn start<K: Sink>(&mut self, sink: &mut K) -> Result<(), Failed>
        ensures ok { OnOk result (Appends (K.taken sink.old) (K.taken sink.new) self.old.table) }
        ensures err { OnErr result (AppendsShort (K.taken sink.old) (K.taken sink.new) self.old.table) }
        ensures forgets { self.new ≡ nothing_put self.old.table }
        ensures cause { HasCause (K.faults sink.old) (K.faults sink.new) result }
        ensures kept { K.kept sink.old sink.new }
    {
        self.path.cut(0);
        self.shared = 0;
        put_all(sink, self.table.bytes())
    }

    /// Writes the entry of a path of 1 to 4,096 bytes, none of them zero: it shares the longest prefix with the path
    /// before, and the rest is written in pairs of the table where it has them. After `Failed` a first part of the entry
    /// was taken, and not all; no further path is to be written then.
    pub fn put<K: Sink>(&mut self, path: &[u8], sink: &mut K) -> Result<(), Failed>
        requires path { IsPath path.now }
        ensures ok { OnOk result (Appends (K.taken sink.old) (K.taken sink.new) (piece self.old path.now)) }
        ensures err { OnErr result (AppendsShort (K.taken sink.old) (K.taken sink.new) (piece self.old path.now)) }
        ensures after { self.new ≡ after_put self.old path.now }
        ensures cause { HasCause (K.faults sink.old) (K.faults sink.new) result }
        ensures kept { K.kept sink.old sink.new }
    {
        let shared = common_prefix(self.path.bytes(), path);
        let rest = &path[shared..];
        self.piece.clear();
        push_count(&mut self.piece, self.shared, shared as u16);
        push_units(&mut self.piece, &self.table, rest);
        self.path.cut(shared);
        let _ = self.path.append(rest);
        self.shared = shared as u16;
        put_all(sink, self.piece.as_slice())
    }
}

/// Appends the count from one shared length to another.
fn push_count(piece: &mut ArrayVec<u8, MAX_PIECE>, old: u16, new: u16)
    requires empty { piece.old.items ≡ [] }
    requires old { old ≤ 4096 }
    requires new { new ≤ 4096 }
    ensures bytes { piece.new.items ≡ spell_count (count_between old new) }
    ensures len { length piece.new.items ≤ 5 }
{
    if !is_small(old, new) {
        push_word(piece, i32::from(new) + 14 - i32::from(old));
        return;
    }
    piece.push((new + 14 - old) as u8);
}

/// Whether the change from one shared length to another lies from -14 to 14.
fn is_small(old: u16, new: u16) -> bool
    requires old { old ≤ 4096 }
    requires new { new ≤ 4096 }
    ensures { result ≡ (nat_le new (old + 14) && nat_le old (new + 14)) }
{
    new <= old + 14 && old <= new + 14
}

/// Appends a count's word, behind the byte 30.
#[tactic(auto, unfolding(crate::specs::Spelled::word_of))]
fn push_word(piece: &mut ArrayVec<u8, MAX_PIECE>, value: i32)
    requires empty { piece.old.items ≡ [] }
    ensures bytes { piece.new.items ≡ 30 ∷ word_of value }
    ensures len { length piece.new.items ≡ 5 }
{
    let [a, b, c, d] = value.to_le_bytes();
    piece.push(30);
    piece.push(a);
    piece.push(b);
    piece.push(c);
    piece.push(d);
}

/// Appends the units of a text.
fn push_units(piece: &mut ArrayVec<u8, MAX_PIECE>, table: &PairTable, text: &[u8])
    requires { length piece.old.items + 2 * length text.now ≤ MAX_PIECE }
    ensures { piece.new.items ≡ piece.old.items ++ spell_units (units_for table.now text.now) }
{
    let mut left = text;
    'pairs: while let [a, b, rest @ ..] = left {
        match table.number_of(*a, *b) {
            Some(number) => piece.push(number + 128),
            None => {
                push_byte(piece, *a);
                push_byte(piece, *b);
            }
        }
        left = rest;
    }
    if let [byte] = left {
        push_byte(piece, *byte);
    }
}

/// Appends a byte by itself.
fn push_byte(piece: &mut ArrayVec<u8, MAX_PIECE>, byte: u8)
    requires { length piece.old.items + 2 ≤ MAX_PIECE }
    ensures bytes { piece.new.items ≡ piece.old.items ++ spell_unit (single byte) }
    ensures len { length piece.new.items ≤ length piece.old.items + 2 }
{
    if !is_plain(byte) {
        piece.push(31);
    }
    piece.push(byte);
}
