//! Items are written.
ghost use Rattle.std.specs.Prelude.{◌≡◌, ◌<◌, ◌^◌, ◌∷◌, [], ◌++◌, length, OnOk, OnErr};
ghost use Rattle.std.specs.Io.KnownBytes.{Appends};
ghost use Rattle.loc_outside.specs.Causes.{HasCause};
ghost use Rattle.loc_outside.specs.Outside.{AppendsPart, AppendsShort};
ghost use Rattle.byte_feed.specs.Field.{IsText, ended, max_path};
ghost use Rattle.mlocate_db.specs.Items.{HeaderItem, HeadItem, EntryItem, EndItem, spell, spell_fixed, spell_numbers, kind_byte};

use crate::item::{Fixed, MAGIC, Numbers};
use byteorder::{BigEndian, ByteOrder};
use loc_outside::{Failed, Sink, put_all};
use path_order::{Kind, Stamp};

/// Writes the header of a database. After `Failed` a first part of it was taken, and not all.
pub fn put_header<K: Sink>(
    sink: &mut K,
    version: u8,
    flag: bool,
    root: &[u8],
    block: &[u8],
) -> Result<(), Failed>
    requires version { version < 2 }
    requires root { IsText max_path root.now }
    requires block { length block.now < 2 ^ 32 }
    ensures ok { OnOk result (Appends (K.taken sink.old) (K.taken sink.new) (spell (HeaderItem (record { version = version; flag = flag; padding = 0; root = root.now; block = block.now })))) }
    ensures err { OnErr result (AppendsPart (K.taken sink.old) (K.taken sink.new) (spell (HeaderItem (record { version = version; flag = flag; padding = 0; root = root.now; block = block.now })))) }
    ensures short { OnErr result (AppendsShort (K.taken sink.old) (K.taken sink.new) (spell (HeaderItem (record { version = version; flag = flag; padding = 0; root = root.now; block = block.now })))) }
    ensures cause { HasCause (K.faults sink.old) (K.faults sink.new) result }
    ensures kept { K.kept sink.old sink.new }
{
    let fixed = Fixed {
        size: block.len() as u32,
        version,
        flag,
        padding: 0,
    };
    put_all(sink, &fixed_bytes(fixed))?;
    put_ended(sink, root)?;
    put_all(sink, block)
}

/// Writes the head of a directory with its time. The caller gives the device 0 in a database of version 0. After
/// `Failed` a first part of it was taken, and not all.
pub fn put_directory<K: Sink>(
    sink: &mut K,
    stamp: Stamp,
    device: u32,
    path: &[u8],
) -> Result<(), Failed>
    requires path { IsText max_path path.now }
    ensures ok { OnOk result (Appends (K.taken sink.old) (K.taken sink.new) (spell (HeadItem (record { seconds = stamp.seconds; nanos = stamp.nanos; device = device; path = path.now })))) }
    ensures err { OnErr result (AppendsPart (K.taken sink.old) (K.taken sink.new) (spell (HeadItem (record { seconds = stamp.seconds; nanos = stamp.nanos; device = device; path = path.now })))) }
    ensures short { OnErr result (AppendsShort (K.taken sink.old) (K.taken sink.new) (spell (HeadItem (record { seconds = stamp.seconds; nanos = stamp.nanos; device = device; path = path.now })))) }
    ensures cause { HasCause (K.faults sink.old) (K.faults sink.new) result }
    ensures kept { K.kept sink.old sink.new }
{
    let numbers = Numbers {
        seconds: stamp.seconds(),
        nanos: stamp.nanos(),
        device,
    };
    put_all(sink, &numbers_bytes(numbers))?;
    put_ended(sink, path)
}

/// Writes an entry of a directory. That the name is one and has room there is the caller's to see: one without room is
/// read back as a path too long. After `Failed` a first part of it was taken, and not all.
pub fn put_entry<K: Sink>(sink: &mut K, kind: Kind, name: &[u8]) -> Result<(), Failed>
    requires name { IsText max_path name.now }
    ensures ok { OnOk result (Appends (K.taken sink.old) (K.taken sink.new) (spell (EntryItem kind name.now))) }
    ensures err { OnErr result (AppendsPart (K.taken sink.old) (K.taken sink.new) (spell (EntryItem kind name.now))) }
    ensures short { OnErr result (AppendsShort (K.taken sink.old) (K.taken sink.new) (spell (EntryItem kind name.now))) }
    ensures cause { HasCause (K.faults sink.old) (K.faults sink.new) result }
    ensures kept { K.kept sink.old sink.new }
{
    put_all(sink, &[byte_of(kind)])?;
    put_ended(sink, name)
}

/// Writes the end of a directory. After `Failed` nothing was taken.
pub fn put_end<K: Sink>(sink: &mut K) -> Result<(), Failed>
    ensures ok { OnOk result (Appends (K.taken sink.old) (K.taken sink.new) (spell EndItem)) }
    ensures err { OnErr result (AppendsPart (K.taken sink.old) (K.taken sink.new) (spell EndItem)) }
    ensures short { OnErr result (AppendsShort (K.taken sink.old) (K.taken sink.new) (spell EndItem)) }
    ensures cause { HasCause (K.faults sink.old) (K.faults sink.new) result }
    ensures kept { K.kept sink.old sink.new }
{
    put_all(sink, &[2])
}

/// Writes a text and its zero byte.
fn put_ended<K: Sink>(sink: &mut K, text: &[u8]) -> Result<(), Failed>
    ensures ok { OnOk result (Appends (K.taken sink.old) (K.taken sink.new) (ended text.now)) }
    ensures short { OnErr result (AppendsShort (K.taken sink.old) (K.taken sink.new) (ended text.now)) }
    ensures cause { HasCause (K.faults sink.old) (K.faults sink.new) result }
    ensures kept { K.kept sink.old sink.new }
{
    put_all(sink, text)?;
    put_all(sink, &[0])
}

fn byte_of(kind: Kind) -> u8
    ensures { result ≡ kind_byte kind }
{
    match kind {
        Kind::File => 0,
        Kind::Directory => 1,
    }
}

#[tactic(auto, unfolding(crate::specs::Items::number))]
fn fixed_bytes(fixed: Fixed) -> [u8; 16]
    ensures { result ≡ spell_fixed fixed }
{
    let mut bytes = [0; 16];
    bytes[..8].copy_from_slice(&MAGIC);
    BigEndian::write_u32(&mut bytes[8..], fixed.size);
    bytes[12] = fixed.version;
    bytes[13] = u8::from(fixed.flag);
    BigEndian::write_u16(&mut bytes[14..], fixed.padding);
    bytes
}

#[tactic(auto, unfolding(crate::specs::Items::number))]
fn numbers_bytes(numbers: Numbers) -> [u8; 16]
    ensures { result ≡ spell_numbers numbers }
{
    let mut bytes = [0; 16];
    BigEndian::write_u64(&mut bytes, numbers.seconds);
    BigEndian::write_u32(&mut bytes[8..], numbers.nanos);
    BigEndian::write_u32(&mut bytes[12..], numbers.device);
    bytes
}
