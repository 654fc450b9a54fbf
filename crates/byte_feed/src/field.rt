//! One field at the front of some bytes, and the bytes after it.
ghost use Rattle.std.specs.Prelude.{◌≡◌, Result};
ghost use Rattle.byte_feed.specs.Field.{FieldGives, magic_at, byte_at, number_at};

use crate::damage::{DamageCause, Stop};
use byteorder::{BigEndian, ByteOrder};

/// The bytes behind those that a format begins with; `NotADatabase` where it begins otherwise, or is shorter.
pub fn behind_magic<'a>(bytes: &'a [u8], magic: &[u8]) -> Result<&'a [u8], Stop>
    ensures { FieldGives (λ x. (tt, x.now)) result (magic_at magic.now bytes.now) }
{
    if !bytes.starts_with(magic) {
        return Err(Stop::NotADatabase);
    }
    Ok(&bytes[magic.len()..])
}

/// A byte; `Cut` where there is none.
pub fn one_byte(bytes: &[u8]) -> Result<(u8, &[u8]), Stop>
    ensures { FieldGives (λ x. (x.0, x.1.now)) result (byte_at bytes.now) }
{
    match bytes.split_first() {
        Some((byte, rest)) => Ok((*byte, rest)),
        None => Err(Stop::Broken(DamageCause::Cut)),
    }
}

/// A number of two bytes, big endian; `Cut` where there are fewer.
pub fn number_16(bytes: &[u8]) -> Result<(u16, &[u8]), Stop>
    ensures { FieldGives (λ x. (x.0, x.1.now)) result (number_at 2 bytes.now) }
{
    if bytes.len() < 2 {
        return Err(Stop::Broken(DamageCause::Cut));
    }
    Ok((BigEndian::read_u16(bytes), &bytes[2..]))
}

/// A number of four bytes, big endian; `Cut` where there are fewer.
pub fn number_32(bytes: &[u8]) -> Result<(u32, &[u8]), Stop>
    ensures { FieldGives (λ x. (x.0, x.1.now)) result (number_at 4 bytes.now) }
{
    if bytes.len() < 4 {
        return Err(Stop::Broken(DamageCause::Cut));
    }
    Ok((BigEndian::read_u32(bytes), &bytes[4..]))
}

/// A number of eight bytes, big endian; `Cut` where there are fewer.
pub fn number_64(bytes: &[u8]) -> Result<(u64, &[u8]), Stop>
    ensures { FieldGives (λ x. (x.0, x.1.now)) result (number_at 8 bytes.now) }
{
    if bytes.len() < 8 {
        return Err(Stop::Broken(DamageCause::Cut));
    }
    Ok((BigEndian::read_u64(bytes), &bytes[8..]))
}
