//! The parts of items that have a fixed length, at the front of some bytes.
ghost use Rattle.std.specs.Prelude.{◌<◌, IfOk};
ghost use Rattle.byte_feed.specs.Field.{FieldGives};
ghost use Rattle.mlocate_db.specs.Items.{fixed_at, numbers_at};

use crate::item::{Fixed, MAGIC, Numbers};
use byte_feed::{DamageCause, Stop, behind_magic, number_16, number_32, number_64, one_byte};

/// The first 16 bytes of a header.
#[tactic(auto, unfolding(crate::specs::Items::fixed_at))]
pub fn fixed(bytes: &[u8]) -> Result<(Fixed, &[u8]), Stop>
    ensures { FieldGives (λ x. (x.0, x.1.now)) result (fixed_at bytes.now) }
{
    let rest = behind_magic(bytes, &MAGIC)?;
    let (size, rest) = number_32(rest)?;
    let (version, rest) = one_byte(rest)?;
    if version > 1 {
        return Err(Stop::Broken(DamageCause::BadVersion));
    }
    let (flag, rest) = one_byte(rest)?;
    if flag > 1 {
        return Err(Stop::Broken(DamageCause::BadFlag));
    }
    let (padding, rest) = number_16(rest)?;
    Ok((
        Fixed {
            size,
            version,
            flag: flag == 1,
            padding,
        },
        rest,
    ))
}

/// The first 16 bytes of a directory's head.
#[tactic(auto, unfolding(crate::specs::Items::numbers_at))]
pub fn numbers(bytes: &[u8]) -> Result<(Numbers, &[u8]), Stop>
    ensures value { FieldGives (λ x. (x.0, x.1.now)) result (numbers_at bytes.now) }
    ensures nanos { IfOk result (λ x. x.0.nanos < 1000000000) }
{
    let (seconds, rest) = number_64(bytes)?;
    let (nanos, rest) = number_32(rest)?;
    if nanos >= 1_000_000_000 {
        return Err(Stop::Broken(DamageCause::BadNanos));
    }
    let (device, rest) = number_32(rest)?;
    Ok((
        Numbers {
            seconds,
            nanos,
            device,
        },
        rest,
    ))
}
