//! All bytes of a source at once.
ghost use Rattle.std.specs.Prelude.{◌≡◌, ◌+◌, ◌≤◌, length, IfOk, OnOk, IsErrOf};
ghost use Rattle.std.specs.Io.KnownBytes.{Consumes, IsAtEnd};
ghost use Rattle.loc_outside.specs.Causes.{Rose, raised};
ghost use Rattle.byte_feed.specs.Feed.{LeftAfter, Takes};

use crate::feed::read_into;
use loc_outside::Source;
use std::alloc::Global;
use std::marker::Model;
use thiserror::Error;

/// Why the bytes of a source are not in memory.
#[derive(Clone, Copy, Debug, PartialEq, Eq, Error)]
pub enum AllFault {
    /// The source failed.
    #[error("ReadFault")]
    ReadFault,
    /// There are more bytes than allowed.
    #[error("TooLong")]
    TooLong,
    /// There is no memory for them.
    #[error("OutOfMemory")]
    OutOfMemory,
}

/// Bytes in memory.
#[derive(Drop)]
pub struct Bytes {
    bytes: Vec<u8>,
}

impl Model for Bytes {
    ghost use Rattle.std.specs.Prelude.{List, ℕ};

    ghost Value = { List ℕ };

    ghost view = { λ b. b.bytes.items };
}

impl Bytes {
    /// These bytes, where they lie.
    pub fn from_vec(bytes: Vec<u8>) -> Bytes
        ensures { result ≡ bytes.items }
    {
        Bytes { bytes }
    }

    /// The bytes as a `Vec`, where they lie.
    pub fn into_vec(self) -> Vec<u8>
        ensures { result.items ≡ self }
    {
        self.bytes
    }

    /// The bytes.
    pub fn as_slice(&self) -> &[u8]
        ensures { result.now ≡ self.now }
    {
        &self.bytes
    }
}

/// Reads all bytes that are left, of which there may be `limit`. To find that there are more, one byte more is taken.
pub fn read_all<S: Source>(alloc: Global, src: &mut S, limit: u64) -> Result<Bytes, AllFault>
    ensures ok { IfOk result (λ bytes. Consumes (S.left src.old) (S.left src.new) bytes) }
    ensures end { OnOk result (IsAtEnd (S.left src.new)) }
    ensures within { IfOk result (λ bytes. length bytes ≤ limit) }
    ensures given { IfOk result (λ bytes. S.given src.new ≡ raised (S.given src.old) (length bytes)) }
    ensures taken { Takes (limit + 1) (S.given src.old) (S.given src.new) (S.left src.old) (S.left src.new) }
    ensures too_long { IsErrOf result AllFault.TooLong → (S.given src.new ≡ raised (S.given src.old) (limit + 1)) × LeftAfter (limit + 1) (S.left src.old) (S.left src.new) }
    ensures fault { IsErrOf result AllFault.ReadFault → Rose (S.faults src.old) (S.faults src.new) }
    ensures later { S.faults src.old ≤ S.faults src.new }
    ensures kept { S.kept src.old src.new }
{
    let limit = limit as usize;
    let mut chunk = [0; 4096];
    let mut bytes = Vec::new(alloc);
    'reading: loop {
        let most = (limit - bytes.len()).min(4095) + 1;
        let Ok(count) = read_into(src, &mut chunk, 0, most) else {
            return Err(AllFault::ReadFault);
        };
        if count == 0 {
            return Ok(Bytes { bytes });
        }
        let Ok(()) = bytes.extend_from_slice(&chunk[..count]) else {
            return Err(AllFault::OutOfMemory);
        };
        if bytes.len() > limit {
            return Err(AllFault::TooLong);
        }
    }
}
