//! The change of the number of bytes that a path shares with the one before it.
ghost use Rattle.std.specs.Prelude.{◌≡◌, ◌≤◌};
ghost use Rattle.locate02_db.specs.Items.{amount};
ghost use Rattle.locate02_db.specs.Spelled.{change_between};

/// What a database begins with: a zero byte, `LOCATE02`, and a zero byte.
pub const MAGIC: [u8; 10] = *b"\0LOCATE02\0";

/// The change against the entry before, in bytes, by how it is spelled.
#[derive(Clone, Copy, Debug, PartialEq, Eq)]
pub enum Change {
    /// In one byte, from -127 to 127.
    Short(i8),
    /// In two bytes behind the byte 128.
    Long(i16),
}

impl Change {
    /// By how many bytes the shared length changes.
    #[inline(always)]
    pub fn amount(self) -> i16
        ensures { result ≡ amount self }
    {
        match self {
            Change::Short(amount) => i16::from(amount),
            Change::Long(amount) => amount,
        }
    }

    /// The change from one shared length to another: the long form exactly where it lies outside -127 to 127.
    pub fn between(old: u16, new: u16) -> Change
        requires old { old ≤ 4096 }
        requires new { new ≤ 4096 }
        ensures { result ≡ change_between old new }
    {
        let amount = new as i16 - old as i16;
        if -127 <= amount && amount <= 127 {
            Change::Short(amount as i8)
        } else {
            Change::Long(amount)
        }
    }
}
