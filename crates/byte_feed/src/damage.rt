//! Why a database could not be read on.
ghost use Rattle.std.specs.Prelude.{◌≡◌};
ghost use Rattle.byte_feed.specs.Endings.{fault_at as fault_by};

/// The first rule that is broken when the bytes of an item are read in order.
#[derive(Clone, Copy, Debug, PartialEq, Eq)]
pub enum DamageCause {
    /// The file ends inside an item, or where an item must follow.
    Cut,
    /// The version of an mlocate database is not known.
    BadVersion,
    /// The visibility flag of an mlocate database is neither 0 nor 1.
    BadFlag,
    /// A path has more than 4,096 bytes.
    LongPath,
    /// A path has no byte.
    EmptyPath,
    /// The nanoseconds of a time are a second or more.
    BadNanos,
    /// An entry of an mlocate database has an unknown type.
    BadKind,
    /// An entry of an mlocate database has no name.
    EmptyName,
    /// The length of a shared prefix is below 0 or above that of the path before.
    BadCount,
    /// A bigram database has a byte of a path where a prefix count must stand.
    NoCount,
    /// A path of a bigram database uses a pair that has a zero byte in its table.
    EmptyPair,
    /// The four bytes of a prefix count of a bigram database are a number in neither byte order.
    BadWord,
    /// A path holds a zero byte.
    ZeroChar,
}

/// Where a database is damaged, and how: the offset in bytes of the first item that is not whole.
#[derive(Clone, Copy, Debug, PartialEq, Eq)]
pub struct Damage {
    pub place: u64,
    pub cause: DamageCause,
}

/// Why no whole item stands at the front of some bytes.
#[derive(Clone, Copy, Debug, PartialEq, Eq)]
pub enum Stop {
    /// The bytes do not begin as the format does.
    NotADatabase,
    /// A rule is broken.
    Broken(DamageCause),
}

/// Why reading a part of an item broke off.
#[derive(Clone, Copy, Debug, PartialEq, Eq)]
pub enum Break {
    /// The source failed.
    ReadFault,
    /// A byte at offset 2^40 is needed.
    TooLarge,
    /// No whole part stands there.
    Stopped(Stop),
}

/// Why no further path of a database was given.
#[derive(Clone, Copy, Debug, PartialEq, Eq)]
pub enum DbFault {
    NotADatabase,
    Damage(Damage),
    /// The source failed.
    ReadFault,
    /// Reading on asks for a byte at offset 2^40.
    TooLarge,
}

/// What breaks off reading the item at this place: where the item is broken the file is damaged there, or is no database.
#[cold]
#[inline(never)]
pub fn fault_at(place: u64, cause: Break) -> DbFault
    ensures { result ≡ fault_by place cause }
{
    match cause {
        Break::ReadFault => DbFault::ReadFault,
        Break::TooLarge => DbFault::TooLarge,
        Break::Stopped(Stop::NotADatabase) => DbFault::NotADatabase,
        Break::Stopped(Stop::Broken(cause)) => DbFault::Damage(Damage { place, cause }),
    }
}
