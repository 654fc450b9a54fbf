//! How the search of a database ends.
ghost use Rattle.std.specs.Prelude.{◌≡◌, Err};
ghost use Rattle.locate_engine.specs.Searched.{outcome_of};

use byte_feed::{Damage, DbFault};

/// How the search of a database ended.
#[derive(Clone, Copy, Debug, PartialEq, Eq)]
pub enum Outcome {
    /// The file was read to its end, which is whole.
    Whole,
    /// There is no file of this name.
    Missing,
    NotADatabase,
    /// All paths before the damage were searched.
    Damage(Damage),
    /// The reader failed: the paths that are whole in the bytes it had given were searched.
    ReadFault,
    /// A call of the gate failed: the paths before the one in hand were searched.
    GateFault,
    /// The file has 2^40 bytes or more: the paths below were searched.
    TooLarge,
    /// As many paths were counted as the query asks for.
    LimitReached,
    /// A write of a path or a separator failed: the path is not counted.
    WriteFault,
}

/// The outcome of a search whose stream ends with this fault.
pub(crate) fn outcome_at(fault: DbFault) -> Outcome
    ensures { result ≡ outcome_of (Err fault) }
{
    match fault {
        DbFault::NotADatabase => Outcome::NotADatabase,
        DbFault::Damage(damage) => Outcome::Damage(damage),
        DbFault::ReadFault => Outcome::ReadFault,
        DbFault::TooLarge => Outcome::TooLarge,
    }
}
