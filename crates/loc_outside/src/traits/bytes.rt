//! Bytes that are read and written.
ghost use Rattle.std.specs.Prelude.{◌≡◌, ◌<◌, ◌≤◌, ◌^◌, List, ℕ, length, IsSome, IfSome, OnOk, OnErr};
ghost use Rattle.std.specs.declared.option.Option.{Option};
ghost use Rattle.std.specs.Io.{ReadsAtMost};
ghost use Rattle.std.specs.Io.KnownBytes.{Appends, ReadConsumes, WriteAppends};
ghost use Rattle.std.specs.Option.{option_map};
ghost use Rattle.loc_outside.specs.Causes.{HasCause, raised};
ghost use Rattle.loc_outside.specs.Files.{Files};
ghost use Rattle.loc_outside.specs.Held.{Held, begun, grown, committed, emptied};
ghost use Rattle.loc_outside.specs.Outside.{GivesCount, TakesPart, OpensAs};

use thiserror::Error;

/// A call on the outside failed: the count of faults rose, or stands at its last value, 2^64 - 1.
#[derive(Clone, Copy, Debug, PartialEq, Eq, Error)]
#[error("Failed")]
pub struct Failed;

/// Whether there is a file of the name.
#[derive(Clone, Copy, Debug, PartialEq, Eq)]
pub enum Opened {
    Found,
    Missing,
}

/// Bytes to be read. What is left may be known or not: clauses on it hold where it is known.
pub trait Source {
    /// The bytes that are left, where the source tells them.
    ghost left: { Self → Option (List ℕ) };

    /// How many bytes it has given, up to 2^64 - 1. Every source tells this.
    ghost given: { Self → ℕ };

    /// How often it has failed, up to 2^64 - 1.
    ghost faults: { Self → ℕ };

    /// What stays the same while it is only read.
    ghost kept: { Self → Self → Type 0 };

    /// Moves the first bytes that are left into `into`, and answers their number, which is 0 only where none is left.
    /// After `Failed` the bytes that are left are the same.
    fn read(&mut self, into: &mut [u8]) -> Result<usize, Failed>
        requires { 0 < length into.old }
        ensures bound { ReadsAtMost result into.new }
        ensures bytes { ReadConsumes (left self.old) (left self.new) result into.new }
        ensures err { OnErr result (left self.new ≡ left self.old) }
        ensures given { GivesCount (given self.old) (given self.new) result }
        ensures cause { HasCause (faults self.old) (faults self.new) result }
        ensures kept { kept self.old self.new };

    /// A source keeps what it is.
    ghost keeps_itself: { (s : Self) → kept s s };

    /// What two steps keep, both keep together.
    ghost keeps_on: { (s t u : Self) → kept s t → kept t u → kept s u };

    /// The number of bytes given is below 2^64.
    ghost given_below: { (s : Self) → given s < 2 ^ 64 };

    /// The count of faults is below 2^64.
    ghost faults_below: { (s : Self) → faults s < 2 ^ 64 };
}

/// Files by name, one of which may be open to be read.
pub trait Reader: Source {
    /// The files, where the reader tells them.
    ghost files: { Self → Option Files };

    /// Opens the file of this name, of which all bytes are left then.
    /// After `Missing` or `Failed` nothing is left.
    fn open_file(&mut self, name: &str) -> Result<Opened, Failed>
        ensures opened { OpensAs (files self.old) name.now result (Self.left self.new) }
        ensures files { files self.new ≡ files self.old }
        ensures given { Self.given self.new ≡ Self.given self.old }
        ensures cause { HasCause (Self.faults self.old) (Self.faults self.new) result };

    /// To read changes no file.
    ghost keeps_files: { (s t : Self) → Self.kept s t → files t ≡ files s };
}

/// What takes bytes.
pub trait Sink {
    /// The bytes that it has taken, where it tells them.
    ghost taken: { Self → Option (List ℕ) };

    /// How often it has failed, up to 2^64 - 1.
    ghost faults: { Self → ℕ };

    /// What stays the same while it only takes bytes.
    ghost kept: { Self → Self → Type 0 };

    /// Takes a first part of the piece and answers its length, which is at least 1 for a piece that isn't empty.
    /// After `Failed` nothing of the piece was taken.
    fn write(&mut self, piece: &[u8]) -> Result<usize, Failed>
        ensures bound { TakesPart result piece.now }
        ensures bytes { WriteAppends (taken self.old) (taken self.new) result piece.now }
        ensures err { OnErr result (taken self.new ≡ taken self.old) }
        ensures cause { HasCause (faults self.old) (faults self.new) result }
        ensures kept { kept self.old self.new };

    /// A sink keeps what it is.
    ghost keeps_itself: { (s : Self) → kept s s };

    /// What two steps keep, both keep together.
    ghost keeps_on: { (s t u : Self) → kept s t → kept t u → kept s u };

    /// The count of faults is below 2^64.
    ghost faults_below: { (s : Self) → faults s < 2 ^ 64 };
}

/// A sink that may hold back what it has taken, and passes it on when asked.
pub trait BufferedSink: Sink {
    /// The size of its buffer in bytes, 0 where it has none.
    ghost buffer_size: { ℕ };

    /// How many of the bytes that it has taken it holds back. Every form tells this.
    ghost held_back: { Self → ℕ };

    /// Passes on all that was taken. After `Failed`, how much of it went on is not said.
    fn flush(&mut self) -> Result<(), Failed>
        ensures flushed { OnOk result (held_back self.new ≡ 0) }
        ensures taken { Self.taken self.new ≡ Self.taken self.old }
        ensures cause { HasCause (Self.faults self.old) (Self.faults self.new) result }
        ensures kept { Self.kept self.old self.new };

    /// No more is held back than the buffer has room for.
    ghost held_within: { (s : Self) → held_back s ≤ buffer_size };
}

/// What takes files, one after another: a name is begun, the bytes that are taken then are pending, and a commit stores them.
pub trait Output: Sink {
    /// The files that it stores, the name that was begun and not yet committed, and the bytes taken since the last name
    /// was begun, where it tells them.
    ghost held: { Self → Option Held };

    /// How many names were begun, up to 2^64 - 1. Every output tells this.
    ghost begins: { Self → ℕ };

    /// Begins a file of this name, in place of the one that was begun. No byte is pending then.
    /// What the sink tells as taken is then not said. After `Failed` nothing has changed but the count of faults.
    fn begin(&mut self, name: &str) -> Result<(), Failed>
        ensures ok { OnOk result (held self.new ≡ option_map (begun name.now) (held self.old)) }
        ensures err { OnErr result (held self.new ≡ held self.old) }
        ensures err_taken { OnErr result (Self.taken self.new ≡ Self.taken self.old) }
        ensures err_kept { OnErr result (Self.kept self.old self.new) }
        ensures begins { OnOk result (begins self.new ≡ raised (begins self.old) 1) }
        ensures cause { HasCause (Self.faults self.old) (Self.faults self.new) result };

    /// Stores the pending bytes under the name that was begun, in place of those that it had, and leaves all other files.
    /// No name is begun then. After `Failed` the stored files and the name are the same. The pending bytes stay in any case.
    fn commit(&mut self) -> Result<(), Failed>
        requires { IfSome (held self.old) (λ held. IsSome held.name) }
        ensures ok { OnOk result (held self.new ≡ option_map committed (held self.old)) }
        ensures err { OnErr result (held self.new ≡ held self.old) }
        ensures taken { Self.taken self.new ≡ Self.taken self.old }
        ensures begins { begins self.new ≡ begins self.old }
        ensures cause { HasCause (Self.faults self.old) (Self.faults self.new) result };

    /// To take bytes begins no name.
    ghost keeps_begins: { (s t : Self) → Self.kept s t → begins t ≡ begins s };

    /// To take bytes changes no stored file and no name.
    ghost keeps_begun: { (s t : Self) → Self.kept s t → option_map emptied (held t) ≡ option_map emptied (held s) };

    /// The pending bytes grow then by those that are taken.
    ghost keeps_held: { (s t : Self) (bytes : List ℕ) → Self.kept s t → Appends (Self.taken s) (Self.taken t) bytes → held t ≡ option_map (grown bytes) (held s) };
}
