//! A sink in memory, with room for so many bytes.
ghost use Rattle.std.specs.Prelude.{◌≡◌, ◌≤◌, ◌-◌, ◌↔◌, ◌∷◌, ◌++◌, [], Some, OnOk, OnErr, IfOk, IsOk, IsErr, IsTrue, length, min};
ghost use Rattle.std.specs.Io.KnownBytes.{WriteAppends};
ghost use Rattle.loc_outside.specs.Causes.{HasCause, stays_below};
ghost use Rattle.loc_outside.specs.Memory.{no_failures, called, faulted, fault_count, refuses};
ghost use Rattle.loc_outside.specs.Outside.{TakesPart};
ghost use Rattle.std.proofs.lemmas.Option.{none-some};
ghost use Rattle.std.proofs.Common.{refl, sym, zero-le, ◌∙◌};

use crate::gathering::SteadySink;
use crate::memory::failing::Failing;
use crate::{BufferedSink, Failed, Sink};
use std::alloc::{AllocError, Global};
use std::marker::Model;

/// Bytes in memory, up to a number that is fixed at the start. A contract sees the bytes taken, the room for bytes in all,
/// and the calls that are to fail. A write fails where that was asked for, and where a piece that isn't empty meets no room.
#[derive(Drop)]
pub struct MemSink {
    taken: Vec<u8>,
    room: usize,
    failing: Failing,
}

impl Model for MemSink {
    ghost use Rattle.std.specs.Prelude.{◌≤◌, vec_len, vec_capacity};
    ghost use Rattle.loc_outside.specs.Memory.{SinkState};

    ghost Value = { SinkState };

    ghost view = { λ s. record { taken = s.taken.items; room = s.room; failures = s.failing } };

    ghost invariant = { λ s. (vec_len s.taken ≤ s.room) × (s.room ≤ vec_capacity s.taken) };
}

impl MemSink {
    /// An empty sink with room for so many bytes.
    pub fn with_room(alloc: Global, bytes: usize) -> Result<MemSink, AllocError>
        ensures { IfOk result (λ s. s ≡ record { taken = []; room = bytes; failures = no_failures }) }
    {
        Ok(MemSink {
            taken: Vec::with_capacity(alloc, bytes)?,
            room: bytes,
            failing: Failing::new(alloc),
        })
    }

    /// The bytes taken.
    pub fn taken(&self) -> &[u8]
        ensures value { result.now ≡ self.now.taken }
        ensures fits { length result.now ≤ self.now.room }
    {
        &self.taken
    }

    /// Lets the `n`-th call of `write` fail, counted from 1.
    pub fn fail_at(&mut self, n: u64) -> Result<(), AllocError>
        ensures ok { OnOk result (self.new ≡ record self.old { failures = record self.old.failures { due = self.old.failures.due ++ n ∷ [] } }) }
        ensures err { OnErr result (self.new ≡ self.old) }
    {
        self.failing.fail_at(n)
    }

    /// How many calls have failed.
    pub fn faults(&self) -> u64
        ensures value { result ≡ self.now.failures.faults }
        ensures told { result ≡ fault_count self.now.failures }
    {
        self.failing.faults()
    }
}

impl Sink for MemSink {
    ghost taken = { λ s. Some s.taken };

    ghost faults = { λ s. fault_count s.failures };

    ghost kept = { λ s t. t.room ≡ s.room };

    ghost keeps_itself = { λ s. refl };

    ghost keeps_on = { λ s t u first then. then ∙ first };

    ghost faults_below = { λ s. stays_below s.failures.faults };

    fn write(&mut self, piece: &[u8]) -> Result<usize, Failed>
        ensures bound { TakesPart result piece.now }
        ensures bytes { WriteAppends (Some self.old.taken) (Some self.new.taken) result piece.now }
        ensures cause { HasCause (fault_count self.old.failures) (fault_count self.new.failures) result }
        ensures kept { self.new.room ≡ self.old.room }
        // It fails exactly where that was asked for or there is no room, and else takes all that there is room for.
        ensures refused { IsErr result ↔ IsTrue (refuses self.old piece.now) }
        ensures most { IfOk result (λ n. n ≡ min (length piece.now) (self.old.room - length self.old.taken)) }
        ensures ok { OnOk result (self.new.failures ≡ called self.old.failures) }
        ensures err { OnErr result (self.new ≡ record self.old { failures = faulted (called self.old.failures) }) }
    {
        self.failing.call()?;
        let count = piece.len().min(self.room - self.taken.len());
        if count == 0 && !piece.is_empty() {
            return Err(self.failing.fault());
        }
        match self.taken.extend_from_slice(&piece[..count]) {
            Ok(()) => Ok(count),
            Err(_) => unreachable!(),
        }
    }
}

impl BufferedSink for MemSink {
    ghost buffer_size = { 0 };

    ghost held_back = { λ s. 0 };

    ghost held_within = { λ s. zero-le };

    /// Nothing is held back, so this does nothing, and is no call that can be let fail.
    fn flush(&mut self) -> Result<(), Failed>
        ensures done { IsOk result }
        ensures same { self.new ≡ self.old }
        ensures cause { HasCause (fault_count self.old.failures) (fault_count self.new.failures) result }
    {
        Ok(())
    }
}

impl SteadySink for MemSink {
    ghost stays_silent = { λ s t kept silent. absurd (none-some s.taken (sym silent)) };
}

#[cfg(test)]
mod tests {
    use super::*;
    use crate::put_all;

    // Puts the pieces into any sink that may hold back, and has it pass them on.
    fn put_and_flush<S: BufferedSink>(
        sink: &mut S,
        first: &[u8],
        last: &[u8],
    ) -> Result<(), Failed> {
        put_all(sink, first)?;
        put_all(sink, last)?;
        sink.flush()
    }

    #[test]
    fn to_flush_is_no_call_that_fails(rt: HostRuntime) -> Result<(), AllocError> {
        let mut sink = MemSink::with_room(rt.alloc(), 9)?;
        sink.fail_at(3)?;
        assert_eq!(rt; put_and_flush(&mut sink, b"ab", b"c"), Ok(()));
        assert_eq!(rt; sink.write(b"d"), Err(Failed));
        assert_eq!(rt; sink.flush(), Ok(()));
        assert_eq!(rt; (sink.taken(), sink.faults()), (b"abc".as_slice(), 1));
        Ok(())
    }

    #[test]
    fn pieces_up_to_the_room(rt: HostRuntime) -> Result<(), AllocError> {
        let mut sink = MemSink::with_room(rt.alloc(), 5)?;
        sink.fail_at(2)?;
        assert_eq!(rt; put_all(&mut sink, b"abc"), Ok(()));
        assert_eq!(rt; put_all(&mut sink, b"xyz"), Err(Failed));
        assert_eq!(rt; sink.taken(), b"abc".as_slice());
        assert_eq!(rt; put_all(&mut sink, b"def"), Err(Failed));
        assert_eq!(rt; sink.taken(), b"abcde".as_slice());
        assert_eq!(rt; (put_all(&mut sink, b""), sink.faults()), (Ok(()), 2));
        Ok(())
    }
}
