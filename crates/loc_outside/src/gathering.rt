//! A sink that gathers what it takes, and passes it on in blocks.
ghost use Rattle.std.specs.Prelude.{◌≡◌, ◌≤◌, ◌+◌, [], None, Ok, OnOk, OnErr, length, min};
ghost use Rattle.std.proofs.Math.Nat.{min-le_right};
ghost use Rattle.std.specs.Io.KnownBytes.{WriteAppends, append_known};
ghost use Rattle.arrayvec.specs.ArrayVec.{array_vec_len};
ghost use Rattle.loc_outside.specs.Causes.{HasCause};
ghost use Rattle.loc_outside.specs.Outside.{TakesPart};

use crate::put::put_most;
use crate::{BufferedSink, Failed, Sink};
use arrayvec::ArrayVec;

/// The most bytes that are held back.
const ROOM: usize = 16_384;

/// A sink that tells the bytes that it has taken always or never.
pub(crate) trait SteadySink: Sink {
    /// One that doesn't tell them now doesn't tell them later.
    ghost stays_silent: { (s t : Self) → Self.kept s t → Self.taken s ≡ None → Self.taken t ≡ None };
}

/// Holds back what it takes, up to 16,384 bytes, and passes it on to the sink below where there is no room for the next
/// piece, and when flushed. What it has taken is what the sink below has taken, and then what is held back: so each byte
/// is passed on once, in order. To pass on may fail, and then that is the fault of the call at hand, which takes nothing.
#[derive(Drop)]
pub(crate) struct Gathering<S> {
    pub(crate) below: S,
    pub(crate) held: ArrayVec<u8, ROOM>,
}

impl<S: SteadySink> Gathering<S> {
    /// Holds nothing back.
    pub(crate) fn new(below: S) -> Gathering<S>
        ensures below { result.below ≡ below }
        ensures held { result.held.items ≡ [] }
    {
        Gathering {
            below,
            held: ArrayVec::new(),
        }
    }

    /// Passes on what is held back. After `Failed` what the sink below didn't take is held back still.
    fn pass_on(&mut self) -> Result<(), Failed>
        ensures ok { OnOk result (self.new.held.items ≡ []) }
        ensures taken { append_known (S.taken self.new.below) self.new.held.items ≡ append_known (S.taken self.old.below) self.old.held.items }
        ensures cause { HasCause (S.faults self.old.below) (S.faults self.new.below) result }
        ensures kept { S.kept self.old.below self.new.below }
    {
        let count = put_most(&mut self.below, &self.held);
        if count == self.held.len() {
            self.held.clear();
            return Ok(());
        }
        let mut rest = ArrayVec::new();
        let Ok(()) = rest.try_extend_from_slice(&self.held[count..]) else {
            unreachable!();
        };
        self.held = rest;
        Err(Failed)
    }

    /// Takes a piece for which there is no room beside what is held back. One of more than 16,384 bytes goes straight on.
    #[cold]
    #[inline(never)]
    fn make_room(&mut self, piece: &[u8]) -> Result<usize, Failed>
        ensures bound { TakesPart result piece.now }
        ensures bytes { WriteAppends (append_known (S.taken self.old.below) self.old.held.items) (append_known (S.taken self.new.below) self.new.held.items) result piece.now }
        ensures err { OnErr result (append_known (S.taken self.new.below) self.new.held.items ≡ append_known (S.taken self.old.below) self.old.held.items) }
        ensures cause { HasCause (S.faults self.old.below) (S.faults self.new.below) result }
        ensures kept { S.kept self.old.below self.new.below }
    {
        self.pass_on()?;
        let Err(_) = self.held.try_extend_from_slice(piece) else {
            return Ok(piece.len());
        };
        self.below.write(piece)
    }
}

impl<S: SteadySink> Sink for Gathering<S> {
    ghost taken = { λ g. append_known (S.taken g.below) g.held.items };

    ghost faults = { λ g. S.faults g.below };

    ghost kept = { λ g h. S.kept g.below h.below };

    ghost keeps_itself = { λ g. S.keeps_itself g.below };

    ghost keeps_on = { λ g h k first then. S.keeps_on g.below h.below k.below first then };

    ghost faults_below = { λ g. S.faults_below g.below };

    #[inline(always)]
    fn write(&mut self, piece: &[u8]) -> Result<usize, Failed>
        // A piece for which there is room is gathered whole, and the sink below isn't called.
        ensures gathers { array_vec_len self.old.held + length piece.now ≤ 16384 → (result ≡ Ok (length piece.now)) × (self.new.below ≡ self.old.below) }
        ensures bound { TakesPart result piece.now }
        ensures bytes { WriteAppends (append_known (S.taken self.old.below) self.old.held.items) (append_known (S.taken self.new.below) self.new.held.items) result piece.now }
        ensures err { OnErr result (append_known (S.taken self.new.below) self.new.held.items ≡ append_known (S.taken self.old.below) self.old.held.items) }
        ensures cause { HasCause (S.faults self.old.below) (S.faults self.new.below) result }
        ensures kept { S.kept self.old.below self.new.below }
    {
        let Err(_) = self.held.try_extend_from_slice(piece) else {
            return Ok(piece.len());
        };
        self.make_room(piece)
    }
}

impl<S: SteadySink> BufferedSink for Gathering<S> {
    ghost buffer_size = { 16384 };

    ghost held_back = { λ g. min (length g.held.items) 16384 };

    ghost held_within = { λ g. min-le_right (length g.held.items) 16384 };

    fn flush(&mut self) -> Result<(), Failed>
        // Where it is done, nothing is held back: the sink below has taken all.
        ensures all { OnOk result (self.new.held.items ≡ []) }
        ensures flushed { OnOk result (min (length self.new.held.items) 16384 ≡ 0) }
        ensures taken { append_known (S.taken self.new.below) self.new.held.items ≡ append_known (S.taken self.old.below) self.old.held.items }
        ensures cause { HasCause (S.faults self.old.below) (S.faults self.new.below) result }
        ensures kept { S.kept self.old.below self.new.below }
    {
        self.pass_on()
    }
}

#[cfg(test)]
mod tests {
    use super::*;
    use crate::{MemSink, put_all};
    use std::alloc::AllocError;

    #[test]
    fn all_goes_on_at_the_flush(rt: HostRuntime) -> Result<(), AllocError> {
        let mut sink = Gathering::new(MemSink::with_room(rt.alloc(), 9)?);
        assert_eq!(rt;
            (put_all(&mut sink, b"ab"), put_all(&mut sink, b"c")),
            (Ok(()), Ok(()))
        );
        assert_eq!(rt; sink.below.taken(), b"".as_slice());
        assert_eq!(rt; sink.flush(), Ok(()));
        assert_eq!(rt; sink.below.taken(), b"abc".as_slice());
        Ok(())
    }

    // The first call below fails, and one that has no room.
    #[test]
    fn no_byte_goes_on_twice(rt: HostRuntime) -> Result<(), AllocError> {
        let mut sink = Gathering::new(MemSink::with_room(rt.alloc(), 5)?);
        sink.below.fail_at(1)?;
        assert_eq!(rt; put_all(&mut sink, b"abc"), Ok(()));
        assert_eq!(rt; (sink.flush(), sink.flush()), (Err(Failed), Ok(())));
        assert_eq!(rt; put_all(&mut sink, b"defg"), Ok(()));
        assert_eq!(rt; (sink.flush(), sink.flush()), (Err(Failed), Err(Failed)));
        assert_eq!(rt; sink.below.taken(), b"abcde".as_slice());
        assert_eq!(rt;
            (sink.held.as_slice(), sink.below.faults()),
            (b"fg".as_slice(), 3)
        );
        Ok(())
    }

    #[test]
    fn a_block_goes_on_where_it_is_full(rt: HostRuntime) -> Result<(), AllocError> {
        let mut sink = Gathering::new(MemSink::with_room(rt.alloc(), 40_000)?);
        let block = [b'x'; ROOM];
        assert_eq!(rt;
            (put_all(&mut sink, &block), put_all(&mut sink, b"y")),
            (Ok(()), Ok(()))
        );
        assert_eq!(rt;
            (sink.below.taken().len(), sink.held.as_slice()),
            (ROOM, b"y".as_slice())
        );
        let longer = [b'z'; ROOM + 1];
        assert_eq!(rt; put_all(&mut sink, &longer), Ok(()));
        assert_eq!(rt;
            (sink.below.taken().len(), sink.held.len()),
            (2 * ROOM + 2, 0)
        );
        Ok(())
    }
}
