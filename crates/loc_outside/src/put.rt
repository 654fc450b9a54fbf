//! Whole pieces, by calls of `write`.
ghost use Rattle.std.specs.Prelude.{◌≡◌, ◌≤◌, ◌<◌, [], Ok, OnOk, OnErr, length, take};
ghost use Rattle.std.specs.Io.KnownBytes.{Appends};
ghost use Rattle.loc_outside.specs.Causes.{HasCause, Rose};
ghost use Rattle.loc_outside.specs.Outside.{AppendsPart, AppendsShort};

use crate::{Failed, Sink};

/// Writes the piece until all of it is taken or a call fails, and answers how much was taken.
pub(crate) fn put_most<K: Sink>(sink: &mut K, piece: &[u8]) -> usize
    ensures within { result ≤ length piece.now }
    ensures bytes { Appends (K.taken sink.old) (K.taken sink.new) (take result piece.now) }
    ensures none { piece.now ≡ [] → sink.new ≡ sink.old }
    ensures later { K.faults sink.old ≤ K.faults sink.new }
    ensures rose { result < length piece.now → Rose (K.faults sink.old) (K.faults sink.new) }
    ensures kept { K.kept sink.old sink.new }
{
    let mut done = 0;
    while done < piece.len() {
        let Ok(count) = sink.write(&piece[done..]) else {
            return done;
        };
        done += count;
    }
    done
}

/// Writes the whole piece. After `Failed` a first part of it was taken, and not all.
pub fn put_all<K: Sink>(sink: &mut K, piece: &[u8]) -> Result<(), Failed>
    ensures ok { OnOk result (Appends (K.taken sink.old) (K.taken sink.new) piece.now) }
    ensures none { piece.now ≡ [] → (result ≡ Ok tt) × (sink.new ≡ sink.old) }
    ensures err { OnErr result (AppendsPart (K.taken sink.old) (K.taken sink.new) piece.now) }
    ensures short { OnErr result (AppendsShort (K.taken sink.old) (K.taken sink.new) piece.now) }
    ensures cause { HasCause (K.faults sink.old) (K.faults sink.new) result }
    ensures kept { K.kept sink.old sink.new }
{
    if put_most(sink, piece) < piece.len() {
        return Err(Failed);
    }
    Ok(())
}
