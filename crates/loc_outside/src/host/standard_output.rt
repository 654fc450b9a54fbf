//! The host's standard output.
ghost use Rattle.std.specs.Prelude.{◌≡◌, None, ⊤, min};
ghost use Rattle.std.proofs.Common.{refl};
ghost use Rattle.std.proofs.Math.Nat.{min-le_right};
ghost use Rattle.loc_outside.specs.Causes.{last_count, stays_below};

use crate::gathering::{Gathering, SteadySink};
use crate::host::files::{fault, write_some};
use crate::{BufferedSink, Failed, Sink};
use std::marker::Model;

/// The host's standard output, where each write goes out at once.
#[derive(Drop)]
struct Stream {
    rt: HostRuntime,
    faults: u64,
}

impl Model for Stream {
    ghost use Rattle.std.specs.Prelude.{ℕ};

    ghost Value = { ℕ };

    ghost view = { λ s. s.faults };
}

impl Sink for Stream {
    ghost taken = { λ s. None };

    ghost faults = { λ s. min s last_count };

    ghost kept = { λ s t. ⊤ };

    ghost keeps_itself = { λ s. tt };

    ghost keeps_on = { λ s t u first then. tt };

    ghost faults_below = { λ s. stays_below s };

    fn write(&mut self, piece: &[u8]) -> Result<usize, Failed> {
        let Ok(count) = write_some(&mut self.rt.stdout(), piece) else {
            return Err(fault(&mut self.faults));
        };
        Ok(count)
    }
}

impl SteadySink for Stream {
    ghost stays_silent = { λ s t kept silent. refl };
}

/// The host's standard output. It gathers: up to 16,384 bytes are held back, and go out in order where there is no room for
/// the next piece, and when flushed. Where they can't go out, the call at hand has failed, and what did not go out is held
/// back still; no byte goes out twice. What is held back when the program ends is lost: flush before that, and before
/// something else is to show behind it. A contract sees the counts of bytes held back and of faults.
#[derive(Drop)]
pub struct HostOut {
    out: Gathering<Stream>,
}

impl Model for HostOut {
    ghost use Rattle.std.specs.Prelude.{length};
    ghost use Rattle.loc_outside.specs.Host.{BufferCounts};

    ghost Value = { BufferCounts };

    ghost view = { λ h. record { held_back = length h.out.held.items; faults = h.out.below } };
}

impl HostOut {
    /// The standard output of this host.
    pub fn new(rt: HostRuntime) -> HostOut
        ensures { result ≡ record { held_back = 0; faults = 0 } }
    {
        HostOut {
            out: Gathering::new(Stream { rt, faults: 0 }),
        }
    }
}

impl Sink for HostOut {
    ghost taken = { λ h. None };

    ghost faults = { λ h. min h.faults last_count };

    ghost kept = { λ h k. ⊤ };

    ghost keeps_itself = { λ h. tt };

    ghost keeps_on = { λ h k l first then. tt };

    ghost faults_below = { λ h. stays_below h.faults };

    #[inline(always)]
    fn write(&mut self, piece: &[u8]) -> Result<usize, Failed> {
        self.out.write(piece)
    }
}

impl BufferedSink for HostOut {
    ghost buffer_size = { 16384 };

    ghost held_back = { λ h. min h.held_back 16384 };

    ghost held_within = { λ h. min-le_right h.held_back 16384 };

    fn flush(&mut self) -> Result<(), Failed> {
        self.out.flush()
    }
}

#[cfg(test)]
mod tests {
    use super::*;
    use crate::put_all;

    // What the run shows of it: the two parts come out at the flush, in order. What a full or a closed pipe does shows
    // only in a run of a program.
    #[test]
    fn writes_to_the_stream(rt: HostRuntime) {
        let mut out = HostOut::new(rt);
        assert_eq!(rt; (out.write(b""), out.flush()), (Ok(0), Ok(())));
        assert_eq!(rt;
            (put_all(&mut out, b"gathered"), put_all(&mut out, b"\n")),
            (Ok(()), Ok(()))
        );
        assert_eq!(rt; out.flush(), Ok(()));
    }
}
