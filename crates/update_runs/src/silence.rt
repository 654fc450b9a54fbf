//! Where lines go that nobody reads.
ghost use Rattle.std.specs.Prelude.{◌≡◌, None, ⊤, OnErr};
ghost use Rattle.std.specs.Io.KnownBytes.{WriteAppends};
ghost use Rattle.loc_outside.specs.Causes.{HasCause, stays_below};
ghost use Rattle.loc_outside.specs.Outside.{TakesPart};

use loc_outside::{Failed, Sink};

/// Takes all, keeps nothing, and never fails.
#[derive(Clone, Copy, Debug, PartialEq, Eq)]
pub(crate) struct Silence;

impl Sink for Silence {
    ghost taken = { λ s. None };

    ghost faults = { λ s. 0 };

    ghost kept = { λ s t. ⊤ };

    ghost keeps_itself = { λ s. tt };

    ghost keeps_on = { λ s t u first then. tt };

    ghost faults_below = { λ s. stays_below 0 };

    fn write(&mut self, piece: &[u8]) -> Result<usize, Failed> {
        Ok(piece.len())
    }
}
