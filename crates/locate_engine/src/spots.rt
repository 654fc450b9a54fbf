//! What is known of a path for the patterns of a query.
ghost use Rattle.std.specs.Prelude.{◌≡◌, ℕ, ◌+◌, ◌≤◌, ◌⊎◌, [], take};
ghost use Rattle.glob_match.specs.Spot.{Known};
ghost use Rattle.glob_match.specs.declared.spot.Spot.TheVariants.{Unjudged};
ghost use Rattle.locate_engine.specs.Globs.{in_glob, steps_of};
ghost use Rattle.locate_engine.specs.Kept.{spot_at};
ghost use Rattle.locate_engine.specs.Sought.{Follows};

use glob_match::{Glob, Spot, Steps};
use std::marker::Model;
use std::sync::ledger::Ledger;

/// For how many patterns what is known is kept.
const KEPT: usize = 8;

/// What is known of the path in hand for each of the first patterns.
#[derive(Drop)]
pub(crate) struct Spots {
    spots: [Spot; KEPT],
    known: usize,
}

impl Model for Spots {
    ghost use Rattle.std.specs.Prelude.{◌≡◌, ◌≤◌, List, length, take};
    ghost use Rattle.glob_match.specs.declared.spot.Spot.{Spot};

    ghost Value = { List Spot };

    ghost view = { λ s. take s.known s.spots };

    ghost invariant = { λ s. (s.known ≤ 8) × (length s.spots ≡ 8) };
}

impl Spots {
    /// Nothing is known.
    pub(crate) fn new() -> Spots
        ensures { result ≡ [] }
    {
        Spots {
            spots: [Spot::Unjudged; KEPT],
            known: 0,
        }
    }

    /// Forgets what is known for the patterns from this place on.
    pub(crate) fn forget_from(&mut self, at: usize)
        ensures { self.new ≡ take at self.old }
    {
        self.known = self.known.min(at);
    }

    /// Whether the pattern at a place matches the text, whose first `shared` bytes are those of the one before.
    #[inline(always)]
    pub(crate) fn judge<L: Ledger>(
        &mut self,
        at: usize,
        glob: &Glob,
        text: &[u8],
        shared: usize,
        steps: &mut Steps<L>,
    ) -> bool
        requires follows { Follows (Known (spot_at self.old at) glob.now) shared text.now }
        ensures value { result ≡ in_glob glob.now text.now }
        ensures known { Known (spot_at self.new at) glob.now text.now }
        ensures others { (i : ℕ) → (i ≡ at → ⊥) → spot_at self.new i ≡ spot_at self.old i }
        ensures later { steps.old ≤ steps.new }
        ensures within { steps.new ≤ steps.old + steps_of text.now glob.now }
    {
        let mut spot = self.spot(at);
        let matched = glob.matches_next(text, shared, &mut spot, steps);
        self.keep(at, spot);
        matched
    }

    /// What is known for the pattern at a place.
    #[inline(always)]
    fn spot(&self, at: usize) -> Spot
        ensures { result ≡ spot_at self.now at }
    {
        if at < self.known {
            return self.spots[at];
        }
        Spot::Unjudged
    }

    /// Keeps what is known for the pattern at a place, or nothing where there is no room.
    #[inline(always)]
    fn keep(&mut self, at: usize, spot: Spot)
        ensures there { (spot_at self.new at ≡ spot) ⊎ (spot_at self.new at ≡ Unjudged) }
        ensures others { (i : ℕ) → (i ≡ at → ⊥) → spot_at self.new i ≡ spot_at self.old i }
    {
        if at < self.known {
            self.spots[at] = spot;
        } else if at == self.known && at < KEPT {
            self.spots[at] = spot;
            self.known += 1;
        }
    }
}
