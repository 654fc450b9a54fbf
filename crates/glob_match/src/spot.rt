//! What is known of a text after a pattern was tried on it.
ghost use Rattle.std.specs.Prelude.{◌≡◌, ℕ, ◌<◌, ◌≤◌, true, List, take, IsNone, IfSome};
ghost use Rattle.glob_match.specs.Pattern.{Wanted, InGlob};
ghost use Rattle.glob_match.specs.Spot.{Known, Tells};

/// What is known of a text on which a pattern was tried, so that of a text with the same prefix only the
/// rest need be searched.
#[derive(Clone, Copy, PartialEq, Eq, Debug)]
pub enum Spot {
    /// Nothing.
    Unjudged,
    /// No prefix of the text matches.
    Nowhere,
    /// The shortest prefix that matches has so many bytes, and any text that begins with it matches.
    Ends(usize),
}

/// Up to which length no prefix of the text before matches, but for an empty one: `shared`, or 0 where
/// nothing is known. None where one is known to match that is no longer than `shared`.
#[inline(always)]
pub(crate) fn unmatched(spot: Spot, shared: usize) -> Option<usize>
    ensures within { IfSome result (λ quiet. quiet ≤ shared) }
    ensures quiet { IfSome result (λ quiet. (glob : Wanted) (before : List ℕ) → Known spot glob before → (n : ℕ) → 0 < n → n ≤ quiet → InGlob glob (take n before) → ⊥) }
    ensures stays { IsNone result → (glob : Wanted) (before text : List ℕ) → Known spot glob before → take shared before ≡ take shared text → Known spot glob text }
    ensures told { IsNone result → Tells spot true }
{
    match spot {
        Spot::Unjudged => Some(0),
        Spot::Nowhere => Some(shared),
        Spot::Ends(end) => {
            if end <= shared {
                return None;
            }
            Some(shared)
        }
    }
}
