//! Moments.
ghost use Rattle.std.specs.Prelude.{◌≡◌, ◌<◌, ◌↔◌, IsSome, IfSome};
ghost use Rattle.path_order.specs.Stamp.{Moment, later_of, is_recent as recent};

use std::marker::Model;

/// A moment in seconds and nanoseconds, of which there are fewer than 1,000,000,000. Moments are ordered by time.
/// A contract sees it as the record of both.
#[derive(Clone, Copy, Debug, PartialEq, Eq, PartialOrd, Ord)]
pub struct Stamp {
    seconds: u64,
    nanos: u32,
}

impl Model for Stamp {
    ghost use Rattle.std.specs.Prelude.{◌<◌};
    ghost use Rattle.path_order.specs.Stamp.{Moment};

    ghost Value = { Moment };

    ghost view = { λ stamp. record { seconds = stamp.seconds; nanos = stamp.nanos } };

    ghost invariant = { λ stamp. stamp.nanos < 1000000000 };

    ghost inverse = { λ moment. record { seconds = moment.seconds; nanos = moment.nanos } };
}

impl Stamp {
    /// The moment of these seconds and nanoseconds, or None where the nanoseconds make a second or more.
    pub fn new(seconds: u64, nanos: u32) -> Option<Stamp>
        ensures variant { IsSome result ↔ (nanos < 1000000000) }
        ensures value { IfSome result (λ stamp. (stamp.seconds ≡ seconds) × (stamp.nanos ≡ nanos)) }
    {
        if nanos < 1_000_000_000 {
            Some(Stamp { seconds, nanos })
        } else {
            None
        }
    }

    /// The zero stamp, whose parts are both 0.
    pub fn zero() -> Stamp
        ensures { result ≡ record { seconds = 0; nanos = 0 } }
    {
        Stamp {
            seconds: 0,
            nanos: 0,
        }
    }

    /// The whole seconds.
    pub fn seconds(&self) -> u64
        ensures { result ≡ self.now.seconds }
    {
        self.seconds
    }

    /// What is left over, in nanoseconds.
    pub fn nanos(&self) -> u32
        ensures value { result ≡ self.now.nanos }
        ensures small { result < 1000000000 }
    {
        self.nanos
    }
}

/// The later of two moments.
pub fn later(a: Stamp, b: Stamp) -> Stamp
    ensures { result ≡ later_of a b }
{
    if a < b { b } else { a }
}

/// Whether the stamp and `margin` seconds more are at least the moment `now`, as whole numbers without a greatest value.
pub fn is_recent(stamp: Stamp, now: Stamp, margin: u16) -> bool
    ensures { result ≡ recent stamp now margin }
{
    match stamp.seconds.checked_add(u64::from(margin)) {
        Some(seconds) => {
            seconds > now.seconds || (seconds == now.seconds && stamp.nanos >= now.nanos)
        }
        None => true,
    }
}

#[cfg(test)]
mod tests {
    use super::*;

    // Three seconds before, a nanosecond earlier, and where the sum passes the greatest second.
    #[test]
    fn recency_at_its_edges(rt: HostRuntime) {
        let cases = [
            (997, 5, 1_000, 5, true),
            (997, 4, 1_000, 5, false),
            (998, 0, 1_000, 5, true),
            (u64::MAX, 0, u64::MAX, 7, true),
            (u64::MAX - 3, 6, u64::MAX, 7, false),
        ];
        for (seconds, nanos, now, rest, want) in cases {
            let stamp = Stamp::new(seconds, nanos).unwrap_or(Stamp::zero());
            let now = Stamp::new(now, rest).unwrap_or(Stamp::zero());
            assert_eq!(rt; is_recent(stamp, now, 3), want);
        }
    }

    #[test]
    fn the_later_moment(rt: HostRuntime) {
        let late = Stamp::new(7, 999_999_999).unwrap_or(Stamp::zero());
        assert_eq!(rt; later(late, Stamp::zero()), late);
        assert_eq!(rt; (late.seconds(), late.nanos()), (7, 999_999_999));
    }
}
