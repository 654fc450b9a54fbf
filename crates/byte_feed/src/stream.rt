//! Fields of a stream. A field is read no further than it is whole: after a fault what was read of it is gone, and
//! nothing after it was handed out.
ghost use Rattle.std.specs.Prelude.{◌^◌, ⊤, None, ◌≡◌, ◌≤◌, ◌<◌, ◌+◌, ◌-◌, ◌↔◌, ◌∷◌, false, length, take, drop, OnOk, IfOk, IsTrue, min};
ghost use Rattle.std.proofs.Common.{lit<};
ghost use Rattle.loc_outside.specs.Causes.{Rose, last_count, stays_below};
ghost use Rattle.byte_feed.specs.Field.{byte_at, ended_at, text_at, IsPlain, IsText};
ghost use Rattle.byte_feed.specs.Feed.{reach, Draws};
ghost use Rattle.byte_feed.specs.Stream.{StreamGives, SkipsKnown, MatchesKnown, IsFault, BreaksAt, is_cut, broken_at as break_of};

use crate::damage::{Break, DamageCause, Stop};
use crate::feed::{Feed, FeedFault, LIMIT};
use loc_outside::Source;
use path_order::PathBuf;

/// Why reading broke off where one could look up to this offset: a byte past it is cut off or too far.
pub fn broken_at(end: u64, stop: Stop) -> Break
    ensures { result ≡ break_of end stop }
{
    match stop {
        Stop::Broken(DamageCause::Cut) if end == LIMIT => Break::TooLarge,
        _ => Break::Stopped(stop),
    }
}

/// The next byte, where one must come.
#[inline(always)]
pub fn read_byte<S: Source>(feed: &mut Feed, src: &mut S) -> Result<u8, Break>
    ensures byte { StreamGives (λ b. b) byte_at feed.old (S.left src.old) feed.new (S.left src.new) result }
    ensures grows { OnOk result (feed.new.offset ≡ feed.old.offset + 1) }
    ensures near { feed.new.offset ≤ feed.old.offset + 1 }
    ensures broke { BreaksAt feed.new result }
    ensures drawn { Draws feed.old feed.new (S.given src.old) (S.given src.new) (S.left src.old) (S.left src.new) }
    ensures held { length feed.new.held ≤ 4096 }
    ensures reach { reach feed.new ≤ 2 ^ 40 }
    ensures fault { IsFault result → Rose (S.faults src.old) (S.faults src.new) }
    ensures later { S.faults src.old ≤ S.faults src.new }
    ensures kept { S.kept src.old src.new }
{
    match feed.next(src) {
        Ok(Some(byte)) => Ok(byte),
        Ok(None) => Err(Break::Stopped(Stop::Broken(DamageCause::Cut))),
        Err(FeedFault::ReadFault) => Err(Break::ReadFault),
        Err(FeedFault::TooLarge) => Err(Break::TooLarge),
    }
}

/// Appends a text that ends at a zero byte, which is skipped, and answers its number of bytes. Where it does not
/// fit into `into`, of at most 4,096 bytes, it is too long.
#[inline(always)]
pub fn read_ended<S: Source>(
    feed: &mut Feed,
    src: &mut S,
    into: &mut PathBuf,
) -> Result<usize, Break>
    ensures text { StreamGives (λ _. drop (length into.old) into.new) (ended_at (4096 - length into.old)) feed.old (S.left src.old) feed.new (S.left src.new) result }
    ensures count { IfOk result (λ n. length into.new ≡ length into.old + n) }
    ensures begins { take (length into.old) into.new ≡ into.old }
    ensures plain { OnOk result (IsPlain (4096 - length into.old) (drop (length into.old) into.new)) }
    ensures grows { IfOk result (λ n. feed.new.offset ≡ feed.old.offset + (n + 1)) }
    ensures near { feed.new.offset + length into.old ≤ feed.old.offset + 4097 }
    ensures broke { BreaksAt feed.new result }
    ensures drawn { Draws feed.old feed.new (S.given src.old) (S.given src.new) (S.left src.old) (S.left src.new) }
    ensures held { length feed.new.held ≤ 4096 }
    ensures reach { reach feed.new ≤ 2 ^ 40 }
    ensures fault { IsFault result → Rose (S.faults src.old) (S.faults src.new) }
    ensures later { S.faults src.old ≤ S.faults src.new }
    ensures kept { S.kept src.old src.new }
{
    match feed.take_held(into) {
        Some(len) => Ok(len),
        None => read_long_ended(feed, src, into),
    }
}

/// The same, byte by byte.
#[cold]
#[inline(never)]
fn read_long_ended<S: Source>(
    feed: &mut Feed,
    src: &mut S,
    into: &mut PathBuf,
) -> Result<usize, Break>
    ensures text { StreamGives (λ _. drop (length into.old) into.new) (ended_at (4096 - length into.old)) feed.old (S.left src.old) feed.new (S.left src.new) result }
    ensures count { IfOk result (λ n. length into.new ≡ length into.old + n) }
    ensures begins { take (length into.old) into.new ≡ into.old }
    ensures plain { OnOk result (IsPlain (4096 - length into.old) (drop (length into.old) into.new)) }
    ensures grows { IfOk result (λ n. feed.new.offset ≡ feed.old.offset + (n + 1)) }
    ensures near { feed.new.offset + length into.old ≤ feed.old.offset + 4097 }
    ensures broke { BreaksAt feed.new result }
    ensures drawn { Draws feed.old feed.new (S.given src.old) (S.given src.new) (S.left src.old) (S.left src.new) }
    ensures held { length feed.new.held ≤ 4096 }
    ensures reach { reach feed.new ≤ 2 ^ 40 }
    ensures fault { IsFault result → Rose (S.faults src.old) (S.faults src.new) }
    ensures later { S.faults src.old ≤ S.faults src.new }
    ensures kept { S.kept src.old src.new }
{
    let start = into.bytes().len();
    'bytes: loop {
        let byte = match read_byte(feed, src) {
            Ok(byte) => byte,
            Err(cause) => return Err(cause),
        };
        if byte == 0 {
            return Ok(into.bytes().len() - start);
        }
        let Ok(()) = into.push_byte(byte) else {
            return Err(Break::Stopped(Stop::Broken(DamageCause::LongPath)));
        };
    }
}

/// Appends a text of at least one byte that ends at a zero byte, which is skipped. Where the zero byte comes at
/// once, `empty` is the cause.
#[inline(always)]
pub fn read_text<S: Source>(
    feed: &mut Feed,
    src: &mut S,
    empty: DamageCause,
    into: &mut PathBuf,
) -> Result<(), Break>
    requires { is_cut (Stop.Broken empty) ≡ false }
    ensures text { StreamGives (λ _. drop (length into.old) into.new) (text_at empty (4096 - length into.old)) feed.old (S.left src.old) feed.new (S.left src.new) result }
    ensures begins { take (length into.old) into.new ≡ into.old }
    ensures plain { OnOk result (IsText (4096 - length into.old) (drop (length into.old) into.new)) }
    ensures grows { OnOk result (feed.new.offset + length into.old ≡ feed.old.offset + (length into.new + 1)) }
    ensures near { feed.new.offset + length into.old ≤ feed.old.offset + 4097 }
    ensures broke { BreaksAt feed.new result }
    ensures drawn { Draws feed.old feed.new (S.given src.old) (S.given src.new) (S.left src.old) (S.left src.new) }
    ensures held { length feed.new.held ≤ 4096 }
    ensures reach { reach feed.new ≤ 2 ^ 40 }
    ensures fault { IsFault result → Rose (S.faults src.old) (S.faults src.new) }
    ensures later { S.faults src.old ≤ S.faults src.new }
    ensures kept { S.kept src.old src.new }
{
    match read_ended(feed, src, into) {
        Ok(0) => Err(Break::Stopped(Stop::Broken(empty))),
        Ok(_) => Ok(()),
        Err(cause) => Err(cause),
    }
}

/// Reads so many bytes, and tells whether they are those expected.
pub fn match_bytes<S: Source>(
    feed: &mut Feed,
    src: &mut S,
    count: u32,
    expected: &[u8],
) -> Result<bool, Break>
    ensures matches { MatchesKnown count expected.now feed.old (S.left src.old) feed.new (S.left src.new) result }
    ensures grows { OnOk result (feed.new.offset ≡ feed.old.offset + count) }
    ensures near { feed.new.offset ≤ feed.old.offset + count }
    ensures broke { BreaksAt feed.new result }
    ensures drawn { Draws feed.old feed.new (S.given src.old) (S.given src.new) (S.left src.old) (S.left src.new) }
    ensures held { length feed.new.held ≤ 4096 }
    ensures reach { reach feed.new ≤ 2 ^ 40 }
    ensures fault { IsFault result → Rose (S.faults src.old) (S.faults src.new) }
    ensures later { S.faults src.old ≤ S.faults src.new }
    ensures kept { S.kept src.old src.new }
{
    let count = count as usize;
    let mut done = 0;
    let mut same = true;
    let _ = feed.offset();
    'pieces: while done < count {
        let byte = match read_byte(feed, src) {
            Ok(byte) => byte,
            Err(cause) => return Err(cause),
        };
        let len = feed.held().len().min(count - done - 1);
        same = continues(same, expected, done, byte, feed.ahead(len));
        feed.pass(len);
        done += len + 1;
    }
    Ok(same && expected.len() == count)
}

/// Whether it was the same so far, and this byte and this piece are expected from this place on.
fn continues(same: bool, expected: &[u8], done: usize, byte: u8, piece: &[u8]) -> bool
    ensures { IsTrue result ↔ (IsTrue same × (take (length piece.now + 1) (drop done expected.now) ≡ byte ∷ piece.now)) }
{
    if !same {
        return false;
    }
    match expected.get(done..) {
        Some(rest) => begins_with(rest, byte, piece),
        None => false,
    }
}

/// Whether these bytes begin with this one and this piece.
fn begins_with(bytes: &[u8], byte: u8, piece: &[u8]) -> bool
    ensures { IsTrue result ↔ (take (length piece.now + 1) bytes.now ≡ byte ∷ piece.now) }
{
    match bytes {
        [first, others @ ..] if *first == byte => others.starts_with(piece),
        _ => false,
    }
}

/// Passes over so many bytes.
pub fn skip_bytes<S: Source>(feed: &mut Feed, src: &mut S, count: u32) -> Result<(), Break>
    ensures skips { SkipsKnown count feed.old (S.left src.old) feed.new (S.left src.new) result }
    ensures grows { OnOk result (feed.new.offset ≡ feed.old.offset + count) }
    ensures near { feed.new.offset ≤ feed.old.offset + count }
    ensures broke { BreaksAt feed.new result }
    ensures drawn { Draws feed.old feed.new (S.given src.old) (S.given src.new) (S.left src.old) (S.left src.new) }
    ensures held { length feed.new.held ≤ 4096 }
    ensures reach { reach feed.new ≤ 2 ^ 40 }
    ensures fault { IsFault result → Rose (S.faults src.old) (S.faults src.new) }
    ensures later { S.faults src.old ≤ S.faults src.new }
    ensures kept { S.kept src.old src.new }
{
    match match_bytes(feed, src, count, &[]) {
        Ok(_) => Ok(()),
        Err(cause) => Err(cause),
    }
}

#[cfg(test)]
mod tests {
    use super::*;
    use crate::{AllFault, Bytes, read_all};
    use loc_outside::Failed;

    /// So many bytes that count up from 1, 0 after 255, at most `step` of them a call. It counts the calls, and keeps how
    /// many bytes the last one asked for.
    #[derive(Drop)]
    struct Drip {
        next: u8,
        left: usize,
        step: usize,
        given: u64,
        calls: u64,
        asked: usize,
    }

    impl Source for Drip {
        ghost left = { λ s. None };

        ghost given = { λ s. min s.given last_count };

        ghost faults = { λ s. 0 };

        ghost kept = { λ s t. ⊤ };

        ghost keeps_itself = { λ s. tt };

        ghost keeps_on = { λ s t u first then. tt };

        ghost given_below = { λ s. stays_below s.given };

        ghost faults_below = { λ s. lit< tt };

        fn read(&mut self, into: &mut [u8]) -> Result<usize, Failed> {
            self.calls = self.calls.saturating_add(1);
            self.asked = into.len();
            let count = self.left.min(self.step).min(into.len());
            let mut next = self.next;
            for i in 0..count {
                into[i] = next;
                next = next.wrapping_add(1);
            }
            self.next = next;
            self.left -= count;
            self.given = self.given.saturating_add(count as u64);
            Ok(count)
        }
    }

    fn counting(left: usize, step: usize) -> Drip {
        Drip {
            next: 1,
            left,
            step,
            given: 0,
            calls: 0,
            asked: 0,
        }
    }

    #[test]
    fn no_byte_at_the_limit(rt: HostRuntime) {
        let mut src = counting(2, 1);
        let mut feed = Feed::new_at(1099511627776);
        assert_eq!(rt; feed.next(&mut src), Err(FeedFault::TooLarge));
        let mut feed = Feed::new_at(1099511627775);
        assert_eq!(rt; feed.next(&mut src), Ok(Some(1)));
        assert_eq!(rt; feed.next(&mut src), Err(FeedFault::TooLarge));
        assert_eq!(rt; feed.offset(), 1099511627776);
        assert_eq!(rt; read_byte(&mut feed, &mut src), Err(Break::TooLarge));
        assert_eq!(rt;
            broken_at(LIMIT, Stop::Broken(DamageCause::Cut)),
            Break::TooLarge
        );
    }

    #[test]
    fn next_asks_once_where_no_byte_is_held(rt: HostRuntime) {
        // The source gives 3 bytes a call: a call of `next` is content with them.
        let mut src = counting(8, 3);
        let mut feed = Feed::new();
        for (byte, calls) in [
            (1, 1),
            (2, 1),
            (3, 1),
            (4, 2),
            (5, 2),
            (6, 2),
            (7, 3),
            (8, 3),
        ] {
            assert_eq!(rt; feed.next(&mut src), Ok(Some(byte)));
            assert_eq!(rt; (src.calls, src.asked), (calls, 4096));
        }
        // One call finds the end, and none comes after it.
        assert_eq!(rt; feed.next(&mut src), Ok(None));
        assert_eq!(rt; (src.calls, src.asked), (4, 4096));
        assert_eq!(rt; feed.next(&mut src), Ok(None));
        assert_eq!(rt; src.calls, 4);
    }

    #[test]
    fn next_asks_for_a_whole_buffer_below_the_limit(rt: HostRuntime) {
        let mut src = counting(5000, 4096);
        let mut feed = Feed::new();
        assert_eq!(rt; skip_bytes(&mut feed, &mut src, 4096), Ok(()));
        assert_eq!(rt; (src.calls, src.asked), (1, 4096));
        assert_eq!(rt; feed.next(&mut src), Ok(Some(1)));
        assert_eq!(rt; (src.calls, src.asked), (2, 4096));
        // Ten bytes below the limit it asks for these alone, and at the limit for none.
        let mut src = counting(20, 4096);
        let mut feed = Feed::new_at(1099511627766);
        assert_eq!(rt; feed.next(&mut src), Ok(Some(1)));
        assert_eq!(rt; (src.calls, src.asked), (1, 10));
        assert_eq!(rt; skip_bytes(&mut feed, &mut src, 9), Ok(()));
        assert_eq!(rt; feed.next(&mut src), Err(FeedFault::TooLarge));
        assert_eq!(rt; src.calls, 1);
    }

    #[test]
    fn look_asks_until_enough_are_held(rt: HostRuntime) {
        // Six calls of 3 bytes hold 18; the last of them has room for 4,096 - 15.
        let mut src = counting(20, 3);
        let mut feed = Feed::new();
        assert_eq!(rt; feed.look(&mut src, 16), Ok(16));
        assert_eq!(rt; (src.calls, src.asked), (6, 4081));
        for want in [16, 1, 0, 18] {
            assert_eq!(rt; feed.look(&mut src, want), Ok(want));
            assert_eq!(rt; src.calls, 6);
        }
        assert_eq!(rt; feed.next(&mut src), Ok(Some(1)));
        assert_eq!(rt; src.calls, 6);
        // 17 are held: two bytes more come, and then the end.
        assert_eq!(rt; feed.look(&mut src, 20), Ok(19));
        assert_eq!(rt; src.calls, 8);
        assert_eq!(rt; feed.look(&mut src, 20), Ok(19));
        assert_eq!(rt; src.calls, 8);
    }

    #[test]
    fn a_look_over_the_end_of_the_buffer(rt: HostRuntime) {
        let mut src = counting(4100, 4096);
        let mut feed = Feed::new();
        assert_eq!(rt; skip_bytes(&mut feed, &mut src, 4090), Ok(()));
        match feed.look(&mut src, 16) {
            Ok(count) => {
                assert!(rt;
                    feed.ahead(count) == [251, 252, 253, 254, 255, 0, 1, 2, 3, 4].as_slice()
                );
                feed.pass(count);
            }
            Err(_) => assert!(rt; false),
        }
        assert_eq!(rt; feed.offset(), 4100);
        assert_eq!(rt; feed.next(&mut src), Ok(None));
    }

    #[test]
    fn texts_byte_by_byte(rt: HostRuntime) {
        let mut src = counting(258, 1);
        let mut feed = Feed::new();
        let mut path = PathBuf::new();
        assert_eq!(rt; read_ended(&mut feed, &mut src, &mut path), Ok(255));
        assert_eq!(rt; path.bytes().len(), 255);
        assert_eq!(rt; feed.offset(), 256);
        let cut = Break::Stopped(Stop::Broken(DamageCause::Cut));
        assert_eq!(rt;
            read_text(&mut feed, &mut src, DamageCause::EmptyName, &mut path),
            Err(cut)
        );
    }

    #[test]
    fn texts_that_are_held(rt: HostRuntime) {
        let mut src = counting(512, 4096);
        let mut feed = Feed::new();
        assert_eq!(rt; read_byte(&mut feed, &mut src), Ok(1));
        let mut path = PathBuf::new();
        assert_eq!(rt;
            read_text(&mut feed, &mut src, DamageCause::EmptyName, &mut path),
            Ok(())
        );
        assert_eq!(rt; path.bytes().len(), 254);
        assert_eq!(rt;
            match_bytes(&mut feed, &mut src, 4, &[1, 2, 3, 4]),
            Ok(true)
        );
        assert_eq!(rt; match_bytes(&mut feed, &mut src, 4, &[5, 6, 7]), Ok(false));
        assert_eq!(rt; feed.offset(), 264);
    }

    #[test]
    fn all_bytes(rt: HostRuntime) {
        let mut src = counting(5000, 4096);
        match read_all(rt.alloc(), &mut src, 5000) {
            Ok(bytes) => {
                let bytes = Bytes::from_vec(bytes.into_vec());
                assert_eq!(rt; bytes.as_slice().len(), 5000);
                assert_eq!(rt; bytes.as_slice().last(), Some(&136));
            }
            Err(_) => assert!(rt; false),
        }
        let mut src = counting(5000, 4096);
        let fault = read_all(rt.alloc(), &mut src, 4999).err();
        assert_eq!(rt; fault, Some(AllFault::TooLong));
        assert_eq!(rt; src.left, 0);
    }
}
