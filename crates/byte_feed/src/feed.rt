//! The bytes of a source, in order.
ghost use Rattle.std.specs.Prelude.{◌≡◌, ◌+◌, ◌-◌, ◌≤◌, ◌<◌, ◌^◌, ◌∷◌, [], ◌++◌, List, ℕ, true, false, length, take, drop, Ok, Err, Some, None, OnOk, OnErr, IfOk, IfSome, IfNone, OnSome, IsNone, IsErrOf, MatchOption, MatchBool, ◌↔◌};
ghost use Rattle.std.specs.Option.{option_to_list};
ghost use Rattle.std.specs.Io.KnownBytes.{Consumes, IsAtEnd};
ghost use Rattle.memchr.specs.Find.{IsFirstByte, is_byte};
ghost use Rattle.loc_outside.specs.Causes.{Rose, HasCause};
ghost use Rattle.loc_outside.specs.Outside.{GivesCount};
ghost use Rattle.byte_feed.specs.Front.{limit};
ghost use Rattle.byte_feed.specs.Feed.{FeedState, TookKnown, Draws, IsAllAhead, empty_at};

use loc_outside::{Failed, Source};
use memchr::memchr;
use path_order::PathBuf;
use std::marker::Model;
use thiserror::Error;

/// The first offset that is not read.
pub const LIMIT: u64 = 1 << 40;

/// Why a feed gave no byte.
#[derive(Clone, Copy, Debug, PartialEq, Eq, Error)]
pub enum FeedFault {
    /// The source failed.
    #[error("ReadFault")]
    ReadFault,
    /// The next byte is at offset 2^40, up to which a file is read.
    #[error("TooLarge")]
    TooLarge,
}

/// The bytes of a source in order, of which at most 4,096 are read ahead. No byte at offset 2^40 or later is read.
#[derive(Drop)]
pub struct Feed {
    buffer: [u8; 4096],
    at: usize,
    end: usize,
    base: u64,
    ended: bool,
}

impl Model for Feed {
    ghost use Rattle.std.specs.Prelude.{◌≤◌, ◌^◌, ◌+◌, take, drop};
    ghost use Rattle.byte_feed.specs.Feed.{FeedState};

    ghost Value = { FeedState };

    ghost view = { λ f. record { offset = f.base + f.at; held = drop f.at (take f.end f.buffer); ended = f.ended } };

    ghost invariant = { λ f. (f.at ≤ f.end) × (f.end ≤ 4096) × (f.base + f.end ≤ 2 ^ 40) };
}

impl Feed {
    /// A feed that holds nothing, whose first byte has offset 0.
    pub fn new() -> Feed
        ensures { result ≡ empty_at 0 }
    {
        Feed::new_at(0)
    }

    /// A feed that holds nothing, whose first byte has this offset.
    pub fn new_at(offset: u64) -> Feed
        requires { offset ≤ 2 ^ 40 }
        ensures { result ≡ empty_at offset }
    {
        Feed {
            buffer: [0; 4096],
            at: 0,
            end: 0,
            base: offset,
            ended: false,
        }
    }

    /// The offset of the next byte.
    #[inline(always)]
    #[tactic(auto, using(crate::proofs::HeldBytes::held_len))]
    pub fn offset(&self) -> u64
        ensures value { result ≡ self.now.offset }
        ensures bound { result + length self.now.held ≤ 2 ^ 40 }
        ensures most { length self.now.held ≤ 4096 }
    {
        self.base + self.at as u64
    }

    /// Reads where no byte is held, below the limit and before the end of the source.
    #[cold]
    #[inline(never)]
    #[tactic(auto, using(crate::proofs::HeldBytes::held_len))]
    fn refill<S: Source>(&mut self, src: &mut S) -> Result<(), FeedFault>
        requires { self.old.held ≡ [] }
        ensures took { TookKnown self.old (S.left src.old) self.new (S.left src.new) [] }
        ensures drawn { Draws self.old self.new (S.given src.old) (S.given src.new) (S.left src.old) (S.left src.new) }
        ensures offset { self.new.offset ≡ self.old.offset }
        ensures refused { OnErr result (self.new ≡ self.old) }
        ensures left { OnErr result (S.left src.new ≡ S.left src.old) }
        ensures ready { OnOk result (self.new.held ≡ [] → self.new.ended ≡ true) }
        ensures limit { self.old.offset ≡ limit → (result ≡ Err FeedFault.TooLarge) × (src.new ≡ src.old) }
        ensures large { IsErrOf result FeedFault.TooLarge → self.old.offset ≡ limit }
        ensures below { OnOk result (self.old.offset < limit) }
        ensures goes_on { IsErrOf result FeedFault.ReadFault → self.new.ended ≡ false }
        ensures last { self.old.ended ≡ true → (self.new ≡ self.old) × (src.new ≡ src.old) }
        ensures ends { self.old.ended ≡ false → self.new.ended ≡ true → IsAtEnd (S.left src.new) }
        ensures bound { self.new.offset + length self.new.held ≤ 2 ^ 40 }
        ensures most { length self.new.held ≤ 4096 }
        ensures fault { IsErrOf result FeedFault.ReadFault → Rose (S.faults src.old) (S.faults src.new) }
        ensures later { S.faults src.old ≤ S.faults src.new }
        ensures kept { S.kept src.old src.new }
    {
        let base = self.base + self.at as u64;
        if base >= LIMIT {
            return Err(FeedFault::TooLarge);
        }
        if self.ended {
            return Ok(());
        }
        let room = (LIMIT - base).min(4096) as usize;
        self.at = 0;
        self.end = 0;
        self.base = base;
        let Ok(count) = read_into(src, &mut self.buffer, 0, room) else {
            return Err(FeedFault::ReadFault);
        };
        self.end = count;
        self.ended = count == 0;
        Ok(())
    }

    /// Reads ahead where no byte is held.
    #[inline(always)]
    #[tactic(auto, using(crate::proofs::HeldBytes::held_len))]
    fn ready<S: Source>(&mut self, src: &mut S) -> Result<(), FeedFault>
        ensures took { TookKnown self.old (S.left src.old) self.new (S.left src.new) [] }
        ensures drawn { Draws self.old self.new (S.given src.old) (S.given src.new) (S.left src.old) (S.left src.new) }
        ensures offset { self.new.offset ≡ self.old.offset }
        ensures held { 0 < length self.old.held → (result ≡ Ok tt) × (self.new ≡ self.old) × (src.new ≡ src.old) }
        ensures empty { OnErr result (self.new.held ≡ []) }
        ensures refused { OnErr result (self.new ≡ self.old) }
        ensures left { OnErr result (S.left src.new ≡ S.left src.old) }
        ensures ready { OnOk result (self.new.held ≡ [] → self.new.ended ≡ true) }
        ensures limit { self.old.offset ≡ limit → (result ≡ Err FeedFault.TooLarge) × (src.new ≡ src.old) }
        ensures large { IsErrOf result FeedFault.TooLarge → self.old.offset ≡ limit }
        ensures below { OnOk result (self.old.offset < limit) }
        ensures goes_on { IsErrOf result FeedFault.ReadFault → self.new.ended ≡ false }
        ensures last { self.old.ended ≡ true → (self.new ≡ self.old) × (src.new ≡ src.old) }
        ensures ends { self.old.ended ≡ false → self.new.ended ≡ true → IsAtEnd (S.left src.new) }
        ensures bound { self.new.offset + length self.new.held ≤ 2 ^ 40 }
        ensures most { length self.new.held ≤ 4096 }
        ensures fault { IsErrOf result FeedFault.ReadFault → Rose (S.faults src.old) (S.faults src.new) }
        ensures later { S.faults src.old ≤ S.faults src.new }
        ensures kept { S.kept src.old src.new }
    {
        if self.at >= self.end {
            return self.refill(src);
        }
        Ok(())
    }

    /// Hands out the first byte that is held.
    #[inline(always)]
    #[tactic(auto, using(crate::proofs::HeldBytes::held_first, crate::proofs::HeldBytes::held_len))]
    fn hand_out(&mut self) -> Option<u8>
        ensures byte { MatchOption result ((self.old.held ≡ []) × (self.new ≡ self.old))
            (λ b. (self.old.held ≡ b ∷ self.new.held) × (self.new.ended ≡ self.old.ended) × (self.new.offset ≡ self.old.offset + 1)) }
        ensures bound { self.new.offset + length self.new.held ≤ 2 ^ 40 }
        ensures most { length self.new.held ≤ 4096 }
    {
        if self.at >= self.end {
            return None;
        }
        let byte = self.buffer[self.at];
        self.at += 1;
        Some(byte)
    }

    /// The next byte; `None` after the last, from then on whatever source is given. A call turns to the source only where
    /// no byte is held, below the limit and before its end. How often it asks then is no clause, since a source counts no
    /// calls: it asks once, for as many bytes as there is room for.
    #[inline(always)]
    pub fn next<S: Source>(&mut self, src: &mut S) -> Result<Option<u8>, FeedFault>
        ensures took { IfOk result (λ o. TookKnown self.old (S.left src.old) self.new (S.left src.new) (option_to_list o)) }
        ensures drawn { Draws self.old self.new (S.given src.old) (S.given src.new) (S.left src.old) (S.left src.new) }
        ensures first { (b : ℕ) (bytes : List ℕ) → self.old.held ≡ b ∷ bytes → (result ≡ Ok (Some b)) × (self.new ≡ record { offset = self.old.offset + 1; held = bytes; ended = self.old.ended }) × (src.new ≡ src.old) }
        ensures end { self.old.held ≡ [] → self.old.ended ≡ true → self.old.offset < limit → (result ≡ Ok None) × (self.new ≡ self.old) × (src.new ≡ src.old) }
        ensures limit { self.old.offset ≡ limit → (result ≡ Err FeedFault.TooLarge) × (self.new ≡ self.old) × (src.new ≡ src.old) }
        ensures large { IsErrOf result FeedFault.TooLarge → self.old.offset ≡ limit }
        ensures offset { IfOk result (λ o. self.new.offset ≡ self.old.offset + length (option_to_list o)) }
        ensures none { IfOk result (λ o. IsNone o → (self.new.held ≡ []) × (self.new.ended ≡ true)) }
        ensures below { OnOk result (self.old.offset < limit) }
        ensures refused { OnErr result (self.new ≡ self.old) }
        ensures left { OnErr result (S.left src.new ≡ S.left src.old) }
        ensures empty { OnErr result (self.new.held ≡ []) }
        ensures goes_on { IsErrOf result FeedFault.ReadFault → self.new.ended ≡ false }
        ensures last { self.old.ended ≡ true → (self.new.ended ≡ true) × (src.new ≡ src.old) }
        ensures ends { self.old.ended ≡ false → self.new.ended ≡ true → IsAtEnd (S.left src.new) }
        ensures bound { self.new.offset + length self.new.held ≤ 2 ^ 40 }
        ensures most { length self.new.held ≤ 4096 }
        ensures fault { IsErrOf result FeedFault.ReadFault → Rose (S.faults src.old) (S.faults src.new) }
        ensures later { S.faults src.old ≤ S.faults src.new }
        ensures kept { S.kept src.old src.new }
    {
        self.ready(src)?;
        Ok(self.hand_out())
    }

    /// Holds further bytes; false where there are none that may be read.
    #[tactic(auto, using(crate::proofs::HeldBytes::held_len))]
    fn read_more<S: Source>(&mut self, src: &mut S) -> Result<bool, FeedFault>
        requires { length self.old.held < 4096 }
        ensures took { TookKnown self.old (S.left src.old) self.new (S.left src.new) [] }
        ensures drawn { Draws self.old self.new (S.given src.old) (S.given src.new) (S.left src.old) (S.left src.new) }
        ensures offset { self.new.offset ≡ self.old.offset }
        ensures begins { take (length self.old.held) self.new.held ≡ self.old.held }
        ensures more { IfOk result (λ b. MatchBool b (length self.old.held < length self.new.held) (IsAllAhead self.new (length self.old.held))) }
        ensures going { OnErr result ((self.old.ended ≡ false) × (self.new.ended ≡ false)) }
        ensures held { OnErr result (length self.new.held ≡ length self.old.held) }
        ensures last { self.old.ended ≡ true → (self.new.ended ≡ true) × (src.new ≡ src.old) }
        ensures ends { self.old.ended ≡ false → self.new.ended ≡ true → IsAtEnd (S.left src.new) }
        ensures bound { self.new.offset + length self.new.held ≤ 2 ^ 40 }
        ensures most { length self.new.held ≤ 4096 }
        ensures only { IsErrOf result FeedFault.TooLarge → ⊥ }
        ensures fault { IsErrOf result FeedFault.ReadFault → Rose (S.faults src.old) (S.faults src.new) }
        ensures later { S.faults src.old ≤ S.faults src.new }
        ensures kept { S.kept src.old src.new }
    {
        let held = self.end - self.at;
        to_front(&mut self.buffer, self.at, self.end);
        self.base += self.at as u64;
        self.at = 0;
        self.end = held;
        if self.ended {
            return Ok(false);
        }
        let room = (LIMIT - self.base - held as u64).min((4096 - held) as u64) as usize;
        if room == 0 {
            return Ok(false);
        }
        let Ok(count) = read_into(src, &mut self.buffer, held, room) else {
            return Err(FeedFault::ReadFault);
        };
        self.end = held + count;
        self.ended = count == 0;
        Ok(count > 0)
    }

    /// Holds so many bytes, or all that may be read.
    #[cold]
    #[inline(never)]
    fn gather<S: Source>(&mut self, src: &mut S, want: usize) -> Result<usize, FeedFault>
        requires { want ≤ 4096 }
        ensures took { TookKnown self.old (S.left src.old) self.new (S.left src.new) [] }
        ensures drawn { Draws self.old self.new (S.given src.old) (S.given src.new) (S.left src.old) (S.left src.new) }
        ensures offset { self.new.offset ≡ self.old.offset }
        ensures begins { take (length self.old.held) self.new.held ≡ self.old.held }
        ensures held { IfOk result (λ n. n ≤ length self.new.held) }
        ensures want { IfOk result (λ n. n ≤ want) }
        ensures all { IfOk result (λ n. n < want → IsAllAhead self.new n) }
        ensures going { OnErr result ((self.old.ended ≡ false) × (self.new.ended ≡ false)) }
        ensures few { OnErr result (length self.new.held < want) }
        ensures last { self.old.ended ≡ true → (self.new.ended ≡ true) × (src.new ≡ src.old) }
        ensures ends { self.old.ended ≡ false → self.new.ended ≡ true → IsAtEnd (S.left src.new) }
        ensures bound { self.new.offset + length self.new.held ≤ 2 ^ 40 }
        ensures most { length self.new.held ≤ 4096 }
        ensures only { IsErrOf result FeedFault.TooLarge → ⊥ }
        ensures fault { IsErrOf result FeedFault.ReadFault → Rose (S.faults src.old) (S.faults src.new) }
        ensures later { S.faults src.old ≤ S.faults src.new }
        ensures kept { S.kept src.old src.new }
    {
        let _ = &self.buffer;
        'reading: while self.held().len() < want {
            let more = match self.read_more(src) {
                Ok(more) => more,
                Err(fault) => return Err(fault),
            };
            if !more {
                return Ok(self.held().len());
            }
        }
        Ok(want)
    }

    /// How many of the next `want` bytes may be handed out; that many are held then. There are fewer where the source
    /// ends or the limit comes before. A call turns to the source only where fewer are held, and not after its end. How
    /// often it asks then is no clause: it asks until enough are held, each time for as many bytes as there is room for.
    #[inline(always)]
    pub fn look<S: Source>(&mut self, src: &mut S, want: usize) -> Result<usize, FeedFault>
        requires { want ≤ 4096 }
        ensures took { TookKnown self.old (S.left src.old) self.new (S.left src.new) [] }
        ensures drawn { Draws self.old self.new (S.given src.old) (S.given src.new) (S.left src.old) (S.left src.new) }
        ensures enough { want ≤ length self.old.held → (result ≡ Ok want) × (self.new ≡ self.old) × (src.new ≡ src.old) }
        ensures offset { self.new.offset ≡ self.old.offset }
        ensures begins { take (length self.old.held) self.new.held ≡ self.old.held }
        ensures held { IfOk result (λ n. n ≤ length self.new.held) }
        ensures want { IfOk result (λ n. n ≤ want) }
        ensures all { IfOk result (λ n. n < want → IsAllAhead self.new n) }
        ensures going { OnErr result ((self.old.ended ≡ false) × (self.new.ended ≡ false)) }
        ensures few { OnErr result (length self.new.held < want) }
        ensures last { self.old.ended ≡ true → (self.new.ended ≡ true) × (src.new ≡ src.old) }
        ensures ends { self.old.ended ≡ false → self.new.ended ≡ true → IsAtEnd (S.left src.new) }
        ensures bound { self.new.offset + length self.new.held ≤ 2 ^ 40 }
        ensures most { length self.new.held ≤ 4096 }
        ensures only { IsErrOf result FeedFault.TooLarge → ⊥ }
        ensures fault { IsErrOf result FeedFault.ReadFault → Rose (S.faults src.old) (S.faults src.new) }
        ensures later { S.faults src.old ≤ S.faults src.new }
        ensures kept { S.kept src.old src.new }
    {
        if self.held().len() >= want {
            return Ok(want);
        }
        self.gather(src, want)
    }

    /// The bytes that are held.
    #[inline(always)]
    #[tactic(auto, using(crate::proofs::HeldBytes::held_len))]
    pub fn held(&self) -> &[u8]
        ensures value { result.now ≡ self.now.held }
        ensures bound { self.now.offset + length self.now.held ≤ 2 ^ 40 }
        ensures most { length self.now.held ≤ 4096 }
    {
        &self.buffer[self.at..self.end]
    }

    /// The next bytes, of which so many are held.
    #[inline(always)]
    pub fn ahead(&self, count: usize) -> &[u8]
        requires { count ≤ length self.now.held }
        ensures { result.now ≡ take count self.now.held }
    {
        &self.held()[..count]
    }

    /// Hands out so many bytes that are held.
    #[inline(always)]
    #[tactic(auto, using(crate::proofs::HeldBytes::held_more, crate::proofs::HeldBytes::held_len))]
    pub fn pass(&mut self, count: usize)
        requires { count ≤ length self.old.held }
        ensures held { self.new.held ≡ drop count self.old.held }
        ensures ended { self.new.ended ≡ self.old.ended }
        ensures offset { self.new.offset ≡ self.old.offset + count }
        ensures bound { self.new.offset + length self.new.held ≤ 2 ^ 40 }
        ensures most { length self.new.held ≤ 4096 }
    {
        self.at += count;
    }

    /// Appends the bytes that are held before the first zero byte, and hands out them and it. Where no zero byte is
    /// held, or there is no room, the answer is `None` and nothing changes.
    #[inline(always)]
    pub fn take_held(&mut self, into: &mut PathBuf) -> Option<usize>
        ensures some { IfSome result (λ n. (into.new ≡ into.old ++ take n self.old.held) × (self.new.held ≡ drop (n + 1) self.old.held)) }
        ensures first { OnSome result (IsFirstByte (is_byte 0) self.old.held result) }
        ensures offset { IfSome result (λ n. self.new.offset ≡ self.old.offset + (n + 1)) }
        ensures fits { OnSome result (length into.new ≤ 4096) }
        ensures ended { self.new.ended ≡ self.old.ended }
        ensures none { IfNone result ((into.new ≡ into.old) × (self.new ≡ self.old)) }
        ensures why { IfNone result ((n : ℕ) → IsFirstByte (is_byte 0) self.old.held (Some n) → 4096 < length into.old + n) }
        ensures bound { self.new.offset + length self.new.held ≤ 2 ^ 40 }
        ensures most { length self.new.held ≤ 4096 }
    {
        let held = self.held();
        let Some(len) = memchr(0, held) else {
            return None;
        };
        if into.append(&held[..len]).is_err() {
            return None;
        }
        self.pass(len + 1);
        Some(len)
    }
}

/// Moves a part of the buffer to its front.
fn to_front(buffer: &mut [u8], at: usize, end: usize)
    requires ordered { at ≤ end }
    requires within { end ≤ length buffer.old }
    ensures len { length buffer.new ≡ length buffer.old }
    ensures moved { take (end - at) buffer.new ≡ drop at (take end buffer.old) }
{
    buffer.copy_within(at..end, 0);
}

/// Reads at most `room` bytes into the buffer from this place on.
pub(crate) fn read_into<S: Source>(
    src: &mut S,
    buffer: &mut [u8],
    from: usize,
    room: usize,
) -> Result<usize, Failed>
    requires room { from + room ≤ length buffer.old }
    requires some { 0 < room }
    ensures bound { IfOk result (λ n. n ≤ room) }
    ensures len { length buffer.new ≡ length buffer.old }
    ensures before { take from buffer.new ≡ take from buffer.old }
    ensures bytes { IfOk result (λ n. Consumes (S.left src.old) (S.left src.new) (take n (drop from buffer.new)) × (n ≡ 0 → IsAtEnd (S.left src.new))) }
    ensures err { OnErr result (S.left src.new ≡ S.left src.old) }
    ensures given { GivesCount (S.given src.old) (S.given src.new) result }
    ensures cause { HasCause (S.faults src.old) (S.faults src.new) result }
    ensures kept { S.kept src.old src.new }
{
    src.read(&mut buffer[from..from + room])
}
