//! A path of a stream.
ghost use Rattle.std.specs.Prelude.{◌≡◌, ◌≢◌, ◌+◌, ◌≤◌, ◌<◌, ◌^◌, ◌++◌, [], length, take, slice_index, true, false, Ok, IsTrue, IfSome, All};
ghost use Rattle.loc_outside.specs.Causes.{Rose};
ghost use Rattle.byte_feed.specs.Calls.{is_found};
ghost use Rattle.byte_feed.specs.Feed.{reach, Draws};
ghost use Rattle.byte_feed.specs.Stream.{IsFault, BreaksAt};
ghost use Rattle.path_list.specs.Items.{IsListed, marked};
ghost use Rattle.path_list.specs.Streams.{PathKnown};

use byte_feed::{Break, DamageCause, Feed, FeedFault, Stop};
use loc_outside::Source;
use memchr::{memchr, memchr2};
use path_order::PathBuf;

/// Puts the next path in place of the one before; false where the file has ended.
#[inline(always)]
pub(crate) fn read_path<S: Source>(
    feed: &mut Feed,
    src: &mut S,
    mark: u8,
    path: &mut PathBuf,
) -> Result<bool, Break>
    ensures path { PathKnown mark path.new feed.old (S.left src.old) feed.new (S.left src.new) result }
    ensures listed { IsTrue (is_found result) → IsListed mark path.new }
    ensures end { result ≡ Ok false → (feed.new.held ≡ []) × (feed.new.ended ≡ true) }
    ensures grows { IsTrue (is_found result) → feed.old.offset < feed.new.offset }
    ensures near { feed.new.offset ≤ feed.old.offset + 4097 }
    ensures broke { BreaksAt feed.new result }
    ensures drawn { Draws feed.old feed.new (S.given src.old) (S.given src.new) (S.left src.old) (S.left src.new) }
    ensures held { length feed.new.held ≤ 4096 }
    ensures reach { reach feed.new ≤ 2 ^ 40 }
    ensures fault { IsFault result → Rose (S.faults src.old) (S.faults src.new) }
    ensures later { S.faults src.old ≤ S.faults src.new }
    ensures kept { S.kept src.old src.new }
{
    path.cut(0);
    if take_held(feed, mark, path) {
        return Ok(true);
    }
    read_long_path(feed, src, mark, path)
}

/// Whether a text without the mark has no zero byte.
#[inline(always)]
fn is_plain(mark: u8, text: &[u8]) -> bool
    requires { All (λ b. b ≢ mark) text.now }
    ensures { IsTrue result → All (λ b. 0 < b) text.now }
{
    mark == 0 || memchr(0, text).is_none()
}

/// Most paths end in so many bytes. The library's search for two bytes is fast in so few, and slow in many.
const NEAR: usize = 128;

/// The length of the text before the first mark, where that comes soon and no zero byte comes before it.
#[inline(always)]
fn len_near(mark: u8, bytes: &[u8]) -> Option<usize>
    ensures mark { IfSome result (λ n. (n < length bytes.now) × (slice_index bytes.now n ≡ mark)) }
    ensures bare { IfSome result (λ n. All (λ b. b ≢ mark) (take n bytes.now)) }
    ensures plain { IfSome result (λ n. All (λ b. 0 < b) (take n bytes.now)) }
{
    let near = &bytes[..bytes.len().min(NEAR)];
    let Some(len) = memchr2(mark, 0, near) else {
        return None;
    };
    if near[len] != mark {
        return None;
    }
    Some(len)
}

/// The same of a mark anywhere.
fn len_far(mark: u8, bytes: &[u8]) -> Option<usize>
    ensures mark { IfSome result (λ n. (n < length bytes.now) × (slice_index bytes.now n ≡ mark)) }
    ensures bare { IfSome result (λ n. All (λ b. b ≢ mark) (take n bytes.now)) }
    ensures plain { IfSome result (λ n. All (λ b. 0 < b) (take n bytes.now)) }
{
    let Some(len) = memchr(mark, bytes) else {
        return None;
    };
    if is_plain(mark, &bytes[..len]) {
        return Some(len);
    }
    None
}

/// The length of the text before the first mark, where that has no zero byte.
#[inline(always)]
fn len_before(mark: u8, bytes: &[u8]) -> Option<usize>
    ensures mark { IfSome result (λ n. (n < length bytes.now) × (slice_index bytes.now n ≡ mark)) }
    ensures bare { IfSome result (λ n. All (λ b. b ≢ mark) (take n bytes.now)) }
    ensures plain { IfSome result (λ n. All (λ b. 0 < b) (take n bytes.now)) }
{
    match len_near(mark, bytes) {
        Some(len) => Some(len),
        None => len_far(mark, bytes),
    }
}

/// Appends a path that is held with its mark, and hands both out. Where no such path is held, nothing changes.
#[inline(always)]
fn take_held(feed: &mut Feed, mark: u8, path: &mut PathBuf) -> bool
    requires { path.old ≡ [] }
    ensures took { IsTrue result → IsListed mark path.new × (feed.old.held ≡ marked mark path.new ++ feed.new.held) }
    ensures offset { IsTrue result → feed.new.offset ≡ feed.old.offset + (length path.new + 1) }
    ensures ended { feed.new.ended ≡ feed.old.ended }
    ensures none { result ≡ false → (feed.new ≡ feed.old) × (path.new ≡ []) }
    ensures bound { feed.new.offset + length feed.new.held ≤ 2 ^ 40 }
    ensures most { length feed.new.held ≤ 4096 }
{
    let held = feed.held();
    let Some(len) = len_before(mark, held) else {
        return false;
    };
    if len == 0 {
        return false;
    }
    if path.append(&held[..len]).is_err() {
        return false;
    }
    feed.pass(len + 1);
    true
}

/// The same byte by byte, over the edge of what is held. It finds the rule that is broken.
#[cold]
#[inline(never)]
fn read_long_path<S: Source>(
    feed: &mut Feed,
    src: &mut S,
    mark: u8,
    path: &mut PathBuf,
) -> Result<bool, Break>
    requires { path.old ≡ [] }
    ensures path { PathKnown mark path.new feed.old (S.left src.old) feed.new (S.left src.new) result }
    ensures listed { IsTrue (is_found result) → IsListed mark path.new }
    ensures end { result ≡ Ok false → (feed.new.held ≡ []) × (feed.new.ended ≡ true) }
    ensures grows { IsTrue (is_found result) → feed.old.offset < feed.new.offset }
    ensures near { feed.new.offset ≤ feed.old.offset + 4097 }
    ensures broke { BreaksAt feed.new result }
    ensures drawn { Draws feed.old feed.new (S.given src.old) (S.given src.new) (S.left src.old) (S.left src.new) }
    ensures held { length feed.new.held ≤ 4096 }
    ensures reach { reach feed.new ≤ 2 ^ 40 }
    ensures fault { IsFault result → Rose (S.faults src.old) (S.faults src.new) }
    ensures later { S.faults src.old ≤ S.faults src.new }
    ensures kept { S.kept src.old src.new }
{
    let _ = feed.offset();
    'bytes: loop {
        let byte = match feed.next(src) {
            Ok(Some(byte)) => byte,
            Ok(None) => return Ok(!path.bytes().is_empty()),
            Err(FeedFault::ReadFault) => return Err(Break::ReadFault),
            Err(FeedFault::TooLarge) => return Err(Break::TooLarge),
        };
        if byte == mark {
            if path.bytes().is_empty() {
                return Err(Break::Stopped(Stop::Broken(DamageCause::EmptyPath)));
            }
            return Ok(true);
        }
        if byte == 0 {
            return Err(Break::Stopped(Stop::Broken(DamageCause::ZeroChar)));
        }
        let Ok(()) = path.push_byte(byte) else {
            return Err(Break::Stopped(Stop::Broken(DamageCause::LongPath)));
        };
    }
}
