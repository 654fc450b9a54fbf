//! Streams of paths.
ghost use Rattle.std.specs.Prelude.{◌≡◌, ◌<◌, ◌≤◌, ◌^◌, ◌∷◌, [], ℕ, Bool, Option, false, Ok, Err, IfErr, OnOk, IsTrue, IsErrOf, is_ok};
ghost use Rattle.loc_outside.specs.Causes.{Rose};
ghost use Rattle.byte_feed.specs.Front.{Window};
ghost use Rattle.byte_feed.specs.Feed.{FeedState};
ghost use Rattle.byte_feed.specs.Endings.{StopsAt};
ghost use Rattle.byte_feed.specs.Paths.{PathAt, ToCome, after_paths, no_paths};
ghost use Rattle.byte_feed.specs.Calls.{MovedKnown, EndsKnown, PreambleKnown, NoPreambleKnown, ReadsAhead, PlaceBehind, PlaceMoves, IsFound, Shares, is_found};

use crate::damage::DbFault;
use loc_outside::Source;

/// The paths of a database, one after another. Its file is the bytes that its feed holds, and those left in the source
/// unless that has ended for this feed. What a clause says of paths holds where the source tells its bytes.
pub trait PathStream {
    /// What was read ahead.
    ghost feed: { Self → FeedState };

    /// The length of the file's preamble, and whether its paths are shown only to those who may list their directories,
    /// where it is whole. It is mlocate's header, LOCATE02's first entry or the table of pairs.
    ghost preamble: { Self → Window → Option (ℕ × Bool) };

    /// The paths still to come, and how the file ends after them.
    ghost to_come: { Self → Window → ToCome };

    /// Whether nothing was read yet.
    ghost is_fresh: { Self → Bool };

    /// Whether a path can be asked for.
    ghost is_live: { Self → Bool };

    /// Whether the paths are shown only to those who may list their directories.
    ghost is_gated: { Self → Bool };

    /// The path that was found last, until the next is asked for.
    ghost found: { Self → PathAt };

    /// The number of its first bytes that are known to be those of the path in hand before.
    ghost shares: { Self → ℕ };

    /// The number of bytes in the whole items so far.
    ghost stored: { Self → ℕ };

    /// The number of directory heads among them.
    ghost heads_read: { Self → ℕ };

    /// Reads the preamble. It is refused where that is not whole.
    fn begin_paths<S: Source>(&mut self, src: &mut S) -> Result<(), DbFault>
        requires { IsTrue (is_fresh self.old) }
        ensures preamble { OnOk result (PreambleKnown (preamble self.old) (feed self.old) (S.left src.old) (stored self.new) (is_gated self.new)) }
        ensures ok { OnOk result (MovedKnown (to_come self.old) (to_come self.new) (λ t. t) (feed self.old) (S.left src.old) (feed self.new) (S.left src.new)) }
        ensures refused { IfErr result (λ e. NoPreambleKnown (preamble self.old) (feed self.old) (S.left src.old) (S.left src.new) e) }
        ensures err { IfErr result (λ e. EndsKnown (to_come self.old) (no_paths 0 0) (feed self.old) (S.left src.old) (S.left src.new) (Err e)) }
        ensures stops { IfErr result (λ e. StopsAt (feed self.new) 0 (Err e)) }
        ensures place { PlaceBehind result (stored self.new) (heads_read self.new) }
        ensures live { is_live self.new ≡ is_ok result }
        ensures spent { is_fresh self.new ≡ false }
        ensures ahead { ReadsAhead (feed self.old) (feed self.new) (S.given src.old) (S.given src.new) (S.left src.old) (S.left src.new) }
        ensures fault { IsErrOf result DbFault.ReadFault → Rose (S.faults src.old) (S.faults src.new) }
        ensures later { S.faults src.old ≤ S.faults src.new }
        ensures kept { S.kept src.old src.new };

    /// Finds the next path; false where the file has ended whole. After false and after any fault no further path can
    /// be asked for.
    fn next_path<S: Source>(&mut self, src: &mut S) -> Result<bool, DbFault>
        requires { IsTrue (is_live self.old) }
        ensures path { IsTrue (is_found result) → MovedKnown (to_come self.old) (to_come self.new) (after_paths (found self.new ∷ [])) (feed self.old) (S.left src.old) (feed self.new) (S.left src.new) }
        ensures end { result ≡ Ok false → EndsKnown (to_come self.old) (no_paths (stored self.new) (heads_read self.new)) (feed self.old) (S.left src.old) (S.left src.new) (Ok tt) }
        ensures err { IfErr result (λ e. EndsKnown (to_come self.old) (no_paths (stored self.new) (heads_read self.new)) (feed self.old) (S.left src.old) (S.left src.new) (Err e)) }
        ensures whole { result ≡ Ok false → StopsAt (feed self.new) (stored self.new) (Ok tt) }
        ensures stops { IfErr result (λ e. StopsAt (feed self.new) (stored self.new) (Err e)) }
        ensures found { IsTrue (is_found result) → IsFound (found self.new) (stored self.new) (heads_read self.new) }
        ensures shares { IsTrue (is_found result) → Shares (shares self.new) (found self.old).text (found self.new).text }
        ensures grows { IsTrue (is_found result) → stored self.old < stored self.new }
        ensures place { PlaceMoves (feed self.new) (stored self.old) (stored self.new) (heads_read self.new) }
        ensures gate { is_gated self.new ≡ is_gated self.old }
        ensures live { is_live self.new ≡ is_found result }
        ensures ahead { ReadsAhead (feed self.old) (feed self.new) (S.given src.old) (S.given src.new) (S.left src.old) (S.left src.new) }
        ensures fault { IsErrOf result DbFault.ReadFault → Rose (S.faults src.old) (S.faults src.new) }
        ensures later { S.faults src.old ≤ S.faults src.new }
        ensures kept { S.kept src.old src.new };

    /// The path that was found last. It is of no use once a further one was asked for and not found.
    fn path(&self) -> &[u8]
        ensures { result.now ≡ (found self.now).text };

    /// The length of its directory's path, or of the text before its base name where the format has no directories.
    fn dir_len(&self) -> usize
        ensures { result ≡ (found self.now).dir_len };

    /// The number of the path's first bytes that are known to be those of the path in hand before it was asked for: the prefix
    /// length of LOCATE02 and of a bigram database, the length of the directory's path within a block of mlocate's. It may be
    /// less than the two have in common.
    fn shared(&self) -> usize
        ensures { result ≡ shares self.now };

    /// Whether the paths are shown only to those who may list their directories.
    fn asks_gate(&self) -> bool
        ensures { result ≡ is_gated self.now };

    /// Whether a path can be asked for.
    fn live(&self) -> bool
        ensures { result ≡ is_live self.now };

    /// The number of bytes in the whole items so far.
    fn place(&self) -> u64
        ensures value { result ≡ stored self.now }
        ensures bound { result ≤ 2 ^ 40 };

    /// The number of directory heads among them, 0 where the format has none.
    fn heads(&self) -> u64
        ensures { result ≡ heads_read self.now };
}
