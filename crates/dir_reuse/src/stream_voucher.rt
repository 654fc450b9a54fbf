//! A voucher that reads an old database once, forward only.
ghost use Rattle.std.specs.Prelude.{◌≡◌, ◌≤◌, ◌+◌, IsTrue, true, false, refl};
ghost use Rattle.std.proofs.Common.{◌∙◌};
ghost use Rattle.loc_outside.specs.Causes.{Rose};
ghost use Rattle.dir_reuse.specs.Answering.{ReadsNear, is_sound};
ghost use Rattle.byte_feed.specs.Feed.{Draws, empty_at, reach};
ghost use Rattle.mlocate_db.specs.Reader.{is_live};
ghost use Rattle.tree_scan.specs.Plans.{plan_of};
ghost use Rattle.dir_reuse.specs.Stream.{HeaderReadKnown, OpensKnown, ReadsOn, known, is_known_ordered};
ghost use Rattle.dir_reuse.specs.ReadingOn.{reads_none, reads_then};

use crate::cursor::Cursor;
use loc_outside::Source;
use path_order::{NameList, Stamp};
use std::alloc::AllocError;
use tree_scan::{Rules, Voucher};

/// The records of an old database, read forward only while directories are asked for in path order. It borrows the
/// source, holds one path and one buffer, and takes no memory of its own.
#[derive(Drop)]
pub struct StreamVoucher<'a, S> {
    src: &'a mut S,
    cursor: Cursor,
}

impl<'a, S: Source> StreamVoucher<'a, S> {
    /// Reads the header of the old database that is left in the source. Its records can vouch only where its root is that
    /// of the rules and its configuration block is this one, which is theirs.
    pub fn open_on(src: &'a mut S, rules: &Rules, block: &[u8]) -> StreamVoucher<'a, S>
        requires { block.now ≡ (plan_of rules.now).block }
        ensures same { result.src.ghost_name ≡ src.entry.ghost_name }
        ensures opened { OpensKnown (plan_of rules.now).root block.now (S.left src.old) result.cursor (S.left result.src.now) }
        ensures header { HeaderReadKnown (plan_of rules.now).root block.now (S.left src.old) result.cursor }
        ensures sound { IsTrue (is_sound result.cursor) }
        ensures broke { result.cursor.unbroken ≡ false → Rose (S.faults src.old) (S.faults result.src.now) }
        ensures drawn { Draws (empty_at 0) result.cursor.reader.feed (S.given src.old) (S.given result.src.now) (S.left src.old) (S.left result.src.now) }
        ensures near { is_live result.cursor.reader.stage ≡ true → reach result.cursor.reader.feed ≤ result.cursor.reader.place + 4096 }
        ensures later { S.faults src.old ≤ S.faults result.src.now }
        ensures kept { S.kept src.old result.src.now }
    {
        let cursor = Cursor::open_on(src, rules.root.bytes(), block);
        StreamVoucher { src, cursor }
    }
}

impl<S: Source> Voucher for StreamVoucher<'_, S> {
    ghost records = { λ v. known v.cursor (S.left v.src.now) };

    ghost unbroken = { λ v. v.cursor.unbroken };

    ghost ordered = { λ v. is_known_ordered v.cursor (S.left v.src.now) };

    ghost sound = { λ v. is_sound v.cursor };

    ghost reach = { λ v dir w. ReadsNear dir v.cursor (S.left v.src.now) w.cursor };

    ghost kept = { λ v w. (w.src.ghost_name ≡ v.src.ghost_name) × S.kept v.src.now w.src.now × ReadsOn v.cursor w.cursor (S.faults v.src.now) (S.faults w.src.now) (S.given v.src.now) (S.given w.src.now) (S.left v.src.now) (S.left w.src.now) };

    fn vouch(
        &mut self,
        dir: &[u8],
        stamp: Stamp,
        device: u32,
        into: &mut NameList,
    ) -> Result<bool, AllocError> {
        self.cursor.vouch(self.src, dir, stamp, device, into)
    }

    ghost keeps_itself = { λ s. (refl, S.keeps_itself s.src.now, reads_none s.cursor (S.faults s.src.now) (S.given s.src.now) (S.left s.src.now)) };

    ghost keeps_on = { λ s t u first then. (
      then.0 ∙ first.0,
      S.keeps_on s.src.now t.src.now u.src.now first.1 then.1,
      reads_then s.cursor t.cursor u.cursor (S.faults s.src.now) (S.faults t.src.now) (S.faults u.src.now) (S.given s.src.now) (S.given t.src.now) (S.given u.src.now) (S.left s.src.now) (S.left t.src.now) (S.left u.src.now) first.2 then.2,
    ) };
}
