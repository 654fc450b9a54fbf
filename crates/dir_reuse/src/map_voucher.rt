//! A voucher that keeps all records of an old database.
ghost use Rattle.std.specs.Prelude.{◌≡◌, ◌≤◌, [], ◌∷◌, ◌++◌, IfOk, IsTrue, MatchBool, Ok, Some, true, false, refl};
ghost use Rattle.std.proofs.Common.{◌∙◌};
ghost use Rattle.loc_outside.specs.Causes.{Rose};
ghost use Rattle.tree_scan.specs.Plans.{plan_of};
ghost use Rattle.tree_scan.specs.Records.{Fitting, Vouches, is_vouched};
ghost use Rattle.dir_reuse.specs.Keeping.{AllKept};

use crate::cursor::Cursor;
use crate::kept::{Kept, first_that_vouches};
use loc_outside::Source;
use path_order::{NameList, Stamp};
use std::alloc::{AllocError, Global};
use std::marker::Model;
use tree_scan::{Rules, Voucher};

/// The records of an old database, all read at once. It may be asked in any order, and asks the source nothing more.
/// A contract sees the records, and whether no read has failed.
#[derive(Drop)]
pub struct MapVoucher {
    kept: Vec<Kept>,
    unbroken: bool,
}

impl Model for MapVoucher {
    ghost use Rattle.dir_reuse.specs.Keeping.{KeptRecords};

    ghost Value = { KeptRecords };

    ghost view = { λ voucher. record { records = voucher.kept.items; unbroken = voucher.unbroken } };
}

impl MapVoucher {
    /// Reads the old database that is left in the source, up to its end, to the first damage or to a read that fails.
    /// Its records can vouch only where its root is that of the rules and its configuration block is this one, which is
    /// theirs. After a read that failed, some of them are kept.
    pub fn open_on<S: Source>(
        alloc: Global,
        src: &mut S,
        rules: &Rules,
        block: &[u8],
    ) -> Result<MapVoucher, AllocError>
        requires { block.now ≡ (plan_of rules.now).block }
        ensures records { IfOk result (λ voucher. AllKept (plan_of rules.now).root block.now (S.left src.old) voucher.records voucher.unbroken) }
        ensures broke { IfOk result (λ voucher. voucher.unbroken ≡ false → Rose (S.faults src.old) (S.faults src.new)) }
        ensures later { S.faults src.old ≤ S.faults src.new }
        ensures kept { S.kept src.old src.new }
    {
        let mut cursor = Cursor::open_on(src, rules.root.bytes(), block);
        let mut kept = Vec::new(alloc);
        'heads: while cursor.next_head(src) {
            let found = cursor.take_record(alloc, src)?;
            match found {
                Some(record) => kept.push(record)?,
                None => {}
            }
        }
        let unbroken = cursor.unbroken;
        Ok(MapVoucher { kept, unbroken })
    }

    /// Whether a record vouches for the directory. If so, `into` holds its names, else it is empty.
    fn answer(
        &self,
        dir: &[u8],
        stamp: Stamp,
        device: u32,
        into: &mut NameList,
    ) -> Result<bool, AllocError>
        ensures vouches { IfOk result (λ vouched. MatchBool vouched (Vouches self.now.records dir.now stamp device into.new) (into.new ≡ [])) }
        ensures none { result ≡ Ok false → is_vouched self.now.records dir.now stamp device ≡ false }
        ensures fitting { result ≡ Ok true → Fitting dir.now into.new }
    {
        into.clear();
        match first_that_vouches(&self.kept, dir, stamp, device) {
            Some(at) => {
                self.kept[at].hand_out(into)?;
                Ok(true)
            }
            None => Ok(false),
        }
    }
}

impl Voucher for MapVoucher {
    ghost records = { λ v. Some v.records };

    ghost unbroken = { λ v. v.unbroken };

    ghost ordered = { λ v. true };

    ghost sound = { λ v. true };

    ghost reach = { λ v dir w. w ≡ v };

    ghost kept = { λ v w. w ≡ v };

    fn vouch(
        &mut self,
        dir: &[u8],
        stamp: Stamp,
        device: u32,
        into: &mut NameList,
    ) -> Result<bool, AllocError> {
        self.answer(dir, stamp, device, into)
    }

    ghost keeps_itself = { λ s. refl };

    ghost keeps_on = { λ s t u first then. then ∙ first };
}
