//! Old records that vouch for directories.
ghost use Rattle.std.specs.Prelude.{◌≡◌, ◌↔◌, [], IfOk, OnOk, IfSome, MatchBool, IsTrue, IsOk, Ok, Err, Result, false, true, Some};
ghost use Rattle.tree_scan.specs.Records.{Record, Vouches, Fitting, Leaves, is_vouched};

use path_order::{NameList, Stamp};
use std::alloc::AllocError;

/// Records of directories from an earlier scan. A record *vouches* for a directory where it has its path and bears its
/// time, which is not zero, and no device or its device.
pub trait Voucher {
    ghost use Rattle.std.specs.Prelude.{List, ℕ, Bool};
    ghost use Rattle.std.specs.declared.option.Option.{Option};
    ghost use Rattle.tree_scan.specs.Records.{Record};

    /// The records that it can still answer from, where they are known.
    ghost records: { Self → Option (List Record) };

    /// Whether no read of its source has failed. Once lost, it never comes back.
    ghost unbroken: { Self → Bool };

    /// Whether what it can still answer from rises in path order, or it needs no order. Every call keeps it.
    ghost ordered: { Self → Bool };

    /// Whether it and its source fit together.
    ghost sound: { Self → Bool };

    /// How far a question about a directory may read.
    ghost reach: { Self → List ℕ → Self → Type 0 };

    /// What stays the same whatever is asked.
    ghost kept: { Self → Self → Type 0 };

    /// Whether a record vouches for the directory of this whole path, which has this time and lies on this device,
    /// whatever is written of them. If so, `into` holds the record's names, else it is empty.
    /// After running out of memory the voucher is not asked again, and what `into` holds is not said.
    fn vouch(
        &mut self,
        dir: &[u8],
        stamp: Stamp,
        device: u32,
        into: &mut NameList,
    ) -> Result<bool, AllocError>
        requires sound { IsTrue (sound self.old) }
        ensures vouches { IfOk result (λ vouched. MatchBool vouched (IfSome (records self.old) (λ records. Vouches records dir.now stamp device into.new)) (into.new ≡ [])) }
        ensures none { result ≡ Ok false → IsTrue (ordered self.old) → IsTrue (unbroken self.new) → IfSome (records self.old) (λ records. is_vouched records dir.now stamp device ≡ false) }
        ensures fitting { result ≡ Ok true → Fitting dir.now into.new }
        ensures leaves { Leaves dir.now (records self.old) (ordered self.old) (records self.new) (unbroken self.new) }
        ensures ordered { IsTrue (ordered self.old) → IsTrue (ordered self.new) }
        ensures unbroken { IsTrue (unbroken self.new) → IsTrue (unbroken self.old) }
        ensures sound { OnOk result (IsTrue (sound self.new)) }
        ensures reach { reach self.old dir.now self.new }
        ensures kept { kept self.old self.new };

    /// A voucher keeps what it is.
    ghost keeps_itself: { (s : Self) → kept s s };

    /// What two steps keep, both keep together.
    ghost keeps_on: { (s t u : Self) → kept s t → kept t u → kept s u };
}

/// No records: each directory is listed.
#[derive(Clone, Copy, Debug, PartialEq, Eq)]
pub struct NoVoucher;

impl Voucher for NoVoucher {
    ghost use Rattle.std.specs.Prelude.{[], true, Some, ⊤};

    ghost records = { λ v. Some [] };

    ghost unbroken = { λ v. true };

    ghost ordered = { λ v. true };

    ghost sound = { λ v. true };

    ghost reach = { λ v dir w. ⊤ };

    ghost kept = { λ v w. ⊤ };

    /// It vouches for none, and takes no memory.
    fn vouch(
        &mut self,
        _dir: &[u8],
        _stamp: Stamp,
        _device: u32,
        into: &mut NameList,
    ) -> Result<bool, AllocError>
        ensures no { result ≡ Ok false }
        ensures empty { into.new ≡ [] }
        ensures leaves { Leaves _dir.now (Some []) true (Some []) true }
    {
        into.clear();
        Ok(false)
    }

    ghost keeps_itself = { λ s. tt };

    ghost keeps_on = { λ s t u h k. tt };
}
