//! The scan into the output, and the commit.
ghost use Rattle.std.specs.Prelude.{◌≡◌, ◌≢◌, ◌≤◌, ◌<◌, ◌+◌, ◌^◌, ◌⊎◌, length, false, [], option_map, Some, None, Ok, Err, OnOk, OnErr, IfOk, IfErr, IfSome, IsErrOf, IsSome, IsTrue};
ghost use Rattle.std.specs.FinMap.{get};
ghost use Rattle.path_order.specs.Path.{is_normal};
ghost use Rattle.loc_outside.specs.Causes.{Rose, raised};
ghost use Rattle.loc_outside.specs.Held.{committed, emptied, grown};
ghost use Rattle.loc_outside.specs.Trees.{Dirs};
ghost use Rattle.tree_scan.specs.Blocks.{scan_text};
ghost use Rattle.tree_scan.specs.Plans.{plan_of};
ghost use Rattle.tree_scan.specs.Records.{answers_all};
ghost use Rattle.tree_scan.specs.Scans.{AskedOf, Completed, Failures, Stopped, WhereKnown, usual};
ghost use Rattle.tree_scan.specs.Stops.{taken};
ghost use Rattle.database_update.specs.Faults.{is_of_scan};
ghost use Rattle.database_update.specs.Holding.{Begins, GrowsPart, pending_in, stored_in, with_file, with_pending};
ghost use Rattle.database_update.specs.Scans.{Left, OfScan, ScanExceeded, ScanFound};

use crate::fault::{UpdateFault, fault_of_scan};
use loc_outside::{BufferedSink, Output, Tree};
use path_order::Stamp;
use std::alloc::Global;
use tree_scan::{Counts, Limits, Rules, Voucher, scan};

/// Scans the tree into the output, in which a name was begun, with these old records.
fn scan_into<T: Tree, V: Voucher, O: Output, P: BufferedSink>(
    alloc: Global,
    rules: &Rules,
    now: Stamp,
    tree: &mut T,
    voucher: &mut V,
    output: &mut O,
    out: &mut P,
) -> Result<Counts, UpdateFault>
    requires root { IsTrue (is_normal rules.now.root) }
    requires version { rules.now.version < 2 }
    requires block { length (plan_of rules.now).block < 2 ^ 32 }
    requires sound { IsTrue (V.sound voucher.old) }
    ensures done { OnOk result (WhereKnown (T.dirs tree.old) (V.records voucher.old) (plan_of rules.now) (λ dirs records. O.held output.new ≡ option_map (grown (scan_text dirs (plan_of rules.now) now)) (O.held output.old))) }
    ensures completed { IfOk result (λ counts. WhereKnown (T.dirs tree.old) (V.records voucher.old) (plan_of rules.now) (λ dirs records. Completed usual records (answers_all (V.records voucher.old) (V.ordered voucher.old) (V.unbroken voucher.new)) dirs (plan_of rules.now) counts (P.taken out.old) (P.taken out.new) (T.openings tree.old) (T.openings tree.new))) }
    ensures part { OnErr result (WhereKnown (T.dirs tree.old) (V.records voucher.old) (plan_of rules.now) (λ dirs records. GrowsPart (scan_text dirs (plan_of rules.now) now) (O.held output.old) (O.held output.new))) }
    ensures stopped { IfErr result (λ fault. WhereKnown (T.dirs tree.old) (V.records voucher.old) (plan_of rules.now) (λ dirs records. OfScan fault (λ f. Stopped f usual records (answers_all (V.records voucher.old) (V.ordered voucher.old) (V.unbroken voucher.new)) now dirs (plan_of rules.now) (taken (pending_in (O.held output.old)) (P.taken out.old)) (taken (pending_in (O.held output.new)) (P.taken out.new))))) }
    ensures untouched { IsErrOf result UpdateFault.RootMissing → (voucher.new ≡ voucher.old) × (output.new ≡ output.old) × (out.new ≡ out.old) }
    ensures scan { IfErr result (λ fault. IsTrue (is_of_scan fault)) }
    ensures found { IfErr result (λ fault. (dirs : Dirs) → T.dirs tree.old ≡ Some dirs → ScanFound fault rules.now.root dirs) }
    ensures exceeded { IfErr result (λ fault. WhereKnown (T.dirs tree.old) (V.records voucher.old) (plan_of rules.now) (λ dirs records. ScanExceeded fault records (answers_all (V.records voucher.old) (V.ordered voucher.old) (V.unbroken voucher.new)) dirs (plan_of rules.now))) }
    ensures lacking { (dirs : Dirs) → T.dirs tree.old ≡ Some dirs → get dirs rules.now.root ≡ None → IsErrOf result UpdateFault.RootMissing ⊎ IsErrOf result UpdateFault.TreeFault }
    ensures failures { Failures rules.now.verbose (IsErrOf result UpdateFault.TreeFault) (IsErrOf result UpdateFault.WriteFault) (T.faults tree.old) (T.faults tree.new) (O.faults output.old) (O.faults output.new) (P.faults out.old) (P.faults out.new) }
    ensures asked_of { WhereKnown (T.dirs tree.old) (V.records voucher.old) (plan_of rules.now) (λ dirs records. AskedOf records (answers_all (V.records voucher.old) (V.ordered voucher.old) (V.unbroken voucher.new)) dirs (plan_of rules.now) (T.priced tree.old) (T.openings tree.old) (T.openings tree.new) (T.stats tree.old) (T.stats tree.new)) }
    ensures openings { T.openings tree.new ≤ T.openings tree.old + 4294967295 }
    ensures quiet { rules.now.verbose ≡ false → out.new ≡ out.old }
    ensures begins { O.begins output.new ≡ O.begins output.old }
    ensures begun { option_map emptied (O.held output.new) ≡ option_map emptied (O.held output.old) }
    ensures tree_kept { T.kept tree.old tree.new }
    ensures voucher_kept { V.kept voucher.old voucher.new }
    ensures out_kept { P.kept out.old out.new }
{
    match scan(
        alloc,
        rules,
        now,
        &Limits::standard(),
        tree,
        voucher,
        output,
        out,
    ) {
        Ok(counts) => Ok(counts),
        Err(fault) => Err(fault_of_scan(fault)),
    }
}

/// Passes on what was echoed, and stores the pending bytes.
fn finish<O: Output, P: BufferedSink>(
    verbose: bool,
    output: &mut O,
    out: &mut P,
) -> Result<(), UpdateFault>
    requires begun { IfSome (O.held output.old) (λ held. IsSome held.name) }
    ensures ok { OnOk result (O.held output.new ≡ option_map committed (O.held output.old)) }
    ensures err { OnErr result (O.held output.new ≡ O.held output.old) }
    ensures cause { IfErr result (λ fault. fault ≡ UpdateFault.WriteFault) }
    ensures write_fault { OnErr result (Rose (O.faults output.old) (O.faults output.new) ⊎ IsTrue verbose × Rose (P.faults out.old) (P.faults out.new)) }
    ensures taken { P.taken out.new ≡ P.taken out.old }
    ensures flushed { OnOk result (IsTrue verbose → P.held_back out.new ≡ 0) }
    ensures passed_on { OnErr result (IsTrue verbose → (Rose (P.faults out.old) (P.faults out.new) → ⊥) → P.held_back out.new ≡ 0) }
    ensures begins { O.begins output.new ≡ O.begins output.old }
    ensures quiet { verbose ≡ false → out.new ≡ out.old }
    ensures out_kept { P.kept out.old out.new }
    ensures output_later { O.faults output.old ≤ O.faults output.new }
    ensures out_later { P.faults out.old ≤ P.faults out.new }
{
    if verbose {
        let Ok(()) = out.flush() else {
            return Err(UpdateFault::WriteFault);
        };
    }
    let Ok(()) = output.commit() else {
        return Err(UpdateFault::WriteFault);
    };
    Ok(())
}

/// Passes on the lines that were echoed before a fault of the scan. Where the root is missing there is none.
/// Whether they go through changes no answer.
fn pass_on<P: BufferedSink>(verbose: bool, fault: UpdateFault, out: &mut P)
    ensures passed_on { IsTrue verbose → fault ≢ UpdateFault.RootMissing → (Rose (P.faults out.old) (P.faults out.new) → ⊥) → P.held_back out.new ≡ 0 }
    ensures missing { fault ≡ UpdateFault.RootMissing → out.new ≡ out.old }
    ensures quiet { verbose ≡ false → out.new ≡ out.old }
    ensures taken { P.taken out.new ≡ P.taken out.old }
    ensures kept { P.kept out.old out.new }
    ensures later { P.faults out.old ≤ P.faults out.new }
{
    if verbose && fault != UpdateFault::RootMissing {
        let _ = out.flush();
    }
}

/// Begins the name, scans the tree into the output with these old records, and commits.
pub(crate) fn store<T: Tree, V: Voucher, O: Output, P: BufferedSink>(
    alloc: Global,
    rules: &Rules,
    name: &str,
    now: Stamp,
    tree: &mut T,
    voucher: &mut V,
    output: &mut O,
    out: &mut P,
) -> Result<Counts, UpdateFault>
    requires root { IsTrue (is_normal rules.now.root) }
    requires version { rules.now.version < 2 }
    requires block { length (plan_of rules.now).block < 2 ^ 32 }
    requires sound { IsTrue (V.sound voucher.old) }
    ensures stored { OnOk result (WhereKnown (T.dirs tree.old) (V.records voucher.old) (plan_of rules.now) (λ dirs records. O.held output.new ≡ option_map (with_file name.now (scan_text dirs (plan_of rules.now) now)) (O.held output.old))) }
    ensures completed { IfOk result (λ counts. WhereKnown (T.dirs tree.old) (V.records voucher.old) (plan_of rules.now) (λ dirs records. Completed usual records (answers_all (V.records voucher.old) (V.ordered voucher.old) (V.unbroken voucher.new)) dirs (plan_of rules.now) counts (P.taken out.old) (P.taken out.new) (T.openings tree.old) (T.openings tree.new))) }
    ensures ended { OnOk result ((O.begins output.new ≡ raised (O.begins output.old) 1) × (IsTrue rules.now.verbose → P.held_back out.new ≡ 0)) }
    ensures unstored { OnErr result (stored_in (O.held output.new) ≡ stored_in (O.held output.old)) }
    ensures left { IfErr result (λ fault. WhereKnown (T.dirs tree.old) (V.records voucher.old) (plan_of rules.now) (λ dirs records. Left fault records (answers_all (V.records voucher.old) (V.ordered voucher.old) (V.unbroken voucher.new)) name.now now dirs (plan_of rules.now) (O.held output.old) (O.held output.new) (P.taken out.old) (P.taken out.new) (out.new ≡ out.old))) }
    ensures unwritten { IfErr result (λ fault. (dirs : Dirs) → T.dirs tree.old ≡ Some dirs → fault ≡ UpdateFault.WriteFault → get dirs rules.now.root ≡ None → (O.held output.new ≡ O.held output.old) × (out.new ≡ out.old)) }
    ensures begins { IfErr result (λ fault. IsTrue (is_of_scan fault) × Begins fault (O.begins output.old) (O.begins output.new)) }
    ensures held_back { OnErr result (IsTrue rules.now.verbose → (Rose (P.faults out.old) (P.faults out.new) → ⊥) → P.held_back out.old ≡ 0 → P.held_back out.new ≡ 0) }
    ensures still { IsErrOf result UpdateFault.RootMissing → voucher.new ≡ voucher.old }
    ensures empty { IsErrOf result UpdateFault.RootMissing → (O.held output.new ≡ option_map (with_pending name.now []) (O.held output.old)) × (out.new ≡ out.old) }
    ensures found { IfErr result (λ fault. (dirs : Dirs) → T.dirs tree.old ≡ Some dirs → ScanFound fault rules.now.root dirs) }
    ensures exceeded { IfErr result (λ fault. WhereKnown (T.dirs tree.old) (V.records voucher.old) (plan_of rules.now) (λ dirs records. ScanExceeded fault records (answers_all (V.records voucher.old) (V.ordered voucher.old) (V.unbroken voucher.new)) dirs (plan_of rules.now))) }
    ensures lacking { (dirs : Dirs) → T.dirs tree.old ≡ Some dirs → get dirs rules.now.root ≡ None → IsErrOf result UpdateFault.RootMissing ⊎ (IsErrOf result UpdateFault.TreeFault ⊎ IsErrOf result UpdateFault.WriteFault) }
    ensures failures { Failures rules.now.verbose (IsErrOf result UpdateFault.TreeFault) (IsErrOf result UpdateFault.WriteFault) (T.faults tree.old) (T.faults tree.new) (O.faults output.old) (O.faults output.new) (P.faults out.old) (P.faults out.new) }
    ensures asked_of { WhereKnown (T.dirs tree.old) (V.records voucher.old) (plan_of rules.now) (λ dirs records. AskedOf records (answers_all (V.records voucher.old) (V.ordered voucher.old) (V.unbroken voucher.new)) dirs (plan_of rules.now) (T.priced tree.old) (T.openings tree.old) (T.openings tree.new) (T.stats tree.old) (T.stats tree.new)) }
    ensures openings { T.openings tree.new ≤ T.openings tree.old + 4294967295 }
    ensures quiet { rules.now.verbose ≡ false → out.new ≡ out.old }
    ensures tree_kept { T.kept tree.old tree.new }
    ensures voucher_kept { V.kept voucher.old voucher.new }
    ensures out_kept { P.kept out.old out.new }
{
    let Ok(()) = output.begin(name) else {
        return Err(UpdateFault::WriteFault);
    };
    let counts = match scan_into(alloc, rules, now, tree, voucher, output, out) {
        Ok(counts) => counts,
        Err(fault) => {
            pass_on(rules.verbose, fault, out);
            return Err(fault);
        }
    };
    match finish(rules.verbose, output, out) {
        Ok(()) => Ok(counts),
        Err(fault) => Err(fault),
    }
}
