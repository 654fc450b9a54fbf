//! The complete scan.
ghost use Rattle.std.specs.Prelude.{◌≡◌, ◌≤◌, ◌<◌, ◌+◌, ◌^◌, ◌⊎◌, length, OnOk, IfOk, IfErr, IsTrue, IsErrOf, Some, None, false};
ghost use Rattle.std.specs.FinMap.{get};
ghost use Rattle.std.specs.Io.KnownBytes.{Appends};
ghost use Rattle.path_order.specs.Path.{is_normal};
ghost use Rattle.loc_outside.specs.Trees.{Dirs};
ghost use Rattle.tree_scan.specs.Blocks.{scan_text};
ghost use Rattle.tree_scan.specs.Plans.{plan_of};
ghost use Rattle.tree_scan.specs.Records.{answers_all};
ghost use Rattle.tree_scan.specs.Scans.{AskedOf, Completed, Exceeded, Failures, Found, Stopped, WhereKnown};
ghost use Rattle.tree_scan.specs.Stops.{taken};

use crate::progress::Progress;
use crate::put::put_front;
use crate::walk::{come, step};
use crate::{Counts, Limits, Rules, ScanFault, Voucher};
use loc_outside::{Sink, Tree};
use path_order::{NameList, PathBuf, Stamp, later};
use std::alloc::Global;
use updatedb_conf::conf_block;

/// The root's path.
fn root_of(rules: &Rules) -> PathBuf
    ensures { result ≡ rules.now.root }
{
    let mut path = PathBuf::new();
    let _ = path.set(rules.root.bytes());
    path
}

/// Writes a complete scan to `sink`: a header, and a block for each directory that is reached, in path order. With
/// `verbose`, the path of each entry and a newline go to `echo` after the entry. Answers the number of blocks and entries.
/// A directory is opened only where the voucher has no record of it with its present time and device.
pub fn scan<T: Tree, V: Voucher, D: Sink, P: Sink>(
    alloc: Global,
    rules: &Rules,
    now: Stamp,
    limits: &Limits,
    tree: &mut T,
    voucher: &mut V,
    sink: &mut D,
    echo: &mut P,
) -> Result<Counts, ScanFault>
    requires root { IsTrue (is_normal rules.now.root) }
    requires version { rules.now.version < 2 }
    requires block { length (plan_of rules.now).block < 2 ^ 32 }
    requires limits { (limits.now.names ≤ 16777216) × (limits.now.directories ≤ 4294967295) }
    requires sound { IsTrue (V.sound voucher.old) }
    ensures done { OnOk result (WhereKnown (T.dirs tree.old) (V.records voucher.old) (plan_of rules.now) (λ dirs records. Appends (D.taken sink.old) (D.taken sink.new) (scan_text dirs (plan_of rules.now) now))) }
    ensures completed { IfOk result (λ counts. WhereKnown (T.dirs tree.old) (V.records voucher.old) (plan_of rules.now) (λ dirs records. Completed limits.now records (answers_all (V.records voucher.old) (V.ordered voucher.old) (V.unbroken voucher.new)) dirs (plan_of rules.now) counts (P.taken echo.old) (P.taken echo.new) (T.openings tree.old) (T.openings tree.new))) }
    ensures asked_of { WhereKnown (T.dirs tree.old) (V.records voucher.old) (plan_of rules.now) (λ dirs records. AskedOf records (answers_all (V.records voucher.old) (V.ordered voucher.old) (V.unbroken voucher.new)) dirs (plan_of rules.now) (T.priced tree.old) (T.openings tree.old) (T.openings tree.new) (T.stats tree.old) (T.stats tree.new)) }
    ensures openings { T.openings tree.new ≤ T.openings tree.old + limits.now.directories }
    ensures stopped { IfErr result (λ fault. WhereKnown (T.dirs tree.old) (V.records voucher.old) (plan_of rules.now) (λ dirs records. Stopped fault limits.now records (answers_all (V.records voucher.old) (V.ordered voucher.old) (V.unbroken voucher.new)) now dirs (plan_of rules.now) (taken (D.taken sink.old) (P.taken echo.old)) (taken (D.taken sink.new) (P.taken echo.new)))) }
    ensures found { IfErr result (λ fault. (dirs : Dirs) → T.dirs tree.old ≡ Some dirs → Found fault limits.now rules.now.root dirs) }
    ensures exceeded { IfErr result (λ fault. WhereKnown (T.dirs tree.old) (V.records voucher.old) (plan_of rules.now) (λ dirs records. Exceeded fault limits.now records (answers_all (V.records voucher.old) (V.ordered voucher.old) (V.unbroken voucher.new)) dirs (plan_of rules.now))) }
    ensures lacking { (dirs : Dirs) → T.dirs tree.old ≡ Some dirs → get dirs rules.now.root ≡ None → IsErrOf result ScanFault.RootMissing ⊎ IsErrOf result ScanFault.TreeFault }
    ensures untouched { IsErrOf result ScanFault.RootMissing → (voucher.new ≡ voucher.old) × (sink.new ≡ sink.old) × (echo.new ≡ echo.old) }
    ensures quiet { (plan_of rules.now).verbose ≡ false → echo.new ≡ echo.old }
    ensures failures { Failures (plan_of rules.now).verbose (IsErrOf result ScanFault.TreeFault) (IsErrOf result ScanFault.WriteFault) (T.faults tree.old) (T.faults tree.new) (D.faults sink.old) (D.faults sink.new) (P.faults echo.old) (P.faults echo.new) }
    ensures tree_kept { T.kept tree.old tree.new }
    ensures voucher_kept { V.kept voucher.old voucher.new }
    ensures sink_kept { D.kept sink.old sink.new }
    ensures echo_kept { P.kept echo.old echo.new }
{
    let mut path = root_of(rules);
    let Ok(found) = tree.stat(path.bytes()) else {
        return Err(ScanFault::TreeFault);
    };
    let Some(times) = found else {
        return Err(ScanFault::RootMissing);
    };
    let Ok(block) = conf_block(alloc, &rules.conf) else {
        return Err(ScanFault::OutOfMemory);
    };
    let Ok(()) = put_front(sink, rules, block.as_slice()) else {
        return Err(ScanFault::WriteFault);
    };
    let mut names = NameList::new(alloc);
    let mut progress = Progress::new(alloc);
    let time = later(times.modified, times.changed);
    come(
        rules,
        now,
        limits,
        tree,
        voucher,
        sink,
        echo,
        &mut path,
        time,
        &mut names,
        &mut progress,
    )?;
    'walk: while progress.pending.pop(&mut path) {
        step(
            rules,
            now,
            limits,
            tree,
            voucher,
            sink,
            echo,
            &mut path,
            &mut names,
            &mut progress,
        )?;
    }
    Ok(progress.counts)
}
