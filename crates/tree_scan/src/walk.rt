//! The steps of the walk.
ghost use Rattle.std.specs.Prelude.{IsSome, ◌≡◌, ◌≤◌, ◌<◌, ◌+◌, ◌*◌, ◌⊎◌, ◌∷◌, [], length, OnOk, OnErr, IfErr, IsTrue, IsErrOf, false};
ghost use Rattle.std.specs.FinMap.{get};
ghost use Rattle.path_order.specs.Path.{is_normal};
ghost use Rattle.loc_outside.specs.Causes.{Rose, raised};
ghost use Rattle.loc_outside.specs.Trees.{Dirs, Dir};
ghost use Rattle.tree_scan.specs.Blocks.{time_of};
ghost use Rattle.tree_scan.specs.Plans.{plan_of};
ghost use Rattle.tree_scan.specs.Records.{answers_all, known, Relied, is_vouched, unvouched};
ghost use Rattle.tree_scan.specs.Reach.{is_open, is_tried};
ghost use Rattle.tree_scan.specs.Steps.{here, weight};
ghost use Rattle.tree_scan.specs.Scans.{Failures};
ghost use Rattle.tree_scan.specs.Stops.{NamesMore, Narrow, taken};
ghost use Rattle.tree_scan.specs.Walks.{LeavesVoucher, standing, AllKept, Bounded, Breaks, Costs, Counted, Ended, FindsAt, Passes, Progresses, WideAt, opens};

use crate::directory::visit;
use crate::progress::Progress;
use crate::{Limits, Rules, ScanFault, Voucher};
use loc_outside::{Sink, Tree};
use path_order::{NameList, PathBuf, Stamp, later};

/// Comes to the root, which is there.
pub(crate) fn come<T: Tree, V: Voucher, D: Sink, P: Sink>(
    rules: &Rules,
    now: Stamp,
    limits: &Limits,
    tree: &mut T,
    voucher: &mut V,
    sink: &mut D,
    echo: &mut P,
    path: &mut PathBuf,
    time: Stamp,
    names: &mut NameList,
    progress: &mut Progress,
) -> Result<(), ScanFault>
    requires limits { (limits.now.names ≤ 16777216) × (limits.now.directories ≤ 4294967295) }
    requires tried { progress.old.tried ≤ limits.now.directories }
    requires counted { Counted progress.old }
    requires sound { IsTrue (V.sound voucher.old) }
    requires normal { IsTrue (is_normal path.old) }
    ensures done { OnOk result ((dirs : Dirs) → T.dirs tree.old ≡ Some dirs → (there : Dir) → get dirs path.old ≡ Some there → time ≡ time_of there.times → ((dir : Dir) → get dirs path.old ≡ Some dir → (plan_of rules.now).pruned path.old ≡ false → Relied (V.records voucher.old) ((plan_of rules.now).device_of path.old) path.old dir) → Passes dirs (plan_of rules.now) now path.old (standing (D.taken sink.old) (P.taken echo.old) progress.old) (standing (D.taken sink.new) (P.taken echo.new) progress.new)) }
    ensures breaks { OnErr result ((dirs : Dirs) → T.dirs tree.old ≡ Some dirs → (there : Dir) → get dirs path.old ≡ Some there → time ≡ time_of there.times → ((dir : Dir) → get dirs path.old ≡ Some dir → (plan_of rules.now).pruned path.old ≡ false → Relied (V.records voucher.old) ((plan_of rules.now).device_of path.old) path.old dir) → Breaks dirs (plan_of rules.now) now path.old (taken (D.taken sink.old) (P.taken echo.old)) (taken (D.taken sink.new) (P.taken echo.new))) }
    ensures ended { IfErr result (λ fault. Ended fault (plan_of rules.now) path.old (taken (D.taken sink.old) (P.taken echo.old)) (taken (D.taken sink.new) (P.taken echo.new)) ((dirs : Dirs) → T.dirs tree.old ≡ Some dirs → (there : Dir) → get dirs path.old ≡ Some there → time ≡ time_of there.times → limits.now.directories < progress.old.tried + length (here dirs (is_tried (plan_of rules.now).pruned) path.old)) ((dirs : Dirs) → T.dirs tree.old ≡ Some dirs → (there : Dir) → get dirs path.old ≡ Some there → time ≡ time_of there.times → WideAt (V.records voucher.old) (answers_all (V.records voucher.old) (V.ordered voucher.old) (V.unbroken voucher.new)) limits.now.names dirs (plan_of rules.now) path.old)) }
    ensures progress { OnOk result (Progresses path.old progress.old progress.new) }
    ensures costs { (dirs : Dirs) → T.dirs tree.old ≡ Some dirs → (there : Dir) → get dirs path.old ≡ Some there → time ≡ time_of there.times → Costs (length (here dirs (is_tried (plan_of rules.now).pruned) path.old)) (opens (known (V.records voucher.old)) dirs (plan_of rules.now) path.old) (answers_all (V.records voucher.old) (V.ordered voucher.old) (V.unbroken voucher.new)) progress.old.tried progress.new.tried (T.openings tree.old) (T.openings tree.new) }
    ensures bounded { Bounded limits.now.directories progress.old.tried progress.new.tried (T.openings tree.old) (T.openings tree.new) }
    ensures found { OnOk result ((dirs : Dirs) → T.dirs tree.old ≡ Some dirs → (there : Dir) → get dirs path.old ≡ Some there → time ≡ time_of there.times → FindsAt (V.records voucher.old) (answers_all (V.records voucher.old) (V.ordered voucher.old) (V.unbroken voucher.new)) limits.now.names dirs (plan_of rules.now) path.old (T.openings tree.old) (T.openings tree.new)) }
    ensures stats { T.stats tree.new ≡ T.stats tree.old }
    ensures quiet { (plan_of rules.now).verbose ≡ false → echo.new ≡ echo.old }
    ensures leaves { LeavesVoucher path.old (V.records voucher.old) (V.ordered voucher.old) (V.unbroken voucher.old) (V.records voucher.new) (V.ordered voucher.new) (V.unbroken voucher.new) }
    ensures sound { OnOk result (IsTrue (V.sound voucher.new)) }
    ensures failures { Failures (plan_of rules.now).verbose (IsErrOf result ScanFault.TreeFault) (IsErrOf result ScanFault.WriteFault) (T.faults tree.old) (T.faults tree.new) (D.faults sink.old) (D.faults sink.new) (P.faults echo.old) (P.faults echo.new) }
    ensures kept { AllKept (T.kept tree.old tree.new) (V.kept voucher.old voucher.new) (D.kept sink.old sink.new) (P.kept echo.old echo.new) }
{
    if rules.prunes(path.bytes()) {
        return Ok(());
    }
    visit(
        rules, now, limits, tree, voucher, sink, echo, path, time, names, progress,
    )?;
    Ok(())
}

/// Comes to a pending directory.
pub(crate) fn step<T: Tree, V: Voucher, D: Sink, P: Sink>(
    rules: &Rules,
    now: Stamp,
    limits: &Limits,
    tree: &mut T,
    voucher: &mut V,
    sink: &mut D,
    echo: &mut P,
    path: &mut PathBuf,
    names: &mut NameList,
    progress: &mut Progress,
) -> Result<(), ScanFault>
    requires limits { (limits.now.names ≤ 16777216) × (limits.now.directories ≤ 4294967295) }
    requires tried { progress.old.tried ≤ limits.now.directories }
    requires counted { Counted progress.old }
    requires sound { IsTrue (V.sound voucher.old) }
    requires normal { IsTrue (is_normal path.old) }
    ensures done { OnOk result ((dirs : Dirs) → T.dirs tree.old ≡ Some dirs → ((dir : Dir) → get dirs path.old ≡ Some dir → (plan_of rules.now).pruned path.old ≡ false → Relied (V.records voucher.old) ((plan_of rules.now).device_of path.old) path.old dir) → Passes dirs (plan_of rules.now) now path.old (standing (D.taken sink.old) (P.taken echo.old) progress.old) (standing (D.taken sink.new) (P.taken echo.new) progress.new)) }
    ensures breaks { OnErr result ((dirs : Dirs) → T.dirs tree.old ≡ Some dirs → ((dir : Dir) → get dirs path.old ≡ Some dir → (plan_of rules.now).pruned path.old ≡ false → Relied (V.records voucher.old) ((plan_of rules.now).device_of path.old) path.old dir) → Breaks dirs (plan_of rules.now) now path.old (taken (D.taken sink.old) (P.taken echo.old)) (taken (D.taken sink.new) (P.taken echo.new))) }
    ensures ended { IfErr result (λ fault. Ended fault (plan_of rules.now) path.old (taken (D.taken sink.old) (P.taken echo.old)) (taken (D.taken sink.new) (P.taken echo.new)) ((dirs : Dirs) → T.dirs tree.old ≡ Some dirs → limits.now.directories < progress.old.tried + length (here dirs (is_tried (plan_of rules.now).pruned) path.old)) ((dirs : Dirs) → T.dirs tree.old ≡ Some dirs → WideAt (V.records voucher.old) (answers_all (V.records voucher.old) (V.ordered voucher.old) (V.unbroken voucher.new)) limits.now.names dirs (plan_of rules.now) path.old)) }
    ensures progress { OnOk result (Progresses path.old progress.old progress.new) }
    ensures costs { (dirs : Dirs) → T.dirs tree.old ≡ Some dirs → Costs (length (here dirs (is_tried (plan_of rules.now).pruned) path.old)) (opens (known (V.records voucher.old)) dirs (plan_of rules.now) path.old) (answers_all (V.records voucher.old) (V.ordered voucher.old) (V.unbroken voucher.new)) progress.old.tried progress.new.tried (T.openings tree.old) (T.openings tree.new) }
    ensures bounded { Bounded limits.now.directories progress.old.tried progress.new.tried (T.openings tree.old) (T.openings tree.new) }
    ensures found { OnOk result ((dirs : Dirs) → T.dirs tree.old ≡ Some dirs → FindsAt (V.records voucher.old) (answers_all (V.records voucher.old) (V.ordered voucher.old) (V.unbroken voucher.new)) limits.now.names dirs (plan_of rules.now) path.old (T.openings tree.old) (T.openings tree.new)) }
    ensures stats { T.stats tree.new ≤ T.stats tree.old + weight (plan_of rules.now).pruned (T.priced tree.old) (path.old ∷ []) }
    ensures quiet { (plan_of rules.now).verbose ≡ false → echo.new ≡ echo.old }
    ensures leaves { LeavesVoucher path.old (V.records voucher.old) (V.ordered voucher.old) (V.unbroken voucher.old) (V.records voucher.new) (V.ordered voucher.new) (V.unbroken voucher.new) }
    ensures sound { OnOk result (IsTrue (V.sound voucher.new)) }
    ensures failures { Failures (plan_of rules.now).verbose (IsErrOf result ScanFault.TreeFault) (IsErrOf result ScanFault.WriteFault) (T.faults tree.old) (T.faults tree.new) (D.faults sink.old) (D.faults sink.new) (P.faults echo.old) (P.faults echo.new) }
    ensures kept { AllKept (T.kept tree.old tree.new) (V.kept voucher.old voucher.new) (D.kept sink.old sink.new) (P.kept echo.old echo.new) }
{
    if rules.prunes(path.bytes()) {
        return Ok(());
    }
    let Ok(found) = tree.stat(path.bytes()) else {
        return Err(ScanFault::TreeFault);
    };
    let Some(times) = found else {
        return Ok(());
    };
    let time = later(times.modified, times.changed);
    visit(
        rules, now, limits, tree, voucher, sink, echo, path, time, names, progress,
    )?;
    Ok(())
}
