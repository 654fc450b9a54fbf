//! One directory of the walk: its names, the directories among them, and its block.
ghost use Rattle.std.specs.Prelude.{◌≡◌, ◌≤◌, ◌<◌, ◌+◌, [], ◌∷◌, ◌++◌, length, OnOk, IsTrue, filter, IsErrOf, MatchBool, IfOk, false, All, IsSome, if◌then◌else◌, ◌⊎◌, OnErr, IfErr};
ghost use Rattle.std.specs.FinMap.{get, entries};
ghost use Rattle.path_order.specs.NameList.{Listed};
ghost use Rattle.path_order.specs.Path.{is_normal};
ghost use Rattle.loc_outside.specs.Causes.{Rose, raised};
ghost use Rattle.loc_outside.specs.Trees.{Dirs, Dir};
ghost use Rattle.tree_scan.specs.Admitted.{fits_in, admitted, paths_in};
ghost use Rattle.tree_scan.specs.Records.{Fitting, answers_all, known, Relied, is_vouched};
ghost use Rattle.tree_scan.specs.Blocks.{time_of};
ghost use Rattle.tree_scan.specs.Walks.{LeavesVoucher, standing, AllKept, Bounded, Breaks, Costs, Counted, Ended, Finds, Passes, Progresses, Wide};
ghost use Rattle.tree_scan.specs.Plans.{plan_of};
ghost use Rattle.tree_scan.specs.Scans.{Failures};
ghost use Rattle.tree_scan.specs.Stops.{taken};

use crate::pending::Pending;
use crate::progress::Progress;
use crate::put::put_block;
use crate::{Limits, Rules, ScanFault, Voucher};
use loc_outside::{Listing, Sink, Tree};
use path_order::{Kind, NameList, PathBuf, Stamp, join};
use std::alloc::AllocError;

/// Whether the path of a name has at most 4,096 bytes.
fn fits(path: &[u8], name: &[u8]) -> bool
    ensures { result ≡ fits_in path.now name.now }
{
    path_order::is_name(name)
        && path.len() <= 4096
        && name.len() <= 4096
        && path.len() + name.len() + usize::from(!matches!(path, [b'/'])) <= 4096
}

/// Appends a name, where it fits.
fn push_fitting(
    names: &mut NameList,
    path: &[u8],
    name: &[u8],
    kind: Kind,
) -> Result<(), AllocError>
    ensures { OnOk result (names.new ≡ names.old ++ filter (λ e. fits_in path.now e.0) ((name.now, kind) ∷ [])) }
{
    if !fits(path, name) {
        return Ok(());
    }
    names.push(name, kind)
}

/// Reads the names of a listing that was opened.
fn read_names<T: Tree>(
    tree: &mut T,
    path: &[u8],
    limit: u64,
    names: &mut NameList,
) -> Result<(), ScanFault>
    requires { IsTrue (T.is_listing tree.old) }
    ensures no_missing { IsErrOf result ScanFault.RootMissing → ⊥ }
    ensures no_many { IsErrOf result ScanFault.TooManyDirectories → ⊥ }
    ensures no_write { IsErrOf result ScanFault.WriteFault → ⊥ }
    ensures ok { OnOk result ((listed : Listed) → T.rest tree.old ≡ Some listed → names.new ≡ filter (λ e. fits_in path.now e.0) listed) }
    ensures fits { OnOk result (All (λ e. IsTrue (fits_in path.now e.0)) names.new) }
    ensures within { OnOk result (length names.new ≤ limit) }
    ensures kept_limit { OnOk result ((listed : Listed) → T.rest tree.old ≡ Some listed → length listed ≤ limit) }
    ensures many { IsErrOf result ScanFault.TooManyNames → (listed : Listed) → T.rest tree.old ≡ Some listed → limit < length listed }
    ensures openings { T.openings tree.new ≡ T.openings tree.old }
    ensures stats { T.stats tree.new ≡ T.stats tree.old }
    ensures later { T.faults tree.old ≤ T.faults tree.new }
    ensures fault { IsErrOf result ScanFault.TreeFault → Rose (T.faults tree.old) (T.faults tree.new) }
    ensures kept { T.kept tree.old tree.new }
{
    names.clear();
    let mut name = PathBuf::new();
    let mut given: u64 = 0;
    'listing: loop {
        let Ok(next) = tree.next_name(&mut name) else {
            return Err(ScanFault::TreeFault);
        };
        let Some(kind) = next else {
            return Ok(());
        };
        if given >= limit {
            return Err(ScanFault::TooManyNames);
        }
        given += 1;
        let Ok(()) = push_fitting(names, path, name.bytes(), kind) else {
            return Err(ScanFault::OutOfMemory);
        };
    }
}

/// Lists a directory, if it is there and shows its names. Names whose paths don't fit count for the limit.
pub(crate) fn list_names<T: Tree>(
    tree: &mut T,
    path: &[u8],
    limit: u64,
    names: &mut NameList,
) -> Result<bool, ScanFault>
    requires { limit ≤ 16777216 }
    ensures no_missing { IsErrOf result ScanFault.RootMissing → ⊥ }
    ensures no_directories { IsErrOf result ScanFault.TooManyDirectories → ⊥ }
    ensures no_write { IsErrOf result ScanFault.WriteFault → ⊥ }
    ensures shown { IfOk result (λ b. (dirs : Dirs) (dir : Dir) → T.dirs tree.old ≡ Some dirs → get dirs path.now ≡ Some dir → MatchBool b ((dir.hidden ≡ false) × (names.new ≡ admitted path.now dir)) (IsTrue dir.hidden)) }
    ensures fitting { IfOk result (λ b. IsTrue b → Fitting path.now names.new) }
    ensures kept_limit { OnOk result ((dirs : Dirs) (dir : Dir) → T.dirs tree.old ≡ Some dirs → get dirs path.now ≡ Some dir → dir.hidden ≡ false → length (entries dir.names) ≤ limit) }
    ensures many { IsErrOf result ScanFault.TooManyNames → (dirs : Dirs) (dir : Dir) → T.dirs tree.old ≡ Some dirs → get dirs path.now ≡ Some dir → (dir.hidden ≡ false) × (limit < length (entries dir.names)) }
    ensures openings { T.openings tree.new ≡ raised (T.openings tree.old) 1 }
    ensures stats { T.stats tree.new ≡ T.stats tree.old }
    ensures later { T.faults tree.old ≤ T.faults tree.new }
    ensures fault { IsErrOf result ScanFault.TreeFault → Rose (T.faults tree.old) (T.faults tree.new) }
    ensures kept { T.kept tree.old tree.new }
{
    let Ok(listing) = tree.open_dir(path) else {
        return Err(ScanFault::TreeFault);
    };
    let Listing::Shown = listing else {
        return Ok(false);
    };
    read_names(tree, path, limit, names)?;
    let Ok(()) = names.sort() else {
        return Err(ScanFault::OutOfMemory);
    };
    Ok(true)
}

/// Finds the names of a directory: those of a record that vouches for it, else by listing it. Answers whether it shows them.
pub(crate) fn find_names<T: Tree, V: Voucher>(
    tree: &mut T,
    voucher: &mut V,
    path: &[u8],
    time: Stamp,
    device: u32,
    limit: u64,
    names: &mut NameList,
) -> Result<bool, ScanFault>
    requires limit { limit ≤ 16777216 }
    requires sound { IsTrue (V.sound voucher.old) }
    ensures no_missing { IsErrOf result ScanFault.RootMissing → ⊥ }
    ensures no_directories { IsErrOf result ScanFault.TooManyDirectories → ⊥ }
    ensures no_write { IsErrOf result ScanFault.WriteFault → ⊥ }
    ensures shown { IfOk result (λ b. (dirs : Dirs) (dir : Dir) → T.dirs tree.old ≡ Some dirs → get dirs path.now ≡ Some dir → time ≡ time_of dir.times → Relied (V.records voucher.old) device path.now dir → MatchBool b ((dir.hidden ≡ false) × (names.new ≡ admitted path.now dir)) (IsTrue dir.hidden)) }
    ensures fitting { IfOk result (λ b. IsTrue b → Fitting path.now names.new) }
    ensures kept_limit { OnOk result (IsSome (V.records voucher.old) → (dirs : Dirs) (dir : Dir) → T.dirs tree.old ≡ Some dirs → get dirs path.now ≡ Some dir → is_vouched (known (V.records voucher.old)) path.now time device ≡ false → dir.hidden ≡ false → length (entries dir.names) ≤ limit) }
    ensures listed { IsErrOf result ScanFault.TooManyNames → IsTrue (answers_all (V.records voucher.old) (V.ordered voucher.old) (V.unbroken voucher.new)) → is_vouched (known (V.records voucher.old)) path.now time device ≡ false }
    ensures many { IsErrOf result ScanFault.TooManyNames → (dirs : Dirs) (dir : Dir) → T.dirs tree.old ≡ Some dirs → get dirs path.now ≡ Some dir → (dir.hidden ≡ false) × (limit < length (entries dir.names)) }
    ensures leaves { LeavesVoucher path.now (V.records voucher.old) (V.ordered voucher.old) (V.unbroken voucher.old) (V.records voucher.new) (V.ordered voucher.new) (V.unbroken voucher.new) }
    ensures sound { OnOk result (IsTrue (V.sound voucher.new)) }
    ensures voucher_kept { V.kept voucher.old voucher.new }
    ensures openings { T.openings tree.new ≤ T.openings tree.old + 1 }
    ensures opened { IsTrue (answers_all (V.records voucher.old) (V.ordered voucher.old) (V.unbroken voucher.new)) → T.openings tree.new ≤ T.openings tree.old + (if is_vouched (known (V.records voucher.old)) path.now time device then 0 else 1) }
    ensures exact { OnOk result (IsTrue (answers_all (V.records voucher.old) (V.ordered voucher.old) (V.unbroken voucher.new)) → T.openings tree.new ≡ raised (T.openings tree.old) (if is_vouched (known (V.records voucher.old)) path.now time device then 0 else 1)) }
    ensures stats { T.stats tree.new ≡ T.stats tree.old }
    ensures later { T.faults tree.old ≤ T.faults tree.new }
    ensures fault { IsErrOf result ScanFault.TreeFault → Rose (T.faults tree.old) (T.faults tree.new) }
    ensures kept { T.kept tree.old tree.new }
{
    let Ok(vouched) = voucher.vouch(path, time, device, names) else {
        return Err(ScanFault::OutOfMemory);
    };
    if vouched {
        return Ok(true);
    }
    let shown = list_names(tree, path, limit, names)?;
    Ok(shown)
}

/// Makes the directories among these names pending, the first name first.
pub(crate) fn push_children(
    path: &mut PathBuf,
    names: &NameList,
    pending: &mut Pending,
) -> Result<(), AllocError>
    requires normal { IsTrue (is_normal path.old) }
    requires fit { All (λ e. IsTrue (fits_in path.old e.0)) names.now }
    ensures ok { OnOk result (pending.new ≡ paths_in path.old names.now ++ pending.old) }
    ensures path { OnOk result (path.new ≡ path.old) }
{
    let len = path.bytes().len();
    let mut at = names.len();
    while at > 0 {
        at -= 1;
        match names.kind(at) {
            Kind::File => continue,
            Kind::Directory => {}
        }
        let Ok(()) = join(path, names.name(at)) else {
            return Err(AllocError);
        };
        pending.push(path.bytes())?;
        path.cut(len);
    }
    Ok(())
}

/// Comes to a directory that is there and not pruned: finds its names, makes those of directories pending, and writes its block.
pub(crate) fn visit<T: Tree, V: Voucher, D: Sink, P: Sink>(
    rules: &Rules,
    now: Stamp,
    limits: &Limits,
    tree: &mut T,
    voucher: &mut V,
    sink: &mut D,
    echo: &mut P,
    path: &mut PathBuf,
    time: Stamp,
    names: &mut NameList,
    progress: &mut Progress,
) -> Result<(), ScanFault>
    requires limits { (limits.now.names ≤ 16777216) × (limits.now.directories ≤ 4294967295) }
    requires tried { progress.old.tried ≤ limits.now.directories }
    requires counted { Counted progress.old }
    requires sound { IsTrue (V.sound voucher.old) }
    requires normal { IsTrue (is_normal path.old) }
    requires unpruned { (plan_of rules.now).pruned path.old ≡ false }
    ensures shown { OnOk result ((dirs : Dirs) (dir : Dir) → T.dirs tree.old ≡ Some dirs → get dirs path.old ≡ Some dir → time ≡ time_of dir.times → Relied (V.records voucher.old) ((plan_of rules.now).device_of path.old) path.old dir → Passes dirs (plan_of rules.now) now path.old (standing (D.taken sink.old) (P.taken echo.old) progress.old) (standing (D.taken sink.new) (P.taken echo.new) progress.new)) }
    ensures breaks { OnErr result ((dirs : Dirs) (dir : Dir) → T.dirs tree.old ≡ Some dirs → get dirs path.old ≡ Some dir → time ≡ time_of dir.times → Relied (V.records voucher.old) ((plan_of rules.now).device_of path.old) path.old dir → Breaks dirs (plan_of rules.now) now path.old (taken (D.taken sink.old) (P.taken echo.old)) (taken (D.taken sink.new) (P.taken echo.new))) }
    ensures ended { IfErr result (λ fault. Ended fault (plan_of rules.now) path.old (taken (D.taken sink.old) (P.taken echo.old)) (taken (D.taken sink.new) (P.taken echo.new)) (limits.now.directories ≤ progress.old.tried) (Wide (V.records voucher.old) (answers_all (V.records voucher.old) (V.ordered voucher.old) (V.unbroken voucher.new)) limits.now.names (T.dirs tree.old) path.old time ((plan_of rules.now).device_of path.old))) }
    ensures progress { OnOk result (Progresses path.old progress.old progress.new) }
    ensures tried { OnOk result (progress.new.tried ≡ progress.old.tried + 1) }
    ensures costs { Costs 1 (if is_vouched (known (V.records voucher.old)) path.old time ((plan_of rules.now).device_of path.old) then 0 else 1) (answers_all (V.records voucher.old) (V.ordered voucher.old) (V.unbroken voucher.new)) progress.old.tried progress.new.tried (T.openings tree.old) (T.openings tree.new) }
    ensures bounded { Bounded limits.now.directories progress.old.tried progress.new.tried (T.openings tree.old) (T.openings tree.new) }
    ensures found { OnOk result (Finds (V.records voucher.old) (answers_all (V.records voucher.old) (V.ordered voucher.old) (V.unbroken voucher.new)) limits.now.names (T.dirs tree.old) path.old time ((plan_of rules.now).device_of path.old) (T.openings tree.old) (T.openings tree.new)) }
    ensures stats { T.stats tree.new ≡ T.stats tree.old }
    ensures quiet { (plan_of rules.now).verbose ≡ false → echo.new ≡ echo.old }
    ensures leaves { LeavesVoucher path.old (V.records voucher.old) (V.ordered voucher.old) (V.unbroken voucher.old) (V.records voucher.new) (V.ordered voucher.new) (V.unbroken voucher.new) }
    ensures sound { OnOk result (IsTrue (V.sound voucher.new)) }
    ensures failures { Failures (plan_of rules.now).verbose (IsErrOf result ScanFault.TreeFault) (IsErrOf result ScanFault.WriteFault) (T.faults tree.old) (T.faults tree.new) (D.faults sink.old) (D.faults sink.new) (P.faults echo.old) (P.faults echo.new) }
    ensures kept { AllKept (T.kept tree.old tree.new) (V.kept voucher.old voucher.new) (D.kept sink.old sink.new) (P.kept echo.old echo.new) }
{
    if progress.tried >= limits.directories {
        return Err(ScanFault::TooManyDirectories);
    }
    progress.tried += 1;
    let device = rules.device_of(path.bytes());
    let found = find_names(
        tree,
        voucher,
        path.bytes(),
        time,
        device,
        limits.names,
        names,
    )?;
    if !found {
        return Ok(());
    }
    let Ok(()) = push_children(path, names, &mut progress.pending) else {
        return Err(ScanFault::OutOfMemory);
    };
    let stamp = rules.stamp_at(time, now);
    let written = rules.written_device(device);
    let Ok(()) = put_block(sink, echo, rules.verbose, stamp, written, path, names) else {
        return Err(ScanFault::WriteFault);
    };
    progress.counts.directories += 1;
    progress.counts.entries += names.len() as u64;
    Ok(())
}
