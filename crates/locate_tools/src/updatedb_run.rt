//! The run of `updatedb`.
ghost use Rattle.std.specs.Prelude.{◌≡◌};
ghost use Rattle.tool_words.specs.UpdatedbSeen.{seen};
ghost use Rattle.locate_tools.specs.UpdatedbRun.{UpdatedbRun, cause_of as cause_of_fault};

use crate::answer::{Cause, NeededFile};
use database_update::{UpdateFault, update};
use loc_outside::{BufferedSink, Output, Reader, Tree};
use path_order::Stamp;
use std::alloc::Global;
use tool_words::UpdatedbSettings;

/// Why a run ends whose update was refused.
fn cause_of(fault: UpdateFault) -> Cause
    ensures { result ≡ cause_of_fault fault }
{
    match fault {
        UpdateFault::BadConf { line, cause } => Cause::BadConf { line, fault: cause },
        UpdateFault::BadMount { line, cause } => Cause::BadMount { line, fault: cause },
        UpdateFault::ReadFault(file) => Cause::ReadFault(NeededFile::Settings(file)),
        UpdateFault::RootMissing => Cause::RootMissing,
        UpdateFault::TreeFault => Cause::TreeFault,
        UpdateFault::WriteFault => Cause::WriteFault,
        UpdateFault::TooManyNames => Cause::TooManyNames,
        UpdateFault::TooManyDirectories => Cause::TooManyDirectories,
        UpdateFault::OutOfMemory => Cause::OutOfMemory,
    }
}

/// Updates the database: what is stored, what each fault leaves, and when each cause comes, is one record, `UpdatedbRun`.
pub fn updatedb<R: Reader, T: Tree, O: Output, P: BufferedSink>(
    alloc: Global,
    asked: &UpdatedbSettings<'_>,
    now: Stamp,
    reader: &mut R,
    tree: &mut T,
    output: &mut O,
    out: &mut P,
) -> Cause
    ensures run { UpdatedbRun (seen asked.now) now
        (record { files = R.files reader.old; given = R.given reader.old; reads_failed = R.faults reader.old; dirs = T.dirs tree.old; openings = T.openings tree.old; stats = T.stats tree.old; priced = T.priced tree.old; tree_failed = T.faults tree.old; held = O.held output.old; begins = O.begins output.old; output_failed = O.faults output.old; taken = P.taken out.old; held_back = P.held_back out.old; writes_failed = P.faults out.old })
        (record { files = R.files reader.new; given = R.given reader.new; reads_failed = R.faults reader.new; dirs = T.dirs tree.new; openings = T.openings tree.new; stats = T.stats tree.new; priced = T.priced tree.new; tree_failed = T.faults tree.new; held = O.held output.new; begins = O.begins output.new; output_failed = O.faults output.new; taken = P.taken out.new; held_back = P.held_back out.new; writes_failed = P.faults out.new })
        result }
    ensures files { R.files reader.new ≡ R.files reader.old }
    ensures tree_kept { T.kept tree.old tree.new }
    ensures out_kept { P.kept out.old out.new }
{
    match update(alloc, asked, now, reader, tree, output, out) {
        Ok(_) => Cause::Done,
        Err(fault) => cause_of(fault),
    }
}
