//! The update of a database.
ghost use Rattle.std.specs.Prelude.{◌≡◌};
ghost use Rattle.tool_words.specs.UpdatedbSeen.{seen};
ghost use Rattle.database_update.specs.Updates.{UpdateDoes};

use crate::fault::UpdateFault;
use crate::old_database::open_old;
use crate::settings::read_settings;
use crate::settings_file::SettingsFile;
use crate::storing::store;
use dir_reuse::StreamVoucher;
use loc_outside::{BufferedSink, Output, Reader, Tree};
use path_order::Stamp;
use std::alloc::Global;
use tool_words::UpdatedbSettings;
use tree_scan::{Counts, NoVoucher};
use updatedb_conf::conf_block;

/// Reads the configuration and then the mounts, opens the old database, which is the file under the name of the output,
/// begins the output, scans the tree into it, from the root on, and stores the new database under that name. A directory
/// that still has the time and the device of its record in the old database is not listed: its names are taken from
/// there. An old database that is missing or can't be read has no records, and that is no fault.
/// With `verbose`, the path of each entry and a newline go to `out`, which is flushed before the database is stored, and
/// after a fault of the scan, too; else nothing is done to `out`.
/// Answers the number of blocks and of entries. After an `Err` nothing is stored, and the first step that failed or was
/// refused is told.
pub fn update<R: Reader, T: Tree, O: Output, P: BufferedSink>(
    alloc: Global,
    asked: &UpdatedbSettings<'_>,
    now: Stamp,
    reader: &mut R,
    tree: &mut T,
    output: &mut O,
    out: &mut P,
) -> Result<Counts, UpdateFault>
    ensures does { UpdateDoes (seen asked.now) now
        (record { files = R.files reader.old; given = R.given reader.old; reads_failed = R.faults reader.old; dirs = T.dirs tree.old; openings = T.openings tree.old; stats = T.stats tree.old; priced = T.priced tree.old; tree_failed = T.faults tree.old; held = O.held output.old; begins = O.begins output.old; output_failed = O.faults output.old; taken = P.taken out.old; held_back = P.held_back out.old; writes_failed = P.faults out.old })
        (record { files = R.files reader.new; given = R.given reader.new; reads_failed = R.faults reader.new; dirs = T.dirs tree.new; openings = T.openings tree.new; stats = T.stats tree.new; priced = T.priced tree.new; tree_failed = T.faults tree.new; held = O.held output.new; begins = O.begins output.new; output_failed = O.faults output.new; taken = P.taken out.new; held_back = P.held_back out.new; writes_failed = P.faults out.new })
        (record { tree = tree.new ≡ tree.old; output = output.new ≡ output.old; out = out.new ≡ out.old })
        result }
    ensures files { R.files reader.new ≡ R.files reader.old }
    ensures tree_kept { T.kept tree.old tree.new }
    ensures out_kept { P.kept out.old out.new }
{
    let rules = match read_settings(alloc, asked, reader) {
        Ok(rules) => rules,
        Err(fault) => return Err(fault),
    };
    let Ok(block) = conf_block(alloc, &rules.conf) else {
        return Err(UpdateFault::OutOfMemory);
    };
    if !open_old(reader, asked.output) {
        return store(
            alloc,
            &rules,
            asked.output,
            now,
            tree,
            &mut NoVoucher,
            output,
            out,
        );
    }
    let mut old = StreamVoucher::open_on(reader, &rules, block.as_slice());
    store(
        alloc,
        &rules,
        asked.output,
        now,
        tree,
        &mut old,
        output,
        out,
    )
}
