//! What updates may rely on, each law the contract of a function that does nothing.
ghost use Rattle.std.specs.Prelude.{◌≡◌, ◌<◌, ◌^◌, All, [], ℕ, List, Some};
ghost use Rattle.path_order.specs.Stamp.{Moment};
ghost use Rattle.loc_outside.specs.Trees.{Dirs};
ghost use Rattle.any_db.specs.Formats.{format_of};
ghost use Rattle.any_db.specs.declared.format.DatabaseFormat.TheVariants.{Mlocate};
ghost use Rattle.sample_trees.specs.Kept.{AllShown, SameWhereTimesAgree};
ghost use Rattle.sample_trees.specs.Steps.{sample_steps};
ghost use Rattle.tree_scan.specs.Blocks.{device_in, scan_text};
ghost use Rattle.tree_scan.specs.Plan.{Plan};
ghost use Rattle.tree_scan.specs.Reach.{reached};
ghost use Rattle.dir_reuse.specs.Scanned.{FitsHead, IsPlan};
ghost use Rattle.update_runs.specs.Runs.{Kept};
ghost use Rattle.update_runs.specs.Single.{IsHonest};

/// The records of a scan can be relied on in later directories that show their names and that are the same wherever their
/// times agree, if the times and devices that were scanned fit the fields of a database.
pub fn scan_stays_honest()
    ensures { (before after : Dirs) (plan : Plan) (now : Moment) → IsPlan plan → All (FitsHead plan) (reached before plan.pruned plan.root) → SameWhereTimesAgree before after → AllShown after → IsHonest plan (scan_text before plan now) after }
{}

/// So updates may rely on the steps of a sample, whatever it is drawn by.
pub fn sample_is_kept(seed: u64, rounds: u8)
    ensures { (plan : Plan) → IsPlan plan → ((path : List ℕ) → device_in plan path < 2 ^ 32) → Kept plan [] (sample_steps seed rounds) }
{}

/// What an update stores is told as a database of mlocate by its first bytes.
pub fn scan_is_of_mlocate()
    ensures { (dirs : Dirs) (plan : Plan) (now : Moment) → format_of (scan_text dirs plan now) ≡ Some Mlocate }
{}
