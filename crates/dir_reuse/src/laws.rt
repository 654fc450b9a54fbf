//! What a complete scan is as an old database, each law the contract of a function that does nothing.
ghost use Rattle.std.specs.Prelude.{◌≡◌, Some, true, filter, length, map};
ghost use Rattle.std.specs.List.{flat_map};
ghost use Rattle.path_order.specs.Stamp.{Moment};
ghost use Rattle.loc_outside.specs.Trees.{Dirs};
ghost use Rattle.byte_feed.specs.Front.{front, readable};
ghost use Rattle.byte_feed.specs.Paths.{GivesWhole, contents, preamble_of};
ghost use Rattle.mlocate_db.specs.Items.{mlocate};
ghost use Rattle.tree_scan.specs.Blocks.{header, scan_text};
ghost use Rattle.tree_scan.specs.Plan.{Plan};
ghost use Rattle.tree_scan.specs.Reach.{reached};
ghost use Rattle.tree_scan.specs.Records.{Honest, is_zero, unvouched};
ghost use Rattle.dir_reuse.specs.Scanned.{HaveFewNames, IsPlan, IsWholeScan, paths_under, scan_items, scanned, stamp_in};
ghost use Rattle.dir_reuse.specs.Usable.{is_ordered, records};

/// A scan of any tree is in order, also one that is longer than a database may be and is read only in part.
pub fn scan_is_ordered()
    ensures { (dirs : Dirs) (plan : Plan) (now : Moment) → IsPlan plan → is_ordered plan.root plan.block (scan_text dirs plan now) ≡ true }
{}

/// The records of a scan, or of what is read of it, can be relied on while the tree stays the same.
pub fn scan_is_honest()
    ensures { (dirs : Dirs) (plan : Plan) (now : Moment) → IsPlan plan → Honest (Some (records plan.root plan.block (scan_text dirs plan now))) dirs plan }
{}

/// A whole scan has one record for each directory that was reached, with its path, its time as written, its device in
/// version 1, and its names. While the tree stays the same these vouch for all that were reached but those whose time was
/// recent and so was written as zero, or is zero.
pub fn scan_has_records()
    ensures records { (dirs : Dirs) (plan : Plan) (now : Moment) → IsWholeScan dirs plan now → HaveFewNames (reached dirs plan.pruned plan.root) → records plan.root plan.block (scan_text dirs plan now) ≡ map (scanned plan now) (reached dirs plan.pruned plan.root) }
    ensures unvouched { (dirs : Dirs) (plan : Plan) (now : Moment) → IsWholeScan dirs plan now → HaveFewNames (reached dirs plan.pruned plan.root) → unvouched (records plan.root plan.block (scan_text dirs plan now)) plan (reached dirs plan.pruned plan.root) ≡ filter (λ e. is_zero (stamp_in plan now e)) (reached dirs plan.pruned plan.root) }
{}

/// A whole scan is read back as the items that were written, with the flag of its plan. It gives the paths of the names of
/// each directory that was reached, and ends whole.
pub fn scan_is_read_back()
    ensures items { (dirs : Dirs) (plan : Plan) (now : Moment) → IsWholeScan dirs plan now → front mlocate (scan_text dirs plan now) ≡ scan_items dirs plan now }
    ensures preamble { (dirs : Dirs) (plan : Plan) (now : Moment) → IsWholeScan dirs plan now → preamble_of mlocate (readable (scan_text dirs plan now)) ≡ Some (length (header plan), plan.flag) }
    ensures paths { (dirs : Dirs) (plan : Plan) (now : Moment) → IsWholeScan dirs plan now → GivesWhole (contents mlocate (scan_text dirs plan now)) (flat_map paths_under (reached dirs plan.pruned plan.root)) }
{}
