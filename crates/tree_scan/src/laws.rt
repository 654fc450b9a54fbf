//! Laws of the walk, each the contract of a function that does nothing.
ghost use Rattle.std.specs.Prelude.{◌≡◌, ◌≤◌, ℕ, Bool, List, length, flat_map};
ghost use Rattle.path_order.specs.Stamp.{Moment};
ghost use Rattle.loc_outside.specs.Trees.{Dirs};
ghost use Rattle.tree_scan.specs.Blocks.{echo_text, scan_pieces, scan_text};
ghost use Rattle.tree_scan.specs.Plan.{Plan};
ghost use Rattle.tree_scan.specs.Reach.{is_open, is_tried, reached, tried};
ghost use Rattle.tree_scan.specs.Steps.{subtree};

/// A walk that goes from each directory to those that it names, in the order of their names, comes to the directories
/// that are tried, and to those that are reached, in path order.
pub fn walk_is_in_path_order(root: &[u8])
    requires { length root.now ≤ 4096 }
    ensures tried { (dirs : Dirs) (pruned : List ℕ → Bool) → subtree dirs pruned (is_tried pruned) root.now ≡ tried dirs pruned root.now }
    ensures reached { (dirs : Dirs) (pruned : List ℕ → Bool) → subtree dirs pruned (is_open pruned) root.now ≡ reached dirs pruned root.now }
{}

/// The pieces of a scan, one after the other, are the scan, and their lines are all that is echoed.
#[tactic(auto, using(crate::proofs::Follows::written_scan, crate::proofs::Follows::echoed_scan))]
pub fn pieces_make_the_scan()
    ensures written { (dirs : Dirs) (plan : Plan) (now : Moment) → flat_map (λ p. p.0) (scan_pieces dirs plan now) ≡ scan_text dirs plan now }
    ensures echoed { (dirs : Dirs) (plan : Plan) (now : Moment) → flat_map (λ p. p.1) (scan_pieces dirs plan now) ≡ echo_text dirs plan }
{}
