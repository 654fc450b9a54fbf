//! Laws of paths, each the contract of a function that does nothing.
ghost use Rattle.std.specs.Prelude.{◌≡◌, ◌++◌, ◌∷◌, [], ◌≤◌, ◌↔◌, ℕ, List, length, IsTrue, false, Contains};
ghost use Rattle.std.specs.List.{list_all};
ghost use Rattle.path_order.specs.declared.kind.Kind.{Kind};
ghost use Rattle.path_order.specs.NameList.{Listed, Rises, SortsTo};
ghost use Rattle.path_order.specs.Names.{is_name};
ghost use Rattle.path_order.specs.Order.{path_cmp, names_cmp};
ghost use Rattle.path_order.specs.Path.{is_normal, is_root, comps, path_of, joined, parent_of, base_of};

use crate::NameList;

/// A normal path is what its components make, and these are names.
#[tactic(auto, using(crate::proofs::PathLemmas::path_is_made, crate::proofs::PathLemmas::comps_are_names))]
pub fn path_of_components(path: &[u8])
    requires { IsTrue (is_normal path.now) }
    ensures path { path_of (comps path.now) ≡ path.now }
    ensures names { IsTrue (list_all is_name (comps path.now)) }
{}

/// The path of a name in a normal path has one component more, and is normal where it isn't too long.
pub fn components_of_joined(path: &[u8], name: &[u8])
    requires normal { IsTrue (is_normal path.now) }
    requires name { IsTrue (is_name name.now) }
    ensures components { comps (joined path.now name.now) ≡ comps path.now ++ name.now ∷ [] }
    ensures normal { length (joined path.now name.now) ≤ 4096 → IsTrue (is_normal (joined path.now name.now)) }
{}

/// A normal path below the root is made of its parent, which is normal, and of its base name.
pub fn parent_and_base(path: &[u8])
    requires normal { IsTrue (is_normal path.now) }
    requires below_root { is_root path.now ≡ false }
    ensures joined { joined (parent_of path.now) (base_of path.now) ≡ path.now }
    ensures components { comps path.now ≡ comps (parent_of path.now) ++ base_of path.now ∷ [] }
    ensures parent { IsTrue (is_normal (parent_of path.now)) }
    ensures base { IsTrue (is_name (base_of path.now)) }
{}

/// On normal paths, path order is the order of the lists of names, where each name is compared by its bytes.
pub fn order_of_components(a: &[u8], b: &[u8])
    requires left { IsTrue (is_normal a.now) }
    requires right { IsTrue (is_normal b.now) }
    ensures { path_cmp a.now b.now ≡ names_cmp (comps a.now) (comps b.now) }
{}

/// Names are sorted to one list only. That is the list which strictly rises and has the same names with the same kinds,
/// where there is one: so a directory's names, listed in any order, are sorted to the entries of the directory's map.
pub fn sorted_list(listed: &NameList, sorted: &NameList)
    requires { SortsTo listed.now sorted.now }
    ensures only { (other : Listed) → SortsTo listed.now other → other ≡ sorted.now }
    ensures rising { (other : Listed) → Rises other → ((name : List ℕ) (kind : Kind) → Contains other (name, kind) ↔ Contains listed.now (name, kind)) → other ≡ sorted.now }
{}
