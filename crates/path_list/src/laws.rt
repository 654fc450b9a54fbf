//! What the items and the paths of a list are, beside how they are read and written.
ghost use Rattle.std.specs.Prelude.{◌≡◌, ◌<◌, ◌↔◌, ◌+◌, ◌++◌, [], ◌∷◌, List, ℕ, Bool, length, false, Ok, Err, All};
ghost use Rattle.path_order.specs.Path.{base_of};
ghost use Rattle.byte_feed.specs.declared.damage.DamageCause.{DamageCause};
ghost use Rattle.byte_feed.specs.declared.damage.DamageCause.TheVariants.{Cut};
ghost use Rattle.byte_feed.specs.declared.damage.DbFault.{DbFault};
ghost use Rattle.byte_feed.specs.declared.damage.Stop.TheVariants.{Broken};
ghost use Rattle.byte_feed.specs.Front.{IsBytes, IsFront, front, limit, spelling};
ghost use Rattle.byte_feed.specs.Paths.{contents, GivesWhole, PathAt};
ghost use Rattle.path_list.specs.Items.{Item, IsListed, allowed, item_at, list_by, marked, spell};
ghost use Rattle.path_list.specs.Spelled.{EndsList, SpellsList, encode_list};

/// The front of a file is its longest list of whole items from byte 0 on, and it is the only such list: no item begins as
/// another item does that is allowed in the same place.
pub fn front_is_longest()
    ensures longest { (mark : ℕ) (file : List ℕ) → IsBytes file → IsFront (list_by mark) file (front (list_by mark) file) }
    ensures only { (mark : ℕ) (file : List ℕ) (items : List Item) → IsBytes file → IsFront (list_by mark) file items → front (list_by mark) file ≡ items }
    ensures unique { (mark : ℕ) (last : Bool) (i j : Item) (a b : List ℕ) → allowed mark i last a → allowed mark j last b
        → spell mark i ++ a ≡ spell mark j ++ b → (i ≡ j) × (a ≡ b) }
{}

/// A broken rule of an item stays the cause of damage whatever bytes follow. A list ends whole where it is the spelling of
/// its front and is shorter than the limit. Else an item breaks a rule, or the list is too large: it is never cut short.
pub fn ending_is_first_fault()
    ensures stays { (mark : ℕ) (last : Bool) (bytes more : List ℕ) (cause : DamageCause) → (cause ≡ Cut → ⊥)
        → item_at mark false bytes ≡ Err (Broken cause) → item_at mark last (bytes ++ more) ≡ Err (Broken cause) }
    ensures whole { (mark : ℕ) (file : List ℕ) → IsBytes file
        → ((contents (list_by mark) file).ending ≡ Ok tt) ↔ ((length file < limit) × (spelling (list_by mark) (front (list_by mark) file) ≡ file)) }
    ensures faults { (mark : ℕ) (file : List ℕ) (fault : DbFault) → (contents (list_by mark) file).ending ≡ Err fault → EndsList fault }
{}

/// A file below the limit gives a list of paths and ends whole exactly where it spells that list, and each path can stand in
/// one. With each path it gives the length of the text before its base name.
pub fn paths_are_spelled()
    ensures given { (mark : ℕ) (file : List ℕ) (paths : List (List ℕ)) → IsBytes file → length file < limit
        → GivesWhole (contents (list_by mark) file) paths ↔ (All (IsListed mark) paths × SpellsList mark paths file) }
    ensures bases { (mark : ℕ) (file : List ℕ) → All (λ (p : PathAt). p.dir_len + length (base_of p.text) ≡ length p.text) (contents (list_by mark) file).paths }
{}

/// What is written for a list of paths is read back where it is shorter than the limit. It is written path by path.
pub fn written_is_read_back()
    ensures again { (mark : ℕ) (paths : List (List ℕ)) → All (IsListed mark) paths → length (encode_list mark paths) < limit
        → GivesWhole (contents (list_by mark) (encode_list mark paths)) paths }
    ensures empty { (mark : ℕ) → encode_list mark [] ≡ [] }
    ensures one_more { (mark : ℕ) (paths : List (List ℕ)) (path : List ℕ) → encode_list mark (paths ++ path ∷ []) ≡ encode_list mark paths ++ marked mark path }
{}
