//! What the items and the paths of a database are, beside how they are read and written.
ghost use Rattle.std.specs.Prelude.{◌≡◌, ◌<◌, ◌↔◌, ◌+◌, ◌++◌, [], ◌∷◌, List, ℕ, length, true, Ok, Err, All};
ghost use Rattle.path_order.specs.Path.{base_of};
ghost use Rattle.byte_feed.specs.declared.damage.DamageCause.{DamageCause};
ghost use Rattle.byte_feed.specs.declared.damage.DamageCause.TheVariants.{Cut};
ghost use Rattle.byte_feed.specs.declared.damage.Stop.TheVariants.{Broken};
ghost use Rattle.byte_feed.specs.Front.{IsBytes, IsFront, front, left_by, limit, spelling};
ghost use Rattle.byte_feed.specs.Paths.{contents, GivesWhole, IsPath, PathAt};
ghost use Rattle.locate02_db.specs.Items.{AtStart, Item, State, allowed, item_at, locate02, magic, may_end, spell};
ghost use Rattle.locate02_db.specs.Spelled.{Spells02, encode02};
ghost use Rattle.locate02_db.specs.Writer.{after_all, after_put, nothing_put, piece};

/// The front of a file is its longest list of whole items from byte 0 on, each allowed after those before it, and it is
/// the only such list: no item begins as another item does that is allowed in the same place.
pub fn front_is_longest()
    ensures longest { (file : List ℕ) → IsBytes file → IsFront locate02 file (front locate02 file) }
    ensures only { (file : List ℕ) (items : List Item) → IsBytes file → IsFront locate02 file items → front locate02 file ≡ items }
    ensures unique { (s : State) (i j : Item) (a b : List ℕ) → allowed s i → allowed s j → spell i ++ a ≡ spell j ++ b → (i ≡ j) × (a ≡ b) }
{}

/// A broken rule of an item stays the cause of damage whatever bytes follow. Where a file is cut short, some bytes more
/// make its last item whole, or break another rule of it. It ends whole where it is the spelling of its front, is shorter
/// than the limit, and has its preamble.
pub fn ending_is_first_fault()
    ensures stays { (s : State) (bytes more : List ℕ) (cause : DamageCause) → (cause ≡ Cut → ⊥) → item_at s bytes ≡ Err (Broken cause) → item_at s (bytes ++ more) ≡ Err (Broken cause) }
    ensures cut { (s : State) (bytes : List ℕ) → item_at s bytes ≡ Err (Broken Cut) → (more : List ℕ) × IsBytes more × (item_at s (bytes ++ more) ≡ Err (Broken Cut) → ⊥) }
    ensures whole { (file : List ℕ) → IsBytes file → ((contents locate02 file).ending ≡ Ok tt) ↔ ((length file < limit) × (spelling locate02 (front locate02 file) ≡ file) × (may_end (left_by locate02 AtStart (front locate02 file)) ≡ true)) }
{}

/// A file below the limit gives a list of paths and ends whole exactly where it spells that list, and each is a path.
/// With each path it gives the length of the text before its base name.
pub fn paths_are_spelled()
    ensures given { (file : List ℕ) (paths : List (List ℕ)) → IsBytes file → length file < limit → GivesWhole (contents locate02 file) paths ↔ (All IsPath paths × Spells02 paths file) }
    ensures bases { (file : List ℕ) → All (λ (p : PathAt). p.dir_len + length (base_of p.text) ≡ length p.text) (contents locate02 file).paths }
{}

/// What is written for a list of paths spells it, and is read back where it is shorter than the limit. It is written
/// piece by piece, each after those before it.
pub fn written_is_read_back()
    ensures spells { (paths : List (List ℕ)) → All IsPath paths → Spells02 paths (encode02 paths) }
    ensures again { (paths : List (List ℕ)) → All IsPath paths → length (encode02 paths) < limit → GivesWhole (contents locate02 (encode02 paths)) paths }
    ensures empty { encode02 [] ≡ magic }
    ensures one_more { (paths : List (List ℕ)) (path : List ℕ) → encode02 (paths ++ path ∷ []) ≡ encode02 paths ++ piece (after_all nothing_put paths) path }
    ensures goes_on { (paths : List (List ℕ)) (path : List ℕ) → after_all nothing_put (paths ++ path ∷ []) ≡ after_put (after_all nothing_put paths) path }
{}
