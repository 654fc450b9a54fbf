//! What the items and the paths of a database are, beside how they are read and written.
ghost use Rattle.std.specs.Prelude.{◌≡◌, ◌<◌, ◌≤◌, ◌↔◌, ◌+◌, ◌*◌, ◌++◌, [], ◌∷◌, List, ℕ, Bool, length, true, false, Ok, Err, All, AllPairs, Contains, slice_index, replicate};
ghost use Rattle.path_order.specs.Path.{base_of};
ghost use Rattle.byte_feed.specs.declared.damage.DamageCause.{DamageCause};
ghost use Rattle.byte_feed.specs.declared.damage.DamageCause.TheVariants.{Cut};
ghost use Rattle.byte_feed.specs.declared.damage.Stop.TheVariants.{Broken};
ghost use Rattle.byte_feed.specs.Front.{IsBytes, IsFront, front, left_by, limit, spelling};
ghost use Rattle.byte_feed.specs.Paths.{contents, IsPath, PathAt, GivesWhole};
ghost use Rattle.bigram_db.specs.Pairs.{Pair, is_table, is_bigram};
ghost use Rattle.bigram_db.specs.Items.{AtStart, Item, State, allowed, item_at, bigram, may_end, spell};
ghost use Rattle.bigram_db.specs.Spelled.{SpellsBigram, encode_with};
ghost use Rattle.bigram_db.specs.Chosen.{is_counted, comes_before, ranked, table_for, encode_bigram, counted, counted_behind, path_before, times, chosen};
ghost use Rattle.bigram_db.specs.Writer.{WriterState, after_all, after_put, nothing_put, piece};

/// The front of a file is its longest list of whole items from byte 0 on, each allowed after those before it and before
/// the bytes behind it, and it is the only such list: no item begins as another item does that is allowed in the same
/// place.
pub fn front_is_longest()
    ensures longest { (file : List ℕ) → IsBytes file → IsFront bigram file (front bigram file) }
    ensures only { (file : List ℕ) (items : List Item) → IsBytes file → IsFront bigram file items → front bigram file ≡ items }
    ensures unique { (last : Bool) (s : State) (i j : Item) (a b : List ℕ) → allowed s i last a → allowed s j last b → spell i ++ a ≡ spell j ++ b → (i ≡ j) × (a ≡ b) }
{}

/// A rule of an item that is broken where more bytes may follow stays the cause of damage whatever bytes follow. Where a
/// file is cut short, some bytes more make its last item whole, or break another rule of it. It ends whole where it is
/// the spelling of its front, is shorter than the limit, and has its table.
pub fn ending_is_first_fault()
    ensures stays { (last : Bool) (s : State) (bytes more : List ℕ) (cause : DamageCause) → (cause ≡ Cut → ⊥) → item_at false s bytes ≡ Err (Broken cause) → item_at last s (bytes ++ more) ≡ Err (Broken cause) }
    ensures cut { (last : Bool) (s : State) (bytes : List ℕ) → item_at last s bytes ≡ Err (Broken Cut) → (more : List ℕ) × IsBytes more × (item_at last s (bytes ++ more) ≡ Err (Broken Cut) → ⊥) }
    ensures whole { (file : List ℕ) → IsBytes file → ((contents bigram file).ending ≡ Ok tt) ↔ ((length file < limit) × (spelling bigram (front bigram file) ≡ file) × (may_end (left_by bigram AtStart (front bigram file)) ≡ true)) }
{}

/// A file below the limit gives a list of paths and ends whole exactly where it can be a bigram database and spells that
/// list, and each is a path. With each path it gives the length of the text before its base name.
pub fn paths_are_spelled()
    ensures given { (file : List ℕ) (paths : List (List ℕ)) → IsBytes file → length file < limit → GivesWhole (contents bigram file) paths ↔ (All IsPath paths × (is_bigram file ≡ true) × SpellsBigram paths file) }
    ensures bases { (file : List ℕ) → All (λ (p : PathAt). p.dir_len + length (base_of p.text) ≡ length p.text) (contents bigram file).paths }
{}

/// What is written for a list of paths spells it, with any table, so it is read back. It is written piece by piece.
pub fn written_is_read_back()
    ensures spells { (table : List ℕ) (paths : List (List ℕ)) → is_table table ≡ true → All IsPath paths → (is_bigram (encode_with table paths) ≡ true) × SpellsBigram paths (encode_with table paths) }
    ensures again { (table : List ℕ) (paths : List (List ℕ)) → is_table table ≡ true → All IsPath paths → length (encode_with table paths) < limit → GivesWhole (contents bigram (encode_with table paths)) paths }
    ensures whole { (paths : List (List ℕ)) → All IsPath paths → length (encode_bigram paths) < limit → GivesWhole (contents bigram (encode_bigram paths)) paths }
    ensures empty { (table : List ℕ) → encode_with table [] ≡ table }
    ensures one_more { (table : List ℕ) (paths : List (List ℕ)) (path : List ℕ) → encode_with table (paths ++ path ∷ []) ≡ encode_with table paths ++ piece (after_all (nothing_put table) paths) path }
    ensures goes_on { (w : WriterState) (paths : List (List ℕ)) (path : List ℕ) → after_all w (paths ++ path ∷ []) ≡ after_put (after_all w paths) path }
{}

/// The pairs that are ranked are those that come at all, each once, by falling count and then by their bytes, and the
/// table for a list of paths is one. A table whose first byte is zero is all zero bytes: no other format begins so.
pub fn table_is_most_frequent()
    ensures table { (paths : List (List ℕ)) → is_table (table_for paths) ≡ true }
    ensures each { (count : Pair → ℕ) (p : Pair) → Contains (ranked count) p ↔ ((is_counted p ≡ true) × (0 < count p)) }
    ensures order { (count : Pair → ℕ) → AllPairs (λ p q. comes_before count p q ≡ true) (ranked count) }
    ensures unused { (paths : List (List ℕ)) → slice_index (table_for paths) 0 ≡ 0 → table_for paths ≡ replicate 256 0 }
    ensures few { (before path : List ℕ) (p : Pair) → 2 * times (counted_behind before path) p ≤ length path }
    ensures one_more { (paths : List (List ℕ)) (path : List ℕ) (p : Pair) → times (counted (paths ++ path ∷ [])) p ≡ times (counted paths) p + times (counted_behind (path_before [] paths) path) p }
    ensures goes_on { (before : List ℕ) (paths : List (List ℕ)) (path : List ℕ) → path_before before (paths ++ path ∷ []) ≡ path }
{}

/// The table that is chosen by how often each pair comes in a list of paths is that list's. So is the one that
/// `choose_table` gives after calls of `add` for these paths in turn, each behind the one before it: they count so.
pub fn counts_choose_table()
    ensures { (count : Pair → ℕ) (paths : List (List ℕ)) → ((p : Pair) → count p ≡ times (counted paths) p) → chosen count ≡ table_for paths }
{}
