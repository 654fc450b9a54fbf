//! Laws of what a file gives, each the contract of a function that does nothing.
ghost use Rattle.std.specs.Prelude.{◌≡◌, ◌≤◌, ◌++◌, ◌∷◌, List, ℕ, take, true, Some, None, Err, All};
ghost use Rattle.byte_feed.specs.Front.{Window, readable};
ghost use Rattle.byte_feed.specs.declared.damage.DbFault.TheVariants.{NotADatabase};
ghost use Rattle.byte_feed.specs.Paths.{PathAt, no_paths};
ghost use Rattle.mlocate_db.specs.Items.{Header, HeaderItem, spell};
ghost use Rattle.locate02_db.specs.Spelled.{encode02};
ghost use Rattle.bigram_db.specs.Chosen.{encode_bigram};
ghost use Rattle.any_db.specs.declared.format.DatabaseFormat.{DatabaseFormat};
ghost use Rattle.any_db.specs.declared.format.DatabaseFormat.TheVariants.{Mlocate, Locate02, Bigram};
ghost use Rattle.any_db.specs.Formats.{HasHeads, asks_gate, preamble_in, directory_of, format_of, to_come_in};

/// Where the paths are shown only to those who may list their directories, paths before which as many directory heads
/// stand have the same directory.
pub fn one_directory_a_block()
    ensures { (w : Window) → asks_gate (preamble_in w) ≡ true → (p q : PathAt) (before between behind : List PathAt) → (to_come_in w).paths ≡ before ++ p ∷ (between ++ q ∷ behind) → p.heads ≡ q.heads → directory_of p ≡ directory_of q }
{}

/// The number of directory heads before a path never falls from one path to a later one. It is 1 at least in a database
/// of mlocate, and 0 in one of another format.
pub fn heads_rise()
    ensures rise { (w : Window) (p q : PathAt) (before between behind : List PathAt) → (to_come_in w).paths ≡ before ++ p ∷ (between ++ q ∷ behind) → p.heads ≤ q.heads }
    ensures heads { (w : Window) (format : DatabaseFormat) → format_of w.bytes ≡ Some format → All (λ p. HasHeads format p.heads) (to_come_in w).paths }
{}

/// A file of no format gives no path and ends as no database, and no other file ends so.
pub fn no_format_is_no_database()
    ensures none { (w : Window) → format_of w.bytes ≡ None → to_come_in w ≡ no_paths 0 0 (Err NotADatabase) }
    ensures only { (w : Window) → (to_come_in w).ending ≡ Err NotADatabase → format_of w.bytes ≡ None }
{}

/// The first 256 bytes of a file decide its format, so it makes no difference how many more may be read.
pub fn first_bytes_decide_the_format()
    ensures first { (file other : List ℕ) → take 256 file ≡ take 256 other → format_of file ≡ format_of other }
    ensures readable { (file : List ℕ) → format_of (readable file).bytes ≡ format_of file }
{}

/// What is written in a format is of that format: all that begins with the header of an mlocate database, and the LOCATE02
/// and the bigram database of each list of paths.
pub fn written_is_of_its_format()
    ensures mlocate { (header : Header) (rest : List ℕ) → format_of (spell (HeaderItem header) ++ rest) ≡ Some Mlocate }
    ensures locate02 { (paths : List (List ℕ)) → format_of (encode02 paths) ≡ Some Locate02 }
    ensures bigram { (paths : List (List ℕ)) → format_of (encode_bigram paths) ≡ Some Bigram }
{}
