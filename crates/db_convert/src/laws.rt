//! What is read of what was written.
ghost use Rattle.std.specs.Prelude.{◌≡◌, ℕ, List, IfSome, Some};
ghost use Rattle.byte_feed.specs.Front.{front};
ghost use Rattle.byte_feed.specs.Paths.{contents, GivesWhole};
ghost use Rattle.mlocate_db.specs.Items.{mlocate};
ghost use Rattle.any_db.specs.Formats.{format_of};
ghost use Rattle.db_convert.specs.Blocks.{database_items, encode_mlocate};
ghost use Rattle.db_convert.specs.declared.format.Format.{Format};
ghost use Rattle.db_convert.specs.declared.format.Format.TheVariants.{Mlocate};
ghost use Rattle.db_convert.specs.Example.{four_paths, their_items};
ghost use Rattle.db_convert.specs.Conversion.{grammar_of, encode, as_read, CanWrite, database_format};

/// What is written for a list of paths gives it back, and ends whole. A database of mlocate gives each path once, by its
/// directory and its name, and the items that are read of it are those that the definition names: the header, and the
/// block of each directory. What is written as a database is told as that format, whatever the paths.
pub fn written_is_read_back()
    ensures given { (to : Format) (paths : List (List ℕ)) → CanWrite to paths → GivesWhole (contents (grammar_of to) (encode to paths)) (as_read to paths) }
    ensures items { (paths : List (List ℕ)) → CanWrite Mlocate paths → front mlocate (encode_mlocate paths) ≡ database_items paths }
    ensures told { (to : Format) (paths : List (List ℕ)) → IfSome (database_format to) (λ format. format_of (encode to paths) ≡ Some format) }
{}

/// The items of a worked database: which directories have a block, in which order, and which names are directories.
pub fn example_is_written()
    ensures { database_items four_paths ≡ their_items }
{}
