//! Laws over the definitions that the contracts cite.
ghost use Rattle.std.specs.Prelude.{◌↔◌, ℕ, List, IsTrue};
ghost use Rattle.posix_regex.specs.Expression.{Expression, Found};
ghost use Rattle.posix_regex.specs.Finds.{finds};
ghost use Rattle.posix_regex.specs.Program.{items_of};
ghost use Rattle.posix_regex.specs.Moves.{ReachesEnd};

/// The items of an expression reach their end in exactly the texts in which the expression is found.
pub fn items_find_what_is_spanned()
    ensures { (e : Expression) → (text : List ℕ) → (ReachesEnd (items_of e) text ↔ Found e text) }
{}

/// The computed test tells exactly whether the expression is found in a text.
pub fn finding_is_computed()
    ensures { (e : Expression) → (text : List ℕ) → (IsTrue (finds e text) ↔ Found e text) }
{}
