//! What the items of a database are, beside how they are read.
ghost use Rattle.std.specs.Prelude.{◌≡◌, ◌<◌, ◌↔◌, ◌++◌, List, ℕ, length, true, Ok, Err};
ghost use Rattle.byte_feed.specs.declared.damage.DamageCause.{DamageCause};
ghost use Rattle.byte_feed.specs.declared.damage.DamageCause.TheVariants.{Cut};
ghost use Rattle.byte_feed.specs.declared.damage.Stop.TheVariants.{Broken};
ghost use Rattle.byte_feed.specs.Front.{IsBytes, IsDatabase, IsFront, front, left_by, limit, spelling};
ghost use Rattle.byte_feed.specs.Paths.{contents, given_by};
ghost use Rattle.mlocate_db.specs.Items.{AtStart, Item, State, allowed, item_at, may_end, mlocate, spell};

/// The front of a file is its longest list of whole items from byte 0 on, each allowed after those before it, and it is
/// the only such list: no item begins as another item does that is allowed in the same place.
pub fn front_is_longest()
    ensures longest { (file : List ℕ) → IsBytes file → IsFront mlocate file (front mlocate file) }
    ensures only { (file : List ℕ) (items : List Item) → IsBytes file → IsFront mlocate file items → front mlocate file ≡ items }
    ensures unique { (s : State) (i j : Item) (a b : List ℕ) → allowed s i → allowed s j → spell i ++ a ≡ spell j ++ b → (i ≡ j) × (a ≡ b) }
{}

/// A broken rule of an item stays the cause of damage whatever bytes follow. A file is cut short where some bytes more
/// would be read on. It ends whole where it is the spelling of its front, is shorter than
/// the limit, and no directory is open.
pub fn ending_is_first_fault()
    ensures stays { (s : State) (bytes more : List ℕ) (cause : DamageCause) → (cause ≡ Cut → ⊥) → item_at s bytes ≡ Err (Broken cause) → item_at s (bytes ++ more) ≡ Err (Broken cause) }
    ensures cut { (s : State) (bytes : List ℕ) → item_at s bytes ≡ Err (Broken Cut) → (more : List ℕ) × IsBytes more × (item_at s (bytes ++ more) ≡ Err (Broken Cut) → ⊥) }
    ensures whole { (file : List ℕ) → IsBytes file → ((contents mlocate file).ending ≡ Ok tt) ↔ ((length file < limit) × (spelling mlocate (front mlocate file) ≡ file) × (may_end (left_by mlocate AtStart (front mlocate file)) ≡ true)) }
{}

/// A whole database that is written is read back: its items are the front of what they are spelled as, and the file gives
/// what they give and ends whole.
pub fn written_is_read_back()
    ensures front { (items : List Item) → IsDatabase mlocate items → front mlocate (spelling mlocate items) ≡ items }
    ensures given { (items : List Item) → IsDatabase mlocate items → contents mlocate (spelling mlocate items) ≡ given_by mlocate items }
{}
