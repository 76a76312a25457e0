ghost use Rattle.std.specs.Prelude.{◌≡◌, ◌+◌, ℕ, List, [], ◌∷◌, ◌++◌, length, take};
ghost use Rattle.std.specs.FinMap.{get};
ghost use Rattle.needle.specs.Fields.{AreBytes};
ghost use Rattle.needle.specs.declared.item.ReadItem.{ReadItem};
ghost use Rattle.needle.specs.declared.version.Version.{Version};
ghost use Rattle.needle_index.specs.Text.{entered, entry_for};
ghost use Rattle.volume_items.specs.Contents.{HoldsAt, AreItems, end_of, contents_of, index_of, stored};
ghost use Rattle.volume_items.specs.Spots.{Leads};
ghost use Rattle.volume_items.specs.Lives.{live_of};
ghost use Rattle.volume_items.specs.Vacuuming.{LieAt};
ghost use Rattle.std.specs.List.Sorted.{IsNonDecreasingBy};
ghost use Rattle.needle_index.specs.Order.{AreEntriesOf};
ghost use Rattle.needle_index.specs.declared.entry.IndexEntry.{IndexEntry};

/// A text has one list of items, and so one map of contents.
pub fn a_text_has_one_list_of_items()
    ensures { (version : Version) (text : List ℕ) (place : ℕ) (a b : List ReadItem) → AreItems version text place a → AreItems version text place b → a ≡ b }
{}

/// An item behind the last one is the last one then, and does to contents and index what it says.
pub fn an_item_at_the_end_is_the_last()
    ensures items { (version : Version) (text piece : List ℕ) (place : ℕ) (items : List ReadItem) (read : ReadItem) → AreItems version text place items
        → length text ≡ end_of place items → HoldsAt version (text ++ piece) (length text) read → read.taken ≡ length piece
        → AreItems version (text ++ piece) place (items ++ read ∷ []) }
    ensures contents { (items : List ReadItem) (read : ReadItem) → contents_of (items ++ read ∷ []) ≡ stored (contents_of items) read.item }
    ensures index { (items : List ReadItem) (read : ReadItem) → index_of (items ++ read ∷ []) ≡ entered (index_of items) (entry_for (end_of 8 items) read.item) }
    ensures end { (place : ℕ) (items : List ReadItem) (read : ReadItem) → end_of place (items ++ read ∷ []) ≡ end_of place items + read.taken }
{}

/// The index of a text's items leads to the needles that they leave.
pub fn an_index_leads_to_the_contents()
    ensures { (version : Version) (text : List ℕ) (items : List ReadItem) (key : ℕ) → AreBytes (take (end_of 8 items) text) → AreItems version text 8 items
        → Leads version text key (get (index_of items) key) (get (contents_of items) key) }
{}

/// The items that lived at some moment leave, with those that came behind it, what all items leave.
pub fn a_vacuum_keeps_the_contents()
    ensures { (begun since : List ReadItem) → contents_of (live_of begun ++ since) ≡ contents_of (begun ++ since) }
{}

/// The entries of an index by their offsets lead to the items that live, in their order.
pub fn an_index_in_order_leads_to_the_living()
    ensures { (version : Version) (text : List ℕ) (items : List ReadItem) (entries : List IndexEntry) → AreBytes (take (end_of 8 items) text) → AreItems version text 8 items
        → AreEntriesOf (index_of items) entries → IsNonDecreasingBy (λ entry. entry.offset) entries → LieAt version text entries (live_of items) }
{}
