ghost use Rattle.std.specs.Prelude.{◌≡◌, ◌+◌, ◌%◌, ◌^◌, ◌<◌, ℕ, List, ◌++◌, length};
ghost use Rattle.std.specs.FinMap.{get, insert, remove};
ghost use Rattle.needle.specs.Layout.{padded};
ghost use Rattle.needle.specs.declared.version.Version.{Version};
ghost use Rattle.needle_index.specs.Bytes.{live, padded_in};
ghost use Rattle.needle_index.specs.Index.{Spots};
ghost use Rattle.needle_index.specs.Text.{entered, entered_all, entry_text};
ghost use Rattle.needle_index.specs.declared.entry.IndexEntry.{IndexEntry};
ghost use Rattle.needle_index.specs.declared.spot.Spot.{Spot};

/// An entry behind whole entries does what it says to the map that they leave.
pub fn an_entry_at_the_end_enters()
    ensures { (spots : Spots) (text : List ℕ) (entry : IndexEntry) → length text % 16 ≡ 0 → entry.key < 2 ^ 64 → entry.offset < 2 ^ 32 → entry.size < 2 ^ 32
        → entered_all spots (text ++ entry_text entry) ≡ entered (entered_all spots text) entry }
{}

/// A text of whole entries and one behind it do what they do one after the other.
pub fn texts_enter_one_by_one()
    ensures { (spots : Spots) (text more : List ℕ) → length text % 16 ≡ 0 → entered_all spots (text ++ more) ≡ entered_all (entered_all spots text) more }
{}

/// What a put and a removal make of the live bytes.
pub fn live_bytes_follow_a_change()
    ensures put { (version : Version) (spots : Spots) (key : ℕ) (spot : Spot)
        → live version (insert spots key spot) + padded_in version (get spots key) ≡ live version spots + padded version spot.size }
    ensures removal { (version : Version) (spots : Spots) (key : ℕ) → live version (remove spots key) + padded_in version (get spots key) ≡ live version spots }
{}
