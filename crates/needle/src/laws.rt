ghost use Rattle.std.specs.Prelude.{◌≡◌, ℕ, List, ◌++◌, ◌↔◌, Ok};
ghost use Rattle.needle.specs.declared.item.Item.{Item};
ghost use Rattle.needle.specs.declared.item.ReadItem.{ReadItem};
ghost use Rattle.needle.specs.declared.version.Version.{Version};
ghost use Rattle.needle.specs.Answer.{BeginsWith, IsItem, IsMoment};
ghost use Rattle.needle.specs.Fields.{AreBytes};
ghost use Rattle.needle.specs.Item.{item_text};
ghost use Rattle.needle.specs.Reading.{read_at};

/// No item of a version begins another one, so the items of a file are told from its bytes.
pub fn no_item_begins_another()
    // Of any padding.
    ensures one { (version : Version) (text : List ℕ) (a b : ReadItem) → BeginsWith version text a → BeginsWith version text b → a ≡ b }
    // As they are written.
    ensures written { (version : Version) (a b : Item) (m n : ℕ) (x y : List ℕ) → IsItem a → IsItem b → IsMoment version m → IsMoment version n
        → item_text a version m ++ x ≡ item_text b version n ++ y → (a ≡ b) × (m ≡ n) × (x ≡ y) }
{}

/// What is read of bytes is the item that they begin with.
pub fn items_are_read()
    ensures { (version : Version) (text : List ℕ) (read : ReadItem) → AreBytes text → (read_at version text ≡ Ok read) ↔ BeginsWith version text read }
{}

/// What follows an item is not read.
pub fn what_follows_is_not_read()
    ensures { (version : Version) (text more : List ℕ) (read : ReadItem) → read_at version text ≡ Ok read → read_at version (text ++ more) ≡ Ok read }
{}
